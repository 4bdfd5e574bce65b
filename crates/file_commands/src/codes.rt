//! The commands over a single text. They take no memory.
ghost use Rattle.std.specs.Prelude.{◌≡◌, [], Some, IfOk, IsErrOf};
ghost use Rattle.std.specs.Result.{result_err};
ghost use Rattle.request_loop.specs.Devices.{FailsIf};
ghost use Rattle.lei_code.specs.Digits.{digits};
ghost use Rattle.lei_code.specs.Fault.{fault_of};
ghost use Rattle.file_commands.specs.Codes.{check_line, digits_fault, digits_line, line_or, WritesLine};
ghost use Rattle.request_loop.specs.Wires.{IsSent};
ghost use Rattle.line_reading.specs.Status.{end_status};

use lei_code::{Lei, LeiFault, check_digits};
use lei_outside::{Sink, SinkFault};
use line_reading::Stop;
use request_loop::write_pieces;

/// Writes whether the text is an LEI, or why it isn't.
pub fn check<W: Sink>(text: &str, out: &mut W) -> Result<(), Stop>
    ensures tells { WritesLine (fault_of text.now) (check_line text.now)
        (W.written out.old) (W.written out.new) (end_status result) }
    ensures writes { FailsIf (IsErrOf result Stop.WriteFault) W.written W.faults out.old out.new }
{
    match Lei::read(text.as_bytes()) {
        Ok(_) => Ok(write_pieces(out, &[b"valid", b"\n"])?),
        Err(fault) => refuse(fault, out),
    }
}

/// Writes the check digits that make the text an LEI, or why there are none.
pub fn digits<W: Sink>(text: &str, out: &mut W) -> Result<(), Stop>
    ensures tells { WritesLine (digits_fault text.now) (digits_line text.now)
        (W.written out.old) (W.written out.new) (end_status result) }
    ensures writes { FailsIf (IsErrOf result Stop.WriteFault) W.written W.faults out.old out.new }
{
    match digits_of(text.as_bytes()) {
        Ok(digits) => Ok(write_pieces(out, &[&digits, b"\n"])?),
        Err(fault) => refuse(fault, out),
    }
}

fn digits_of(text: &[u8]) -> Result<[u8; 2], LeiFault>
    ensures value { IfOk result (λ made. made ≡ digits text.now) }
    ensures fault { result_err result ≡ digits_fault text.now }
{
    match <&[u8; 18]>::try_from(text) {
        Ok(front) => check_digits(front),
        Err(_) => Err(LeiFault::Length),
    }
}

// Writes the refusal of a text.
fn refuse<W: Sink>(fault: LeiFault, out: &mut W) -> Result<(), Stop>
    ensures tells { WritesLine (Some fault) (line_or [] (Some fault))
        (W.written out.old) (W.written out.new) (end_status result) }
    ensures writes { FailsIf (IsErrOf result Stop.WriteFault) W.written W.faults out.old out.new }
{
    write_refusal(fault, out)?;
    Err(Stop::Refused)
}

fn write_refusal<W: Sink>(fault: LeiFault, out: &mut W) -> Result<(), SinkFault>
    ensures written { IsSent (W.written out.old) (W.written out.new) (line_or [] (Some fault)) result }
    ensures writes { FailsIf (IsErrOf result SinkFault.Failed) W.written W.faults out.old out.new }
{
    match fault {
        LeiFault::Length => write_pieces(out, &[b"refused LENGTH", b"\n"]),
        LeiFault::Character(position) => {
            let mut number = itoa::Buffer::new();
            let number = number.format(position).as_bytes();
            write_pieces(out, &[b"refused CHARACTER ", number, b"\n"])
        }
        LeiFault::CheckDigits => write_pieces(out, &[b"refused CHECK_DIGITS", b"\n"]),
    }
}
