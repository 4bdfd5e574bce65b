//! What commands write.
ghost use Rattle.std.specs.Prelude.{◌∷◌, ◌++◌, [], Ok, decimal, IsErrOf};
ghost use Rattle.request_loop.specs.Devices.{FailsIf};
ghost use Rattle.request_loop.specs.Wires.{IsSent};
ghost use Rattle.file_commands.specs.TwoFiles.{WritesOutcome};
ghost use Rattle.line_reading.specs.Status.{end_status};

use lei_outside::{Sink, SinkFault, write_all};
use line_reading::Stop;
use request_loop::write_pieces;

/// Writes a text.
pub fn tell_text<W: Sink>(text: &[u8], out: &mut W) -> Result<(), Stop>
    ensures tells { WritesOutcome (Ok text.now) (W.written out.old) (W.written out.new) (end_status result) }
    ensures no_read_fault { ¬ (IsErrOf result Stop.ReadFault) }
    ensures writes { FailsIf (IsErrOf result Stop.WriteFault) W.written W.faults out.old out.new }
{
    Ok(write_all(out, text)?)
}

/// Writes a line that starts with this front and ends in two numbers.
pub fn write_numbers<W: Sink>(
    front: &[u8],
    first: u32,
    second: u32,
    out: &mut W,
) -> Result<(), SinkFault>
    ensures written { IsSent (W.written out.old) (W.written out.new)
        (front.now ++ (decimal first ++ 32 ∷ (decimal second ++ 10 ∷ []))) result }
    ensures writes { FailsIf (IsErrOf result SinkFault.Failed) W.written W.faults out.old out.new }
{
    let (mut low, mut high) = (itoa::Buffer::new(), itoa::Buffer::new());
    let first = low.format(first).as_bytes();
    let second = high.format(second).as_bytes();
    write_pieces(out, &[front, first, b" ", second, b"\n"])
}
