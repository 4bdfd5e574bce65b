//! The command that patches a golden copy by a delta.
ghost use Rattle.std.specs.Prelude.{Err, IsErrOf};
ghost use Rattle.request_loop.specs.Devices.{FailsIf};
ghost use Rattle.file_commands.specs.Applying.{Patches, apply_refusal};
ghost use Rattle.file_commands.specs.TwoFiles.{DoesWithFiles, OneFailsIf, WritesOutcome, WritesResultOf, files};
ghost use Rattle.request_loop.specs.Wires.{IsSent};
ghost use Rattle.line_reading.specs.Status.{end_status};

use crate::files::read_file;
use crate::writing::{tell_text, write_numbers};
use copy_csv::{Form, Sheet};
use delta_apply::ApplyFault;
use lei_outside::{Sink, SinkFault, Source};
use line_reading::Stop;
use request_loop::write_pieces;
use std::alloc::Global;

/// Reads a copy and a delta to their ends, and writes the copy after the delta, or why there is none.
pub fn apply<S: Source, T: Source, W: Sink>(
    alloc: Global,
    sheet: Sheet,
    form: Form,
    input: &mut S,
    second: &mut T,
    out: &mut W,
) -> Result<(), Stop>
    ensures applies { DoesWithFiles (Patches sheet form)
        (files (S.left input.old) (T.left second.old) (W.written out.old))
        (files (S.left input.new) (T.left second.new) (W.written out.new))
        (end_status result) }
    ensures reads { OneFailsIf (IsErrOf result Stop.ReadFault) S.left S.faults input.old input.new
        T.left T.faults second.old second.new }
    ensures writes { FailsIf (IsErrOf result Stop.WriteFault) W.written W.faults out.old out.new }
{
    let copy = read_file(alloc, input)?;
    let delta = read_file(alloc, second)?;
    tell(alloc, sheet, form, &copy, &delta, out)
}

// Writes the result for a copy and a delta.
fn tell<W: Sink>(
    alloc: Global,
    sheet: Sheet,
    form: Form,
    copy: &[u8],
    delta: &[u8],
    out: &mut W,
) -> Result<(), Stop>
    ensures tells { WritesResultOf (Patches sheet form) copy.now delta.now (W.written out.old)
        (W.written out.new)
        (end_status result) }
    ensures no_read_fault { ¬ (IsErrOf result Stop.ReadFault) }
    ensures writes { FailsIf (IsErrOf result Stop.WriteFault) W.written W.faults out.old out.new }
{
    match delta_apply::apply(alloc, copy, delta, sheet, form) {
        Ok(text) => tell_text(text.as_slice(), out),
        Err(ApplyFault::NoMemory) => Err(Stop::NoMemory),
        Err(fault) => refuse(fault, out),
    }
}

// Writes why there is no copy after the delta.
fn refuse<W: Sink>(fault: ApplyFault, out: &mut W) -> Result<(), Stop>
    ensures tells { WritesOutcome (Err (apply_refusal fault)) (W.written out.old) (W.written out.new)
        (end_status result) }
    ensures no_read_fault { ¬ (IsErrOf result Stop.ReadFault) }
    ensures writes { FailsIf (IsErrOf result Stop.WriteFault) W.written W.faults out.old out.new }
{
    write_refusal(fault, out)?;
    Err(Stop::Refused)
}

fn write_refusal<W: Sink>(fault: ApplyFault, out: &mut W) -> Result<(), SinkFault>
    ensures written { IsSent (W.written out.old) (W.written out.new) (apply_refusal fault) result }
    ensures writes { FailsIf (IsErrOf result SinkFault.Failed) W.written W.faults out.old out.new }
{
    match fault {
        ApplyFault::CopyNotRead => write_pieces(out, &[b"refused COPY_NOT_READ\n"]),
        ApplyFault::DeltaNotRead => write_pieces(out, &[b"refused DELTA_NOT_READ\n"]),
        ApplyFault::WrongBase(publication, from) => {
            write_numbers(b"refused WRONG_BASE ", publication, from, out)
        }
        ApplyFault::OlderDelta => write_pieces(out, &[b"refused OLDER_DELTA\n"]),
        ApplyFault::NoMemory => Ok(()),
    }
}
