//! The writing of a text in pieces.
ghost use Rattle.std.specs.Prelude.{flat_map, IsErrOf};
ghost use Rattle.request_loop.specs.Devices.{FailsIf};
ghost use Rattle.request_loop.specs.Wires.{IsSent};

use lei_outside::{Sink, SinkFault, write_all};

/// Writes pieces of a text, one after another.
pub fn write_pieces<W: Sink>(out: &mut W, pieces: &[&[u8]]) -> Result<(), SinkFault>
    ensures written { IsSent (W.written out.old) (W.written out.new)
        (flat_map (λ piece. piece.now) pieces.now) result }
    ensures writes { FailsIf (IsErrOf result SinkFault.Failed) W.written W.faults out.old out.new }
{
    for piece in pieces {
        write_all(out, piece)?;
    }
    Ok(())
}
