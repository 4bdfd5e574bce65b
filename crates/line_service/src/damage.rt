//! Reports a store that is damaged.
ghost use Rattle.std.specs.Prelude.{◌≡◌, ◌⊎◌, IsErrOf};
ghost use Rattle.lei_values.specs.Count.{Rose};
ghost use Rattle.lei_outside.specs.Faults.{FailsLast};
ghost use Rattle.lei_outside.specs.Told.{Grows};
ghost use Rattle.request_loop.specs.Devices.{FailsIf};
ghost use Rattle.request_loop.specs.Wires.{IsSent};
ghost use Rattle.line_service.specs.Ends.{IsDamageWritten, damage_text};

use lei_office::Damage;
use lei_outside::{Sink, SinkFault};
use line_reading::Stop;
use request_loop::write_pieces;

/// Reports that a store is damaged, and returns how the command stops. It stops as damaged even if the output failed,
/// but as out of memory if there was no memory for writing.
pub fn tell_damage<W: Sink>(damage: &Damage, out: &mut W) -> Stop
    ensures stop { IsDamageWritten (W.written out.old) (W.written out.new) (damage_text damage.now) result }
    ensures kept { result ≡ Stop.NoMemory → W.faults out.new ≡ W.faults out.old }
    ensures whole { result ≡ Stop.StoreDamaged → ¬ (Rose (W.faults out.old) (W.faults out.new))
        → Grows (W.written out.old) (W.written out.new) (damage_text damage.now) }
    ensures failed { Rose (W.faults out.old) (W.faults out.new)
        → FailsLast W.written W.faults out.old out.new }
{
    match write_damage(damage, out) {
        Ok(()) => Stop::StoreDamaged,
        Err(SinkFault::Failed) => Stop::StoreDamaged,
        Err(SinkFault::NoMemory) => Stop::NoMemory,
    }
}

// Writes the first difference between what a keeper has and what its entries leave, in three lines.
fn write_damage<W: Sink>(damage: &Damage, out: &mut W) -> Result<(), SinkFault>
    ensures written { IsSent (W.written out.old) (W.written out.new) (damage_text damage.now) result }
    ensures writes { FailsIf (IsErrOf result SinkFault.Failed) W.written W.faults out.old out.new }
{
    let mut number = itoa::Buffer::new();
    let number = number.format(damage.entry).as_bytes();
    let (kept, replayed) = (damage.kept.as_slice(), damage.replayed.as_slice());
    write_pieces(
        out,
        &[
            b"STORE_DAMAGED ",
            number,
            b"\nkept ",
            kept,
            b"\nreplayed ",
            replayed,
            b"\n",
        ],
    )
}
