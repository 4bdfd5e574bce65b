//! The device that bytes go to.
ghost use Rattle.std.specs.Prelude.{◌≡◌, ℕ, ◌<◌, ◌≤◌, List, Option, length, OnOk, OnErr, IsErrOf};
ghost use Rattle.lei_outside.specs.Told.{Grows, WritesFront, Writes};
ghost use Rattle.lei_values.specs.Count.{Rose};
ghost use Rattle.lei_outside.specs.Faults.{FailsLast};

use crate::SinkFault;

/// A device that takes bytes, such as a file, a socket or memory.
pub trait Sink {
    /// The bytes that were written, if the sink tells them.
    ghost written: { Self → Option (List ℕ) };

    /// How many writes have failed.
    ghost faults: { Self → ℕ };

    /// Takes a front of the piece, and returns its number of bytes. A write that fails takes none.
    fn write(&mut self, piece: &[u8]) -> Result<usize, SinkFault>
        requires { 0 < length piece.now }
        ensures bytes { Writes (written self.old) (written self.new) result piece.now }
        ensures count { faults self.old ≤ faults self.new }
        ensures kept { ¬ (IsErrOf result SinkFault.Failed) → faults self.new ≡ faults self.old }
        ensures failed { IsErrOf result SinkFault.Failed → Rose (faults self.old) (faults self.new) };

    /// Reports the progress of the work whose output this sink takes: `done` parts of `all`. A sink that a person
    /// watches may show it on another device. No byte is written to the sink. A sink that nobody watches does nothing.
    fn report_progress(&mut self, _done: u32, _all: u32)
        ensures same { self.new ≡ self.old }
    {}
}

/// Writes the whole piece, in as many writes as the sink needs. After an `Err` some front of it was written.
pub fn write_all<W: Sink>(out: &mut W, piece: &[u8]) -> Result<(), SinkFault>
    ensures written { OnOk result (Grows (W.written out.old) (W.written out.new) piece.now) }
    ensures front { OnErr result (WritesFront (W.written out.old) (W.written out.new) piece.now) }
    ensures kept { ¬ (IsErrOf result SinkFault.Failed) → W.faults out.new ≡ W.faults out.old }
    ensures failed { IsErrOf result SinkFault.Failed → FailsLast W.written W.faults out.old out.new }
{
    let mut rest = piece;
    while !rest.is_empty() {
        let written = out.write(rest)?;
        rest = &rest[written..];
    }
    Ok(())
}
