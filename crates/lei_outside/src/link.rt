// The device that bytes come from and go to: both directions of a connection.
ghost use Rattle.std.specs.Prelude.{◌≡◌, ℕ, ◌<◌, ◌≤◌, List, Option, length, OnOk, OnErr, IsErrOf};
ghost use Rattle.lei_outside.specs.Told.{Grows, Reads, Writes, WritesFront};
ghost use Rattle.lei_values.specs.Count.{Rose};
ghost use Rattle.lei_outside.specs.Faults.{FailsLast};
ghost use Rattle.lei_outside.specs.Links.{link_told};

use crate::{Failed, SinkFault};

/// A device that gives and takes bytes, such as a connection or memory. Each direction has its own counts, and a call
/// in one direction leaves the other as it was.
pub trait Link {
    /// The bytes that are left to be read, if the link tells them.
    ghost left: { Self → Option (List ℕ) };

    /// The bytes that were written, if the link tells them.
    ghost written: { Self → Option (List ℕ) };

    /// How many reads have failed.
    ghost read_faults: { Self → ℕ };

    /// How many writes have failed.
    ghost write_faults: { Self → ℕ };

    /// Fills the front of the buffer with the next bytes, and returns how many there are. It returns 0 only at the end.
    /// A read that fails takes no bytes.
    fn read(&mut self, buffer: &mut [u8]) -> Result<usize, Failed>
        requires { 0 < length buffer.old }
        ensures bytes { Reads (left self.old) (left self.new) result buffer.new }
        ensures count { read_faults self.old ≤ read_faults self.new }
        ensures kept { OnOk result (read_faults self.new ≡ read_faults self.old) }
        ensures failed { OnErr result (Rose (read_faults self.old) (read_faults self.new)) }
        ensures written { written self.new ≡ written self.old }
        ensures write_count { write_faults self.new ≡ write_faults self.old };

    /// Takes a front of the piece, and returns its number of bytes. A write that fails takes none.
    fn write(&mut self, piece: &[u8]) -> Result<usize, SinkFault>
        requires { 0 < length piece.now }
        ensures bytes { Writes (written self.old) (written self.new) result piece.now }
        ensures count { write_faults self.old ≤ write_faults self.new }
        ensures kept { ¬ (IsErrOf result SinkFault.Failed) → write_faults self.new ≡ write_faults self.old }
        ensures failed { IsErrOf result SinkFault.Failed
            → Rose (write_faults self.old) (write_faults self.new) }
        ensures left { left self.new ≡ left self.old }
        ensures read_count { read_faults self.new ≡ read_faults self.old };
}

/// Writes the whole piece, in as many writes as the link needs. After an `Err` some front of it was written.
pub fn send_all<L: Link>(link: &mut L, piece: &[u8]) -> Result<(), SinkFault>
    ensures written { OnOk result (Grows (L.written link.old) (L.written link.new) piece.now) }
    ensures front { OnErr result (WritesFront (L.written link.old) (L.written link.new) piece.now) }
    ensures kept { ¬ (IsErrOf result SinkFault.Failed) → L.write_faults link.new ≡ L.write_faults link.old }
    ensures failed { IsErrOf result SinkFault.Failed →
        FailsLast (link_told L.left L.written) L.write_faults link.old link.new }
    ensures left { L.left link.new ≡ L.left link.old }
    ensures read_count { L.read_faults link.new ≡ L.read_faults link.old }
{
    let mut rest = piece;
    while !rest.is_empty() {
        let written = link.write(rest)?;
        rest = &rest[written..];
    }
    Ok(())
}
