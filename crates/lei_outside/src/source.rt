// The device that bytes come from.
ghost use Rattle.std.specs.Prelude.{◌≡◌, ℕ, ◌<◌, ◌≤◌, List, Option, length, OnErr, OnOk};
ghost use Rattle.lei_outside.specs.Told.{Reads};
ghost use Rattle.lei_values.specs.Count.{Rose};

use crate::Failed;

/// A device that gives bytes, such as a file, a socket or bytes in memory.
pub trait Source {
    /// The bytes that are left, if the source tells them.
    ghost left: { Self → Option (List ℕ) };

    /// How many reads have failed.
    ghost faults: { Self → ℕ };

    /// Fills the front of the buffer with the next bytes, and returns how many there are. It returns 0 only at the end.
    /// A read that fails takes no bytes.
    fn read(&mut self, buffer: &mut [u8]) -> Result<usize, Failed>
        requires { 0 < length buffer.old }
        ensures bytes { Reads (left self.old) (left self.new) result buffer.new }
        ensures count { faults self.old ≤ faults self.new }
        ensures kept { OnOk result (faults self.new ≡ faults self.old) }
        ensures failed { OnErr result (Rose (faults self.old) (faults self.new)) };
}
