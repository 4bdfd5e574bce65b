//! The result of a run.
ghost use Rattle.std.specs.Prelude.{◌≡◌, ◌↔◌, IsTrue, nat_eq};
ghost use Rattle.std.specs.List.{starts_with};

use crate::run::Run;
use lei_values::Bytes;

/// The result of a run: the bytes that were written, and the status.
#[derive(Drop)]
pub struct Came {
    pub written: Bytes,
    pub status: u8,
}

impl Came {
    /// Whether the result is the required one.
    pub fn is(&self, wanted: &Run) -> bool
        ensures { IsTrue result ↔
            ((self.now.written ≡ wanted.now.expected) × (self.now.status ≡ wanted.now.status)) }
    {
        self.status == wanted.status() && self.written.as_slice() == wanted.expected()
    }

    /// Whether the run ended with this status, and wrote the bytes that must come back or a front of them.
    pub fn is_front(&self, wanted: &Run, status: u8) -> bool
        ensures { IsTrue result ↔
            (IsTrue (starts_with nat_eq wanted.now.expected self.now.written) × (self.now.status ≡ status)) }
    {
        self.status == status && wanted.expected().starts_with(self.written.as_slice())
    }
}
