//! Wires, where bytes come from and go to: a link, or a source and a sink.
ghost use Rattle.std.specs.Prelude.{◌≡◌, ℕ, ◌<◌, ◌≤◌, List, Option, length, OnOk, OnErr, IsErrOf};
ghost use Rattle.lei_outside.specs.Told.{Reads, Writes};
ghost use Rattle.lei_values.specs.Count.{Rose};
ghost use Rattle.lei_outside.specs.Faults.{FailsLast};
ghost use Rattle.lei_outside.specs.Links.{link_told};
ghost use Rattle.request_loop.specs.Wires.{IsSent};

use lei_outside::{Failed, Link, Sink, SinkFault, Source};

/// Both sides of a session: bytes are read from it and written to it. Each side has its own count of failures, and a
/// call on one side leaves the other as it was.
pub trait Wire {
    /// The bytes that are left to be read, if the wire tells them.
    ghost left: { Self → Option (List ℕ) };

    /// The bytes that were written, if the wire tells them.
    ghost written: { Self → Option (List ℕ) };

    /// How many reads have failed.
    ghost read_faults: { Self → ℕ };

    /// How many writes have failed.
    ghost write_faults: { Self → ℕ };

    /// Both states have the same devices, if devices are lent to the wire.
    ghost lends_same: { Self → Self → Type 0 };

    /// Fills the front of the buffer with the next bytes, and returns their number, 0 only at the end. A read that
    /// fails takes no bytes.
    fn read(&mut self, buffer: &mut [u8]) -> Result<usize, Failed>
        requires { 0 < length buffer.old }
        ensures bytes { Reads (left self.old) (left self.new) result buffer.new }
        ensures count { read_faults self.old ≤ read_faults self.new }
        ensures kept { OnOk result (read_faults self.new ≡ read_faults self.old) }
        ensures failed { OnErr result (Rose (read_faults self.old) (read_faults self.new)) }
        ensures written { written self.new ≡ written self.old }
        ensures write_count { write_faults self.new ≡ write_faults self.old }
        ensures wire { lends_same self.old self.new };

    /// Writes a prefix of the piece, and returns its length in bytes. A write that fails writes nothing.
    fn write(&mut self, piece: &[u8]) -> Result<usize, SinkFault>
        requires { 0 < length piece.now }
        ensures bytes { Writes (written self.old) (written self.new) result piece.now }
        ensures count { write_faults self.old ≤ write_faults self.new }
        ensures kept { ¬ (IsErrOf result SinkFault.Failed) → write_faults self.new ≡ write_faults self.old }
        ensures failed { IsErrOf result SinkFault.Failed
            → Rose (write_faults self.old) (write_faults self.new) }
        ensures left { left self.new ≡ left self.old }
        ensures read_count { read_faults self.new ≡ read_faults self.old }
        ensures wire { lends_same self.old self.new };

    ghost lends_same_none: { (wire : Self) → lends_same wire wire };

    ghost lends_same_join: { (first mid last : Self) → lends_same first mid → lends_same mid last
        → lends_same first last };
}

impl<L: Link> Wire for L {
    ghost left = { L.left };

    ghost written = { L.written };

    ghost read_faults = { L.read_faults };

    ghost write_faults = { L.write_faults };

    ghost lends_same = { λ _ _. Unit {0} };

    fn read(&mut self, buffer: &mut [u8]) -> Result<usize, Failed> {
        Link::read(self, buffer)
    }

    fn write(&mut self, piece: &[u8]) -> Result<usize, SinkFault> {
        Link::write(self, piece)
    }

    ghost lends_same_none = { λ _. tt };

    ghost lends_same_join = { λ _ _ _ _ _. tt };
}

/// A wire that reads from a source and writes to a sink, both of which are lent to it.
#[derive(Drop)]
pub struct Duplex<'a, S, W> {
    pub input: &'a mut S,
    pub out: &'a mut W,
}

impl<'a, S: Source, W: Sink> Wire for Duplex<'a, S, W> {
    ghost left = { λ d. S.left d.input.now };

    ghost written = { λ d. W.written d.out.now };

    ghost read_faults = { λ d. S.faults d.input.now };

    ghost write_faults = { λ d. W.faults d.out.now };

    ghost lends_same = { λ old new. (new.input.ghost_name ≡ old.input.ghost_name)
        × (new.out.ghost_name ≡ old.out.ghost_name) };

    fn read(&mut self, buffer: &mut [u8]) -> Result<usize, Failed> {
        self.input.read(buffer)
    }

    fn write(&mut self, piece: &[u8]) -> Result<usize, SinkFault> {
        self.out.write(piece)
    }

    ghost use Rattle.std.proofs.Common.{rules};

    ghost lends_same_none = { Prim.search rules };

    ghost lends_same_join = { Prim.search rules };
}

/// Writes the whole piece, with as many writes as the wire needs. After an `Err`, only a proper prefix of it was
/// written.
pub fn send_piece<L: Wire>(link: &mut L, piece: &[u8]) -> Result<(), SinkFault>
    ensures sent { IsSent (L.written link.old) (L.written link.new) piece.now result }
    ensures kept { ¬ (IsErrOf result SinkFault.Failed) → L.write_faults link.new ≡ L.write_faults link.old }
    ensures failed { IsErrOf result SinkFault.Failed →
        FailsLast (link_told L.left L.written) L.write_faults link.old link.new }
    ensures left { L.left link.new ≡ L.left link.old }
    ensures read_count { L.read_faults link.new ≡ L.read_faults link.old }
    ensures wire { L.lends_same link.old link.new }
{
    let mut rest = piece;
    while !rest.is_empty() {
        let written = link.write(rest)?;
        rest = &rest[written..];
    }
    Ok(())
}
