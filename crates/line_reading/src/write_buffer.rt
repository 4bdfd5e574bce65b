//! A buffer of replies that wait to be written, so that they are written in blocks.
ghost use Rattle.std.specs.Prelude.{◌≡◌, ◌≤◌, ◌+◌, ◌++◌, [], length, vec_len, vec_capacity, IfOk, OnOk, OnErr, IsErrOf};
ghost use Rattle.lei_outside.specs.Told.{WritesFront};
ghost use Rattle.lei_outside.specs.Faults.{FailsLast};
ghost use Rattle.lei_outside.specs.Links.{link_told};
ghost use Rattle.request_loop.specs.Wires.{IsSent};
ghost use Rattle.line_reading.specs.WriteBuffer.{Sends};

use lei_outside::SinkFault;
use lei_values::NoMemory;
use request_loop::{Wire, send_piece};
use std::alloc::Global;
use std::marker::Model;

/// The bytes of a block: how many are read or written at a time.
pub const BLOCK: usize = 65_536;

/// Bytes that wait to be written, at most a block. Contracts see them as a list.
#[derive(Drop)]
pub struct WriteBuffer {
    held: Vec<u8>,
}

impl Model for WriteBuffer {
    ghost use Rattle.std.specs.Prelude.{List, ℕ, ◌≤◌, vec_len, vec_capacity};
    ghost use Rattle.line_reading.specs.declared.write_buffer.TheConstants.{BLOCK};

    ghost Value = { List ℕ };

    ghost view = { λ b. b.held.items };

    ghost invariant = { λ b. (vec_len b.held ≤ BLOCK) × (BLOCK ≤ vec_capacity b.held) };
}

impl WriteBuffer {
    /// An empty buffer, which allocates all the memory that it will ever take.
    pub fn new(alloc: Global) -> Result<Self, NoMemory>
        ensures { IfOk result (λ b. b ≡ []) }
    {
        Ok(WriteBuffer {
            held: Vec::with_capacity(alloc, BLOCK)?,
        })
    }

    /// The room that is left, in bytes.
    pub(crate) fn room(&self) -> usize
        ensures { result + length self.now ≡ BLOCK }
    {
        BLOCK - self.held.len()
    }

    /// Appends a piece to what waits. There must be room for it.
    pub(crate) fn append(&mut self, piece: &[u8])
        requires { length self.old + length piece.now ≤ BLOCK }
        ensures { self.new ≡ self.old ++ piece.now }
    {
        append(&mut self.held, piece);
    }

    /// Appends a piece to what waits, and sends what has no room. A piece of more than a block isn't copied.
    pub(crate) fn put<L: Wire>(&mut self, link: &mut L, piece: &[u8]) -> Result<(), SinkFault>
        ensures ok { OnOk result (Sends (L.written link.old) (L.written link.new)
            (self.old ++ piece.now) self.new) }
        ensures err { OnErr result
            (WritesFront (L.written link.old) (L.written link.new) (self.old ++ piece.now)) }
        ensures kept { ¬ (IsErrOf result SinkFault.Failed)
            → L.write_faults link.new ≡ L.write_faults link.old }
        ensures failed { IsErrOf result SinkFault.Failed →
            FailsLast (link_told L.left L.written) L.write_faults link.old link.new }
        ensures left { L.left link.new ≡ L.left link.old }
        ensures read_count { L.read_faults link.new ≡ L.read_faults link.old }
        ensures wire { L.lends_same link.old link.new }
    {
        if piece.len() <= BLOCK - self.held.len() {
            append(&mut self.held, piece);
            return Ok(());
        }
        self.flush(link)?;
        if piece.len() > BLOCK {
            return send_piece(link, piece);
        }
        append(&mut self.held, piece);
        Ok(())
    }

    /// Sends what waits.
    pub fn flush<L: Wire>(&mut self, link: &mut L) -> Result<(), SinkFault>
        ensures sent { IsSent (L.written link.old) (L.written link.new) self.old result }
        ensures empty { OnOk result (self.new ≡ []) }
        ensures kept { ¬ (IsErrOf result SinkFault.Failed)
            → L.write_faults link.new ≡ L.write_faults link.old }
        ensures failed { IsErrOf result SinkFault.Failed →
            FailsLast (link_told L.left L.written) L.write_faults link.old link.new }
        ensures left { L.left link.new ≡ L.left link.old }
        ensures read_count { L.read_faults link.new ≡ L.read_faults link.old }
        ensures wire { L.lends_same link.old link.new }
    {
        send_piece(link, &self.held)?;
        self.held.clear();
        Ok(())
    }

    /// Drops what waits.
    pub fn clear(&mut self)
        ensures { self.new ≡ [] }
    {
        self.held.clear();
    }
}

fn append(held: &mut Vec<u8>, piece: &[u8])
    requires { vec_len held.old + length piece.now ≤ vec_capacity held.old }
    ensures items { held.new.items ≡ held.old.items ++ piece.now }
    ensures len { vec_len held.new ≡ vec_len held.old + length piece.now }
    ensures room { vec_capacity held.old ≤ vec_capacity held.new }
{
    match held.extend_from_slice(piece) {
        Ok(()) => {}
        Err(_) => unreachable!(),
    }
}
