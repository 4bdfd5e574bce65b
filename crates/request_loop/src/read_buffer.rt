//! A buffer of the bytes that were read and not used up yet.
ghost use Rattle.std.specs.Prelude.{◌≡◌, ◌≤◌, ◌<◌, ◌+◌, [], length, drop, take, vec_len, IfOk, OnOk, OnErr, IsErrOf};
ghost use Rattle.lei_outside.specs.Faults.{FailsLast};
ghost use Rattle.lei_outside.specs.Links.{link_told};
ghost use Rattle.lei_outside.specs.Told.{Loses};
ghost use Rattle.request_loop.specs.ReadBuffers.{Fills};

use crate::wire::Wire;
use lei_outside::Failed;
use lei_values::NoMemory;
use std::alloc::Global;
use std::marker::Model;

/// The most bytes that one read returns.
pub const BLOCK: usize = 65_536;

/// Why nothing was read.
#[derive(Clone, Copy, Debug, PartialEq, Eq)]
pub enum ReadFault {
    /// The device failed.
    Failed,
    /// Memory ran out.
    NoMemory,
}

/// Bytes that were read and not used up yet. Contracts see them as a list.
#[derive(Drop)]
pub struct ReadBuffer {
    buffer: Vec<u8>,
    start: usize,
    end: usize,
}

impl Model for ReadBuffer {
    ghost use Rattle.std.specs.Prelude.{◌≤◌, List, ℕ, drop, take, vec_len};

    ghost Value = { List ℕ };

    ghost view = { λ b. drop b.start (take b.end b.buffer.items) };

    ghost invariant = { λ b. (b.start ≤ b.end) × (b.end ≤ vec_len b.buffer) };
}

impl ReadBuffer {
    /// An empty read buffer that hasn't allocated memory yet.
    pub fn new(alloc: Global) -> Self
        ensures { result ≡ [] }
    {
        ReadBuffer {
            buffer: Vec::new(alloc),
            start: 0,
            end: 0,
        }
    }

    /// The bytes that aren't used up.
    pub fn bytes(&self) -> &[u8]
        ensures { result.now ≡ self.now }
    {
        &self.buffer[self.start..self.end]
    }

    /// Drops this many bytes from the front. The others aren't moved.
    pub fn use_up(&mut self, count: usize)
        requires { count ≤ length self.old }
        ensures { self.new ≡ drop count self.old }
    {
        self.start += count;
    }

    /// Reads once, at most a block and at most `most` bytes, and returns how many came. The number is 0 only at the
    /// end.
    pub fn read_from<L: Wire>(&mut self, link: &mut L, most: usize) -> Result<usize, ReadFault>
        requires { 0 < most }
        ensures ok { IfOk result (λ count. Fills (L.left link.old) (L.left link.new) self.old
            self.new count most) }
        ensures block { IfOk result (λ count. count ≤ 65536) }
        ensures unread { OnErr result (Loses (L.left link.old) (L.left link.new) []) }
        ensures same { OnErr result (self.new ≡ self.old) }
        ensures kept { ¬ (IsErrOf result ReadFault.Failed) → L.read_faults link.new ≡ L.read_faults link.old }
        ensures failed { IsErrOf result ReadFault.Failed →
            FailsLast (link_told L.left L.written) L.read_faults link.old link.new }
        ensures written { L.written link.new ≡ L.written link.old }
        ensures write_count { L.write_faults link.new ≡ L.write_faults link.old }
        ensures wire { L.lends_same link.old link.new }
    {
        self.settle();
        if make_room(&mut self.buffer, self.end).is_err() {
            return Err(ReadFault::NoMemory);
        }
        match read_after(link, &mut self.buffer, self.end, most) {
            Ok(count) => {
                self.end += count;
                Ok(count)
            }
            Err(Failed) => Err(ReadFault::Failed),
        }
    }

    // Moves the bytes to the front of the buffer.
    fn settle(&mut self)
        ensures { self.new ≡ self.old }
    {
        if self.start > 0 {
            self.buffer.copy_within(self.start..self.end, 0);
            self.end -= self.start;
            self.start = 0;
        }
    }
}

// Makes room for a block after the first `held` bytes of a buffer.
fn make_room(buffer: &mut Vec<u8>, held: usize) -> Result<(), NoMemory>
    requires { held ≤ vec_len buffer.old }
    ensures room { OnOk result (held + 65536 ≤ vec_len buffer.new) }
    ensures len { vec_len buffer.old ≤ vec_len buffer.new }
    ensures same { take held buffer.new.items ≡ take held buffer.old.items }
{
    if buffer.len() - held < BLOCK {
        buffer.resize(held + BLOCK, 0)?;
    }
    Ok(())
}

// Reads once, at most a block and at most `most` bytes, to the place after the first `held` bytes of a buffer.
fn read_after<L: Wire>(
    link: &mut L,
    buffer: &mut Vec<u8>,
    held: usize,
    most: usize,
) -> Result<usize, Failed>
    requires room { held + 65536 ≤ vec_len buffer.old }
    requires some { 0 < most }
    ensures ok { IfOk result (λ count. Fills (L.left link.old) (L.left link.new)
        (take held buffer.old.items) (take (held + count) buffer.new.items) count most) }
    ensures block { IfOk result (λ count. count ≤ 65536) }
    ensures unread { OnErr result (Loses (L.left link.old) (L.left link.new) []) }
    ensures same { OnErr result (take held buffer.new.items ≡ take held buffer.old.items) }
    ensures len { vec_len buffer.new ≡ vec_len buffer.old }
    ensures kept { OnOk result (L.read_faults link.new ≡ L.read_faults link.old) }
    ensures failed { OnErr result (FailsLast (link_told L.left L.written) L.read_faults link.old link.new) }
    ensures written { L.written link.new ≡ L.written link.old }
    ensures write_count { L.write_faults link.new ≡ L.write_faults link.old }
    ensures wire { L.lends_same link.old link.new }
{
    let end = held + most.min(BLOCK);
    link.read(&mut buffer[held..end])
}
