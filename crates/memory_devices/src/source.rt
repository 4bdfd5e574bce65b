// Sources that give bytes from memory.
ghost use Rattle.std.specs.Prelude.{◌≡◌, ◌↔◌, ◌<◌, ◌≤◌, ◌++◌, Some, length, min, take, drop, IsOk, IsErr, IfOk, OnErr};
ghost use Rattle.lei_outside.specs.Told.{Reads};
ghost use Rattle.lei_values.specs.Count.{Rose, count_up};
ghost use Rattle.memory_devices.specs.Memory.{SourceState, SureSourceState, FailsNext};

use crate::calls::Calls;
use lei_outside::{Failed, Source};
use lei_values::{Bytes, List};
use std::marker::Model;

/// A source of bytes in memory that never fails.
#[derive(Drop)]
pub struct SureSource {
    bytes: Bytes,
    at: usize,
    most: usize,
}

impl Model for SureSource {
    ghost use Rattle.std.specs.Prelude.{◌≤◌, length, drop};
    ghost use Rattle.memory_devices.specs.Memory.{SureSourceState};

    ghost Value = { SureSourceState };

    ghost view = { λ s. record { left = drop s.at s.bytes; most = s.most } };

    ghost invariant = { λ s. record { within : s.at ≤ length s.bytes; some : 1 ≤ s.most } };
}

impl SureSource {
    /// A source that gives these bytes, at most `most` per read.
    pub fn new(bytes: Bytes, most: usize) -> Self
        requires { 1 ≤ most }
        ensures { result ≡ record { left = bytes; most = most } }
    {
        SureSource { bytes, at: 0, most }
    }

    /// The bytes that are left.
    pub fn left(&self) -> &[u8]
        ensures { result.now ≡ self.now.left }
    {
        &self.bytes.as_slice()[self.at..]
    }
}

impl Source for SureSource {
    ghost left = { λ s. Some s.left };

    ghost faults = { λ _. 0 };

    fn read(&mut self, buffer: &mut [u8]) -> Result<usize, Failed>
        requires { 0 < length buffer.old }
        ensures bytes { Reads (Some self.old.left) (Some self.new.left) result buffer.new }
        ensures sure { IsOk result }
        ensures size { IfOk result
            (λ n. n ≡ min (min self.old.most (length buffer.old)) (length self.old.left)) }
        ensures ok { IfOk result (λ n. self.new ≡ record self.old { left = drop n self.old.left }) }
        ensures behind { IfOk result (λ n. drop n buffer.new ≡ drop n buffer.old) }
    {
        let size = fill(buffer, &self.bytes.as_slice()[self.at..], self.most);
        self.at += size;
        Ok(size)
    }
}

// Fills the front of the buffer with the next bytes, and returns how many there are.
fn fill(buffer: &mut [u8], left: &[u8], most: usize) -> usize
    ensures size { result ≡ min (min most (length buffer.old)) (length left.now) }
    ensures front { left.now ≡ take result buffer.new ++ drop result left.now }
    ensures behind { drop result buffer.new ≡ drop result buffer.old }
{
    let size = most.min(buffer.len()).min(left.len());
    buffer[..size].copy_from_slice(&left[..size]);
    size
}

/// A source of bytes in memory, some of whose reads fail.
#[derive(Drop)]
pub struct ByteSource {
    source: SureSource,
    calls: Calls,
}

impl Model for ByteSource {
    ghost use Rattle.memory_devices.specs.Memory.{SourceState};

    ghost Value = { SourceState };

    ghost view = { λ s. record {
      left = s.source.left;
      most = s.source.most;
      failing = s.calls.failing;
      calls = s.calls.count;
      faults = s.calls.faults;
    } };
}

impl ByteSource {
    /// A source that gives these bytes, at most `most` per read. The reads with the numbers in `failing` fail. The
    /// first read has the number 1.
    pub fn new(bytes: Bytes, most: usize, failing: List<u64>) -> Self
        requires { 1 ≤ most }
        ensures { result ≡ record { left = bytes; most = most; failing = failing; calls = 0; faults = 0 } }
    {
        ByteSource {
            source: SureSource::new(bytes, most),
            calls: Calls::new(failing),
        }
    }

    /// The bytes that are left.
    pub fn left(&self) -> &[u8]
        ensures { result.now ≡ self.now.left }
    {
        self.source.left()
    }

    /// How many reads have failed. It stops at `u64::MAX`.
    pub fn faults(&self) -> u64
        ensures { result ≡ self.now.faults }
    {
        self.calls.faults
    }
}

impl Source for ByteSource {
    ghost left = { λ s. Some s.left };

    ghost faults = { λ s. s.faults };

    fn read(&mut self, buffer: &mut [u8]) -> Result<usize, Failed>
        requires { 0 < length buffer.old }
        ensures bytes { Reads (Some self.old.left) (Some self.new.left) result buffer.new }
        ensures count { self.old.faults ≤ self.new.faults }
        ensures failed { OnErr result (Rose self.old.faults self.new.faults) }

        ensures fails { IsErr result ↔ FailsNext self.old.failing self.old.calls }
        ensures size { IfOk result
            (λ n. n ≡ min (min self.old.most (length buffer.old)) (length self.old.left)) }
        ensures ok { IfOk result (λ n.
            self.new ≡ record self.old { left = drop n self.old.left; calls = count_up self.old.calls }) }
        ensures behind { IfOk result (λ n. drop n buffer.new ≡ drop n buffer.old) }
        ensures err { OnErr result
            (self.new ≡ record self.old {
              calls = count_up self.old.calls;
              faults = count_up self.old.faults;
            }) }
        ensures untouched { OnErr result (buffer.new ≡ buffer.old) }
    {
        if self.calls.next_fails() {
            return Err(Failed);
        }
        self.source.read(buffer)
    }
}
