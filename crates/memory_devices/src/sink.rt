// Sinks that take bytes into memory.
ghost use Rattle.std.specs.Prelude.{◌≡◌, ◌↔◌, ◌<◌, ◌≤◌, ◌++◌, [], Some, length, min, take, IfOk, IsErrOf};
ghost use Rattle.lei_outside.specs.Told.{Writes};
ghost use Rattle.lei_values.specs.Count.{Rose, count_up};
ghost use Rattle.memory_devices.specs.Memory.{SinkState, SureSinkState, FailsNext};

use crate::calls::Calls;
use lei_outside::{Sink, SinkFault};
use lei_values::List;
use std::alloc::Global;
use std::marker::Model;

/// A sink that takes bytes into memory and never fails, unless memory runs out.
#[derive(Drop)]
pub struct SureSink {
    bytes: Vec<u8>,
    most: usize,
}

impl Model for SureSink {
    ghost use Rattle.std.specs.Prelude.{◌≤◌};
    ghost use Rattle.memory_devices.specs.Memory.{SureSinkState};

    ghost Value = { SureSinkState };

    ghost view = { λ s. record { written = s.bytes.items; most = s.most } };

    ghost invariant = { λ s. 1 ≤ s.most };
}

impl SureSink {
    /// A sink that takes at most `most` bytes per write.
    pub fn new(alloc: Global, most: usize) -> Self
        requires { 1 ≤ most }
        ensures { result ≡ record { written = []; most = most } }
    {
        SureSink {
            bytes: Vec::new(alloc),
            most,
        }
    }

    /// The bytes that were written.
    pub fn written(&self) -> &[u8]
        ensures { result.now ≡ self.now.written }
    {
        self.bytes.as_slice()
    }
}

impl Sink for SureSink {
    ghost written = { λ s. Some s.written };

    ghost faults = { λ _. 0 };

    fn write(&mut self, piece: &[u8]) -> Result<usize, SinkFault>
        requires { 0 < length piece.now }
        ensures bytes { Writes (Some self.old.written) (Some self.new.written) result piece.now }
        ensures sure { IsErrOf result SinkFault.Failed → ⊥ }
        ensures size { IfOk result (λ n. n ≡ min self.old.most (length piece.now)) }
        ensures ok { IfOk result (λ n.
            self.new ≡ record self.old { written = self.old.written ++ take n piece.now }) }
        ensures no_memory { IsErrOf result SinkFault.NoMemory → self.new ≡ self.old }
    {
        let size = self.most.min(piece.len());
        self.bytes.extend_from_slice(&piece[..size])?;
        Ok(size)
    }
}

/// A sink that takes bytes into memory, some of whose writes fail.
#[derive(Drop)]
pub struct ByteSink {
    sink: SureSink,
    calls: Calls,
}

impl Model for ByteSink {
    ghost use Rattle.memory_devices.specs.Memory.{SinkState};

    ghost Value = { SinkState };

    ghost view = { λ s. record {
      written = s.sink.written;
      most = s.sink.most;
      failing = s.calls.failing;
      calls = s.calls.count;
      faults = s.calls.faults;
    } };
}

impl ByteSink {
    /// A sink that takes at most `most` bytes per write. The writes with the numbers in `failing` fail. The first write
    /// has the number 1, and a write that finds no memory counts as well.
    pub fn new(alloc: Global, most: usize, failing: List<u64>) -> Self
        requires { 1 ≤ most }
        ensures { result ≡ record { written = []; most = most; failing = failing; calls = 0; faults = 0 } }
    {
        ByteSink {
            sink: SureSink::new(alloc, most),
            calls: Calls::new(failing),
        }
    }

    /// The bytes that were written.
    pub fn written(&self) -> &[u8]
        ensures { result.now ≡ self.now.written }
    {
        self.sink.written()
    }

    /// How many writes have failed. It stops at `u64::MAX`.
    pub fn faults(&self) -> u64
        ensures { result ≡ self.now.faults }
    {
        self.calls.faults
    }
}

impl Sink for ByteSink {
    ghost written = { λ s. Some s.written };

    ghost faults = { λ s. s.faults };

    fn write(&mut self, piece: &[u8]) -> Result<usize, SinkFault>
        requires { 0 < length piece.now }
        ensures bytes { Writes (Some self.old.written) (Some self.new.written) result piece.now }
        ensures count { self.old.faults ≤ self.new.faults }
        ensures failed { IsErrOf result SinkFault.Failed → Rose self.old.faults self.new.faults }

        ensures fails { IsErrOf result SinkFault.Failed ↔ FailsNext self.old.failing self.old.calls }
        ensures size { IfOk result (λ n. n ≡ min self.old.most (length piece.now)) }
        ensures ok { IfOk result (λ n.
            self.new ≡ record self.old {
              written = self.old.written ++ take n piece.now;
              calls = count_up self.old.calls;
            }) }
        ensures fault { IsErrOf result SinkFault.Failed →
            self.new ≡ record self.old {
              calls = count_up self.old.calls;
              faults = count_up self.old.faults;
            } }
        ensures no_memory { IsErrOf result SinkFault.NoMemory →
            self.new ≡ record self.old { calls = count_up self.old.calls } }
    {
        if self.calls.next_fails() {
            return Err(SinkFault::Failed);
        }
        self.sink.write(piece)
    }
}
