// Links and doors in memory.
ghost use Rattle.std.specs.Prelude.{◌≡◌, ◌↔◌, ◌<◌, ◌≤◌, ◌++◌, ◌∷◌, [], Some, false, true, length, min, take, drop, IsErr, IfOk, OnErr, IsErrOf};
ghost use Rattle.lei_outside.specs.Told.{Reads, Writes};
ghost use Rattle.lei_values.specs.Count.{Rose, count_up};
ghost use Rattle.lei_outside.specs.Doors.{ComesOf, IsFailed, is_line};
ghost use Rattle.memory_devices.specs.Memory.{DoorState, FailsNext, LinkState};

use crate::{ByteSink, ByteSource};
use lei_outside::{Came, Door, Failed, Link, Sink, SinkFault, Source};
use lei_values::{List, NoMemory};
use std::alloc::Global;
use std::collections::VecDeque;
use std::marker::Model;

/// A link whose bytes come from a source in memory and go to a sink in memory.
#[derive(Drop)]
pub struct ByteLink {
    source: ByteSource,
    sink: ByteSink,
}

impl Model for ByteLink {
    ghost use Rattle.memory_devices.specs.Memory.{LinkState};

    ghost Value = { LinkState };

    ghost view = { λ l. record { source = l.source; sink = l.sink } };
}

impl ByteLink {
    /// A link of this source and this sink.
    pub fn new(source: ByteSource, sink: ByteSink) -> Self
        ensures { result ≡ record { source = source; sink = sink } }
    {
        ByteLink { source, sink }
    }

    /// The source, with the bytes that are left.
    pub fn source(&self) -> &ByteSource
        ensures { result.now ≡ self.now.source }
    {
        &self.source
    }

    /// The sink, with the bytes that were written.
    pub fn sink(&self) -> &ByteSink
        ensures { result.now ≡ self.now.sink }
    {
        &self.sink
    }
}

impl Link for ByteLink {
    ghost left = { λ l. Some l.source.left };

    ghost written = { λ l. Some l.sink.written };

    ghost read_faults = { λ l. l.source.faults };

    ghost write_faults = { λ l. l.sink.faults };

    fn read(&mut self, buffer: &mut [u8]) -> Result<usize, Failed>
        requires { 0 < length buffer.old }
        ensures bytes { Reads (Some self.old.source.left) (Some self.new.source.left) result buffer.new }
        ensures count { self.old.source.faults ≤ self.new.source.faults }
        ensures failed { OnErr result (Rose self.old.source.faults self.new.source.faults) }
        ensures sink { self.new.sink ≡ self.old.sink }

        ensures fails { IsErr result ↔ FailsNext self.old.source.failing self.old.source.calls }
        ensures size { IfOk result (λ n.
            n ≡ min (min self.old.source.most (length buffer.old)) (length self.old.source.left)) }
        ensures ok { IfOk result (λ n. self.new.source ≡ record self.old.source {
          left = drop n self.old.source.left;
          calls = count_up self.old.source.calls;
        }) }
        ensures err { OnErr result (self.new.source ≡ record self.old.source {
          calls = count_up self.old.source.calls;
          faults = count_up self.old.source.faults;
        }) }
    {
        self.source.read(buffer)
    }

    fn write(&mut self, piece: &[u8]) -> Result<usize, SinkFault>
        requires { 0 < length piece.now }
        ensures bytes { Writes (Some self.old.sink.written) (Some self.new.sink.written) result piece.now }
        ensures count { self.old.sink.faults ≤ self.new.sink.faults }
        ensures failed { IsErrOf result SinkFault.Failed → Rose self.old.sink.faults self.new.sink.faults }
        ensures source { self.new.source ≡ self.old.source }

        ensures fails { IsErrOf result SinkFault.Failed
            ↔ FailsNext self.old.sink.failing self.old.sink.calls }
        ensures size { IfOk result (λ n. n ≡ min self.old.sink.most (length piece.now)) }
        ensures ok { IfOk result (λ n. self.new.sink ≡ record self.old.sink {
          written = self.old.sink.written ++ take n piece.now;
          calls = count_up self.old.sink.calls;
        }) }
        ensures fault { IsErrOf result SinkFault.Failed → self.new.sink ≡ record self.old.sink {
          calls = count_up self.old.sink.calls;
          faults = count_up self.old.sink.faults;
        } }
        ensures no_memory { IsErrOf result SinkFault.NoMemory →
            self.new.sink ≡ record self.old.sink { calls = count_up self.old.sink.calls } }
    {
        self.sink.write(piece)
    }
}

/// A door with links in memory, which never fails.
#[derive(Drop)]
pub struct ListDoor {
    to_come: VecDeque<ByteLink>,
    back: Vec<ByteLink>,
    out: bool,
}

impl Model for ListDoor {
    ghost use Rattle.std.specs.Prelude.{◌≤◌, ◌+◌, length, vec_capacity, if◌then◌else◌};
    ghost use Rattle.memory_devices.specs.Memory.{DoorState};

    ghost Value = { DoorState };

    ghost view = { λ d. record { to_come = d.to_come.items; back = d.back.items; out = d.out } };

    // there is room for each line that is yet to come back
    ghost invariant = { λ d.
        length d.back.items + (if d.out then 1 else 0) + length d.to_come.items ≤ vec_capacity d.back };
}

impl ListDoor {
    /// A door through which these links come, in order. It allocates the memory for all that come back.
    pub fn new(alloc: Global, links: List<ByteLink>) -> Result<Self, NoMemory>
        ensures { IfOk result (λ door. door ≡ record { to_come = links; back = []; out = false }) }
    {
        let back = Vec::with_capacity(alloc, links.len())?;
        Ok(ListDoor {
            to_come: VecDeque::from_vec(links.into_vec()),
            back,
            out: false,
        })
    }

    /// The links that came back, in order.
    pub fn came_back(&self) -> &[ByteLink]
        ensures { result.now ≡ self.now.back }
    {
        self.back.as_slice()
    }
}

impl Door for ListDoor {
    type Line = ByteLink;

    ghost to_come = { λ d. Some d.to_come };

    ghost came_back = { λ d. Some d.back };

    ghost out = { λ d. d.out };

    ghost faults = { λ _. 0 };

    fn next(&mut self) -> Came<ByteLink>
        requires { self.old.out ≡ false }
        ensures lines { ComesOf self.old.to_come result self.new.to_come }
        ensures out { self.new.out ≡ is_line result }
        ensures back { self.new.back ≡ self.old.back }
        ensures sure { ¬ (IsFailed result) }
    {
        match self.to_come.pop_front() {
            Some(line) => {
                self.out = true;
                Came::Line(line)
            }
            None => Came::Closed,
        }
    }

    fn back(&mut self, line: ByteLink)
        requires { self.old.out ≡ true }
        ensures { self.new ≡ record self.old { back = self.old.back ++ line ∷ []; out = false } }
    {
        self.back.push_reserved(line);
        self.out = false;
    }
}
