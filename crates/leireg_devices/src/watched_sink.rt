//! A sink that reports to a person how far a long command is.
ghost use Rattle.std.specs.Prelude.{◌≡◌};

use lei_outside::{Sink, SinkFault};
use std::io::{self, IsTerminal};
use std::marker::Model;

/// A sink that reports on the standard error how many requests of a long command were answered, in at most ten lines.
/// If the standard error isn't a terminal, it reports nothing. It takes and tells the same as the inner sink, and
/// contracts see that sink alone.
#[derive(Drop)]
pub struct WatchedSink<'a, W> {
    sink: W,
    rt: &'a HostRuntime,
    // The next tenth of the requests to report.
    tenth: u32,
}

impl<'a, W> Model for WatchedSink<'a, W> {
    ghost Value = { W };

    ghost view = { λ watched. watched.sink };
}

impl<'a, W> WatchedSink<'a, W> {
    /// A sink of which nothing has been reported.
    pub fn new(rt: &'a HostRuntime, sink: W) -> Self
        ensures { result ≡ sink }
    {
        WatchedSink { sink, rt, tenth: 1 }
    }
}

impl<'a, W: Sink> Sink for WatchedSink<'a, W> {
    ghost written = { λ sink. W.written sink };

    ghost faults = { λ sink. W.faults sink };

    fn write(&mut self, piece: &[u8]) -> Result<usize, SinkFault> {
        self.sink.write(piece)
    }

    fn report_progress(&mut self, done: u32, all: u32) {
        let step = all / 10;
        if step == 0 || done / step < self.tenth || !self.rt.stderr().is_terminal() {
            return;
        }
        let _ = eprintln!(self.rt; "{done} of {all} requests were answered");
        self.tenth = (done / step).saturating_add(1);
    }
}
