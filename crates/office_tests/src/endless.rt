//! Lines from an input that has no end.
use crate::still::Still;
use lei_outside::{Failed, Source};
use line_service::run_lines;
use memory_devices::{SureKeeper, SureSink};
use register_words::ExitStatus;
use std::alloc::Global;
use std::mem::forget;
use std::thread::Threads;

// An endless source of one byte. It tells nothing of its bytes.
#[derive(Drop)]
struct Endless;

impl Source for Endless {
    ghost use Rattle.std.specs.Prelude.{None};

    ghost left = { λ _. None };

    ghost faults = { λ _. 0 };

    fn read(&mut self, buffer: &mut [u8]) -> Result<usize, Failed> {
        buffer.fill(b'x');
        Ok(buffer.len())
    }
}

// The status of a run over such an input. The keeper isn't dropped, since dropping it costs a proof for each of its
// parts.
fn status_of_run<R: Threads + Sync>(rt: &R, alloc: Global, sink: &mut SureSink) -> u8 {
    let keeper = SureKeeper::new(alloc);
    let (ended, keeper) = run_lines(rt, alloc, &mut Endless, sink, keeper, &mut Still);
    forget(keeper);
    match ended {
        Ok(()) => ExitStatus::Ok.number(),
        Err(stop) => stop.status(),
    }
}

#[test]
fn a_run_ends_at_the_greatest_input(rt: HostRuntime) {
    let mut sink = SureSink::new(rt.alloc(), usize::MAX);
    let status = status_of_run(&rt, rt.alloc(), &mut sink);
    assert!(rt; status == ExitStatus::InputTooLong.number() && sink.written().is_empty());
}
