//! The command `lines` over memory alone, for a first look. It stands on few crates, and so is compiled soonest.
#![tactic(auto)]

use leireg_devices::{FileSource, StdSink, SystemClock};
use line_reading::Stop;
use line_service::run_lines;
use memory_devices::SureKeeper;
use register_words::ExitStatus;
use std::mem::forget;
use std::process::ExitCode;
use std::thread::Threads;

fn main(rt: HostRuntime) -> ExitCode {
    let status = match answer_lines(&rt, &rt) {
        Ok(()) => ExitStatus::Ok.number(),
        Err(stop) => stop.status(),
    };
    ExitCode::from(status)
}

// Answers the lines of the standard input. The runtime is passed twice: as one that may start threads, and as the host.
// What the keeper has is left to the end of the program, which is sooner than to free it.
fn answer_lines<R: Threads + Sync>(rt: &R, host: &HostRuntime) -> Result<(), Stop> {
    let alloc = host.alloc();
    let keeper = SureKeeper::new(alloc);
    let mut input = FileSource::new(Some(host.stdin()));
    let mut out = StdSink::new(host.stdout());
    let mut clock = SystemClock::new(host);
    let (ended, keeper) = run_lines(rt, alloc, &mut input, &mut out, keeper, &mut clock);
    forget(keeper);
    ended
}
