//! Runs over lines with any keeper, and what a keeper has.
use lei_keeper::{KeepFault, Keeper};
use lei_outside::Clock;
use lei_values::{Bytes, KeptCell, KeptEntry, List};
use line_service::run_lines;
use memory_devices::{SureKeeper, SureSink, SureSource};
use register_words::ExitStatus;
use std::alloc::Global;
use std::mem::forget;
use std::thread::Threads;

// 2025-01-11T00:00:00Z.
const MOMENT: i64 = 1_736_553_600;

// A clock that stands still. It tells nothing of its moments.
#[derive(Drop)]
struct Still;

impl Clock for Still {
    ghost use Rattle.std.specs.Prelude.{None};

    ghost given = { λ _. None };

    fn now(&mut self) -> i64 {
        MOMENT
    }
}

/// How a run over lines ended.
#[derive(Drop)]
pub struct Output {
    /// The status of the run.
    pub status: u8,
    sink: SureSink,
}

impl Output {
    /// What was written.
    pub fn written(&self) -> &[u8] {
        self.sink.written()
    }
}

/// Runs over lines with a keeper, which is returned.
pub fn run_over<R: Threads + Sync, K: Keeper + Drop>(
    rt: &R,
    alloc: Global,
    lines: &[u8],
    keeper: K,
) -> Option<(Output, K)> {
    let lines = Bytes::copy_of(alloc, lines).ok()?;
    let mut source = SureSource::new(lines, 65_536);
    let mut sink = SureSink::new(alloc, usize::MAX);
    let (ended, keeper) = run_lines(rt, alloc, &mut source, &mut sink, keeper, &mut Still);
    let status = match ended {
        Ok(()) => ExitStatus::Ok.number(),
        Err(stop) => stop.status(),
    };
    Some((Output { status, sink }, keeper))
}

/// What a store has.
#[derive(Debug, PartialEq, Eq, Drop)]
pub struct Kept {
    pub entries: List<KeptEntry>,
    pub cells: List<KeptCell>,
}

/// What a keeper has.
pub fn content_of<K: Keeper>(keeper: &mut K) -> Result<Kept, KeepFault> {
    let entries = keeper.entries(0, u64::MAX)?;
    let cells = keeper.cells(0, u64::MAX)?;
    Ok(Kept { entries, cells })
}

/// What a store has after these lines.
pub fn content_after<R: Threads + Sync>(rt: &R, alloc: Global, lines: &[u8]) -> Option<Kept> {
    let (_, mut keeper) = run_over(rt, alloc, lines, SureKeeper::new(alloc))?;
    let kept = content_of(&mut keeper).ok();
    forget(keeper);
    kept
}
