//! Runs of the program, and what comes of them.
ghost use Rattle.std.specs.Prelude.{◌≤◌};

use crate::stores::{Store, keeper_of, path_of};
use example_sessions::{Came, Run};
use lei_keeper::{KeepFault, Keeper};
use lei_outside::Sink;
use lei_values::{Bytes, List, NoMemory};
use leireg_run::run;
use memory_devices::{ByteSink, ByteSource, ListClock, MapKeeper, SureSource};
use std::alloc::Global;
use std::thread::Threads;

/// A kind of call that may fail.
#[derive(Clone, Copy, PartialEq, Eq)]
pub enum Call {
    /// A read of the input.
    Read,
    /// A write.
    Write,
}

/// A call that fails in addition to those that a run names, by its number.
#[derive(Clone, Copy)]
pub struct Failing {
    pub call: Call,
    pub number: u64,
}

// What a run is made with, beside its keeper.
#[derive(Drop)]
struct Devices {
    source: ByteSource,
    second: SureSource,
    sink: ByteSink,
    clock: ListClock,
}

impl Devices {
    // Those of a run, with at most so many bytes a read and a write.
    fn of(
        alloc: Global,
        wanted: &Run,
        most: usize,
        failing: Option<Failing>,
    ) -> Result<Self, NoMemory>
        requires { 1 ≤ most }
    {
        let sent = Bytes::copy_of(alloc, wanted.sent())?;
        let second = Bytes::copy_of(alloc, wanted.second())?;
        let reads = numbers_with(alloc, wanted.failing_reads(), Call::Read, failing)?;
        let writes = numbers_with(alloc, wanted.failing_writes(), Call::Write, failing)?;
        let clock = wanted.clock(alloc)?;
        Ok(Devices {
            source: ByteSource::new(sent, most, reads),
            second: SureSource::new(second, most),
            sink: ByteSink::new(alloc, most, writes),
            clock,
        })
    }

    // Makes the run over a keeper. Says its status, and gives the keeper back.
    fn run<R: Threads + Sync, K: Keeper>(
        &mut self,
        rt: &R,
        alloc: Global,
        wanted: &Run,
        keeper: K,
    ) -> (u8, K) {
        run(
            rt,
            alloc,
            wanted.words(),
            &mut self.source,
            &mut self.second,
            &mut self.sink,
            keeper,
            &mut self.clock,
        )
    }

    fn result_with_status(&self, alloc: Global, status: u8) -> Result<Came, NoMemory> {
        Ok(Came {
            written: Bytes::copy_of(alloc, self.sink.written())?,
            status,
        })
    }
}

// These numbers, and the one of the further call if it is of this kind.
fn numbers_with(
    alloc: Global,
    numbers: &[u64],
    call: Call,
    failing: Option<Failing>,
) -> Result<List<u64>, NoMemory> {
    let mut numbers = numbers.to_vec(alloc)?;
    match failing {
        Some(failing) if failing.call == call => numbers.push(failing.number)?,
        _ => {}
    }
    Ok(List::from(numbers))
}

// Makes a run over a keeper in memory that has what these stores leave to it. Returns what came of it, and the keeper.
fn run_over<R: Threads + Sync>(
    rt: &R,
    alloc: Global,
    wanted: &Run,
    most: usize,
    stores: &[Store],
    failing: Option<Failing>,
) -> Result<(Came, MapKeeper), KeepFault>
    requires { 1 ≤ most }
{
    let mut devices = Devices::of(alloc, wanted, most, failing)?;
    let keeper = keeper_of(alloc, stores, wanted)?;
    let (status, keeper) = devices.run(rt, alloc, wanted, keeper);
    let came = devices.result_with_status(alloc, status)?;
    Ok((came, keeper))
}

/// Makes a run over a keeper in memory. What it leaves at the path of its store is put after these stores.
pub fn run_in_memory<R: Threads + Sync>(
    rt: &R,
    alloc: Global,
    wanted: &Run,
    most: usize,
    stores: &mut Vec<Store>,
) -> Result<Came, KeepFault>
    requires { 1 ≤ most }
{
    let (came, mut keeper) = run_over(rt, alloc, wanted, most, stores.as_slice(), None)?;
    if let Some(path) = path_of(alloc, wanted) {
        stores.push(Store::of(alloc, path, &mut keeper)?)?;
    }
    Ok(came)
}

/// Makes a run over a keeper in memory in which one more call fails. What it leaves is dropped.
pub fn run_with_fault<R: Threads + Sync>(
    rt: &R,
    alloc: Global,
    wanted: &Run,
    most: usize,
    stores: &[Store],
    failing: Failing,
) -> Result<Came, KeepFault>
    requires { 1 ≤ most }
{
    let (came, _) = run_over(rt, alloc, wanted, most, stores, Some(failing))?;
    Ok(came)
}
