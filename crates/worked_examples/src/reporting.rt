//! Reports on sessions, and on the help of the commands.
ghost use Rattle.std.specs.Prelude.{◌≤◌};

use crate::stores::Store;
use crate::trial::{Call, Failing, run_in_memory, run_with_fault};
use example_sessions::{Came, Run, Session, Trial, is_cut_short, is_wanted};
use lei_keeper::KeepFault;
use program_words::help_of;
use register_words::ExitStatus;
use std::alloc::Global;
use std::io;
use std::thread::Threads;

// The greatest numbers of bytes that a read and a write take.
const SIZES: [usize; 4] = [4_294_967_296, 7, 2, 1];

/// Makes the runs of a session in one piece and by fewer and fewer bytes, and tells what came of it. The result says
/// whether it is what was wanted. What a run leaves at the path of its store is there for the next one.
pub fn tell_session<R: Print + AllocGlobal + Threads + Sync>(
    rt: &R,
    alloc: Global,
    file: &str,
    session: &Session,
) -> io::Result<bool> {
    for size in SIZES {
        if !passes(rt, alloc, file, session, size)? {
            return Ok(false);
        }
    }
    let title = session.title();
    println!(rt; "{file}: {title}: passed in one piece and by 7, 2 and 1 bytes")?;
    Ok(true)
}

// The least of these with which each call fails in turn: with fewer bytes there are too many calls.
const LEAST_WITH_FAULTS: usize = 7;

// One more than the number of calls that fail in turn.
const MOST_CALLS: u64 = 100_000;

// The words whose help a guide shows, the empty one for that of the whole program.
const COMMANDS: [&str; 10] = [
    "", "lines", "serve", "apply", "search", "mirror", "group", "check", "digits", "demo",
];

/// Tells whether the help of each command stands in a text as it is printed, and says that.
pub fn tell_help<R: Print>(rt: &R, file: &str, text: &str) -> io::Result<bool> {
    for name in COMMANDS {
        if !text.contains(help_of(name)) {
            println!(rt; "{file}: the help of '{name}' is not shown as it is printed")?;
            return Ok(false);
        }
    }
    println!(rt; "{file}: the help of each command stands there as it is printed")?;
    Ok(true)
}

fn passes<R: Print + AllocGlobal + Threads + Sync>(
    rt: &R,
    alloc: Global,
    file: &str,
    session: &Session,
    size: usize,
) -> io::Result<bool>
    requires { 1 ≤ size }
{
    let title = session.title();
    let trial = Trial { file, title, size };
    let mut stores: Vec<Store> = Vec::new(alloc);
    for run in session.runs() {
        let has_faults = run.has_each_fault() && size >= LEAST_WITH_FAULTS;
        if has_faults && !ends_at_each(rt, alloc, trial, run, &stores)? {
            return Ok(false);
        }
        let came = or_io_error(run_in_memory(rt, alloc, run, size, &mut stores))?;
        if !is_wanted(rt, alloc, trial, run, &came)? {
            return Ok(false);
        }
    }
    Ok(true)
}

// Whether a run ends at each of its reads and each of its writes, if that one fails.
fn ends_at_each<R: Print + AllocGlobal + Threads + Sync>(
    rt: &R,
    alloc: Global,
    trial: Trial<'_>,
    run: &Run,
    stores: &[Store],
) -> io::Result<bool>
    requires { 1 ≤ trial.size }
{
    Ok(
        ends_in_turn(rt, alloc, trial, run, stores, Call::Read)?
            && ends_in_turn(rt, alloc, trial, run, stores, Call::Write)?,
    )
}

// The status of a run in which such a call fails.
fn status_of(call: Call) -> u8 {
    match call {
        Call::Read => ExitStatus::ReadFault.number(),
        Call::Write => ExitStatus::WriteFault.number(),
    }
}

// Whether a run ends at each of its calls of a kind, if that one fails. The run in which none is left to fail has the
// required result.
fn ends_in_turn<R: Print + AllocGlobal + Threads + Sync>(
    rt: &R,
    alloc: Global,
    trial: Trial<'_>,
    run: &Run,
    stores: &[Store],
    call: Call,
) -> io::Result<bool>
    requires { 1 ≤ trial.size }
{
    let Trial { file, title, size } = trial;
    for number in 1..MOST_CALLS {
        let failing = Failing { call, number };
        let came = or_io_error(run_with_fault(rt, alloc, run, size, stores, failing))?;
        if number > 1 && came.status == run.status() {
            return is_wanted(rt, alloc, trial, run, &came);
        }
        if !is_cut_short(rt, trial, run, &came, status_of(call), number)? {
            return Ok(false);
        }
    }
    println!(rt; "{file}: {title}: FAILED, since there is no end of calls that fail")?;
    Ok(false)
}

// What came of a run. Without memory, or where a store can't be changed or handed on, nothing is told of the others.
fn or_io_error(came: Result<Came, KeepFault>) -> io::Result<Came> {
    match came {
        Ok(came) => Ok(came),
        Err(KeepFault::NoMemory) => Err(io::ErrorKind::OutOfMemory.into()),
        Err(KeepFault::Failed) => Err(io::ErrorKind::InvalidData.into()),
    }
}
