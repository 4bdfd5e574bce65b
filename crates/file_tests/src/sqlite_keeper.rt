//! A keeper over SQLite, from outside: a session over it, and what a crash at each call of a disk leaves.
use crate::transfer::{Course, transfer};
use keeper_sqlite::SqliteKeeper;
use lei_keeper::Keeper;
use register_words::ExitStatus;
use sqlite::{Alter, Connection, FileStore};
use sqlite_disk::{Crash, Disk, Files, Fuse, Memory};
use sqlite_pager::Options;
use std::alloc::Global;
use std::test::Fail;
use std::thread::Threads;

// ---- without a stop

/// Whether the session over this keeper gets the correct answers, and no call of the keeper fails.
pub fn is_answered<R: Threads + Sync, S: Alter + Drop>(
    rt: &R,
    alloc: Global,
    keeper: SqliteKeeper<S>,
) -> bool {
    match transfer(rt, alloc, keeper) {
        Some((course, keeper)) => {
            course.status == ExitStatus::Ok.number() && course.is_whole && keeper.faults() == 0
        }
        None => false,
    }
}

#[test]
fn a_session_over_a_database_in_memory_is_answered(rt: HostRuntime) -> Result<(), Fail> {
    let conn = Connection::open_in_memory(rt.alloc())?;
    let keeper = SqliteKeeper::over(rt.alloc(), conn);
    assert!(rt; is_answered(&rt, rt.alloc(), keeper));
    Ok(())
}

// ---- stopped at each call of a disk

/// Which file of a store fails.
#[derive(Clone, Copy, Debug)]
pub enum Failing {
    /// The log's file.
    Log,
    /// The database's file.
    Database,
}

/// The empty files of a store in memory.
pub fn no_files(alloc: Global) -> Files<Memory> {
    Files {
        log: Memory::new(alloc),
        db: Memory::new(alloc),
    }
}

/// These files. One of them passes on this many calls, and fails at each call after that.
pub fn files_with_fuses(files: Files<Memory>, failing: Failing, calls: u64) -> Files<Fuse<Memory>> {
    let (of_log, of_db) = match failing {
        Failing::Log => (calls, u64::MAX),
        Failing::Database => (u64::MAX, calls),
    };
    let Files { log, db } = files;
    Files {
        log: Fuse::new(log, of_log),
        db: Fuse::new(db, of_db),
    }
}

/// The files after a crash of both.
pub fn files_after_crash<D: Crash>(mut files: Files<D>) -> Files<D> {
    files.log.crash();
    files.db.crash();
    files
}

// What a session leaves after a crash: the files, how many entries were acknowledged, and whether a call had
// failed.
#[derive(Drop)]
struct Left<D: Disk> {
    files: Files<D>,
    acknowledged: u64,
    has_failed: bool,
}

// Runs the session over a store in these files, and crashes both after it.
fn run_and_crash<R: Threads + Sync, D: Crash + Drop>(
    rt: &R,
    alloc: Global,
    files: Files<D>,
) -> Option<Left<D>> {
    if !files.may_be_used() {
        return None;
    }
    match Connection::open_files(alloc, files, Options::new(7)) {
        Ok(conn) => crash_after(rt, alloc, conn),
        Err((_, left)) => Some(Left {
            files: files_after_crash(left.into_files()),
            acknowledged: 0,
            has_failed: true,
        }),
    }
}

fn crash_after<R: Threads + Sync, D: Crash + Drop>(
    rt: &R,
    alloc: Global,
    conn: Connection<FileStore<D>>,
) -> Option<Left<D>> {
    let (course, keeper) = transfer(rt, alloc, SqliteKeeper::over(alloc, conn))?;
    let has_failed = keeper.faults() > 0;
    let conn = keeper.into_connection()?;
    Some(Left {
        files: files_after_crash(conn.into_store().close()),
        acknowledged: course.acknowledged,
        has_failed,
    })
}

// Whether the store in these files has what was acknowledged and at most one entry more, and the session over it gets
// the correct answers.
fn is_safe<R: Threads + Sync, D: Crash + Drop>(
    rt: &R,
    alloc: Global,
    files: Files<D>,
    acknowledged: u64,
) -> bool {
    if !files.may_be_used() {
        return false;
    }
    match Connection::open_files(alloc, files, Options::new(7)) {
        Ok(conn) => goes_on(rt, alloc, SqliteKeeper::over(alloc, conn), acknowledged),
        Err(_) => false,
    }
}

fn goes_on<R: Threads + Sync, S: Alter + Drop>(
    rt: &R,
    alloc: Global,
    mut keeper: SqliteKeeper<S>,
    acknowledged: u64,
) -> bool {
    match keeper.last() {
        Ok(last) if acknowledged <= last && last <= acknowledged.saturating_add(1) => {
            is_answered(rt, alloc, keeper)
        }
        _ => false,
    }
}

/// How a session ended, if one of its disks fails from some call on.
#[derive(Clone, Copy, PartialEq, Eq, Debug)]
pub enum Ending {
    /// No call failed.
    Whole,
    /// A call failed, and what the crash left is sound.
    Stopped,
    /// What the crash left isn't sound.
    Lost,
}

fn session_ending<R: Threads + Sync>(
    rt: &R,
    alloc: Global,
    failing: Failing,
    calls: u64,
) -> Ending {
    let files = files_with_fuses(no_files(alloc), failing, calls);
    let Some(left) = run_and_crash(rt, alloc, files) else {
        return Ending::Lost;
    };
    let has_failed = left.has_failed;
    if !is_safe(rt, alloc, left.files, left.acknowledged) {
        Ending::Lost
    } else if has_failed {
        Ending::Stopped
    } else {
        Ending::Whole
    }
}

// The first number of calls that doesn't stop the session, among every fourth one starting with the first, and how the
// session ended there.
fn first_unstopped<R: Threads + Sync>(
    rt: &R,
    alloc: Global,
    failing: Failing,
    first: u64,
) -> (u64, Ending) {
    for calls in (first..20_000).step_by(4) {
        let ending = session_ending(rt, alloc, failing, calls);
        if ending != Ending::Stopped {
            return (calls, ending);
        }
    }
    (20_000, Ending::Stopped)
}

// Whether a crash at every fourth call, starting with the first, loses nothing.
fn loses_nothing<R: Threads + Sync>(rt: &R, alloc: Global, failing: Failing, first: u64) -> bool {
    let (calls, ending) = first_unstopped(rt, alloc, failing, first);
    ending == Ending::Whole && calls > 4
}

#[test]
fn a_crash_at_any_call_of_the_database_file_loses_nothing(rt: HostRuntime) -> Result<(), Fail> {
    for first in 0u64..4 {
        assert!(rt;
            loses_nothing(&rt, rt.alloc(), Failing::Database, first),
            "{first}"
        );
    }
    Ok(())
}

// The calls of the log are divided among tests, so that each test is short.
#[test]
fn a_crash_in_the_first_of_four_calls_of_the_log_loses_nothing(
    rt: HostRuntime,
) -> Result<(), Fail> {
    assert!(rt; loses_nothing(&rt, rt.alloc(), Failing::Log, 0));
    Ok(())
}

#[test]
fn a_crash_in_the_second_of_four_calls_of_the_log_loses_nothing(
    rt: HostRuntime,
) -> Result<(), Fail> {
    assert!(rt; loses_nothing(&rt, rt.alloc(), Failing::Log, 1));
    Ok(())
}

#[test]
fn a_crash_in_the_third_of_four_calls_of_the_log_loses_nothing(
    rt: HostRuntime,
) -> Result<(), Fail> {
    assert!(rt; loses_nothing(&rt, rt.alloc(), Failing::Log, 2));
    Ok(())
}

#[test]
fn a_crash_in_the_last_of_four_calls_of_the_log_loses_nothing(rt: HostRuntime) -> Result<(), Fail> {
    assert!(rt; loses_nothing(&rt, rt.alloc(), Failing::Log, 3));
    Ok(())
}
