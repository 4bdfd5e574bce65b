//! Stores of form 1, as an earlier program left them. The first call moves a store to form 2, and a stop in the middle
//! of the move loses nothing.
use crate::runs::{Kept, content_after, content_of};
use crate::sqlite_keeper::{
    Ending, Failing, files_after_crash, files_with_fuses, is_answered, no_files,
};
use crate::transfer::first_lines;
use keeper_sqlite::SqliteKeeper;
use lei_keeper::Keeper;
use lei_values::{KeptCell, KeptEntry, Shared};
use sqlite::types::ValueRef;
use sqlite::{Alter, Connection, FileStore};
use sqlite_disk::{Crash, Files, Memory};
use sqlite_pager::Options;
use std::alloc::Global;
use std::test::Fail;
use std::thread::Threads;

// ---- a store of form 1

// The tables of form 1, as an earlier program made them.
const TABLES: &str = "CREATE TABLE IF NOT EXISTS entry (
  seq INTEGER PRIMARY KEY CHECK (seq >= 1),
  kind INTEGER NOT NULL,
  office TEXT NOT NULL,
  number INTEGER NOT NULL,
  moment INTEGER NOT NULL,
  rules INTEGER NOT NULL,
  body BLOB NOT NULL,
  answer BLOB NOT NULL
) STRICT;
CREATE TABLE IF NOT EXISTS cell (
  kind INTEGER NOT NULL,
  name TEXT NOT NULL,
  touched INTEGER NOT NULL CHECK (touched >= 1),
  row BLOB,
  PRIMARY KEY (kind, name),
  UNIQUE (touched, kind, name)
) STRICT";

// What an earlier program ran for each entry, and for each cell that it touched.
const PUT_ENTRY: &str = "INSERT INTO entry (seq, kind, office, number, moment, rules, body, answer)
VALUES (?1, ?2, ?3, ?4, ?5, ?6, ?7, ?8)";

const PUT_CELL: &str = "INSERT INTO cell (kind, name, touched, row) VALUES (?1, ?2, ?3, ?4)
ON CONFLICT (kind, name) DO UPDATE SET touched = excluded.touched, row = excluded.row";

fn puts_entry<S: Alter>(conn: &mut Connection<S>, entry: &KeptEntry) -> bool {
    let Ok(seq) = i64::try_from(entry.seq) else {
        return false;
    };
    let values = [
        ValueRef::Int(seq),
        ValueRef::Int(i64::from(entry.kind)),
        ValueRef::Text(entry.office.as_slice()),
        ValueRef::Int(i64::from(entry.number)),
        ValueRef::Int(entry.moment),
        ValueRef::Int(i64::from(entry.rules)),
        ValueRef::Blob(entry.body.as_slice()),
        ValueRef::Blob(entry.answer.as_slice()),
    ];
    conn.execute(PUT_ENTRY, &values).is_ok()
}

fn puts_cell<S: Alter>(conn: &mut Connection<S>, cell: &KeptCell) -> bool {
    let Ok(touched) = i64::try_from(cell.touched) else {
        return false;
    };
    let values = [
        ValueRef::Int(i64::from(cell.kind)),
        ValueRef::Text(cell.name.as_slice()),
        ValueRef::Int(touched),
        row_value(&cell.row),
    ];
    conn.execute(PUT_CELL, &values).is_ok()
}

fn row_value(row: &Option<Shared>) -> ValueRef<'_> {
    match row {
        Some(row) => ValueRef::Blob(row.as_slice()),
        None => ValueRef::Null,
    }
}

fn puts_entries<S: Alter>(conn: &mut Connection<S>, entries: &[KeptEntry]) -> bool {
    for entry in entries {
        if !puts_entry(conn, entry) {
            return false;
        }
    }
    true
}

fn puts_cells<S: Alter>(conn: &mut Connection<S>, cells: &[KeptCell]) -> bool {
    for cell in cells {
        if !puts_cell(conn, cell) {
            return false;
        }
    }
    true
}

// Whether an empty database is made into a store of form 1 with these entries and cells.
fn is_made<S: Alter>(conn: &mut Connection<S>, kept: &Kept) -> bool {
    conn.execute_batch(TABLES).is_ok()
        && puts_entries(conn, kept.entries.as_slice())
        && puts_cells(conn, kept.cells.as_slice())
}

// The form that is written in a store: none in form 1.
fn form<S: Alter>(conn: &mut Connection<S>) -> Option<i64> {
    match conn.query_row("SELECT form FROM store", &[]) {
        Ok(row) => row.get(0).ok(),
        Err(_) => None,
    }
}

// ---- stopped at each call of a disk

// The files of a store of form 1 over the disks in memory. The log is empty.
fn first_files(alloc: Global, kept: &Kept) -> Option<Files<Memory>> {
    let files = no_files(alloc);
    if !files.may_be_used() {
        return None;
    }
    let mut conn = Connection::open_files(alloc, files, Options::new(7)).ok()?;
    let is_made = is_made(&mut conn, kept);
    is_made.then_some(files_of(conn)?)
}

fn files_of(conn: Connection<FileStore<Memory>>) -> Option<Files<Memory>> {
    conn.close_files().ok()
}

// The first call of a keeper over these files, and a crash of both after it. The result is what is left of them, and
// whether the call succeeded.
fn move_and_crash<D: Crash + Drop>(alloc: Global, files: Files<D>) -> Option<(Files<D>, bool)> {
    if !files.may_be_used() {
        return None;
    }
    match Connection::open_files(alloc, files, Options::new(7)) {
        Ok(conn) => {
            let mut keeper = SqliteKeeper::over(alloc, conn);
            let is_answered = keeper.last().is_ok();
            let conn = keeper.into_connection()?;
            Some((files_after_crash(conn.into_store().close()), is_answered))
        }
        Err((_, left)) => Some((files_after_crash(left.into_files()), false)),
    }
}

// The form that a crash left of a store. There is one only if the store has what it had before, and the session over it
// gets the correct answers.
fn form_left<R: Threads + Sync, D: Crash + Drop>(
    rt: &R,
    alloc: Global,
    files: Files<D>,
    kept: &Kept,
) -> Option<i64> {
    if !files.may_be_used() {
        return None;
    }
    let mut conn = Connection::open_files(alloc, files, Options::new(7)).ok()?;
    let form = form(&mut conn).unwrap_or(1);
    let mut keeper = SqliteKeeper::over(alloc, conn);
    let is_same = match content_of(&mut keeper) {
        Ok(left) => left == *kept,
        Err(_) => false,
    };
    (is_answered(rt, alloc, keeper) && is_same).then_some(form)
}

// How the move of a store ends if one of its disks fails from some call on, and the form that the crash left.
fn move_ending<R: Threads + Sync>(
    rt: &R,
    alloc: Global,
    kept: &Kept,
    failing: Failing,
    calls: u64,
) -> Option<(Ending, i64)> {
    let files = files_with_fuses(first_files(alloc, kept)?, failing, calls);
    let (left, is_answered) = move_and_crash(alloc, files)?;
    match form_left(rt, alloc, left, kept)? {
        2 if is_answered => Some((Ending::Whole, 2)),
        form if !is_answered => Some((Ending::Stopped, form)),
        _ => None,
    }
}

// The first number of calls that doesn't stop the move, how the move ended there, and how many stops left the store in
// form 1.
fn first_unstopped<R: Threads + Sync>(
    rt: &R,
    alloc: Global,
    kept: &Kept,
    failing: Failing,
) -> (u64, Ending, u64) {
    let mut unmoved: u64 = 0;
    for calls in 0u64..1_000 {
        let (ending, form) = move_ending(rt, alloc, kept, failing, calls).unwrap_or((
            Ending::Lost,
            0,
        ));
        if ending != Ending::Stopped {
            return (calls, ending, unmoved);
        }
        if form == 1 {
            unmoved = unmoved.saturating_add(1);
        }
    }
    (1_000, Ending::Stopped, unmoved)
}

#[test]
fn a_move_that_stops_at_any_call_of_a_disk_loses_nothing(rt: HostRuntime) -> Result<(), Fail> {
    let kept = content_after(&rt, rt.alloc(), first_lines(5)).ok_or("a store")?;
    for failing in [Failing::Database, Failing::Log] {
        let (calls, ending, unmoved) = first_unstopped(&rt, rt.alloc(), &kept, failing);
        assert!(rt;
            ending == Ending::Whole && calls > 4 && unmoved > 0,
            "{failing:?} {calls} {ending:?} {unmoved}"
        );
    }
    Ok(())
}
