//! A keeper over an SQLite file: what it keeps is there after the file was opened again. The tests share a folder that
//! is empty at first, so each has its own file. The checks are written over any keeper, or any database: over this
//! keeper each function with a call took half a minute to prove.
use crate::batches::is_batch;
use keeper_sqlite::SqliteKeeper;
use lei_keeper::{KeepFault, Keeper};
use lei_values::{Batch, Bytes, KeptCell, KeptEntry, List, NoMemory, Shared};
use std::alloc::Global;
use std::test::Fail;

// A cell by the number of its entry, its name and its row, which is empty if there is none.
type Line = (u64, &'static str, &'static str);

// An entry with this number. Its other numbers are the last or the first of their types, and its answer isn't text.
fn entry(alloc: Global, seq: u64) -> Result<KeptEntry, NoMemory> {
    Ok(KeptEntry {
        seq,
        kind: 255,
        office: Bytes::copy_of(alloc, b"506700GE1G29325QX363")?,
        number: u32::MAX,
        moment: i64::MIN,
        rules: u16::MAX,
        body: Shared::copy_of(alloc, b"")?,
        answer: Bytes::copy_of(alloc, &[0, 255])?,
    })
}

fn entries(alloc: Global, seqs: &[u64]) -> Result<List<KeptEntry>, NoMemory> {
    let mut list = Vec::new(alloc);
    for seq in seqs {
        list.push(entry(alloc, *seq)?)?;
    }
    Ok(List::from(list))
}

fn row(alloc: Global, text: &str) -> Result<Option<Shared>, NoMemory> {
    if text.is_empty() {
        Ok(None)
    } else {
        Ok(Some(Shared::copy_of(alloc, text.as_bytes())?))
    }
}

fn cells(alloc: Global, lines: &[Line]) -> Result<List<KeptCell>, NoMemory> {
    let mut list = Vec::new(alloc);
    for (touched, name, text) in lines {
        list.push(KeptCell {
            kind: 1,
            name: Bytes::copy_of(alloc, name.as_bytes())?,
            touched: *touched,
            row: row(alloc, text)?,
        })?;
    }
    Ok(List::from(list))
}

fn batch(alloc: Global, line: Line) -> Result<Batch, NoMemory> {
    let entry = entry(alloc, line.0)?;
    let cells = cells(alloc, &[line])?;
    Ok(Batch { entry, cells })
}

// Commits a batch whose number is the next. Any other batch isn't committed, and is reported as lack of memory.
fn commit<K: Keeper>(keeper: &mut K, batch: &Batch) -> Result<(), KeepFault> {
    let last = keeper.last()?;
    if last < u64::MAX && batch.entry.seq == last + 1 && is_batch(batch) {
        keeper.commit(batch)
    } else {
        Err(KeepFault::NoMemory)
    }
}

// Whether the batch of this cell is kept.
fn keeps<K: Keeper>(keeper: &mut K, alloc: Global, line: Line) -> bool {
    match batch(alloc, line) {
        Ok(batch) => commit(keeper, &batch).is_ok(),
        Err(_) => false,
    }
}

fn gives_last<K: Keeper>(keeper: &mut K, wanted: Result<u64, KeepFault>) -> bool {
    keeper.last() == wanted
}

// Whether these are the entries of the range.
fn gives_entries<K: Keeper>(
    keeper: &mut K,
    alloc: Global,
    after: u64,
    upto: u64,
    seqs: &[u64],
) -> bool {
    match entries(alloc, seqs) {
        Ok(wanted) => keeper.entries(after, upto) == Ok(wanted),
        Err(_) => false,
    }
}

// Whether these are the cells of the range.
fn gives_cells<K: Keeper>(
    keeper: &mut K,
    alloc: Global,
    after: u64,
    upto: u64,
    lines: &[Line],
) -> bool {
    match cells(alloc, lines) {
        Ok(wanted) => keeper.cells(after, upto) == Ok(wanted),
        Err(_) => false,
    }
}

// Keeps three batches. The second withdraws the row of the first one's cell.
fn keeps_three<K: Keeper>(keeper: &mut K, alloc: Global) -> bool {
    keeps(keeper, alloc, (1, "B", "{}"))
        && keeps(keeper, alloc, (2, "B", ""))
        && keeps(keeper, alloc, (3, "A B", "[1]"))
}

// Whether everything is read, whole and by ranges.
fn gives_all<K: Keeper>(keeper: &mut K, alloc: Global) -> bool {
    gives_last(keeper, Ok(3))
        && gives_entries(keeper, alloc, 0, u64::MAX, &[1, 2, 3])
        && gives_entries(keeper, alloc, 1, 2, &[2])
        && gives_cells(
            keeper,
            alloc,
            0,
            u64::MAX,
            &[(3, "A B", "[1]"), (2, "B", "")],
        )
        && gives_cells(keeper, alloc, 1, 2, &[(2, "B", "")])
}

// Whether each call fails.
fn fails<K: Keeper>(keeper: &mut K) -> bool {
    gives_last(keeper, Err(KeepFault::Failed))
        && keeper.entries(0, 1) == Err(KeepFault::Failed)
        && keeper.cells(0, 1) == Err(KeepFault::Failed)
}

#[derive(Clone, Copy)]
enum Step {
    Keep,
    Read,
    Fail,
}

// The result of a step over the file, and how many calls of the keeper failed. The keeper closes the file at the end.
fn open(rt: &HostRuntime, path: &str, step: Step) -> (bool, u64) {
    let mut keeper = SqliteKeeper::on_file(rt, path);
    let is_good = take(&mut keeper, rt.alloc(), step);
    (is_good, keeper.faults())
}

fn take<K: Keeper>(keeper: &mut K, alloc: Global, step: Step) -> bool {
    match step {
        Step::Keep => keeps_three(keeper, alloc),
        Step::Read => gives_all(keeper, alloc),
        Step::Fail => fails(keeper),
    }
}

#[test]
fn what_was_kept_is_there_after_opening_again(rt: HostRuntime) -> Result<(), Fail> {
    assert!(rt; open(&rt, "kept.db", Step::Keep) == (true, 0));
    assert!(rt; open(&rt, "kept.db", Step::Read) == (true, 0));
    Ok(())
}

#[test]
fn each_call_fails_where_the_file_cannot_be_opened(rt: HostRuntime) -> Result<(), Fail> {
    assert!(rt; open(&rt, "no folder/kept.db", Step::Fail) == (true, 3));
    Ok(())
}
