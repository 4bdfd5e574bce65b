//! Stores in memory, which the runs of a session leave to later ones.
use example_sessions::{CellChange, CellName, Change, EntryChange, Run};
use lei_keeper::{KeepFault, Keeper};
use lei_values::{Bytes, KeptCell, KeptEntry, List, NoMemory, Shared, Text};
use memory_devices::{MapKeeper, may_be_kept};
use program_words::wanted_run;
use std::alloc::Global;

/// What a run left at the path of its store.
#[derive(Drop)]
pub struct Store {
    path: Text,
    entries: List<KeptEntry>,
    cells: List<KeptCell>,
}

impl Store {
    /// What a keeper has, which was the store at this path.
    pub fn of(alloc: Global, path: &str, keeper: &mut MapKeeper) -> Result<Self, KeepFault> {
        Ok(Store {
            path: Text::copy_of(alloc, path)?,
            entries: keeper.entries(0, u64::MAX)?,
            cells: keeper.cells(0, u64::MAX)?,
        })
    }
}

/// The path of the store that the words of a run name, if they name one.
pub fn path_of<'a>(alloc: Global, run: &'a Run) -> Option<&'a str> {
    match wanted_run(alloc, run.words()) {
        Ok(wanted) => wanted.store,
        Err(_) => None,
    }
}

/// The keeper of a run: what the last run with its path left among these, with what is changed of it, or nothing.
pub fn keeper_of(alloc: Global, stores: &[Store], run: &Run) -> Result<MapKeeper, KeepFault> {
    let store = store_of(alloc, stores, run);
    let entries = entries_with(alloc, entries_in(store), run.changes())?;
    let cells = cells_with(alloc, cells_in(store), run.changes())?;
    if !may_be_kept(entries.as_slice(), cells.as_slice()) {
        return Err(KeepFault::Failed);
    }
    Ok(run.keeper(alloc, entries, cells)?)
}

fn store_of<'a>(alloc: Global, stores: &'a [Store], run: &Run) -> Option<&'a Store> {
    let path = path_of(alloc, run)?;
    stores
        .iter()
        .rev()
        .find(|store| store.path.as_str() == path)
}

fn entries_in<'a>(store: Option<&'a Store>) -> &'a [KeptEntry] {
    match store {
        Some(store) => store.entries.as_slice(),
        None => &[],
    }
}

fn cells_in<'a>(store: Option<&'a Store>) -> &'a [KeptCell] {
    match store {
        Some(store) => store.cells.as_slice(),
        None => &[],
    }
}

// ---- entries

fn entries_with(
    alloc: Global,
    entries: &[KeptEntry],
    changes: &[Change],
) -> Result<List<KeptEntry>, NoMemory> {
    let mut list = Vec::new(alloc);
    for entry in entries {
        if let Some(entry) = entry_with(alloc, entry.copy(alloc)?, changes)? {
            list.push(entry)?;
        }
    }
    Ok(List::from(list))
}

// An entry after these changes, if it isn't removed.
fn entry_with(
    alloc: Global,
    mut entry: KeptEntry,
    changes: &[Change],
) -> Result<Option<KeptEntry>, NoMemory> {
    for change in changes {
        match change {
            Change::Entry(seq, EntryChange::Gone) if *seq == entry.seq => return Ok(None),
            Change::Entry(seq, change) if *seq == entry.seq => {
                change_entry(alloc, &mut entry, change)?;
            }
            _ => {}
        }
    }
    Ok(Some(entry))
}

fn change_entry(
    alloc: Global,
    entry: &mut KeptEntry,
    change: &EntryChange,
) -> Result<(), NoMemory> {
    match change {
        EntryChange::Gone => {}
        EntryChange::Answer(answer) => entry.answer = Bytes::copy_of(alloc, answer.as_slice())?,
        EntryChange::Number(number) => entry.number = *number,
        EntryChange::Moment(moment) => entry.moment = *moment,
        EntryChange::Rules(rules) => entry.rules = *rules,
    }
    Ok(())
}

// ---- cells

// The cells after these changes. A cell that is touched and isn't among them is added without a row.
fn cells_with(
    alloc: Global,
    cells: &[KeptCell],
    changes: &[Change],
) -> Result<List<KeptCell>, NoMemory> {
    let mut list = Vec::new(alloc);
    for cell in cells {
        if let Some(cell) = cell_with(alloc, cell.copy(alloc)?, changes)? {
            list.push(cell)?;
        }
    }
    for change in changes {
        if let Some(cell) = added_cell(alloc, cells, change)? {
            list.push(cell)?;
        }
    }
    Ok(List::from(list))
}

// A cell after these changes, if it isn't removed.
fn cell_with(
    alloc: Global,
    mut cell: KeptCell,
    changes: &[Change],
) -> Result<Option<KeptCell>, NoMemory> {
    for change in changes {
        match change {
            Change::Cell(name, CellChange::Gone) if is_named(&cell, name) => return Ok(None),
            Change::Cell(name, CellChange::Touched(touched)) if is_named(&cell, name) => {
                cell.touched = *touched;
            }
            Change::Cell(name, CellChange::Row(row)) if is_named(&cell, name) => {
                cell.row = row_copy(alloc, row)?;
            }
            _ => {}
        }
    }
    Ok(Some(cell))
}

fn row_copy(alloc: Global, row: &Option<Shared>) -> Result<Option<Shared>, NoMemory> {
    match row {
        Some(row) => Ok(Some(Shared::copy_of(alloc, row.as_slice())?)),
        None => Ok(None),
    }
}

fn added_cell(
    alloc: Global,
    cells: &[KeptCell],
    change: &Change,
) -> Result<Option<KeptCell>, NoMemory> {
    match change {
        Change::Cell(name, CellChange::Touched(touched))
            if !cells.iter().any(|cell| is_named(cell, name)) => {
            Ok(Some(KeptCell {
                kind: name.kind,
                name: Bytes::copy_of(alloc, name.name.as_slice())?,
                touched: *touched,
                row: None,
            }))
        }
        _ => Ok(None),
    }
}

fn is_named(cell: &KeptCell, name: &CellName) -> bool {
    cell.kind == name.kind && cell.name.as_slice() == name.name.as_slice()
}
