//! Compares the cells that a keeper has with those of a register, in pages by the entries that touched them last.
ghost use Rattle.std.specs.Prelude.{◌≡◌, ◌≤◌, IfOk, IfSome, IsErrOf, IsTrue, Some, option_map, slice_get};
ghost use Rattle.lei_values.specs.Count.{Rose};
ghost use Rattle.lei_values.specs.KeptTables.{AreKept};
ghost use Rattle.lei_keeper.specs.Keeping.{LeavesNoMore, TablesStay};
ghost use Rattle.register_history.specs.Damage.{cell_or_none, kept_page, made_page, not_kept, not_made, page_bounds};
ghost use Rattle.lei_office.specs.Opening.{AllCompare, Compares};
ghost use Rattle.register_history.specs.Register.{held_after};

use crate::damage::cell_line;
use lei_keeper::{KeepFault, Keeper};
use lei_values::{Bytes, KeptCell, NoMemory};
use register_history::Damage;
use register_state::Register;
use std::alloc::Global;

/// How many entries are read at once. The cells of this many entries are compared at once.
pub const PAGE: u64 = 16;

/// Compares all cells with those of a register. Returns the first that differs.
pub fn compare_cells<K: Keeper>(
    alloc: Global,
    keeper: &mut K,
    register: &Register,
) -> Result<Option<Damage>, KeepFault>
    requires { IfSome (K.tables keeper.old) AreKept }
    ensures compares { IfOk result (AllCompare register.now (K.tables keeper.new)) }
    ensures same { TablesStay (K.tables keeper.old) (K.tables keeper.new) }
    ensures crash { LeavesNoMore (K.leaves keeper.old) (K.leaves keeper.new) }
    ensures count { K.faults keeper.old ≤ K.faults keeper.new }
    ensures faultless { ¬ (IsErrOf result KeepFault.Failed) → K.faults keeper.new ≡ K.faults keeper.old }
    ensures failed { IsErrOf result KeepFault.Failed → Rose (K.faults keeper.old) (K.faults keeper.new) }
{
    let last = register.entries().len() as u64;
    for page in 0..(last + PAGE - 1) / PAGE + 1 {
        let bounds = page_bounds(last, page);
        match compare_page(alloc, keeper, register, bounds)? {
            Some(damage) => return Ok(Some(damage)),
            None => {}
        }
    }
    Ok(None)
}

// The bounds of a page: its cells were last touched by entries with numbers greater than the first bound and at most
// the second.
fn page_bounds(last: u64, page: u64) -> (u64, u64)
    requires { page ≤ 10_000_000 }
    ensures { result ≡ page_bounds last page }
{
    let after = PAGE * page;
    if after < last {
        (after, last.min(after + PAGE))
    } else {
        (last, u64::MAX)
    }
}

// Compares the cells of a page.
fn compare_page<K: Keeper>(
    alloc: Global,
    keeper: &mut K,
    register: &Register,
    bounds: (u64, u64),
) -> Result<Option<Damage>, KeepFault>
    ensures compares { IfOk result (λ found. IfSome (K.tables keeper.new)
        (λ told. Compares (kept_page told bounds)
        (made_page (held_after register.now.limits register.now.history) bounds) found)) }
    ensures same { TablesStay (K.tables keeper.old) (K.tables keeper.new) }
    ensures crash { LeavesNoMore (K.leaves keeper.old) (K.leaves keeper.new) }
    ensures count { K.faults keeper.old ≤ K.faults keeper.new }
    ensures faultless { ¬ (IsErrOf result KeepFault.Failed) → K.faults keeper.new ≡ K.faults keeper.old }
    ensures failed { IsErrOf result KeepFault.Failed → Rose (K.faults keeper.old) (K.faults keeper.new) }
{
    let kept = keeper.cells(bounds.0, bounds.1)?;
    let made = register.touched_cells(bounds.0, bounds.1)?;
    Ok(first_difference(alloc, kept.as_slice(), made.as_slice())?)
}

// The difference at the first place at which two lists of cells differ.
fn first_difference(
    alloc: Global,
    kept: &[KeptCell],
    made: &[KeptCell],
) -> Result<Option<Damage>, NoMemory>
    ensures { IfOk result (Compares kept.now made.now) }
{
    for (place, cell) in kept.iter().enumerate() {
        let other = cell_at(made, place);
        if !is_same(cell, &other) {
            return Ok(Some(not_made(alloc, cell, &other)?));
        }
    }
    match cell_at(made, kept.len()) {
        Some(cell) => Ok(Some(not_kept(alloc, cell)?)),
        None => Ok(None),
    }
}

// The cell at a place, if there is one.
fn cell_at(cells: &[KeptCell], place: usize) -> Option<&KeptCell>
    ensures { option_map (λ cell. cell.now) result ≡ slice_get cells.now place }
{
    cells.get(place)
}

// Whether there is another cell, and whether it is the same.
fn is_same(cell: &KeptCell, other: &Option<&KeptCell>) -> bool
    ensures same { IsTrue result → option_map (λ cell. cell.now) other.now ≡ Some cell.now }
    ensures apart { option_map (λ cell. cell.now) other.now ≡ Some cell.now → IsTrue result }
{
    match other {
        Some(other) => *other == cell,
        None => false,
    }
}

// The difference of a kept cell from the register's cell at the same place, if the register has one there.
fn not_made(alloc: Global, kept: &KeptCell, made: &Option<&KeptCell>) -> Result<Damage, NoMemory>
    ensures { IfOk result (λ damage. damage ≡ not_made kept.now (option_map (λ cell. cell.now) made.now)) }
{
    Ok(Damage {
        entry: kept.touched,
        kept: cell_line(alloc, kept)?,
        replayed: cell_or_none(alloc, made)?,
    })
}

// A cell in one line, or `none` if there is no cell.
fn cell_or_none(alloc: Global, cell: &Option<&KeptCell>) -> Result<Bytes, NoMemory>
    ensures { IfOk result (λ line. line ≡ cell_or_none (option_map (λ cell. cell.now) cell.now)) }
{
    match cell {
        Some(cell) => cell_line(alloc, cell),
        None => Bytes::copy_of(alloc, b"none"),
    }
}

// The difference of a cell of the register that isn't kept.
fn not_kept(alloc: Global, made: &KeptCell) -> Result<Damage, NoMemory>
    ensures { IfOk result (λ damage. damage ≡ not_kept made.now) }
{
    Ok(Damage {
        entry: made.touched,
        kept: Bytes::copy_of(alloc, b"none")?,
        replayed: cell_line(alloc, made)?,
    })
}
