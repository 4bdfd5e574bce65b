//! Patching the rows of a copy in JSON.
ghost use Rattle.std.specs.Prelude.{◌≡◌, ◌≤◌, ◌++◌, ◌∷◌, [], length, map, flat_map, IfOk, OnOk};
ghost use Rattle.std.specs.List.{All};
ghost use Rattle.copy_csv.specs.Rows.{AreChanges, AreRows, changed_row};
ghost use Rattle.copy_forms.specs.Json.{json_copy};
ghost use Rattle.copy_forms.specs.Patching.{patched};
ghost use Rattle.copy_forms.specs.Merging.{PassesRow, put_by};

use copy_forms::{Change, Head, Row, Sheet, json_rows_text, place_row};
use lei_values::{Bytes, NoMemory};
use std::alloc::Global;

/// The copy of these rows after the changes, with this head. It reserves `room` bytes for the rows.
pub fn patch_json(
    alloc: Global,
    sheet: Sheet,
    head: &Head,
    rows: &[Row],
    changes: &[Change],
    room: usize,
) -> Result<Bytes, NoMemory>
    requires rows { AreRows sheet rows.now }
    requires changes { AreChanges sheet changes.now }
    ensures { IfOk result (λ bytes. bytes ≡ json_copy head.now (patched rows.now changes.now)) }
{
    let held = merge(alloc, sheet, rows, changes)?;
    json_rows_text(alloc, head, &held, room)
}

// The rows after the changes, borrowed.
fn merge<'a>(
    alloc: Global,
    sheet: Sheet,
    rows: &'a [Row],
    changes: &'a [Change],
) -> Result<Vec<&'a Row>, NoMemory>
    requires rows { AreRows sheet rows.now }
    requires changes { AreChanges sheet changes.now }
    ensures { IfOk result (λ held. map (λ row. row.now) held.items ≡ patched rows.now changes.now) }
{
    let mut held = Vec::with_capacity(alloc, rows.len().saturating_add(changes.len()))?;
    let mut next = 0;
    for index in 0..rows.len() {
        next = push_next(&mut held, changes, next, &rows[index])?;
    }
    push_all(&mut held, &changes[next..])?;
    Ok(held)
}

// Appends what the changes from the index `at` on put before a row and in its place. Appends the row itself if no
// change has its key. Returns the index of the first change that is left.
fn push_next<'a>(
    held: &mut Vec<&'a Row>,
    changes: &'a [Change],
    at: usize,
    row: &'a Row,
) -> Result<usize, NoMemory>
    requires place { at ≤ length changes.now }
    requires sheets { All (λ change. (changed_row change).sheet ≡ row.now.sheet) changes.now }
    ensures put { IfOk result (λ next. PassesRow (λ row. row ∷ []) changes.now row.now at
        (map (λ row. row.now) held.old.items) next (map (λ row. row.now) held.new.items)) }
    ensures place { IfOk result (λ next. next ≤ length changes.now) }
{
    let (left, stays) = place_row(changes, at, row);
    push_all(held, &changes[at..left])?;
    if stays {
        held.push(row)?;
    }
    Ok(left)
}

// Appends the rows that these changes put.
fn push_all<'a>(held: &mut Vec<&'a Row>, changes: &'a [Change]) -> Result<(), NoMemory>
    ensures { OnOk result (map (λ row. row.now) held.new.items
        ≡ map (λ row. row.now) held.old.items ++ flat_map put_by changes.now) }
{
    for change in changes {
        push_change(held, change)?;
    }
    Ok(())
}

// Appends the row that a change puts, if it puts one.
fn push_change<'a>(held: &mut Vec<&'a Row>, change: &'a Change) -> Result<(), NoMemory>
    ensures { OnOk result (map (λ row. row.now) held.new.items
        ≡ map (λ row. row.now) held.old.items ++ put_by change.now) }
{
    if let Change::Put(row) = change {
        held.push(row)?;
    }
    Ok(())
}
