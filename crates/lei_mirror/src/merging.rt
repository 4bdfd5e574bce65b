//! Merges rows and changes in the order of their keys.
ghost use Rattle.std.specs.Prelude.{◌≡◌, ◌≤◌, ◌++◌, ◌∷◌, [], length, flat_map, IfOk, OnOk};
ghost use Rattle.std.specs.List.{All};
ghost use Rattle.copy_csv.specs.Rows.{AreChanges, AreRows, changed_row};
ghost use Rattle.copy_forms.specs.Patching.{patched};
ghost use Rattle.copy_forms.specs.Merging.{PassesRow, put_by};

use crate::changes::SharedChange;
use crate::shared::{SharedRow, SharedRows};
use copy_csv::{Row, Sheet};
use copy_forms::{HeldChange, place_row};
use lei_values::NoMemory;
use std::alloc::Global;

impl HeldChange for SharedChange {
    ghost change = { λ change. change };

    fn row(&self) -> &Row {
        SharedChange::row(self).row()
    }
}

/// The rows after the changes. Each row is visited once, and none is copied.
pub fn merge(
    alloc: Global,
    sheet: Sheet,
    rows: &[SharedRow],
    changes: &[SharedChange],
) -> Result<SharedRows, NoMemory>
    requires rows { AreRows sheet rows.now }
    requires changes { AreChanges sheet changes.now }
    ensures { IfOk result (λ merged. merged ≡ patched rows.now changes.now) }
{
    let mut made = Vec::with_capacity(alloc, rows.len().saturating_add(changes.len()))?;
    let mut next = 0;
    for index in 0..rows.len() {
        next = push_next(&mut made, changes, next, &rows[index])?;
    }
    push_all(&mut made, &changes[next..])?;
    let merged = SharedRows::of(alloc, made)?;
    Ok(merged)
}

// Appends what the changes from an index on put before a row and in its place. The row itself is appended if no change
// has its key. Returns the index of the first change that is left.
fn push_next(
    made: &mut Vec<SharedRow>,
    changes: &[SharedChange],
    at: usize,
    row: &SharedRow,
) -> Result<usize, NoMemory>
    requires place { at ≤ length changes.now }
    requires sheets { All (λ change. (changed_row change).sheet ≡ row.now.sheet) changes.now }
    ensures put { IfOk result (λ next. PassesRow (λ row. row ∷ []) changes.now row.now at
        made.old.items next made.new.items) }
    ensures place { IfOk result (λ next. next ≤ length changes.now) }
{
    let (left, stays) = place_row(changes, at, row.row());
    push_all(made, &changes[at..left])?;
    if stays {
        made.push(row.share()?)?;
    }
    Ok(left)
}

// Appends what all of these changes put.
fn push_all(made: &mut Vec<SharedRow>, changes: &[SharedChange]) -> Result<(), NoMemory>
    ensures { OnOk result (made.new.items ≡ made.old.items ++ flat_map put_by changes.now) }
{
    for change in changes {
        push_change(made, change)?;
    }
    Ok(())
}

// Appends what a change puts.
fn push_change(made: &mut Vec<SharedRow>, change: &SharedChange) -> Result<(), NoMemory>
    ensures { OnOk result (made.new.items ≡ made.old.items ++ put_by change.now) }
{
    if change.puts() {
        made.push(change.row().share()?)?;
    }
    Ok(())
}
