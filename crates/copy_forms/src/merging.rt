//! The place of a row among changes, for merging rows and changes in the order of their keys.
ghost use Rattle.std.specs.Prelude.{◌≡◌, ◌≤◌, length, map};
ghost use Rattle.std.specs.List.{All};
ghost use Rattle.copy_csv.specs.declared.rows.Change.{Change as Changed};
ghost use Rattle.copy_csv.specs.Rows.{changed_row};
ghost use Rattle.copy_forms.specs.Merging.{IsPlaceAmong};

use copy_csv::{Change, Row};
use std::cmp::Ordering;

/// A change in whatever form its holder has it.
pub trait HeldChange {
    /// The change, as contracts see it.
    ghost change: { Self → Changed };

    /// The row of the change's key.
    fn row(&self) -> &Row
        ensures { result.now ≡ changed_row (change self.now) };
}

impl HeldChange for Change {
    ghost change = { λ change. change };

    fn row(&self) -> &Row {
        Change::row(self)
    }
}

/// Where a row is among the changes from the index `at` on, if their keys rise. The result is the index after the
/// changes that come before the row or have its key, and whether the row stays. It stays if no change has its key.
pub fn place_row<C: HeldChange>(changes: &[C], at: usize, row: &Row) -> (usize, bool)
    requires place { at ≤ length changes.now }
    requires sheets { All (λ change. (changed_row (C.change change)).sheet ≡ row.now.sheet) changes.now }
    ensures stands { IsPlaceAmong (map C.change changes.now) row.now at result.0 result.1 }
    ensures onward { at ≤ result.0 }
    ensures place { result.0 ≤ length changes.now }
{
    for index in at..changes.len() {
        let change = &changes[index];
        match change.row().order(row) {
            Ordering::Less => {}
            Ordering::Equal => return (index + 1, false),
            Ordering::Greater => return (index, true),
        }
    }
    (changes.len(), true)
}
