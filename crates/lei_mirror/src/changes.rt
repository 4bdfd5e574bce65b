//! Changes whose rows are shared.
ghost use Rattle.std.specs.Prelude.{◌≡◌, IfOk};
ghost use Rattle.copy_csv.specs.Rows.{changed_row};
ghost use Rattle.lei_mirror.specs.Changes.{is_put};

use crate::shared::SharedRow;
use copy_csv::Change;
use lei_values::{List, NoMemory};
use std::alloc::Global;
use std::marker::Model;

/// What a delta has for a key, with a row that tables may hold too. Contracts see the change.
#[derive(Drop)]
pub struct SharedChange {
    puts: bool,
    row: SharedRow,
}

impl Model for SharedChange {
    ghost use Rattle.copy_csv.specs.declared.rows.Change.{Change};
    ghost use Rattle.lei_mirror.specs.Changes.{change_with};

    ghost Value = { Change };

    ghost view = { λ change. change_with change.puts change.row };
}

impl SharedChange {
    /// The change, whose row is moved here.
    pub fn of(alloc: Global, change: Change) -> Result<Self, NoMemory>
        ensures { IfOk result (λ shared. shared ≡ change) }
    {
        match change {
            Change::Put(row) => {
                let row = SharedRow::of(alloc, row)?;
                Ok(SharedChange { puts: true, row })
            }
            Change::Drop(row) => {
                let row = SharedRow::of(alloc, row)?;
                Ok(SharedChange { puts: false, row })
            }
        }
    }

    /// Whether it puts its row. If not, it drops the row of its key.
    pub fn puts(&self) -> bool
        ensures { result ≡ is_put self.now }
    {
        self.puts
    }

    /// Its row.
    pub fn row(&self) -> &SharedRow
        ensures { result.now ≡ changed_row self.now }
    {
        &self.row
    }
}

/// Changes that were read, with rows that can be shared.
pub fn shared_changes(alloc: Global, changes: Vec<Change>) -> Result<List<SharedChange>, NoMemory>
    ensures { IfOk result (λ shared. shared ≡ changes.items) }
{
    let mut made = Vec::with_capacity(alloc, changes.len())?;
    for change in changes {
        made.push(SharedChange::of(alloc, change)?)?;
    }
    Ok(List::from(made))
}
