//! Rows that tables and packets share.
ghost use Rattle.std.specs.Prelude.{◌≡◌, IfOk};

use copy_csv::Row;
use lei_values::{List, NoMemory};
use std::alloc::Global;
use std::marker::Model;
use std::sync::Arc;

/// A row that its holders share: another holder needs no copy of it. Contracts see the row.
#[derive(Drop)]
pub struct SharedRow {
    row: Arc<Row, Global>,
}

impl Model for SharedRow {
    ghost use Rattle.std.specs.Arc.{arc_value};
    ghost use Rattle.copy_csv.specs.Sheets.{SheetRow};

    ghost Value = { SheetRow };

    ghost view = { λ shared. arc_value shared.row };
}

impl SharedRow {
    /// The row, moved here.
    pub fn of(alloc: Global, row: Row) -> Result<Self, NoMemory>
        ensures { IfOk result (λ shared. shared ≡ row) }
    {
        Ok(SharedRow {
            row: Arc::new(alloc, row)?,
        })
    }

    /// The same row for one more holder.
    pub fn share(&self) -> Result<Self, NoMemory>
        ensures { IfOk result (λ shared. shared ≡ self.now) }
    {
        Ok(SharedRow {
            row: Arc::try_clone(&self.row)?,
        })
    }

    /// The row.
    pub fn row(&self) -> &Row
        ensures { result.now ≡ self.now }
    {
        &self.row
    }
}

/// The rows of a table, which its holders share. Contracts see the list of rows.
#[derive(Drop)]
pub struct SharedRows {
    rows: Arc<Vec<SharedRow>, Global>,
}

impl Model for SharedRows {
    ghost use Rattle.std.specs.Arc.{arc_value};
    ghost use Rattle.std.specs.Prelude.{List};
    ghost use Rattle.copy_csv.specs.Sheets.{SheetRow};

    ghost Value = { List SheetRow };

    ghost view = { λ shared. (arc_value shared.rows).items };
}

impl SharedRows {
    /// These rows, moved here.
    pub fn of(alloc: Global, rows: Vec<SharedRow>) -> Result<Self, NoMemory>
        ensures { IfOk result (λ shared. shared ≡ rows.items) }
    {
        Ok(SharedRows {
            rows: Arc::new(alloc, rows)?,
        })
    }

    /// Rows that were read, each now one that can be shared.
    pub fn of_read(alloc: Global, rows: List<Row>) -> Result<Self, NoMemory>
        ensures { IfOk result (λ shared. shared ≡ rows) }
    {
        let made = shared_rows(alloc, rows.into_vec())?;
        SharedRows::of(alloc, made)
    }

    /// The same rows for one more holder.
    pub fn share(&self) -> Result<Self, NoMemory>
        ensures { IfOk result (λ shared. shared ≡ self.now) }
    {
        Ok(SharedRows {
            rows: Arc::try_clone(&self.rows)?,
        })
    }

    /// The rows as a slice.
    pub fn as_slice(&self) -> &[SharedRow]
        ensures { result.now ≡ self.now }
    {
        self.rows.as_slice()
    }
}

fn shared_rows(alloc: Global, rows: Vec<Row>) -> Result<Vec<SharedRow>, NoMemory>
    ensures { IfOk result (λ made. made.items ≡ rows.items) }
{
    let mut made = Vec::with_capacity(alloc, rows.len())?;
    for row in rows {
        made.push(SharedRow::of(alloc, row)?)?;
    }
    Ok(made)
}
