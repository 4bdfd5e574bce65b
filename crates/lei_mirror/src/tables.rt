//! The three tables that are shown.
ghost use Rattle.std.specs.Prelude.{◌≡◌, IfOk};
ghost use Rattle.lei_mirror.specs.Mirrors.{empty_mirror, sheet_copy, empty_copy};

use crate::shared::SharedRows;
use copy_csv::{Head, Sheet};
use lei_values::NoMemory;
use std::alloc::Global;

/// What is shown of a sheet.
#[derive(Drop)]
pub struct SheetCopy {
    /// The head of its copy, or none before the first one.
    pub head: Option<Head>,
    /// Its rows, in the order of their keys.
    pub rows: SharedRows,
}

impl SheetCopy {
    /// What is shown of a sheet before the first copy.
    pub fn empty(alloc: Global) -> Result<Self, NoMemory>
        ensures { IfOk result (λ copy. copy ≡ empty_copy) }
    {
        Ok(SheetCopy {
            head: None,
            rows: SharedRows::of(alloc, Vec::new(alloc))?,
        })
    }

    /// The same for one more holder.
    pub fn share(&self) -> Result<Self, NoMemory>
        ensures { IfOk result (λ copy. copy ≡ self.now) }
    {
        Ok(SheetCopy {
            head: self.head,
            rows: self.rows.share()?,
        })
    }
}

/// The tables of one publication.
#[derive(Drop)]
pub struct Tables {
    /// The number of the publication, or 0 before the first one.
    pub publication: u32,
    pub lei: SheetCopy,
    pub rr: SheetCopy,
    pub repex: SheetCopy,
}

impl Tables {
    /// Tables with nothing in them.
    pub fn empty(alloc: Global) -> Result<Self, NoMemory>
        ensures { IfOk result (λ tables. tables ≡ empty_mirror.tables) }
    {
        Ok(Tables {
            publication: 0,
            lei: SheetCopy::empty(alloc)?,
            rr: SheetCopy::empty(alloc)?,
            repex: SheetCopy::empty(alloc)?,
        })
    }

    /// The same for one more holder.
    pub fn share(&self) -> Result<Self, NoMemory>
        ensures { IfOk result (λ tables. tables ≡ self.now) }
    {
        Ok(Tables {
            publication: self.publication,
            lei: self.lei.share()?,
            rr: self.rr.share()?,
            repex: self.repex.share()?,
        })
    }

    /// What is shown of a sheet.
    pub fn copy_of(&self, sheet: Sheet) -> &SheetCopy
        ensures { result.now ≡ sheet_copy self.now sheet }
    {
        match sheet {
            Sheet::Lei => &self.lei,
            Sheet::Rr => &self.rr,
            Sheet::Repex => &self.repex,
        }
    }
}
