// What the register keeps of a row.
ghost use Rattle.std.specs.Prelude.{◌≡◌, IfOk};

use crate::{Bytes, NoMemory, Shared};
use std::alloc::Global;

/// A cell of the register, as it is kept.
#[derive(Debug, PartialEq, Eq, Drop)]
pub struct KeptCell {
    /// What kind of cell it is: 1 for a record, 2 for a relationship, 3 for an exception.
    pub kind: u8,
    /// The texts of its key, separated by single spaces.
    pub name: Bytes,
    /// The number of the entry that touched it last.
    pub touched: u64,
    /// The row that is held, as the text of a JSON object, or `None` after a withdrawal.
    pub row: Option<Shared>,
}

impl KeptCell {
    /// A copy of the cell in its own memory, except for the row's text, which both share.
    pub fn copy(&self, alloc: Global) -> Result<Self, NoMemory>
        ensures { IfOk result (λ copy. copy ≡ self.now) }
    {
        Ok(KeptCell {
            kind: self.kind,
            name: Bytes::copy_of(alloc, self.name.as_slice())?,
            touched: self.touched,
            row: self.share_row()?,
        })
    }

    /// The row's text for one more holder, or `None` if there is no row.
    pub fn share_row(&self) -> Result<Option<Shared>, NoMemory>
        ensures { IfOk result (λ row. row ≡ self.now.row) }
    {
        match &self.row {
            Some(row) => Ok(Some(row.share()?)),
            None => Ok(None),
        }
    }
}
