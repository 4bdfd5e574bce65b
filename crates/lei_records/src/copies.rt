//! Copies of items, which share their texts, and of checks, which have their own memory.
ghost use Rattle.std.specs.Prelude.{◌≡◌, IfOk};

use crate::check::{Check, Detail};
use crate::item::Item;
use lei_values::{NoMemory, Text};
use std::alloc::Global;

impl Item {
    /// A copy of the item. It shares the texts, so no memory is allocated for them.
    pub fn share(&self) -> Result<Item, NoMemory>
        ensures { IfOk result (λ shared. shared ≡ self.now) }
    {
        match self {
            Item::Record(record) => Ok(Item::Record(record.share()?)),
            Item::Relation(relation) => Ok(Item::Relation(relation.share()?)),
            Item::Exception(exception) => Ok(Item::Exception(exception.share()?)),
        }
    }
}

impl Check {
    /// A copy of the check in its own memory.
    pub fn copy(&self, alloc: Global) -> Result<Check, NoMemory>
        ensures { IfOk result (λ copy. copy ≡ self.now) }
    {
        let detail = self.detail.copy(alloc)?;
        Ok(Check {
            code: self.code,
            detail,
        })
    }
}

impl Detail {
    /// A copy of the detail in its own memory. Only a field's name needs any.
    pub fn copy(&self, alloc: Global) -> Result<Detail, NoMemory>
        ensures { IfOk result (λ copy. copy ≡ self.now) }
    {
        match self {
            Detail::None => Ok(Detail::None),
            Detail::Field(name) => Ok(Detail::Field(Text::copy_of(alloc, name.as_str())?)),
            Detail::Status(status) => Ok(Detail::Status(*status)),
            Detail::Code(code) => Ok(Detail::Code(*code)),
        }
    }
}
