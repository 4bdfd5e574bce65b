//! Slots: what is held under a key.
ghost use Rattle.std.specs.Prelude.{◌≡◌, IfOk};

use copy_forms::SharedItem;
use lei_values::NoMemory;

/// What is held under a key: the item, or none after a withdrawal, and the number of the entry that touched the key
/// last.
#[derive(Drop)]
pub struct Slot {
    pub entry: u64,
    pub item: Option<SharedItem>,
}

/// The same item for one more holder, or none.
pub fn share(item: &Option<SharedItem>) -> Result<Option<SharedItem>, NoMemory>
    ensures { IfOk result (λ shared. shared ≡ item.now) }
{
    match item {
        Some(item) => Ok(Some(item.share()?)),
        None => Ok(None),
    }
}
