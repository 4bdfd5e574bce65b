//! What entries touched.
ghost use Rattle.std.specs.Prelude.{◌≡◌, ◌&&◌, IfOk};
ghost use Rattle.register_table.specs.Touched.{cell_under_key};
ghost use Rattle.register_table.specs.Cells.{IsItemOf, IsOwnCell, cell_in};
ghost use Rattle.register_table.specs.Held.{cell_key};
ghost use Rattle.register_table.specs.Touched.{is_touched};

use crate::slots::{Slot, share};
use copy_forms::SharedItem;
use lei_records::RowKey;
use lei_values::NoMemory;

/// A key that was touched, with the number of the entry that touched it last. It has the item that is held under the
/// key, or none after a withdrawal.
#[derive(Debug, Drop)]
pub struct Touched {
    pub key: RowKey,
    pub entry: u64,
    pub item: Option<SharedItem>,
}

/// Whether the number of a slot is greater than `after` and at most `upto`.
pub fn is_within(slot: &Slot, after: u64, upto: u64) -> bool
    ensures { result ≡ is_touched after upto (cell_in slot.now) }
{
    after < slot.entry && slot.entry <= upto
}

/// A slot under its key. The result shares the item with the slot.
pub fn touched_of(key: &RowKey, slot: &Slot) -> Result<Touched, NoMemory>
    ensures shown { IfOk result (λ touched. cell_under_key touched ≡ (cell_key key.now, cell_in slot.now)) }
    ensures own { IsOwnCell key.now slot.now → IfOk result (λ touched. IsItemOf touched.key touched.item) }
{
    Ok(Touched {
        key: *key,
        entry: slot.entry,
        item: share(&slot.item)?,
    })
}
