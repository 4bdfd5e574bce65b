//! The cells of a table with the two indexes over them, and what writes do to all three.
ghost use Rattle.std.specs.Prelude.{◌≡◌, None, IfOk, OnOk, OnErr, IfSome, IsSome, option_map};
ghost use Rattle.std.specs.FinMap.{get, insert};
ghost use Rattle.register_table.specs.Cells.{IsOwnCell, cell_in};
ghost use Rattle.register_table.specs.Held.{CanBeKept, cell_key, rows};
ghost use Rattle.register_table.specs.Indexes.{noted_in};
ghost use Rattle.register_table.specs.Parts.{AreNoted, ArePartsOfTable, IsMarked, IsNewItem, MarksStay, all_marks, lei_marks};
ghost use Rattle.register_table.specs.Undos.{cells_with};

use crate::authority_key_index::AuthorityKeyIndex;
use crate::cells::CellMap;
use crate::ends::Ends;
use crate::slots::Slot;
use copy_forms::SharedItem;
use lei_records::{Item, RowKey};
use lei_values::NoMemory;

/// The cells, and two indexes over them. What an index returns is checked against the cells, so it may have more than
/// they do.
#[derive(Drop)]
pub struct Parts {
    pub cells: CellMap,
    pub holders: AuthorityKeyIndex,
    pub ends: Ends,
}

/// What was held under a key before a write.
#[derive(Drop)]
pub struct Note {
    pub key: RowKey,
    pub slot: Option<Slot>,
}

/// Puts a cell under a key, and returns what was held there. If memory runs out, the cells stay as they were.
pub fn put(parts: &mut Parts, key: RowKey, slot: Slot) -> Result<Option<Slot>, NoMemory>
    requires own { IsOwnCell key slot }
    requires parts { ArePartsOfTable parts.old }
    requires kept { CanBeKept (rows (insert parts.old.cells (cell_key key) (cell_in slot))) }
    ensures cells { OnOk result (parts.new.cells ≡ insert parts.old.cells (cell_key key) (cell_in slot)) }
    ensures out { IfOk result (λ out. option_map cell_in out ≡ get parts.old.cells (cell_key key)) }
    ensures own { IfOk result (λ out. IfSome out (IsOwnCell key)) }
    ensures err { OnErr result (parts.new.cells ≡ parts.old.cells) }
    ensures parts { ArePartsOfTable parts.new }
    ensures noted { MarksStay (all_marks parts.old) (all_marks parts.new) }
    ensures taken { MarksStay (lei_marks parts.old) (lei_marks parts.new) }
    ensures room { OnErr result (IsSome (get parts.old.cells (cell_key key))
        → IsMarked (all_marks parts.old) slot.item → ⊥) }
{
    index(&mut parts.holders, &mut parts.ends, &slot.item)?;
    parts.cells.insert(&key, slot)
}

// Notes in the indexes what an item holds.
fn index(
    holders: &mut AuthorityKeyIndex,
    ends: &mut Ends,
    item: &Option<SharedItem>,
) -> Result<(), NoMemory>
    ensures ok { OnOk result (AreNoted item.now holders.old ends.old holders.new ends.new) }
    ensures err { OnErr result (AreNoted None holders.old ends.old holders.new ends.new) }
    ensures noted { MarksStay (noted_in holders.old ends.old) (noted_in holders.new ends.new) }
    ensures absent { OnErr result (IsNewItem item.now holders.old ends.old) }
{
    match item {
        Some(item) => match item.item() {
            Item::Record(record) => holders.put(record),
            Item::Relation(relation) => ends.put(relation),
            Item::Exception(_) => Ok(()),
        },
        None => Ok(()),
    }
}

/// Puts back what was held under a key, and returns what the key had until now. Nothing is allocated.
pub fn put_back(parts: &mut Parts, key: RowKey, slot: Option<Slot>) -> Option<Slot>
    requires own { IfSome slot (IsOwnCell key) }
    requires parts { ArePartsOfTable parts.old }
    requires kept { CanBeKept (rows (cells_with parts.old.cells (cell_key key) (option_map cell_in slot))) }
    requires here { IsSome (get parts.old.cells (cell_key key)) }
    requires marked { IfSome slot (λ slot. IsMarked (all_marks parts.old) slot.item) }
    ensures cells { parts.new.cells ≡ cells_with parts.old.cells (cell_key key) (option_map cell_in slot) }
    ensures out { option_map cell_in result ≡ get parts.old.cells (cell_key key) }
    ensures parts { ArePartsOfTable parts.new }
    ensures noted { MarksStay (all_marks parts.old) (all_marks parts.new) }
{
    match slot {
        Some(slot) => match put(parts, key, slot) {
            Ok(out) => out,
            Err(NoMemory) => unreachable!(),
        },
        None => parts.cells.remove(&key),
    }
}
