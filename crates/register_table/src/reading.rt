//! What the parts of a table have under the keys of its cells.
ghost use Rattle.std.specs.Prelude.{◌≡◌, Some, None, if◌then◌else◌, option_map};
ghost use Rattle.lei_records.specs.declared.item.Item.{Item as Declared};
ghost use Rattle.lei_records.specs.Tables;
ghost use Rattle.lei_records.specs.Tables.{active_of, holder_of, relation_row, row_at};
ghost use Rattle.register_table.specs.Held.{rows};
ghost use Rattle.register_table.specs.Parts.{ArePartsOfTable};
ghost use Rattle.register_table.specs.Reading.{is_active_row, record_row, relation_row_in, row_holds};

use crate::parts::Parts;
use authority_rules::holds;
use copy_forms::SharedItem;
use lei_code::Lei;
use lei_records::{Item, Record, Relation, RowKey};
use lei_shapes::{ExceptionCategory, RelationType};

impl Parts {
    /// The record with this LEI, if one is held.
    pub fn record(&self, lei: &Lei) -> Option<&Record>
        ensures { option_map (λ row. row.now) result ≡ row_at (rows self.now.cells) lei.now }
    {
        match self.cells.get(&RowKey::Rec(*lei)) {
            Some(slot) => record_in(&slot.item),
            None => None,
        }
    }

    /// The same record as an item.
    pub fn record_item(&self, lei: &Lei) -> Option<&SharedItem>
        ensures { option_map (λ item. item.now) result
            ≡ option_map Declared.Record (row_at (rows self.now.cells) lei.now) }
    {
        match self.cells.get(&RowKey::Rec(*lei)) {
            Some(slot) => record_item_in(&slot.item),
            None => None,
        }
    }

    /// The relationship of a start, a type and an end, if it is held.
    pub fn relation(&self, start: &Lei, kind: RelationType, end: &Lei) -> Option<&Relation>
        ensures { option_map (λ row. row.now) result
            ≡ relation_row (rows self.now.cells) start.now kind end.now }
    {
        match self.cells.get(&RowKey::Rel(*start, kind, *end)) {
            Some(slot) => relation_in(&slot.item),
            None => None,
        }
    }

    /// Whether an exception of an entity and a category is held.
    pub fn has_exception(&self, lei: &Lei, category: ExceptionCategory) -> bool
        ensures { result ≡ Tables.has_exception (rows self.now.cells) lei.now category }
    {
        match self.cells.get(&RowKey::Exc(*lei, category)) {
            Some(slot) => slot.item.is_some(),
            None => false,
        }
    }

    /// The LEI of the live record that has an authority key: the record that took it last, if it still has it.
    pub fn holder(&self, authority: &str, id: &str) -> Option<Lei>
        requires { ArePartsOfTable self.now }
        ensures { result ≡ holder_of (rows self.now.cells) authority.now id.now }
    {
        match self.holders.get(authority, id) {
            Some(lei) => self.if_held(authority, id, lei),
            None => None,
        }
    }

    /// The end of the active relationship of a start and a type: the one that was last noted, if it still is active.
    pub fn active(&self, start: &Lei, kind: RelationType) -> Option<Lei>
        requires { ArePartsOfTable self.now }
        ensures { result ≡ active_of (rows self.now.cells) start.now kind }
    {
        match self.ends.get(start, kind) {
            Some(end) => self.if_active(start, kind, end),
            None => None,
        }
    }

    // The LEI of the record that took a key, if the record still has it.
    fn if_held(&self, authority: &str, id: &str, lei: Lei) -> Option<Lei>
        ensures { result ≡ (if row_holds authority.now id.now (row_at (rows self.now.cells) lei)
            then Some lei else None) }
    {
        match self.record(&lei) {
            Some(record) if holds(record, authority, id) => Some(lei),
            _ => None,
        }
    }

    // The end of the relationship that was noted, if it still is active.
    fn if_active(&self, start: &Lei, kind: RelationType, end: Lei) -> Option<Lei>
        ensures { result ≡ (if is_active_row (relation_row (rows self.now.cells) start.now kind end)
            then Some end else None) }
    {
        match self.relation(start, kind, &end) {
            Some(relation) if relation.is_active() => Some(end),
            _ => None,
        }
    }
}

fn record_in(item: &Option<SharedItem>) -> Option<&Record>
    ensures { option_map (λ row. row.now) result ≡ record_row item.now }
{
    match item {
        Some(item) => match item.item() {
            Item::Record(record) => Some(record),
            _ => None,
        },
        None => None,
    }
}

fn record_item_in(item: &Option<SharedItem>) -> Option<&SharedItem>
    ensures { option_map (λ item. item.now) result ≡ option_map Declared.Record (record_row item.now) }
{
    match item {
        Some(item) => match item.item() {
            Item::Record(_) => Some(item),
            _ => None,
        },
        None => None,
    }
}

fn relation_in(item: &Option<SharedItem>) -> Option<&Relation>
    ensures { option_map (λ row. row.now) result ≡ relation_row_in item.now }
{
    match item {
        Some(item) => match item.item() {
            Item::Relation(relation) => Some(relation),
            _ => None,
        },
        None => None,
    }
}
