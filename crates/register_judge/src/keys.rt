//! The keys of items.
ghost use Rattle.std.specs.Prelude.{◌≡◌};
ghost use Rattle.lei_records.specs.Tables;

use lei_records::{Item, RowKey};

/// The key of an item's row.
pub fn row_key(item: &Item) -> RowKey
    ensures { result ≡ Tables.row_key item.now }
{
    match item {
        Item::Record(item) => RowKey::Rec(item.lei()),
        Item::Relation(item) => RowKey::Rel(item.start(), item.kind(), item.end()),
        Item::Exception(item) => RowKey::Exc(item.lei(), item.category()),
    }
}
