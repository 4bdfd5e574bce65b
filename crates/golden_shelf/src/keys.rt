//! The order of keys by their texts.
ghost use Rattle.std.specs.Prelude.{◌≡◌};
ghost use Rattle.lei_records.specs.Tables.{key_cmp};
ghost use Rattle.golden_shelf.specs.Keys.{key_texts};

use lei_records::RowKey;
use std::cmp::Ordering;

/// Compares the texts of two keys, text by text, also if the keys are of different sheets.
pub fn compare(a: &RowKey, b: &RowKey) -> Ordering
    ensures { result ≡ key_cmp (key_texts a.now) (key_texts b.now) }
{
    match (a, b) {
        (RowKey::Rec(a), RowKey::Rec(b)) => a.cmp(b),
        (RowKey::Rel(a, kind, end), RowKey::Rel(b, other, last)) => a
            .cmp(b)
            .then(kind.text().cmp(other.text()))
            .then(end.cmp(last)),
        (RowKey::Exc(a, category), RowKey::Exc(b, other)) => {
            a.cmp(b).then(category.text().cmp(other.text()))
        }
        (RowKey::Rec(a), RowKey::Rel(b, _, _) | RowKey::Exc(b, _)) => {
            a.cmp(b).then(Ordering::Less)
        }
        (RowKey::Rel(a, _, _) | RowKey::Exc(a, _), RowKey::Rec(b)) => {
            a.cmp(b).then(Ordering::Greater)
        }
        (RowKey::Rel(a, kind, _), RowKey::Exc(b, category)) => a
            .cmp(b)
            .then(kind.text().cmp(category.text()))
            .then(Ordering::Greater),
        (RowKey::Exc(a, category), RowKey::Rel(b, kind, _)) => a
            .cmp(b)
            .then(category.text().cmp(kind.text()))
            .then(Ordering::Less),
    }
}
