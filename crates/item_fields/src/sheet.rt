//! The texts of an item's fields by their places.
ghost use Rattle.std.specs.Prelude.{◌≡◌, ◌↔◌, ◌<◌, is_some, nat_lt, take, true, IfSome, IsTrue, Some, if◌then◌else◌, slice_index_or};
ghost use Rattle.std.specs.Option.{option_copied};
ghost use Rattle.item_fields.specs.Fields.{field_count, known_count, names_of};
ghost use Rattle.lei_records.specs.Places.{record_places};
ghost use Rattle.item_fields.specs.Sheets.{first_unknown, has_field, read_texts, texts_by_place};

use crate::fields::Kind;
use crate::item::Fields;
use crate::tables;
use lei_records::Rules;
use lei_records::places::RECORD_PLACES;

// The texts of an item's fields, and the first name that the item shouldn't have.
#[derive(Drop)]
pub struct Sheet<'a> {
    // The texts of the fields in order of place: the empty text if a field is absent, and past the last field.
    pub texts: [&'a str; RECORD_PLACES],
    // The first name that isn't a field's name by the rules.
    pub unknown: Option<&'a str>,
}

// Puts each text at the place of its name. It goes from the last field to the first, so that the first text under a
// name and the first unknown name are kept.
pub fn sheet_of(rules: Rules, kind: Kind, fields: &Fields) -> Sheet<'_>
    ensures texts { take (field_count kind) (read_texts result.texts) ≡ texts_by_place kind fields.now }
    ensures unknown { option_copied result.unknown ≡ first_unknown rules kind fields.now }
{
    let mut texts = [""; RECORD_PLACES];
    let mut unknown = None;
    let mut near = 0;
    for index in (0..fields.len()).rev() {
        let name = fields.name(index);
        let text = fields.text(index);
        match index_of(kind, name, near) {
            Some(at) => {
                texts[at] = text;
                near = index_before(kind, at);
                unknown = or_later(rules, kind, at, name, unknown);
            }
            None => unknown = Some(name),
        }
    }
    Sheet { texts, unknown }
}

// The name of the field at this index if the rules don't have that field yet, and otherwise what was found before.
fn or_later<'a>(
    rules: Rules,
    kind: Kind,
    index: usize,
    name: &'a str,
    unknown: Option<&'a str>,
) -> Option<&'a str>
    ensures { option_copied result
        ≡ (if nat_lt index (known_count rules kind) then option_copied unknown.entry else Some name.now) }
{
    if index < kind.known_count(rules) {
        unknown
    } else {
        Some(name)
    }
}

// The index of the field with this name. The search tries a likely index first, then the index of the name that comes
// right before in byte order, and then all.
fn index_of(kind: Kind, name: &str, near: usize) -> Option<usize>
    ensures known { is_some result ≡ has_field kind name.now }
    ensures index { IfSome result
        (λ index. (index < field_count kind) × (slice_index_or (names_of kind) index name.now ≡ name.now)) }
    ensures bound { IfSome result (λ index. index < record_places) }
{
    if is_at(kind, name, near) {
        return Some(near);
    }
    let before = index_before(kind, near);
    if is_at(kind, name, before) {
        return Some(before);
    }
    search(kind, name)
}

// Whether the field at an index has this name.
fn is_at(kind: Kind, name: &str, index: usize) -> bool
    ensures known { IsTrue result → has_field kind name.now ≡ true }
    ensures index { IsTrue result → index < field_count kind }
    ensures name { IsTrue result → slice_index_or (names_of kind) index name.now ≡ name.now }
    ensures bound { IsTrue result → index < record_places }
{
    let table = kind.fields();
    index < table.len() && is_same(table[index].0, name)
}

// Whether two names are equal. They are compared as bytes, many at a time.
fn is_same(one: &str, other: &str) -> bool
    ensures { IsTrue result ↔ (one.now ≡ other.now) }
{
    one.as_bytes() == other.as_bytes()
}

// The index of the field with this name, searched for among all fields.
fn search(kind: Kind, name: &str) -> Option<usize>
    ensures known { is_some result ≡ has_field kind name.now }
    ensures index { IfSome result
        (λ index. (index < field_count kind) × (slice_index_or (names_of kind) index name.now ≡ name.now)) }
    ensures bound { IfSome result (λ index. index < record_places) }
{
    let table = kind.fields();
    for (index, field) in table.iter().enumerate() {
        if field.0 == name {
            return Some(index);
        }
    }
    None
}

// The index of the field whose name comes right before that of this index in byte order, or some index if there is
// none.
fn index_before(kind: Kind, index: usize) -> usize {
    let before: &[u8] = match kind {
        Kind::Record => &tables::record::BEFORE,
        Kind::Relation => &tables::relation::BEFORE,
        Kind::Exception => &tables::exception::BEFORE,
    };
    before.get(index).map_or(0, |before| usize::from(*before))
}
