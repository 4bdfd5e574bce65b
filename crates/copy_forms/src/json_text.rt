//! The JSON record of a row, with its fields in byte order of their names.
ghost use Rattle.std.specs.Prelude.{◌≡◌, ◌≤◌, ◌++◌, IfOk, OnOk};
ghost use Rattle.copy_forms.specs.Json.{field_at, json_places, json_record};
ghost use Rattle.copy_forms.specs.JsonTexts as spec;
ghost use Rattle.copy_csv.specs.Sheets;

use copy_csv::sheets::{name_at, width};
use copy_csv::{Row, Sheet};
use json::Writer;
use lei_values::{Bytes, NoMemory};
use std::alloc::Global;

// The places of each sheet's fields, in byte order of the names.
const LEI_PLACES: [u8; 32] = [
    17, 20, 19, 30, 31, 32, 29, 10, 12, 9, 13, 11, 5, 7, 4, 8, 6, 18, 16, 2, 3, 15, 14, 21, 1, 28,
    22, 23, 26, 25, 24, 27,
];

const RR_PLACES: [u8; 11] = [7, 8, 10, 9, 11, 6, 3, 4, 2, 5, 1];

const REPEX_PLACES: [u8; 4] = [2, 3, 4, 1];

pub fn places(sheet: Sheet) -> &'static [u8]
    ensures { result.now ≡ json_places sheet }
{
    match sheet {
        Sheet::Lei => &LEI_PLACES,
        Sheet::Rr => &RR_PLACES,
        Sheet::Repex => &REPEX_PLACES,
    }
}

/// The record of a row: the fields that are present, with their names in byte order.
pub fn record_text(alloc: Global, row: &Row) -> Result<Bytes, NoMemory>
    ensures { IfOk result (λ text. text ≡ json_record row.now) }
{
    let mut out = Writer::new(Vec::with_capacity(alloc, record_room(row))?);
    out.begin_object()?;
    for place in places(row.sheet()) {
        put_field(&mut out, row, usize::from(*place))?;
    }
    out.end_object()?;
    Ok(Bytes::from(out.into_inner()))
}

// About how many bytes the row's record takes, and one to spare, because the writer asks for it. Each field that is
// present takes its name and its text, four quotes, a colon and a comma.
fn record_room(row: &Row) -> usize {
    let sheet = row.sheet();
    let mut room = row.joined().len().saturating_add(2);
    for index in 0..width(sheet) {
        if !row.text_bytes(index + 1).is_empty() {
            room = room.saturating_add(name_at(sheet, index + 1).len() + 6);
        }
    }
    room
}

// Writes the field at a place, unless it is absent.
fn put_field(out: &mut Writer, row: &Row, place: usize) -> Result<(), NoMemory>
    requires first { 1 ≤ place }
    requires last { place ≤ Sheets.width row.now.sheet }
    ensures before { out.new.before ≡ out.old.before }
    ensures tokens { OnOk result
        (out.new.tokens ≡ out.old.tokens ++ spec.field_tokens (field_at row.now place)) }
{
    let name = name_at(row.sheet(), place);
    let text = row.text(place);
    if text.is_empty() {
        return Ok(());
    }
    out.key(name)?;
    out.string(text)?;
    Ok(())
}
