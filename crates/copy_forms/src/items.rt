//! Items of the register as rows, and as the JSON records of these.
ghost use Rattle.std.specs.Prelude.{◌≡◌, ◌≤◌, ◌++◌, IfOk, OnOk, length};
ghost use Rattle.copy_forms.specs.Items.{item_text, sheet_row};
ghost use Rattle.copy_forms.specs.Json.{field_at, json_record};
ghost use Rattle.copy_forms.specs.JsonTexts as spec;
ghost use Rattle.copy_csv.specs.Sheets;
ghost use Rattle.copy_csv.specs.Sheets.{row_of_texts};

use crate::json_text::places;
use copy_csv::sheets::{name_at, width};
use copy_csv::{Row, Sheet, Texts};
use json::Writer;
use lei_records::{FieldTexts, Item};
use lei_values::{Bytes, NoMemory};
use std::alloc::Global;

/// The row of an item, whose texts are copied into one piece of memory.
pub fn item_row(alloc: Global, item: &Item) -> Result<Row, NoMemory>
    ensures { IfOk result (λ row. row ≡ sheet_row item.now) }
{
    match item {
        Item::Record(record) => fields_row(alloc, Sheet::Lei, record.texts()),
        Item::Relation(relation) => fields_row(alloc, Sheet::Rr, relation.texts()),
        Item::Exception(exception) => fields_row(alloc, Sheet::Repex, exception.texts()),
    }
}

// The row that has these texts in order of place.
fn fields_row(alloc: Global, sheet: Sheet, fields: &FieldTexts) -> Result<Row, NoMemory>
    requires { length fields.now ≡ Sheets.width sheet }
    ensures { IfOk result (λ row. row ≡ row_of_texts sheet fields.now) }
{
    let mut texts = Texts::with_capacity(alloc, fields.len(), bytes_of(fields))?;
    for index in 0..fields.len() {
        texts.push(fields.text(index))?;
    }
    Ok(Row::of(sheet, texts))
}

// The number of bytes of all texts together.
fn bytes_of(fields: &FieldTexts) -> usize {
    let mut bytes = 0_usize;
    for index in 0..fields.len() {
        bytes = bytes.saturating_add(fields.text(index).len());
    }
    bytes
}

/// The JSON record of an item's row: the fields that are present, with their names in byte order.
pub fn item_text(alloc: Global, item: &Item) -> Result<Bytes, NoMemory>
    ensures { IfOk result (λ text. text ≡ item_text item.now) }
{
    match item {
        Item::Record(record) => fields_text(alloc, Sheet::Lei, record.texts()),
        Item::Relation(relation) => fields_text(alloc, Sheet::Rr, relation.texts()),
        Item::Exception(exception) => fields_text(alloc, Sheet::Repex, exception.texts()),
    }
}

/// The JSON record of the row that has these texts in order of place.
pub fn fields_text(alloc: Global, sheet: Sheet, texts: &FieldTexts) -> Result<Bytes, NoMemory>
    requires { length texts.now ≡ Sheets.width sheet }
    ensures { IfOk result (λ text. text ≡ json_record (row_of_texts sheet texts.now)) }
{
    let room = record_room(sheet, texts);
    let mut out = Writer::new(Vec::with_capacity(alloc, room)?);
    out.begin_object()?;
    for place in places(sheet) {
        put_field(&mut out, sheet, texts, usize::from(*place))?;
    }
    out.end_object()?;
    Ok(Bytes::from(out.into_inner()))
}

// How many bytes the record takes if no text has escapes, and one to spare, because the writer asks for it. Each field
// that is present takes its name and its text, four quotes, a colon and a comma.
fn record_room(sheet: Sheet, texts: &FieldTexts) -> usize
    requires { length texts.now ≡ Sheets.width sheet }
{
    let mut room = 2_usize;
    for index in 0..width(sheet) {
        let text = texts.text(index);
        if !text.is_empty() {
            room = room.saturating_add(text.len());
            room = room.saturating_add(name_at(sheet, index + 1).len() + 6);
        }
    }
    room
}

// Writes the field at a place, unless it is absent.
fn put_field(
    out: &mut Writer,
    sheet: Sheet,
    texts: &FieldTexts,
    place: usize,
) -> Result<(), NoMemory>
    requires full { length texts.now ≡ Sheets.width sheet }
    requires first { 1 ≤ place }
    requires last { place ≤ Sheets.width sheet }
    ensures before { out.new.before ≡ out.old.before }
    ensures tokens { OnOk result (out.new.tokens ≡
        out.old.tokens ++ spec.field_tokens (field_at (row_of_texts sheet texts.now) place)) }
{
    let name = name_at(sheet, place);
    let text = texts.text(place - 1);
    if text.is_empty() {
        return Ok(());
    }
    out.key(name)?;
    out.string(text)?;
    Ok(())
}
