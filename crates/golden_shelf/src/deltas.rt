//! What a delta has for keys, joined from texts that are kept.
ghost use Rattle.std.specs.Prelude.{◌≡◌, true, IfOk, map};
ghost use Rattle.std.specs.List.{All};
ghost use Rattle.copy_csv.specs.Csv.{rendered_in};
ghost use Rattle.copy_csv.specs.Sheets as sheets;
ghost use Rattle.copy_forms.specs.Trails.{dropped_row};
ghost use Rattle.golden_shelf.specs.Deltas.{shown_in, texts_in};
ghost use Rattle.golden_shelf.specs.Keys.{is_key_of, key_texts};

use crate::order::TextKey;
use crate::side::Side;
use copy_csv::sheets::width;
use copy_csv::{Row, Sheet, TextChange, Texts};
use lei_records::RowKey;
use lei_values::NoMemory;
use std::alloc::Global;

/// What a delta has for each of these keys of a sheet, according to the sheet's lines.
pub fn changes_of<'a>(
    alloc: Global,
    sheet: Sheet,
    side: &'a Side,
    keys: &[TextKey],
) -> Result<Vec<TextChange<'a>>, NoMemory>
    requires own { All (λ key. is_key_of sheet key.key ≡ true) keys.now }
    ensures { IfOk result (λ changes. map rendered_in changes.items
        ≡ map (λ key. shown_in sheet side.now.lines (texts_in key)) keys.now) }
{
    let mut changes = Vec::with_capacity(alloc, keys.len())?;
    for key in keys {
        changes.push(change_of(alloc, sheet, side, &key.key)?)?;
    }
    Ok(changes)
}

// What a delta has for a key: the texts of its row, or the row of a dropped key.
fn change_of<'a>(
    alloc: Global,
    sheet: Sheet,
    side: &'a Side,
    key: &RowKey,
) -> Result<TextChange<'a>, NoMemory>
    requires own { is_key_of sheet key.now ≡ true }
    ensures { IfOk result (λ change. rendered_in change ≡ shown_in sheet side.now.lines (key_texts key.now)) }
{
    match side.texts_under(key) {
        Some(texts) => Ok(TextChange::Put(texts)),
        None => Ok(TextChange::Drop(dropped_row(alloc, sheet, key)?)),
    }
}

// The row of a dropped key: the texts of the key, followed by empty ones.
fn dropped_row(alloc: Global, sheet: Sheet, key: &RowKey) -> Result<Row, NoMemory>
    requires own { is_key_of sheet key.now ≡ true }
    ensures { IfOk result (λ row. row ≡ dropped_row sheet (key_texts key.now)) }
{
    let mut texts = texts_of(alloc, key)?;
    while texts.len() < width(sheet) {
        texts.push("")?;
    }
    Ok(Row::of(sheet, texts))
}

// The texts of a key.
fn texts_of(alloc: Global, key: &RowKey) -> Result<Texts, NoMemory>
    ensures { IfOk result (λ texts. texts ≡ key_texts key.now) }
{
    let mut texts = Texts::new(alloc);
    match key {
        RowKey::Rec(lei) => texts.push(lei.as_str())?,
        RowKey::Rel(start, kind, end) => {
            texts.push(start.as_str())?;
            texts.push(kind.text())?;
            texts.push(end.as_str())?;
        }
        RowKey::Exc(lei, category) => {
            texts.push(lei.as_str())?;
            texts.push(category.text())?;
        }
    }
    Ok(texts)
}
