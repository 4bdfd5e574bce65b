//! Rows of golden copies, and changes of deltas.
ghost use Rattle.std.specs.Prelude.{◌≡◌, ◌≤◌, length};
ghost use Rattle.lei_records.specs.Rows.{text_at};
ghost use Rattle.std.specs.List.{concat};
ghost use Rattle.copy_csv.specs.Sheets as spec;

use crate::sheets::{key_len, width};
use crate::texts::Texts;
use lei_values::{Bytes, Shared};
use register_words::Sheet;
use std::cmp::Ordering;
use std::marker::Model;

/// A row of a sheet: one text for each field, with the bytes of all in one buffer. Contracts see the sheet and the list
/// of the texts.
#[derive(Debug, Drop)]
pub struct Row {
    sheet: Sheet,
    texts: Texts,
}

impl Model for Row {
    ghost use Rattle.copy_csv.specs.Sheets.{IsSheetRow, SheetRow, row_of_texts};

    ghost Value = { SheetRow };

    ghost view = { λ r. row_of_texts r.sheet r.texts };

    ghost invariant = { λ r. IsSheetRow (row_of_texts r.sheet r.texts) };
}

impl Row {
    /// The row with these texts, which it takes over. There must be one for each field of the sheet.
    pub fn of(sheet: Sheet, texts: Texts) -> Self
        requires { length texts ≡ spec.width sheet }
        ensures value { result ≡ spec.row_of_texts sheet texts }
        ensures row { spec.IsSheetRow result }
    {
        let full = texts.len() == width(sheet);
        prove!(full);
        Row { sheet, texts }
    }

    /// The sheet that the row belongs to.
    pub fn sheet(&self) -> Sheet
        ensures value { result ≡ self.now.sheet }
        ensures row { spec.IsSheetRow self.now }
    {
        self.sheet
    }

    /// The text at a place, counted from 1. It is empty if the field is absent.
    pub fn text(&self, place: usize) -> &str
        requires first { 1 ≤ place }
        requires last { place ≤ length self.now.texts }
        ensures value { result.now ≡ text_at self.now.texts place }
        ensures row { spec.IsSheetRow self.now }
    {
        self.texts.text(place)
    }

    /// The bytes of the text at a place, counted from 1.
    pub fn text_bytes(&self, place: usize) -> &[u8]
        requires first { 1 ≤ place }
        requires last { place ≤ length self.now.texts }
        ensures value { result.now ≡ text_at self.now.texts place }
        ensures row { spec.IsSheetRow self.now }
    {
        self.texts.text_bytes(place)
    }

    /// The bytes of all its texts, one text directly after the other.
    pub fn joined(&self) -> &[u8]
        ensures { result.now ≡ concat self.now.texts }
    {
        self.texts.joined()
    }
}

impl Row {
    ghost use Rattle.std.specs.Ordering.{is_lt};
    ghost use Rattle.lei_records.specs.Tables.{key_cmp};

    /// How its key compares with that of another row of the sheet: text by text, in byte order.
    pub fn order(&self, other: &Row) -> Ordering
        requires { self.now.sheet ≡ other.now.sheet }
        ensures { result ≡ key_cmp (spec.key self.now) (spec.key other.now) }
    {
        let alike = self.sheet() == other.sheet();
        prove!(alike);
        for index in 0..key_len(self.sheet()) {
            let (text, other_text) = (self.text_bytes(index + 1), other.text_bytes(index + 1));
            match text.cmp(&other_text) {
                Ordering::Less => return Ordering::Less,
                Ordering::Greater => return Ordering::Greater,
                Ordering::Equal => {}
            }
        }
        Ordering::Equal
    }

    /// Whether its key comes before that of another row of the sheet.
    pub fn precedes(&self, other: &Row) -> bool
        requires { self.now.sheet ≡ other.now.sheet }
        ensures { result ≡ is_lt (key_cmp (spec.key self.now) (spec.key other.now)) }
    {
        matches!(self.order(other), Ordering::Less)
    }

    /// Whether all texts after its key are empty.
    pub fn is_key_alone(&self) -> bool
        ensures { result ≡ spec.is_key_alone self.now }
    {
        for index in key_len(self.sheet())..width(self.sheet()) {
            if !self.text_bytes(index + 1).is_empty() {
                return false;
            }
        }
        true
    }
}

/// The rendered texts of one row: its line in CSV, without LF, and its record in JSON.
#[derive(Debug, Drop)]
pub struct RowTexts {
    /// The fields that a narrow file has.
    pub csv: Bytes,
    /// The further fields of a wide file, each preceded by a comma. Only a row of `lei` has any.
    pub tail: Bytes,
    /// A text that others may hold too.
    pub json: Shared,
}

/// What a delta says about a key. The texts of a row that is put were rendered elsewhere.
#[derive(Debug, Drop)]
pub enum TextChange<'a> {
    /// The key has this row now, given by its texts.
    Put(&'a RowTexts),
    /// The key has no row now. In the row given here, all texts after the key are empty.
    Drop(Row),
}

/// What a delta says about a key.
#[derive(Debug, Drop)]
pub enum Change {
    /// The key has this row now.
    Put(Row),
    /// The key has no row now. In the row given here, all texts after the key are empty.
    Drop(Row),
}

impl Change {
    ghost use Rattle.copy_csv.specs.Rows.{changed_row};

    /// The row of the change, whether it is put or dropped.
    pub fn row(&self) -> &Row
        ensures { result.now ≡ changed_row self.now }
    {
        match self {
            Change::Put(row) | Change::Drop(row) => row,
        }
    }
}
