//! The fields of each sheet of a golden copy: their number, columns, key and names.
ghost use Rattle.std.specs.Prelude.{◌≡◌, ◌≤◌};
ghost use Rattle.lei_records.specs.Rows.{text_at};
ghost use Rattle.copy_csv.specs.Sheets as spec;

use item_fields::Kind;
use register_words::Sheet;

/// The kind of the items whose rows are in a sheet.
pub fn kind_of(sheet: Sheet) -> Kind
    ensures { result ≡ spec.kind_of sheet }
{
    match sheet {
        Sheet::Lei => Kind::Record,
        Sheet::Rr => Kind::Relation,
        Sheet::Repex => Kind::Exception,
    }
}

/// The number of texts in a row of a sheet.
pub fn width(sheet: Sheet) -> usize
    ensures { result ≡ spec.width sheet }
{
    match sheet {
        Sheet::Lei => 32,
        Sheet::Rr => 11,
        Sheet::Repex => 4,
    }
}

/// The number of columns in a CSV file of a sheet. A narrow file of `lei` has none for the fields of an event.
pub fn columns(wide: bool, sheet: Sheet) -> usize
    ensures { result ≡ spec.column_count wide sheet }
{
    match sheet {
        Sheet::Lei => { if wide { 32 } else { 28 } }
        Sheet::Rr => 11,
        Sheet::Repex => 4,
    }
}

/// How many texts of a row, counted from the first, are its key.
pub fn key_len(sheet: Sheet) -> usize
    ensures { result ≡ spec.key_len sheet }
{
    match sheet {
        Sheet::Lei => 1,
        Sheet::Rr => 3,
        Sheet::Repex => 2,
    }
}

/// The name of the field at a place, counted from 1.
pub fn name_at(sheet: Sheet, place: usize) -> &'static str
    requires first { 1 ≤ place }
    requires last { place ≤ spec.width sheet }
    ensures { result.now ≡ text_at (spec.column_names sheet) place }
{
    kind_of(sheet).fields()[place - 1].0
}
