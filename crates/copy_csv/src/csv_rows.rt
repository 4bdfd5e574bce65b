//! Reading rows and changes from CSV, line by line.
ghost use Rattle.std.specs.Prelude.{◌≡◌, ◌≤◌, ◌-◌, ◌++◌, [], List as Items, IfOk, IsSome, IsTrue, IsErrOf, length, map, replicate, ◌↔◌};
ghost use Rattle.std.specs.Str.{IsUtf8};
ghost use Rattle.std.specs.List.{All};
ghost use Rattle.copy_csv.specs.declared.rows.Change.{Change as Changed};
ghost use Rattle.copy_csv.specs.declared.faults.FormFault.{FormFault};
ghost use Rattle.copy_csv.specs.Csv.{change_line, row_line};
ghost use Rattle.copy_csv.specs.Rows.{IsChangeIn, IsChangeOf, IsRowIn, IsRowOfSheet, KeysRise, changed_key, changed_row};
ghost use Rattle.copy_csv.specs.Sheets.{SheetRow, key};
ghost use Rattle.copy_csv.specs.Taking.{AreReadFrom, ReadsNext, drop_bytes, is_after_all, put_bytes};

use crate::csv_read::Reader;
use crate::faults::FormFault;
use crate::rows::{Change, Row};
use crate::sheets::{columns, width};
use crate::texts::Texts;
use lei_values::{List, NoMemory};
use register_words::Sheet;
use std::alloc::Global;

/// The row of the next line of a file of this width. Its texts for columns that the file lacks are empty.
pub fn read_row(
    alloc: Global,
    sheet: Sheet,
    wide: bool,
    reader: &mut Reader<'_>,
) -> Result<Option<Row>, NoMemory>
    requires { IsUtf8 reader.old }
    ensures read { IfOk result
        (λ row. ReadsNext (row_line wide) (IsRowIn sheet wide) reader.old row reader.new) }
    ensures utf8 { IfOk result (λ row. IsSome row → IsUtf8 reader.new) }
{
    match reader.line(alloc, columns(wide, sheet))? {
        Some(texts) => {
            let all = with_absent_texts(texts, width(sheet))?;
            Ok(Some(Row::of(sheet, all)))
        }
        None => Ok(None),
    }
}

// These texts, followed by empty ones up to `count` texts in all.
fn with_absent_texts(mut texts: Texts, count: usize) -> Result<Texts, NoMemory>
    requires { length texts ≤ count }
    ensures { IfOk result (λ all. all ≡ texts ++ replicate (count - length texts) []) }
{
    for _ in texts.len()..count {
        texts.push("")?;
    }
    Ok(texts)
}

// The change whose row follows `PUT`.
fn read_put(
    alloc: Global,
    sheet: Sheet,
    wide: bool,
    reader: &mut Reader<'_>,
) -> Result<Option<Change>, NoMemory>
    requires { IsUtf8 reader.old }
    ensures read { IfOk result
        (λ change. ReadsNext (change_line wide) (IsChangeIn sheet wide) (put_bytes ++ reader.old) change
        reader.new) }
    ensures utf8 { IfOk result (λ change. IsSome change → IsUtf8 reader.new) }
{
    match read_row(alloc, sheet, wide, reader)? {
        Some(row) => Ok(Some(Change::Put(row))),
        None => Ok(None),
    }
}

// The change whose row follows `DROP`.
fn read_drop(
    alloc: Global,
    sheet: Sheet,
    wide: bool,
    reader: &mut Reader<'_>,
) -> Result<Option<Change>, NoMemory>
    requires { IsUtf8 reader.old }
    ensures read { IfOk result
        (λ change. ReadsNext (change_line wide) (IsChangeIn sheet wide) (drop_bytes ++ reader.old) change
        reader.new) }
    ensures utf8 { IfOk result (λ change. IsSome change → IsUtf8 reader.new) }
{
    match read_row(alloc, sheet, wide, reader)? {
        Some(row) => {
            if row.is_key_alone() {
                Ok(Some(Change::Drop(row)))
            } else {
                Ok(None)
            }
        }
        None => Ok(None),
    }
}

// The change of the next line.
fn read_change(
    alloc: Global,
    sheet: Sheet,
    wide: bool,
    reader: &mut Reader<'_>,
) -> Result<Option<Change>, NoMemory>
    requires { IsUtf8 reader.old }
    ensures read { IfOk result
        (λ change. ReadsNext (change_line wide) (IsChangeIn sheet wide) reader.old change reader.new) }
    ensures utf8 { IfOk result (λ change. IsSome change → IsUtf8 reader.new) }
{
    if reader.skip_all(b"\"PUT\",") {
        return read_put(alloc, sheet, wide, reader);
    }
    if reader.skip_all(b"\"DROP\",") {
        return read_drop(alloc, sheet, wide, reader);
    }
    Ok(None)
}

// Whether a row comes after the last of the others by its key, or there are no others.
fn row_is_after(rows: &[Row], row: &Row) -> bool
    requires sheet { All (λ other. other.sheet ≡ row.now.sheet) rows.now }
    ensures { result ≡ is_after_all key rows.now row.now }
{
    match rows.last() {
        Some(last) => last.precedes(row),
        None => true,
    }
}

/// Whether the keys of these rows of a sheet rise strictly.
pub fn are_rows_rising(sheet: Sheet, rows: &[Row]) -> bool
    requires { All (IsRowOfSheet sheet) rows.now }
    ensures { IsTrue result ↔ KeysRise (map key rows.now) }
{
    for index in 0..rows.len() {
        if !row_is_after(&rows[..index], &rows[index]) {
            return false;
        }
    }
    true
}

/// Whether the keys of these changes of a sheet rise strictly.
pub fn are_changes_rising(sheet: Sheet, changes: &[Change]) -> bool
    requires { All (IsChangeOf sheet) changes.now }
    ensures { IsTrue result ↔ KeysRise (map changed_key changes.now) }
{
    for index in 0..changes.len() {
        if !change_is_after(&changes[..index], &changes[index]) {
            return false;
        }
    }
    true
}

/// The rows whose lines in a file of this width the bytes are. The bytes must be UTF-8.
pub fn read_rows(
    alloc: Global,
    sheet: Sheet,
    wide: bool,
    bytes: &[u8],
) -> Result<List<Row>, FormFault>
    requires { IsUtf8 bytes.now }
    ensures found { IfOk result
        (λ rows. AreReadFrom (row_line wide) (IsRowIn sheet wide) key bytes.now rows) }
    ensures only { IsErrOf result FormFault.NotRead
        → (rows : Items SheetRow) → AreReadFrom (row_line wide) (IsRowIn sheet wide) key bytes.now rows → ⊥ }
{
    let mut rows = Vec::new(alloc);
    let mut reader = Reader::new(bytes);
    while !reader.is_done() {
        let row = match read_row(alloc, sheet, wide, &mut reader)? {
            Some(row) => row,
            None => return Err(FormFault::NotRead),
        };
        if !row_is_after(rows.as_slice(), &row) {
            return Err(FormFault::NotRead);
        }
        rows.push(row)?;
    }
    Ok(List::from(rows))
}

// Whether a change comes after the last of the others by its key, or there are no others.
fn change_is_after(changes: &[Change], change: &Change) -> bool
    requires sheet { All (λ other. (changed_row other).sheet ≡ (changed_row change.now).sheet) changes.now }
    ensures { result ≡ is_after_all changed_key changes.now change.now }
{
    match changes.last() {
        Some(last) => last.row().precedes(change.row()),
        None => true,
    }
}

/// The changes whose lines in a file of this width the bytes are. The bytes must be UTF-8.
pub fn read_changes(
    alloc: Global,
    sheet: Sheet,
    wide: bool,
    bytes: &[u8],
) -> Result<List<Change>, FormFault>
    requires { IsUtf8 bytes.now }
    ensures found { IfOk result
        (λ changes. AreReadFrom (change_line wide) (IsChangeIn sheet wide) changed_key bytes.now changes) }
    ensures only { IsErrOf result FormFault.NotRead
        → (changes : Items Changed)
        → AreReadFrom (change_line wide) (IsChangeIn sheet wide) changed_key bytes.now changes → ⊥ }
{
    let mut changes = Vec::new(alloc);
    let mut reader = Reader::new(bytes);
    while !reader.is_done() {
        let change = match read_change(alloc, sheet, wide, &mut reader)? {
            Some(change) => change,
            None => return Err(FormFault::NotRead),
        };
        if !change_is_after(changes.as_slice(), &change) {
            return Err(FormFault::NotRead);
        }
        changes.push(change)?;
    }
    Ok(List::from(changes))
}
