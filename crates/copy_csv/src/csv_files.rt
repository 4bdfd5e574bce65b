//! Whole copies and deltas in CSV: printing and reading.
ghost use Rattle.std.specs.Prelude.{◌≡◌, ◌++◌, Bool, List as Items, None, flat_map, IfOk, OnOk, IsErrOf, IsTrue, ◌↔◌};
ghost use Rattle.std.specs.Str.{IsUtf8};
ghost use Rattle.copy_csv.specs.declared.faults.FormFault.{FormFault};
ghost use Rattle.copy_csv.specs.declared.rows.Change.{Change as Changed};
ghost use Rattle.copy_csv.specs.Csv.{IsCsvCopy, IsCsvDelta, csv_line, delta_names, joined_line, text_change_line};
ghost use Rattle.copy_csv.specs.Sheets.{SheetRow, names_shown};
ghost use Rattle.copy_csv.specs.Taking.{FindsBehind, FindsLines, read_lines};

use crate::csv_rows::{read_changes, read_rows};
use crate::csv_text::{put_joined, put_names, put_row};
use crate::faults::FormFault;
use crate::heads::{CopyRead, DeltaRead};
use crate::rows::{RowTexts, TextChange};
use lei_values::{Bytes, NoMemory};
use register_words::Sheet;
use std::alloc::Global;
use std::str;

/// The first line of a copy of this width.
pub fn copy_head(alloc: Global, sheet: Sheet, wide: bool) -> Result<Vec<u8>, NoMemory>
    ensures { IfOk result (λ head. head.items ≡ csv_line (names_shown wide sheet)) }
{
    let mut head = Vec::new(alloc);
    put_names(&mut head, wide, sheet)?;
    Ok(head)
}

// The first line of a delta of this width.
fn delta_head(alloc: Global, sheet: Sheet, wide: bool) -> Result<Vec<u8>, NoMemory>
    ensures { IfOk result (λ head. head.items ≡ csv_line (delta_names wide sheet)) }
{
    let mut head = Vec::new(alloc);
    head.extend_from_slice("\"Delta.Action\",".as_bytes())?;
    put_names(&mut head, wide, sheet)?;
    Ok(head)
}

/// The lines after the first line of a copy, and whether that is the first line of a wide copy. `None` says that the
/// bytes don't start with a first line, or that they aren't UTF-8 after it.
pub fn copy_lines<'a>(
    alloc: Global,
    bytes: &'a [u8],
    sheet: Sheet,
) -> Result<Option<(bool, &'a [u8])>, NoMemory>
    ensures { IfOk result (λ found. FindsLines names_shown sheet bytes.now (read_lines found)) }
{
    let narrow = copy_head(alloc, sheet, false)?;
    let wide = copy_head(alloc, sheet, true)?;
    Ok(lines_after_head(bytes, &narrow, &wide))
}

// The same for a delta.
fn delta_lines<'a>(
    alloc: Global,
    bytes: &'a [u8],
    sheet: Sheet,
) -> Result<Option<(bool, &'a [u8])>, NoMemory>
    ensures { IfOk result (λ found. FindsLines delta_names sheet bytes.now (read_lines found)) }
{
    let narrow = delta_head(alloc, sheet, false)?;
    let wide = delta_head(alloc, sheet, true)?;
    Ok(lines_after_head(bytes, &narrow, &wide))
}

/// Reads a copy. The result has no head.
pub fn read_csv_copy(alloc: Global, bytes: &[u8], sheet: Sheet) -> Result<CopyRead, FormFault>
    ensures head { IfOk result (λ read. read.head ≡ None) }
    ensures found { IfOk result (λ read. IsCsvCopy sheet bytes.now read.wide read.rows) }
    ensures only { IsErrOf result FormFault.NotRead
        → (wide : Bool) (rows : Items SheetRow) → IsCsvCopy sheet bytes.now wide rows → ⊥ }
{
    let Some((wide, lines)) = copy_lines(alloc, bytes, sheet)? else {
        return Err(FormFault::NotRead);
    };
    match read_rows(alloc, sheet, wide, lines) {
        Ok(rows) => Ok(CopyRead {
            head: None,
            wide,
            rows,
        }),
        Err(fault) => Err(fault),
    }
}

/// Reads a delta. The result has no head.
pub fn read_csv_delta(alloc: Global, bytes: &[u8], sheet: Sheet) -> Result<DeltaRead, FormFault>
    ensures head { IfOk result (λ read. read.head ≡ None) }
    ensures found { IfOk result (λ read. IsCsvDelta sheet bytes.now read.wide read.changes) }
    ensures only { IsErrOf result FormFault.NotRead
        → (wide : Bool) (changes : Items Changed) → IsCsvDelta sheet bytes.now wide changes → ⊥ }
{
    let Some((wide, lines)) = delta_lines(alloc, bytes, sheet)? else {
        return Err(FormFault::NotRead);
    };
    match read_changes(alloc, sheet, wide, lines) {
        Ok(changes) => Ok(DeltaRead {
            head: None,
            wide,
            changes,
        }),
        Err(fault) => Err(fault),
    }
}

/// The text of a copy of this width with these lines.
pub fn csv_copy_text(
    alloc: Global,
    sheet: Sheet,
    wide: bool,
    rows: &[RowTexts],
) -> Result<Bytes, NoMemory>
    ensures { IfOk result (λ bytes. bytes ≡
        csv_line (names_shown wide sheet) ++ flat_map (joined_line wide) rows.now) }
{
    let mut out = copy_head(alloc, sheet, wide)?;
    out.reserve(lines_room(wide, rows))?;
    for texts in rows {
        put_joined(&mut out, wide, texts)?;
    }
    Ok(Bytes::from(out))
}

// The length of all lines of the rows. A copy of 100,000 rows has some 30 MB. Growing the buffer up to that size would
// allocate again at each doubling.
fn lines_room(wide: bool, rows: &[RowTexts]) -> usize {
    let mut room = 0_usize;
    for texts in rows {
        room = room
            .saturating_add(texts.csv.as_slice().len())
            .saturating_add(1);
        if wide {
            room = room.saturating_add(texts.tail.as_slice().len());
        }
    }
    room
}

/// The text of a delta of this width with these changes.
pub fn csv_delta_text(
    alloc: Global,
    sheet: Sheet,
    wide: bool,
    changes: &[TextChange<'_>],
) -> Result<Bytes, NoMemory>
    ensures { IfOk result (λ bytes. bytes ≡
        csv_line (delta_names wide sheet) ++ flat_map (text_change_line wide) changes.now) }
{
    let mut out = delta_head(alloc, sheet, wide)?;
    for change in changes {
        put_change(&mut out, wide, change)?;
    }
    Ok(Bytes::from(out))
}

// Appends the line of a change.
fn put_change(out: &mut Vec<u8>, wide: bool, change: &TextChange<'_>) -> Result<(), NoMemory>
    ensures { OnOk result (out.new.items ≡ out.old.items ++ text_change_line wide change.now) }
{
    match change {
        TextChange::Put(texts) => {
            out.extend_from_slice("\"PUT\",".as_bytes())?;
            put_joined(out, wide, texts)?;
        }
        TextChange::Drop(row) => {
            out.extend_from_slice("\"DROP\",".as_bytes())?;
            put_row(out, wide, row)?;
        }
    }
    Ok(())
}

// The bytes after the first line, if they are UTF-8, and whether that first line is `wide`. The bytes must start with
// one of the two.
fn lines_after_head<'a>(bytes: &'a [u8], narrow: &[u8], wide: &[u8]) -> Option<(bool, &'a [u8])>
    ensures { FindsBehind narrow.now wide.now bytes.now (read_lines result) }
{
    if let Some(lines) = bytes.strip_prefix(narrow) {
        return if is_text(lines) {
            Some((false, lines))
        } else {
            None
        };
    }
    let Some(lines) = bytes.strip_prefix(wide) else {
        return None;
    };
    if is_text(lines) {
        Some((true, lines))
    } else {
        None
    }
}

// Whether the bytes are UTF-8.
fn is_text(bytes: &[u8]) -> bool
    ensures { IsTrue result ↔ IsUtf8 bytes.now }
{
    match str::from_utf8(bytes) {
        Ok(_) => true,
        Err(_) => false,
    }
}
