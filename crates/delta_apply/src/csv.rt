//! Patching a copy in CSV while it is read: the line of a row that stays is copied.
ghost use Rattle.std.specs.Prelude.{◌≡◌, ◌<◌, ◌≤◌, ◌++◌, [], false, true, List as Items, drop, flat_map, if◌then◌else◌, length, IfOk, IsErrOf, OnOk, Some};
ghost use Rattle.std.specs.List.{All};
ghost use Rattle.std.specs.Str.{IsUtf8};
ghost use Rattle.lei_code.specs.Texts.{Text};
ghost use Rattle.copy_csv.specs.declared.faults.FormFault.{FormFault};
ghost use Rattle.copy_csv.specs.declared.rows.Change.{Change as Changed};
ghost use Rattle.copy_csv.specs.Csv.{row_line};
ghost use Rattle.copy_csv.specs.Rows.{AreChanges, IsChangeOf, IsRowIn, changed_row};
ghost use Rattle.copy_csv.specs.Sheets.{SheetRow, has_widths, key, names_shown};
ghost use Rattle.copy_csv.specs.Taking.{AreReadFrom, HasLines, comes_after};
ghost use Rattle.copy_forms.specs.Merging.{PassesRow, put_by};
ghost use Rattle.delta_apply.specs.Walks.{AreLinesPatched, IsPatchedCsv, PutsLines, kept_line};

use crate::fault::ApplyFault;
use copy_csv::{Reader, copy_head, copy_lines, put_row, read_csv_copy, read_row};
use copy_forms::{Change, DeltaRead, FormFault, Row, Sheet, place_row};
use lei_values::{Bytes, NoMemory};
use std::alloc::Global;

/// The copy after this delta, with capacity for at least `room` bytes. `CopyNotRead` says that the bytes aren't a copy,
/// and `OlderDelta` that they are a wide one and the delta is narrow.
pub fn patch_csv(
    alloc: Global,
    sheet: Sheet,
    copy: &[u8],
    delta: &DeltaRead,
    room: usize,
) -> Result<Bytes, ApplyFault>
    requires changes { AreChanges sheet delta.now.changes }
    requires widths { delta.now.wide ≡ true → has_widths sheet ≡ true }
    ensures { IsPatchedCsv sheet copy.now delta.now.wide delta.now.changes result }
{
    let (base_wide, lines) = match copy_lines(alloc, copy, sheet) {
        Ok(Some(found)) => found,
        Ok(None) => return Err(ApplyFault::CopyNotRead),
        Err(NoMemory) => return Err(ApplyFault::NoMemory),
    };
    if base_wide && !delta.wide {
        return answer_older(alloc, copy, sheet);
    }
    match patch_lines(alloc, sheet, base_wide, lines, delta, room) {
        Ok(bytes) => Ok(bytes),
        Err(FormFault::NotRead) => Err(ApplyFault::CopyNotRead),
        Err(FormFault::NoMemory) => Err(ApplyFault::NoMemory),
    }
}

// The result if the copy has the first line of a wide one and the delta is narrow.
fn answer_older(alloc: Global, copy: &[u8], sheet: Sheet) -> Result<Bytes, ApplyFault>
    ensures { (lines : Text) (changes : Items Changed) → HasLines names_shown sheet copy.now true lines
        → IsPatchedCsv sheet copy.now false changes result }
{
    match read_csv_copy(alloc, copy, sheet) {
        Ok(read) => {
            drop(read);
            Err(ApplyFault::OlderDelta)
        }
        Err(FormFault::NotRead) => Err(ApplyFault::CopyNotRead),
        Err(FormFault::NoMemory) => Err(ApplyFault::NoMemory),
    }
}

// The copy after this delta, given the lines of the copy before it, which isn't wider than the delta. `NotRead` says
// that they aren't the lines of rows whose keys rise.
fn patch_lines(
    alloc: Global,
    sheet: Sheet,
    base_wide: bool,
    lines: &[u8],
    delta: &DeltaRead,
    room: usize,
) -> Result<Bytes, FormFault>
    requires utf8 { IsUtf8 lines.now }
    requires changes { AreChanges sheet delta.now.changes }
    requires newer { base_wide ≡ true → delta.now.wide ≡ true }
    requires widths { delta.now.wide ≡ true → has_widths sheet ≡ true }
    ensures found { IfOk result
        (λ bytes. AreLinesPatched sheet base_wide delta.now.wide lines.now delta.now.changes bytes) }
    ensures only { IsErrOf result FormFault.NotRead → (rows : Items SheetRow)
        → AreReadFrom (row_line base_wide) (IsRowIn sheet base_wide) key lines.now rows → ⊥ }
{
    let head = copy_head(alloc, sheet, delta.wide)?;
    let room = room.saturating_add(wider_by(lines, base_wide != delta.wide));
    let mut out = Vec::with_capacity(alloc, room)?;
    out.extend_from_slice(&head)?;
    match put_patched(alloc, sheet, base_wide, lines, delta, &mut out) {
        Ok(()) => Ok(Bytes::from(out)),
        Err(fault) => Err(fault),
    }
}

// At least as many bytes as the added columns take, if lines are widened. They take 12 bytes in each line, and a line
// of 28 columns has at least 84 bytes.
fn wider_by(lines: &[u8], widens: bool) -> usize {
    if widens { lines.len() / 7 } else { 0 }
}

// Appends the lines of the rows after the changes of a delta, in its width. `NotRead` says that the bytes aren't the
// lines of rows whose keys rise.
fn put_patched(
    alloc: Global,
    sheet: Sheet,
    base_wide: bool,
    bytes: &[u8],
    delta: &DeltaRead,
    out: &mut Vec<u8>,
) -> Result<(), FormFault>
    requires utf8 { IsUtf8 bytes.now }
    requires changes { All (IsChangeOf sheet) delta.now.changes }
    requires newer { base_wide ≡ true → delta.now.wide ≡ true }
    requires widths { delta.now.wide ≡ true → has_widths sheet ≡ true }
    ensures found { OnOk result (PutsLines sheet base_wide delta.now.wide bytes.now delta.now.changes
        out.old.items out.new.items) }
    ensures only { IsErrOf result FormFault.NotRead → (rows : Items SheetRow)
        → AreReadFrom (row_line base_wide) (IsRowIn sheet base_wide) key bytes.now rows → ⊥ }
{
    let widens = base_wide != delta.wide;
    let changes = delta.changes.as_slice();
    let mut reader = Reader::new(bytes);
    let mut last = None;
    let mut next = 0;
    while !reader.is_done() {
        let start = bytes.len() - reader.rest().len();
        let row = match read_row(alloc, sheet, base_wide, &mut reader)? {
            Some(row) => row,
            None => return Err(FormFault::NotRead),
        };
        if !follows(&last, &row) {
            return Err(FormFault::NotRead);
        }
        let (left, stays) = put_next(out, delta.wide, changes, next, &row)?;
        if stays {
            let end = bytes.len() - reader.rest().len();
            put_kept(out, &bytes[start..end], widens)?;
        }
        next = left;
        last = Some(row);
    }
    put_all(out, delta.wide, &changes[next..])?;
    Ok(())
}

// Whether a row comes after another one by its key, or there is no other.
fn follows(last: &Option<Row>, row: &Row) -> bool
    requires { (other : SheetRow) → last.now ≡ Some other → other.sheet ≡ row.now.sheet }
    ensures { result ≡ comes_after key last.now row.now }
{
    match last {
        Some(last) => last.precedes(row),
        None => true,
    }
}

// Appends the lines of what the changes from the index `at` on put before a row and in its place. Returns the index of
// the first change that is left, and whether the row stays. It stays if no change has its key.
fn put_next(
    out: &mut Vec<u8>,
    wide: bool,
    changes: &[Change],
    at: usize,
    row: &Row,
) -> Result<(usize, bool), NoMemory>
    requires place { at ≤ length changes.now }
    requires sheets { All (λ change. (changed_row change).sheet ≡ row.now.sheet) changes.now }
    ensures put { IfOk result (λ left. PassesRow (row_line wide) changes.now row.now at out.old.items left.0
        (out.new.items ++ (if left.1 then row_line wide row.now else []))) }
    ensures place { IfOk result (λ left. left.0 ≤ length changes.now) }
{
    let (left, stays) = place_row(changes, at, row);
    put_all(out, wide, &changes[at..left])?;
    Ok((left, stays))
}

// Appends the line of a row that stays. If the copy becomes wide, the line gets empty columns for those that it lacks.
fn put_kept(out: &mut Vec<u8>, line: &[u8], widens: bool) -> Result<(), NoMemory>
    requires { 0 < length line.now }
    ensures { OnOk result (out.new.items ≡ out.old.items ++ kept_line widens line.now) }
{
    if widens {
        out.extend_from_slice(&line[..line.len() - 1])?;
        out.extend_from_slice(b",\"\",\"\",\"\",\"\"\n")?;
    } else {
        out.extend_from_slice(line)?;
    }
    Ok(())
}

// Appends the lines of the rows that these changes put.
fn put_all(out: &mut Vec<u8>, wide: bool, changes: &[Change]) -> Result<(), NoMemory>
    ensures { OnOk result
        (out.new.items ≡ out.old.items ++ flat_map (row_line wide) (flat_map put_by changes.now)) }
{
    for change in changes {
        put_change(out, wide, change)?;
    }
    Ok(())
}

// Appends the line of the row that a change puts, if it puts one.
fn put_change(out: &mut Vec<u8>, wide: bool, change: &Change) -> Result<(), NoMemory>
    ensures { OnOk result (out.new.items ≡ out.old.items ++ flat_map (row_line wide) (put_by change.now)) }
{
    match change {
        Change::Put(row) => put_row(out, wide, row),
        Change::Drop(_) => Ok(()),
    }
}
