//! Reading files in JSON, exactly in the form in which they are printed.
ghost use Rattle.std.specs.Prelude.{◌≡◌, ◌<◌, ◌-◌, List, true, false, length, map, option_map, Some, None, IfOk, IsErrOf};
ghost use Rattle.serde_json.specs.Written;
ghost use Rattle.copy_forms.specs.Json.{json_names};
ghost use Rattle.copy_forms.specs.JsonTexts;
ghost use Rattle.copy_forms.specs.JsonReading as spec;
ghost use Rattle.copy_csv.specs.declared.heads.Head.{Head as DeclaredHead};
ghost use Rattle.copy_csv.specs.declared.faults.FormFault;
ghost use Rattle.copy_csv.specs.Sheets.{SheetRow};
ghost use Rattle.copy_csv.specs.declared.rows.Change.{Change as Changed};
ghost use Rattle.copy_forms.specs.JsonReading.{IsJsonCopy, IsJsonDelta, JsonGives, items_from};

use crate::json_heads::{base_from, count_from, date_from, publication_from};
use crate::json_read::{leads, record_from};
use crate::json_strings::after;
use copy_csv::{Change, FormFault, Head, Row, Sheet};
use lei_values::Bytes;
use std::alloc::Global;

/// The head and the rows of a copy. It doesn't check that the keys rise.
pub fn read_json_copy(
    alloc: Global,
    bytes: &[u8],
    sheet: Sheet,
) -> Result<(Head, Vec<Row>), FormFault>
    ensures found { IfOk result (λ read. IsJsonCopy sheet bytes.now read.0 read.1.items) }
    ensures only { IsErrOf result FormFault.NotRead
        → (head : DeclaredHead) (rows : List SheetRow) → IsJsonCopy sheet bytes.now head rows → ⊥ }
{
    let _count = byte_count(bytes);
    copy_from(alloc, sheet, bytes)
}

// The number of these bytes. A `usize` holds it, so a number of records fits, too.
fn byte_count(bytes: &[u8]) -> usize
    ensures { result ≡ length bytes.now }
{
    bytes.len()
}

// The head and the rows that are read from a copy.
#[tactic(auto, unfolding(crate::specs::JsonReading::copy_from))]
fn copy_from(alloc: Global, sheet: Sheet, bytes: &[u8]) -> Result<(Head, Vec<Row>), FormFault>
    ensures { JsonGives (λ read. (read.0, read.1.items)) result (spec.copy_from sheet bytes.now) }
{
    let leads = leads(alloc, sheet)?;
    let (moment, rest) = match date_from(alloc, bytes) {
        Ok((moment, rest)) => (moment, rest),
        Err(fault) => return Err(fault),
    };
    let Some((publication, rest)) = publication_from(rest) else {
        return Err(FormFault::NotRead);
    };
    let Some((count, rest)) = count_from(rest) else {
        return Err(FormFault::NotRead);
    };
    let rows = rows_from(alloc, sheet, leads.as_slice(), count, rest)?;
    let head = Head {
        moment,
        publication,
        from: 0,
    };
    Ok((head, rows))
}

// This many rows, up to the end of the bytes.
fn rows_from(
    alloc: Global,
    sheet: Sheet,
    leads: &[Bytes],
    count: u64,
    bytes: &[u8],
) -> Result<Vec<Row>, FormFault>
    requires { leads.now ≡ map (JsonTexts.lead true) (json_names sheet) }
    ensures { JsonGives (λ rows. rows.items) result
        (items_from (spec.record_from sheet) count false bytes.now) }
{
    let mut rows = Vec::new(alloc);
    let mut rest = bytes;
    for index in 0..count {
        let Some(record) = item_place(rest, 0 < index) else {
            return Err(FormFault::NotRead);
        };
        let (row, behind) = record_from(alloc, sheet, leads, record)?;
        rows.push(row)?;
        rest = behind;
    }
    if rest == b"]}".as_slice() {
        Ok(rows)
    } else {
        Err(FormFault::NotRead)
    }
}

// The bytes of an item: those after a comma, if another item precedes it.
fn item_place(bytes: &[u8], later: bool) -> Option<&[u8]>
    ensures { option_map (λ rest. rest.now) result ≡ spec.after_front (Written.comma_if later) bytes.now }
{
    if later {
        return after(bytes, b",");
    }
    Some(bytes)
}

/// The head and the changes of a delta. It doesn't check that the keys rise.
pub fn read_json_delta(
    alloc: Global,
    bytes: &[u8],
    sheet: Sheet,
) -> Result<(Head, Vec<Change>), FormFault>
    ensures found { IfOk result (λ read. IsJsonDelta sheet bytes.now read.0 read.1.items) }
    ensures only { IsErrOf result FormFault.NotRead
        → (head : DeclaredHead) (changes : List Changed) → IsJsonDelta sheet bytes.now head changes → ⊥ }
{
    let _count = byte_count(bytes);
    delta_from(alloc, sheet, bytes)
}

// The head and the changes that are read from a delta.
#[tactic(auto, unfolding(crate::specs::JsonReading::delta_from))]
fn delta_from(alloc: Global, sheet: Sheet, bytes: &[u8]) -> Result<(Head, Vec<Change>), FormFault>
    ensures { JsonGives (λ read. (read.0, read.1.items)) result (spec.delta_from sheet bytes.now) }
{
    let leads = leads(alloc, sheet)?;
    let (moment, rest) = match date_from(alloc, bytes) {
        Ok((moment, rest)) => (moment, rest),
        Err(fault) => return Err(fault),
    };
    let Some((from, rest)) = base_from(rest) else {
        return Err(FormFault::NotRead);
    };
    let Some((publication, rest)) = publication_from(rest) else {
        return Err(FormFault::NotRead);
    };
    let Some((count, rest)) = count_from(rest) else {
        return Err(FormFault::NotRead);
    };
    let changes = changes_from(alloc, sheet, leads.as_slice(), count, rest)?;
    let head = Head {
        moment,
        publication,
        from,
    };
    Ok((head, changes))
}

// This many changes, up to the end of the bytes.
fn changes_from(
    alloc: Global,
    sheet: Sheet,
    leads: &[Bytes],
    count: u64,
    bytes: &[u8],
) -> Result<Vec<Change>, FormFault>
    requires { leads.now ≡ map (JsonTexts.lead true) (json_names sheet) }
    ensures { JsonGives (λ changes. changes.items) result
        (items_from (spec.change_from sheet) count false bytes.now) }
{
    let mut changes = Vec::new(alloc);
    let mut rest = bytes;
    for index in 0..count {
        let Some(item) = item_place(rest, 0 < index) else {
            return Err(FormFault::NotRead);
        };
        let (change, behind) = change_from(alloc, sheet, leads, item)?;
        changes.push(change)?;
        rest = behind;
    }
    if rest == b"]}".as_slice() {
        Ok(changes)
    } else {
        Err(FormFault::NotRead)
    }
}

// A change, and the bytes after it.
#[tactic(auto, unfolding(crate::specs::JsonReading::change_from, json::specs::Print::escape_byte))]
fn change_from<'a>(
    alloc: Global,
    sheet: Sheet,
    leads: &[Bytes],
    bytes: &'a [u8],
) -> Result<(Change, &'a [u8]), FormFault>
    requires { leads.now ≡ map (JsonTexts.lead true) (json_names sheet) }
    ensures { JsonGives (λ read. (read.0, read.1.now)) result (spec.change_from sheet bytes.now) }
{
    let put = after(bytes, b"{\"action\":\"PUT\",\"record\":");
    let dropped = after(bytes, b"{\"action\":\"DROP\",\"record\":");
    match (put, dropped) {
        (Some(record), _) => changed_from(alloc, sheet, leads, true, record),
        (None, Some(record)) => changed_from(alloc, sheet, leads, false, record),
        (None, None) => Err(FormFault::NotRead),
    }
}

// A change, read from its record and the brace after that, and the bytes after it.
fn changed_from<'a>(
    alloc: Global,
    sheet: Sheet,
    leads: &[Bytes],
    puts: bool,
    bytes: &'a [u8],
) -> Result<(Change, &'a [u8]), FormFault>
    requires { leads.now ≡ map (JsonTexts.lead true) (json_names sheet) }
    ensures { JsonGives (λ read. (read.0, read.1.now)) result (spec.changed_from sheet puts bytes.now) }
{
    let (row, rest) = record_from(alloc, sheet, leads, bytes)?;
    let Some(behind) = after(rest, b"}") else {
        return Err(FormFault::NotRead);
    };
    match change_of(puts, row) {
        Some(change) => Ok((change, behind)),
        None => Err(FormFault::NotRead),
    }
}

// The change that a row was read for, if the row may be in one: that of a dropped key has only the key.
fn change_of(puts: bool, row: Row) -> Option<Change>
    ensures { result ≡ spec.change_with_row puts row }
{
    if puts {
        return Some(Change::Put(row));
    }
    if row.is_key_alone() {
        Some(Change::Drop(row))
    } else {
        None
    }
}
