//! Files in JSON, joined from the records of rows.
ghost use Rattle.std.specs.Prelude.{◌≡◌, ◌∷◌, ◌++◌, List, ℕ, [], false, length, map, decimal, codes, IfOk, OnOk};
ghost use Rattle.json.specs.Token.{begin_array, key, number, string};
ghost use Rattle.lei_shapes.specs.Clock.{moment_text};
ghost use Rattle.serde_json.specs.Written.{comma_if};
ghost use Rattle.copy_forms.specs.Json.{json_copy};
ghost use Rattle.copy_forms.specs.JsonTexts.{before_copy, before_delta, records_text, text_change_record};

use crate::json_text::record_text;
use copy_csv::{Head, Row, RowTexts, TextChange};
use json::Writer;
use lei_shapes::Moment;
use lei_values::{Bytes, NoMemory};
use std::alloc::Global;
use std::str;

/// The text of a copy with these records.
pub fn json_copy_text(alloc: Global, head: &Head, rows: &[RowTexts]) -> Result<Bytes, NoMemory>
    ensures { IfOk result (λ bytes. bytes
        ≡ before_copy head.now (length rows.now)
        (records_text false (map (λ texts. texts.json) rows.now) ++ 125 ∷ [])) }
{
    let mut out = copy_start(alloc, head, rows.len())?;
    for (index, texts) in rows.iter().enumerate() {
        put_item(&mut out, 0 < index, texts.json.as_slice())?;
    }
    out.extend_from_slice(b"]}")?;
    Ok(Bytes::from(out))
}

/// The text of a copy with these rows, each printed as its record. It reserves `room` bytes for them.
pub fn json_rows_text(
    alloc: Global,
    head: &Head,
    rows: &[&Row],
    room: usize,
) -> Result<Bytes, NoMemory>
    ensures { IfOk result (λ bytes. bytes ≡ json_copy head.now (map (λ row. row.now) rows.now)) }
{
    let mut out = copy_start(alloc, head, rows.len())?;
    out.reserve(room)?;
    for (index, row) in rows.iter().enumerate() {
        let record = record_text(alloc, row)?;
        put_item(&mut out, 0 < index, record.as_slice())?;
    }
    out.extend_from_slice(b"]}")?;
    Ok(Bytes::from(out))
}

/// The text of a delta with these changes.
pub fn json_delta_text(
    alloc: Global,
    head: &Head,
    changes: &[TextChange<'_>],
) -> Result<Bytes, NoMemory>
    ensures { IfOk result (λ bytes. bytes
        ≡ before_delta head.now (length changes.now)
        (records_text false (map text_change_record changes.now) ++ 125 ∷ [])) }
{
    let mut out = delta_start(alloc, head, changes.len())?;
    for (index, change) in changes.iter().enumerate() {
        put_change(alloc, &mut out, 0 < index, change)?;
    }
    out.extend_from_slice(b"]}")?;
    Ok(Bytes::from(out))
}

// Appends a change, after a comma if another change precedes it.
#[tactic(auto, unfolding(json::specs::Print::escape_byte))]
fn put_change(
    alloc: Global,
    out: &mut Vec<u8>,
    later: bool,
    change: &TextChange<'_>,
) -> Result<(), NoMemory>
    ensures { OnOk result (out.new.items
        ≡ out.old.items ++ (comma_if later ++ text_change_record change.now)) }
{
    match change {
        TextChange::Put(texts) => {
            put_record(
                out,
                later,
                b"{\"action\":\"PUT\",\"record\":",
                texts.json.as_slice(),
            )?;
        }
        TextChange::Drop(row) => {
            let record = record_text(alloc, row)?;
            put_record(
                out,
                later,
                b"{\"action\":\"DROP\",\"record\":",
                record.as_slice(),
            )?;
        }
    }
    Ok(())
}

// Appends a record between the start of its change and the brace that closes the change.
fn put_record(out: &mut Vec<u8>, later: bool, begin: &[u8], text: &[u8]) -> Result<(), NoMemory>
    ensures { OnOk result (out.new.items
        ≡ out.old.items ++ (comma_if later ++ (begin.now ++ (text.now ++ 125 ∷ [])))) }
{
    put_item(out, later, begin)?;
    out.extend_from_slice(text)?;
    out.push(b'}')?;
    Ok(())
}

/// Appends an item, after a comma if another item precedes it.
pub fn put_item(out: &mut Vec<u8>, later: bool, item: &[u8]) -> Result<(), NoMemory>
    ensures { OnOk result (out.new.items ≡ out.old.items ++ (comma_if later ++ item.now)) }
{
    if later {
        out.push(b',')?;
    }
    out.extend_from_slice(item)?;
    Ok(())
}

// The start of a copy, up to the bracket that opens the array of its records.
fn copy_start(alloc: Global, head: &Head, count: usize) -> Result<Vec<u8>, NoMemory>
    ensures { IfOk result (λ out. (rest : List ℕ) → out.items ++ rest ≡ before_copy head.now count rest) }
{
    let mut out = Writer::new(Vec::new(alloc));
    out.begin_object()?;
    put_date(&mut out, head.moment)?;
    put_number(&mut out, "publication", u64::from(head.publication))?;
    put_records(&mut out, count)?;
    Ok(out.into_inner())
}

// The start of a delta, up to the bracket that opens the array of its records.
fn delta_start(alloc: Global, head: &Head, count: usize) -> Result<Vec<u8>, NoMemory>
    ensures { IfOk result (λ out. (rest : List ℕ) → out.items ++ rest ≡ before_delta head.now count rest) }
{
    let mut out = Writer::new(Vec::new(alloc));
    out.begin_object()?;
    put_date(&mut out, head.moment)?;
    put_number(&mut out, "fromPublication", u64::from(head.from))?;
    put_number(&mut out, "publication", u64::from(head.publication))?;
    put_records(&mut out, count)?;
    Ok(out.into_inner())
}

// Writes the moment of a file.
fn put_date(out: &mut Writer, moment: Moment) -> Result<(), NoMemory>
    ensures before { out.new.before ≡ out.old.before }
    ensures tokens { OnOk result (out.new.tokens
        ≡ out.old.tokens ++ (key (codes "contentDate") ∷ string (moment_text moment) ∷ [])) }
{
    out.key("contentDate")?;
    let text = moment.text();
    match str::from_utf8(text.as_slice()) {
        Ok(text) => out.string(text)?,
        Err(_) => unreachable!(),
    }
    Ok(())
}

// Writes a member that is a number.
fn put_number(out: &mut Writer, name: &str, value: u64) -> Result<(), NoMemory>
    ensures before { out.new.before ≡ out.old.before }
    ensures tokens { OnOk result
        (out.new.tokens ≡ out.old.tokens ++ (key name.now ∷ number (decimal value) ∷ [])) }
{
    out.key(name)?;
    out.u64(value)?;
    Ok(())
}

// Writes the number of records, and opens their array.
fn put_records(out: &mut Writer, count: usize) -> Result<(), NoMemory>
    ensures before { out.new.before ≡ out.old.before }
    ensures tokens { OnOk result (out.new.tokens ≡ out.old.tokens
        ++ (key (codes "recordCount") ∷ number (decimal count) ∷ key (codes "records") ∷ begin_array ∷ [])) }
{
    put_number(out, "recordCount", count as u64)?;
    out.key("records")?;
    out.begin_array()?;
    Ok(())
}
