//! Reading records of JSON, exactly in the form in which they are printed.
ghost use Rattle.std.specs.Prelude.{◌≡◌, List, ℕ, true, false, length, map, IfOk, Some};
ghost use Rattle.copy_forms.specs.Json.{json_names};
ghost use Rattle.copy_forms.specs.JsonTexts;
ghost use Rattle.copy_forms.specs.JsonReading as spec;
ghost use Rattle.copy_forms.specs.JsonReading.{AddsText, JsonGives, json_ranks, utf8_text};
ghost use Rattle.copy_csv.specs.Sheets;

use crate::json_strings::{after, escaped_from, plain_len};
use crate::json_text::places;
use copy_csv::sheets::name_at;
use copy_csv::{FormFault, Row, Sheet, Texts};
use json::Writer;
use lei_values::{Bytes, NoMemory};
use std::alloc::Global;
use std::str;

// For each field of a sheet, in order of place, its position in byte order of the names, counted from 1.
const LEI_RANKS: [u8; 32] = [
    25, 20, 21, 15, 13, 17, 14, 16, 10, 8, 12, 9, 11, 23, 22, 19, 1, 18, 3, 2, 24, 27, 28, 31, 30,
    29, 32, 26, 7, 4, 5, 6,
];

const RR_RANKS: [u8; 11] = [11, 9, 7, 8, 10, 6, 1, 2, 4, 3, 5];

const REPEX_RANKS: [u8; 4] = [4, 1, 2, 3];

fn ranks(sheet: Sheet) -> &'static [u8]
    ensures { result.now ≡ json_ranks sheet }
{
    match sheet {
        Sheet::Lei => &LEI_RANKS,
        Sheet::Rr => &RR_RANKS,
        Sheet::Repex => &REPEX_RANKS,
    }
}

/// What precedes the texts of a sheet's fields, in byte order of their names and each with its comma.
pub fn leads(alloc: Global, sheet: Sheet) -> Result<Vec<Bytes>, NoMemory>
    ensures { IfOk result (λ leads. leads.items ≡ map (JsonTexts.lead true) (json_names sheet)) }
{
    let mut leads = Vec::new(alloc);
    for place in places(sheet) {
        leads.push(lead(alloc, name_at(sheet, usize::from(*place)))?)?;
    }
    Ok(leads)
}

fn lead(alloc: Global, name: &str) -> Result<Bytes, NoMemory>
    ensures { IfOk result (λ lead. lead ≡ JsonTexts.lead true name.now) }
{
    let mut out = Vec::new(alloc);
    out.push(b',')?;
    let mut out = Writer::new(out);
    out.key(name)?;
    let mut out = out.into_inner();
    out.push(b'"')?;
    Ok(Bytes::from(out))
}

// Appends a text that a record may have: it isn't empty, and it is UTF-8.
fn put_text(texts: &mut Texts, text: &[u8]) -> Result<(), FormFault>
    ensures { AddsText (λ kept _. kept) texts.old texts.new result (utf8_text text.now) }
{
    if text.is_empty() {
        return Err(FormFault::NotRead);
    }
    match str::from_utf8(text) {
        Ok(text) => {
            texts.push(text)?;
            Ok(())
        }
        Err(_) => Err(FormFault::NotRead),
    }
}

// Appends the text of a string, read from after its opening quote, and returns the bytes after the string.
fn text_from<'a>(alloc: Global, texts: &mut Texts, bytes: &'a [u8]) -> Result<&'a [u8], FormFault>
    ensures { AddsText (λ text rest. (text, rest.now)) texts.old texts.new result
        (spec.json_text_from bytes.now) }
{
    let (plain, stop) = bytes.split_at(plain_len(bytes));
    if let Some(rest) = after(stop, b"\"") {
        put_text(texts, plain)?;
        return Ok(rest);
    }
    let (text, rest) = escaped_from(alloc, bytes)?;
    put_text(texts, text.as_slice())?;
    Ok(rest)
}

// Appends the text of a field, or the empty text if the field's lead doesn't come next. Returns whether a field
// precedes the bytes that follow, and these bytes.
fn field_from<'a>(
    alloc: Global,
    texts: &mut Texts,
    lead: &[u8],
    later: bool,
    bytes: &'a [u8],
) -> Result<(bool, &'a [u8]), FormFault>
    ensures { AddsText (λ text read. record { text = text; later = read.0; rest = read.1.now }) texts.old
        texts.new result
        (spec.field_after later bytes.now (spec.after_front lead.now bytes.now)) }
{
    match after(bytes, lead) {
        None => {
            texts.push("")?;
            Ok((later, bytes))
        }
        Some(text) => {
            let rest = text_from(alloc, texts, text)?;
            Ok((true, rest))
        }
    }
}

// A record's texts in byte order of the field names, read from after its opening brace, and the bytes after it.
fn fields_from<'a>(
    alloc: Global,
    sheet: Sheet,
    leads: &[Bytes],
    bytes: &'a [u8],
) -> Result<(Texts, &'a [u8]), FormFault>
    requires { leads.now ≡ map (JsonTexts.lead true) (json_names sheet) }
    ensures { JsonGives (λ read. (read.0, read.1.now)) result
        (spec.fields_from (json_names sheet) false bytes.now) }
{
    // Most texts are short.
    let room = leads.len().saturating_mul(16);
    let mut texts = Texts::with_capacity(alloc, leads.len(), room)?;
    let mut rest = bytes;
    let mut later = false;
    for lead in leads {
        (later, rest) = field_from(alloc, &mut texts, own_lead(lead, later), later, rest)?;
    }
    match after(rest, b"}") {
        Some(behind) => Ok((texts, behind)),
        None => Err(FormFault::NotRead),
    }
}

// The lead, without its comma if no field precedes it.
fn own_lead(lead: &Bytes, later: bool) -> &[u8]
    ensures { (name : List ℕ) → lead.now ≡ JsonTexts.lead true name → result.now ≡ JsonTexts.lead later name }
{
    let lead = lead.as_slice();
    if later {
        return lead;
    }
    match lead.split_first() {
        Some((_, lead)) => lead,
        None => lead,
    }
}

// The row of texts that are in byte order of their fields' names.
#[tactic(auto, unfolding(crate::specs::JsonReading::row_by_names))]
fn row_by_names(alloc: Global, sheet: Sheet, texts: &Texts) -> Result<Row, NoMemory>
    requires { length texts.now ≡ Sheets.width sheet }
    ensures { IfOk result (λ row. row ≡ spec.row_by_names sheet texts.now) }
{
    let mut row = Texts::with_capacity(alloc, texts.len(), texts.joined().len())?;
    for rank in ranks(sheet) {
        row.push(texts.text(usize::from(*rank)))?;
    }
    Ok(Row::of(sheet, row))
}

/// The row of a record, and the bytes after the record. The leads must be those of the sheet.
#[tactic(auto, unfolding(crate::specs::JsonReading::record_from))]
pub fn record_from<'a>(
    alloc: Global,
    sheet: Sheet,
    leads: &[Bytes],
    bytes: &'a [u8],
) -> Result<(Row, &'a [u8]), FormFault>
    requires { leads.now ≡ map (JsonTexts.lead true) (json_names sheet) }
    ensures { JsonGives (λ read. (read.0, read.1.now)) result (spec.record_from sheet bytes.now) }
{
    let Some(fields) = after(bytes, b"{") else {
        return Err(FormFault::NotRead);
    };
    let (texts, rest) = fields_from(alloc, sheet, leads, fields)?;
    Ok((row_by_names(alloc, sheet, &texts)?, rest))
}
