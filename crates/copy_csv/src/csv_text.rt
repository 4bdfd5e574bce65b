//! Printing lines of CSV with the crate `csv`.
ghost use Rattle.std.specs.Prelude.{◌≡◌, ◌<◌, ◌++◌, flat_map, length, take, IfOk, OnOk};
ghost use Rattle.copy_csv.specs.Csv.{after_comma, csv_fields_text, csv_line, joined_line, row_line, row_start, row_tail};
ghost use Rattle.copy_csv.specs.Records.{all_quoted};
ghost use Rattle.copy_csv.specs.Sheets.{column_names, names_shown, width as spec_width};
ghost use Rattle.item_fields.specs.Sheets.{read_texts};

use crate::rows::{Row, RowTexts};
use crate::sheets::{columns, name_at, width};
use csv::{QuoteStyle, WriterBuilder};
use lei_values::{Bytes, NoMemory};
use register_words::Sheet;
use std::alloc::Global;
use std::mem;

// The largest number of texts in a row of any sheet.
const MOST: usize = 32;

// The writer's configuration: every field in quotes, and lines of any number of fields.
fn quoting_builder() -> WriterBuilder
    ensures { result ≡ all_quoted }
{
    *WriterBuilder::new()
        .quote_style(QuoteStyle::Always)
        .flexible(true)
}

// Appends the line of these fields, as `csv` writes it.
fn put_line(out: &mut Vec<u8>, fields: &[&[u8]]) -> Result<(), NoMemory>
    requires { 0 < length fields.now }
    ensures { OnOk result (out.new.items ≡ out.old.items ++ csv_line (read_texts fields.now)) }
{
    let mut writer = quoting_builder().from_writer(mem::try_take(out)?);
    let Ok(()) = writer.write_fields(fields) else {
        return Err(NoMemory);
    };
    let Ok(written) = writer.into_inner() else {
        return Err(NoMemory);
    };
    *out = written;
    Ok(())
}

// Appends two lines, as `csv` writes them, and returns the offset at which the second one starts. One writer writes
// both, because a writer with its buffer costs more than what it writes here.
fn put_two_lines(out: &mut Vec<u8>, fields: &[&[u8]], others: &[&[u8]]) -> Result<usize, NoMemory>
    requires some { 0 < length fields.now }
    requires more { 0 < length others.now }
    ensures lines { OnOk result
        (out.new.items ≡ (out.old.items ++ csv_line (read_texts fields.now))
        ++ csv_line (read_texts others.now)) }
    ensures begins { IfOk result (λ start. start ≡ length (out.old.items
        ++ csv_line (read_texts fields.now))) }
{
    let mut writer = quoting_builder().from_writer(mem::try_take(out)?);
    let Ok(()) = writer.write_fields(fields) else {
        return Err(NoMemory);
    };
    let Ok(()) = writer.flush() else {
        return Err(NoMemory);
    };
    let start = writer.get_ref().len();
    let Ok(()) = writer.write_fields(others) else {
        return Err(NoMemory);
    };
    let Ok(written) = writer.into_inner() else {
        return Err(NoMemory);
    };
    *out = written;
    Ok(start)
}

// The texts of a row, in order of place. The entries of the array after them aren't texts of the row.
fn texts_of(row: &Row) -> [&[u8]; MOST]
    ensures { read_texts (take (length row.now.texts) result) ≡ row.now.texts }
{
    let mut texts: [&[u8]; MOST] = [b""; MOST];
    for index in 0..width(row.sheet()) {
        texts[index] = row.text_bytes(index + 1);
    }
    texts
}

// The line of these fields, without LF.
fn open_line(alloc: Global, room: usize, fields: &[&[u8]]) -> Result<Bytes, NoMemory>
    requires { 0 < length fields.now }
    ensures { IfOk result (λ text. text ≡ csv_fields_text (read_texts fields.now)) }
{
    let mut line = Vec::with_capacity(alloc, room)?;
    put_line(&mut line, fields)?;
    line.truncate(line.len() - 1);
    Ok(Bytes::from(line))
}

// The line of `fields`, and what the line has in addition if `others` follow them; both without LF.
fn two_texts(
    alloc: Global,
    room: usize,
    fields: &[&[u8]],
    others: &[&[u8]],
) -> Result<(Bytes, Bytes), NoMemory>
    requires some { 0 < length fields.now }
    requires more { 0 < length others.now }
    ensures line { IfOk result (λ texts. texts.0 ≡ csv_fields_text (read_texts fields.now)) }
    ensures further { IfOk result (λ texts. texts.1 ≡ flat_map after_comma (read_texts others.now)) }
{
    let mut line = Vec::with_capacity(alloc, room)?;
    let start = put_two_lines(&mut line, fields, others)?;
    let mut further = Vec::with_capacity(alloc, line.len() - start)?;
    further.push(b',')?;
    further.extend_from_slice(&line[start..line.len() - 1])?;
    line.truncate(start - 1);
    Ok((Bytes::from(line), Bytes::from(further)))
}

/// A row's line in a narrow file, and what a wide file adds to it; both without LF.
pub fn line_texts(alloc: Global, row: &Row) -> Result<(Bytes, Bytes), NoMemory>
    ensures start { IfOk result (λ texts. texts.0 ≡ row_start row.now) }
    ensures tail { IfOk result (λ texts. texts.1 ≡ row_tail row.now) }
{
    let texts = texts_of(row);
    let (narrow, full) = (columns(false, row.sheet()), width(row.sheet()));
    if narrow < full {
        return two_texts(
            alloc,
            line_room(row),
            &texts[..narrow],
            &texts[narrow..full],
        );
    }
    let start = open_line(alloc, line_room(row), &texts[..narrow])?;
    Ok((start, Bytes::from(Vec::new(alloc))))
}

// About how many bytes the row's line takes: its texts, and for each of them two quotes and a separator.
fn line_room(row: &Row) -> usize {
    row.joined().len().saturating_add(3 * width(row.sheet()))
}

/// Appends the line of a row in a file of this width.
pub fn put_row(out: &mut Vec<u8>, wide: bool, row: &Row) -> Result<(), NoMemory>
    ensures { OnOk result (out.new.items ≡ out.old.items ++ row_line wide row.now) }
{
    let texts = texts_of(row);
    put_line(out, &texts[..columns(wide, row.sheet())])
}

/// Appends the line of a row that was rendered.
pub fn put_joined(out: &mut Vec<u8>, wide: bool, texts: &RowTexts) -> Result<(), NoMemory>
    ensures { OnOk result (out.new.items ≡ out.old.items ++ joined_line wide texts.now) }
{
    out.extend_from_slice(texts.csv.as_slice())?;
    if wide {
        out.extend_from_slice(texts.tail.as_slice())?;
    }
    out.push(b'\n')?;
    Ok(())
}

// The names of a sheet's fields, in order of place. The entries of the array after them aren't names.
fn names_of(sheet: Sheet) -> [&'static [u8]; MOST]
    ensures { read_texts (take (spec_width sheet) result) ≡ column_names sheet }
{
    let mut names: [&'static [u8]; MOST] = [b""; MOST];
    for index in 0..width(sheet) {
        names[index] = name_at(sheet, index + 1).as_bytes();
    }
    names
}

/// Appends the line of the names in a file of this width.
pub fn put_names(out: &mut Vec<u8>, wide: bool, sheet: Sheet) -> Result<(), NoMemory>
    ensures { OnOk result (out.new.items ≡ out.old.items ++ csv_line (names_shown wide sheet)) }
{
    let names = names_of(sheet);
    put_line(out, &names[..columns(wide, sheet)])
}
