//! The texts of answers.
ghost use Rattle.std.specs.Prelude.{◌≡◌, ◌≤◌, ◌+◌, ◌++◌, [], length, vec_len, vec_capacity, IfOk};
ghost use Rattle.serde_json.specs.View.{items_view, view};
ghost use Rattle.serde_json.specs.Written.{compact_text};
ghost use Rattle.search_queries.specs.Answers.{found_answer, found_value, name_answer, name_items, rows_text};

use lei_values::{Bytes, NoMemory, Text};
use name_search::Found;
use serde_json::{Value, json};
use std::alloc::Global;

/// This many bytes have room for the text with the number of rows, whatever that number is.
pub const ROWS_ROOM: usize = 64;

/// The answer if these rows were found, with the names of this page.
pub fn found_text(alloc: Global, found: &Found, page: u32) -> Result<Bytes, NoMemory>
    ensures { IfOk result
        (λ text. text ≡ compact_text (found_answer found.now.matches found.now.names page)) }
{
    let names = name_values(alloc, found.names.as_slice())?;
    let answer = found_answer(alloc, found.matches, names, page)?;
    Ok(Bytes::from(answer.to_vec(alloc)?))
}

fn found_answer(
    alloc: Global,
    matches: u64,
    names: Vec<Value>,
    page: u32,
) -> Result<Value, NoMemory>
    ensures { IfOk result (λ answer. view answer ≡ found_value matches (items_view names.items) page) }
{
    Ok(json!(in alloc; {
        "matches": matches,
        "names": Value::Array(names),
        "page": page
    })?)
}

// The values of the keys and names of rows.
fn name_values(alloc: Global, names: &[(Text, Text)]) -> Result<Vec<Value>, NoMemory>
    ensures { IfOk result (λ values. items_view values.items ≡ name_items names.now) }
{
    let mut values = Vec::with_capacity(alloc, names.len())?;
    for name in names {
        values.push(name_value(alloc, name)?)?;
    }
    Ok(values)
}

fn name_value(alloc: Global, name: &(Text, Text)) -> Result<Value, NoMemory>
    ensures { IfOk result (λ value. view value ≡ name_answer name.now) }
{
    let (key, legal) = (name.0.as_str(), name.1.as_str());
    Ok(json!(in alloc; {"LEI": key, "LegalName": legal})?)
}

/// The answer if this many rows are held after a delta. It is written into memory that was allocated before.
#[tactic(auto, unfolding(crate::specs::Answers::rows_text))]
pub fn rows_text(mut text: Vec<u8>, rows: u64) -> Bytes
    requires none { text.items ≡ [] }
    requires room { ROWS_ROOM ≤ vec_capacity text }
    ensures { result ≡ rows_text rows }
{
    let mut digits = itoa::Buffer::new();
    let digits = digits.format(rows).as_bytes();
    append(&mut text, b"{\"rows\":");
    append(&mut text, digits);
    append(&mut text, b"}");
    Bytes::from(text)
}

// Appends a piece, if there is room for it.
fn append(held: &mut Vec<u8>, piece: &[u8])
    requires { vec_len held.old + length piece.now ≤ vec_capacity held.old }
    ensures items { held.new.items ≡ held.old.items ++ piece.now }
    ensures len { vec_len held.new ≡ vec_len held.old + length piece.now }
    ensures room { vec_capacity held.old ≤ vec_capacity held.new }
{
    match held.extend_from_slice(piece) {
        Ok(()) => {}
        Err(_) => unreachable!(),
    }
}
