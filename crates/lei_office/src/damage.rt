//! Lines that report the first difference between what a keeper has and what its entries leave.
ghost use Rattle.std.specs.Prelude.{◌≡◌, ◌++◌, ◌∷◌, IfOk, OnOk, flat_map, map};
ghost use Rattle.register_history.specs.Damage.{cell_line, entry_line, kind_word, moment_word, or_dash, row_word};
ghost use Rattle.register_history.specs.Kept.{with_spaces};

use lei_shapes::Moment;
use lei_values::{Bytes, KeptCell, KeptEntry, NoMemory, Shared};
use std::alloc::Global;
use upload_ledger::{ACCREDIT, PUBLISH, UPLOAD};

// An entry in one line.
#[tactic(auto, unfolding(register_history::specs::Damage::entry_line))]
pub fn entry_line(alloc: Global, entry: &KeptEntry) -> Result<Bytes, NoMemory>
    ensures { IfOk result (λ line. line ≡ entry_line entry.now) }
{
    let (mut seq, mut number) = (itoa::Buffer::new(), itoa::Buffer::new());
    let (mut kind, mut rules) = (itoa::Buffer::new(), itoa::Buffer::new());
    let moment = moment_word(alloc, entry.moment)?;
    let words = [
        seq.format(entry.seq).as_bytes(),
        kind_word(entry.kind, &mut kind).as_bytes(),
        or_dash(entry.office.as_slice()),
        number.format(entry.number).as_bytes(),
        moment.as_slice(),
        rules.format(entry.rules).as_bytes(),
        entry.answer.as_slice(),
    ];
    join_words(alloc, &words)
}

// A cell in one line.
#[tactic(auto, unfolding(register_history::specs::Damage::cell_line))]
pub fn cell_line(alloc: Global, cell: &KeptCell) -> Result<Bytes, NoMemory>
    ensures { IfOk result (λ line. line ≡ cell_line cell.now) }
{
    let (mut kind, mut touched) = (itoa::Buffer::new(), itoa::Buffer::new());
    let words = [
        kind.format(cell.kind).as_bytes(),
        cell.name.as_slice(),
        touched.format(cell.touched).as_bytes(),
        row_word(&cell.row),
    ];
    join_words(alloc, &words)
}

// A kind as its word, or as its number if it has no word.
fn kind_word(kind: u8, buffer: &mut itoa::Buffer) -> &str
    ensures { result.now ≡ kind_word kind }
{
    match kind {
        ACCREDIT => "ACCREDIT",
        UPLOAD => "UPLOAD",
        PUBLISH => "PUBLISH",
        _ => buffer.format(kind),
    }
}

// The text, or `-` if it is empty.
fn or_dash(text: &[u8]) -> &[u8]
    ensures { result.now ≡ or_dash text.now }
{
    if text.is_empty() { b"-" } else { text }
}

// A moment in its printed form, and seconds outside the range of moments as a number.
fn moment_word(alloc: Global, seconds: i64) -> Result<Bytes, NoMemory>
    ensures { IfOk result (λ word. word ≡ moment_word seconds) }
{
    match Moment::of(seconds) {
        Some(moment) => Bytes::copy_of(alloc, &moment.text()),
        None => {
            let mut number = itoa::Buffer::new();
            Bytes::copy_of(alloc, number.format(seconds).as_bytes())
        }
    }
}

// The text of a row, or `-` if there is none.
fn row_word(row: &Option<Shared>) -> &[u8]
    ensures { result.now ≡ row_word row.now }
{
    match row {
        Some(row) => row.as_slice(),
        None => b"-",
    }
}

// Words, separated by single spaces.
#[tactic(auto, using(crate::proofs::Lines::joined_behind))]
fn join_words(alloc: Global, words: &[&[u8]]) -> Result<Bytes, NoMemory>
    ensures { IfOk result (λ text. text ≡ with_spaces (map (λ word. word.now) words.now)) }
{
    match words.split_first() {
        Some((first, others)) => join_after_first(alloc, first, others),
        None => Bytes::copy_of(alloc, b""),
    }
}

// A text followed by words, each after a space.
fn join_after_first(alloc: Global, first: &[u8], others: &[&[u8]]) -> Result<Bytes, NoMemory>
    ensures { IfOk result (λ text. text ≡ first.now ++ flat_map (λ word. 32 ∷ word.now) others.now) }
{
    let mut text = first.to_vec(alloc)?;
    append_words(&mut text, others)?;
    Ok(Bytes::from(text))
}

// Appends words to a text, each after a space.
fn append_words(text: &mut Vec<u8>, words: &[&[u8]]) -> Result<(), NoMemory>
    ensures { OnOk result (text.new.items ≡ text.old.items ++ flat_map (λ word. 32 ∷ word.now) words.now) }
{
    for word in words {
        text.push(b' ')?;
        text.extend_from_slice(word)?;
    }
    Ok(())
}
