//! Reading the starts of files in JSON, exactly in the form in which they are printed.
ghost use Rattle.std.specs.Prelude.{◌≡◌, ◌≤◌, ◌<◌, ◌==◌, ℕ, true, false, length, slice_index, option_map, Some, None, codes};
ghost use Rattle.std.specs.Char.{is_ascii_digit};
ghost use Rattle.copy_forms.specs.JsonReading as spec;
ghost use Rattle.copy_forms.specs.JsonReading.{JsonGives, publication_number_in};

use crate::json_strings::{after, escaped_from};
use copy_csv::FormFault;
use itoa::Buffer;
use lei_shapes::Moment;
use std::alloc::Global;
use std::str;

/// The moment of a file, and the bytes after it.
#[tactic(auto, unfolding(crate::specs::JsonReading::date_from, crate::specs::JsonReading::moment_from, json::specs::Print::escape_byte))]
pub fn date_from<'a>(alloc: Global, bytes: &'a [u8]) -> Result<(Moment, &'a [u8]), FormFault>
    ensures { JsonGives (λ read. (read.0, read.1.now)) result (spec.date_from bytes.now) }
{
    let Some(date) = after(bytes, b"{\"contentDate\":\"") else {
        return Err(FormFault::NotRead);
    };
    let (text, rest) = escaped_from(alloc, date)?;
    match printed_moment(text.as_slice()) {
        Some(moment) => Ok((moment, rest)),
        None => Err(FormFault::NotRead),
    }
}

// The moment whose printed form a text is.
fn printed_moment(text: &[u8]) -> Option<Moment>
    ensures { result ≡ spec.printed_moment text.now }
{
    let Ok(text) = str::from_utf8(text) else {
        return None;
    };
    let moment = Moment::read(text)?;
    if moment.text().as_slice() == text.as_bytes() {
        Some(moment)
    } else {
        None
    }
}

// How many digits the bytes start with.
fn digit_count(bytes: &[u8]) -> usize
    ensures within { result ≤ length bytes.now }
    ensures before { (k : ℕ) → k < result → is_ascii_digit (slice_index bytes.now k) ≡ true }
    ensures stop { result < length bytes.now → is_ascii_digit (slice_index bytes.now result) ≡ false }
{
    for (index, byte) in bytes.iter().enumerate() {
        if !byte.is_ascii_digit() {
            return index;
        }
    }
    bytes.len()
}

// The number whose decimal form these digits are.
fn number_of(digits: &[u8]) -> Option<u64>
    ensures { result ≡ publication_number_in digits.now }
{
    let number = match str::from_utf8(digits) {
        Ok(digits) => digits.parse::<u64>(),
        Err(_) => return None,
    };
    let Ok(number) = number else {
        return None;
    };
    let mut buffer = Buffer::new();
    if buffer.format(number).as_bytes() == digits {
        Some(number)
    } else {
        None
    }
}

// The number that comes first, and the bytes after its digits.
fn number_from(bytes: &[u8]) -> Option<(u64, &[u8])>
    ensures { option_map (λ read. (read.0, read.1.now)) result ≡ spec.number_from bytes.now }
{
    let (digits, rest) = bytes.split_at(digit_count(bytes));
    match number_of(digits) {
        Some(number) => Some((number, rest)),
        None => None,
    }
}

// The number of a publication after a prefix, and the bytes after the number.
#[tactic(auto, unfolding(crate::specs::JsonReading::publication_after_front))]
fn publication_after_front<'a>(bytes: &'a [u8], front: &[u8]) -> Option<(u32, &'a [u8])>
    ensures { option_map (λ read. (read.0, read.1.now)) result
        ≡ spec.publication_after_front front.now bytes.now }
{
    let Some((number, rest)) = number_after_front(bytes, front) else {
        return None;
    };
    if matches!(number, 1..=1_000_000) {
        Some((number as u32, rest))
    } else {
        None
    }
}

// The number after a prefix, and the bytes after the number.
fn number_after_front<'a>(bytes: &'a [u8], front: &[u8]) -> Option<(u64, &'a [u8])>
    ensures { option_map (λ read. (read.0, read.1.now)) result ≡ spec.number_after_front front.now bytes.now }
{
    match after(bytes, front) {
        Some(digits) => number_from(digits),
        None => None,
    }
}

/// The number of a file's publication, and the bytes after it.
#[tactic(auto, unfolding(json::specs::Print::escape_byte))]
pub fn publication_from(bytes: &[u8]) -> Option<(u32, &[u8])>
    ensures { option_map (λ read. (read.0, read.1.now)) result
        ≡ spec.publication_from (codes "publication") bytes.now }
{
    publication_after_front(bytes, b",\"publication\":")
}

/// The number of the publication that a delta starts from, and the bytes after it.
#[tactic(auto, unfolding(json::specs::Print::escape_byte))]
pub fn base_from(bytes: &[u8]) -> Option<(u32, &[u8])>
    ensures { option_map (λ read. (read.0, read.1.now)) result
        ≡ spec.publication_from (codes "fromPublication") bytes.now }
{
    publication_after_front(bytes, b",\"fromPublication\":")
}

/// The number of records in a file, and the bytes after the bracket that opens their array.
#[tactic(auto, unfolding(crate::specs::JsonReading::count_from, json::specs::Print::escape_byte))]
pub fn count_from(bytes: &[u8]) -> Option<(u64, &[u8])>
    ensures { option_map (λ read. (read.0, read.1.now)) result ≡ spec.count_from bytes.now }
{
    let Some((count, rest)) = number_after_front(bytes, b",\"recordCount\":") else {
        return None;
    };
    match after(rest, b",\"records\":[") {
        Some(records) => Some((count, records)),
        None => None,
    }
}
