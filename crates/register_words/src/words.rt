// The readings of single words.
ghost use Rattle.std.specs.Prelude.{◌≡◌, ◌≤◌, ◌↔◌, decimal, IfSome, IsTrue};
ghost use Rattle.register_words.specs.Words.{base_named, form_named, lei_from, number_in_word, number_within, sheet_named};

use crate::base::Base;
use crate::sheets::{Form, Sheet};
use lei_code::Lei;

/// The greatest number of an upload, and of a publication. This project's profile.
pub const MAX_NUMBER: u32 = 1_000_000;

/// The LEI that the word is (ISO 17442-1), with correct check digits.
pub fn code_of(word: &[u8]) -> Option<Lei>
    ensures { result ≡ lei_from word.now }
{
    Lei::read(word).ok()
}

/// The number of an upload or of a publication that the word writes, from 1 to [`MAX_NUMBER`].
pub fn number_of(word: &[u8]) -> Option<u32>
    ensures { result ≡ number_in_word word.now }
{
    number_within(word, 1, MAX_NUMBER)
}

/// The number from `low` to `high` that the word writes in decimal, without sign or leading zero.
pub fn number_within(word: &[u8], low: u32, high: u32) -> Option<u32>
    ensures value { result ≡ number_within low high word.now }
    ensures range { IfSome result (λ number. (low ≤ number) × (number ≤ high)) }
{
    match str::from_utf8(word) {
        Ok(text) => number_in(text, low, high),
        Err(_) => None,
    }
}

fn number_in(text: &str, low: u32, high: u32) -> Option<u32>
    ensures value { result ≡ number_within low high text.now }
    ensures range { IfSome result (λ number. (low ≤ number) × (number ≤ high)) }
{
    let Ok(number) = text.parse::<u32>() else {
        return None;
    };
    if low <= number && number <= high && is_decimal(text, number) {
        Some(number)
    } else {
        None
    }
}

fn is_decimal(text: &str, number: u32) -> bool
    ensures { IsTrue result ↔ (text.now ≡ decimal number) }
{
    itoa::Buffer::new().format(number) == text
}

/// The sheet with this name.
pub fn sheet_of(word: &[u8]) -> Option<Sheet>
    ensures { result ≡ sheet_named word.now }
{
    if word == b"lei".as_slice() {
        return Some(Sheet::Lei);
    }
    if word == b"rr".as_slice() {
        return Some(Sheet::Rr);
    }
    if word == b"repex".as_slice() {
        return Some(Sheet::Repex);
    }
    None
}

/// The form with this name.
pub fn form_of(word: &[u8]) -> Option<Form>
    ensures { result ≡ form_named word.now }
{
    if word == b"csv".as_slice() {
        return Some(Form::Csv);
    }
    if word == b"json".as_slice() {
        return Some(Form::Json);
    }
    None
}

/// The base of a delta that the word names: by its number, or by its least age.
pub fn base_of(word: &[u8]) -> Option<Base>
    ensures { result ≡ base_named word.now }
{
    if word == b"last-day".as_slice() {
        return Some(Base::LastDay);
    }
    if word == b"last-week".as_slice() {
        return Some(Base::LastWeek);
    }
    if word == b"last-month".as_slice() {
        return Some(Base::LastMonth);
    }
    match number_of(word) {
        Some(number) => Some(Base::Number(number)),
        None => None,
    }
}
