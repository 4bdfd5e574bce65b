//! What the headers of a head say.
ghost use Rattle.std.specs.Prelude.{◌≡◌, ◌<◌, ◌≤◌, ◌∷◌, List, All, true, length, map};
ghost use Rattle.std.specs.Str.Parse.{digits_value};
ghost use Rattle.std.specs.Str.{all_ascii_digits};
ghost use Rattle.httparse.specs.Spans.{IsHeaderWithin, header_bytes};
ghost use Rattle.http_heads.specs.Headers.{Header, content_length, header_facts, is_close, length_in, joint_length};

use crate::words::{are_alike, has_close};
use httparse::spans::HeaderSpan;

/// What the Content-Length headers of a head state together.
#[derive(Clone, Copy, Debug, PartialEq, Eq)]
pub enum ContentLength {
    /// There are none.
    Absent,
    /// The body has this many bytes.
    Bytes(usize),
    /// One of them isn't 1 to 10 digits, or two of them differ.
    Wrong,
}

// What the headers of a head say.
#[derive(Clone, Copy)]
pub struct HeaderFacts {
    // There is a Transfer-Encoding.
    pub coded: bool,
    pub body: ContentLength,
    // A Connection header has the part `close`.
    pub closes: bool,
}

// What the headers at these positions of the front say.
pub fn read_headers(front: &[u8], headers: &[HeaderSpan]) -> HeaderFacts
    requires { All (IsHeaderWithin (length front.now)) headers.now }
    ensures { result ≡ header_facts (map (header_bytes front.now) headers.now) }
{
    let mut facts = HeaderFacts {
        coded: false,
        body: ContentLength::Absent,
        closes: false,
    };
    for index in (0..headers.len()).rev() {
        let header = headers[index];
        facts = with_header(header.name.of(front), header.value.of(front), facts);
    }
    facts
}

// What a header says, together with those after it.
fn with_header(name: &[u8], value: &[u8], facts: HeaderFacts) -> HeaderFacts
    ensures { (others : List Header) → facts ≡ header_facts others
        → result ≡ header_facts ((name.now, value.now) ∷ others) }
{
    HeaderFacts {
        coded: are_alike(name, b"transfer-encoding") | facts.coded,
        body: with_length(name, value, facts.body),
        closes: is_close(name, value) | facts.closes,
    }
}

fn is_close(name: &[u8], value: &[u8]) -> bool
    ensures { result ≡ is_close (name.now, value.now) }
{
    are_alike(name, b"connection") && has_close(value)
}

fn with_length(name: &[u8], value: &[u8], others: ContentLength) -> ContentLength
    ensures { (headers : List Header) → others ≡ content_length headers
        → result ≡ content_length ((name.now, value.now) ∷ headers) }
{
    if are_alike(name, b"content-length") {
        joint_length(length_in(value), others)
    } else {
        others
    }
}

fn joint_length(number: Option<usize>, others: ContentLength) -> ContentLength
    ensures { result ≡ joint_length number others }
{
    match (number, others) {
        (Some(here), ContentLength::Absent) => ContentLength::Bytes(here),
        (Some(here), ContentLength::Bytes(other)) if here == other => ContentLength::Bytes(here),
        _ => ContentLength::Wrong,
    }
}

fn are_digits(value: &[u8]) -> bool
    ensures { result ≡ all_ascii_digits value.now }
{
    for byte in value {
        if !byte.is_ascii_digit() {
            return false;
        }
    }
    true
}

// The number of bytes that a value states.
#[tactic(auto, unfolding(crate::specs::Headers::length_in))]
fn length_in(value: &[u8]) -> Option<usize>
    ensures { result ≡ length_in value.now }
{
    if value.is_empty() || value.len() > 10 || !are_digits(value) {
        return None;
    }
    Some(number_of(value))
}

// The number that the digits write.
fn number_of(digits: &[u8]) -> usize
    requires some { 0 < length digits.now }
    requires few { length digits.now ≤ 10 }
    requires digits { all_ascii_digits digits.now ≡ true }
    ensures { result ≡ digits_value 10 digits.now }
{
    let text = match str::from_utf8(digits) {
        Ok(text) => text,
        Err(_) => unreachable!(),
    };
    match text.parse::<usize>() {
        Ok(number) => number,
        Err(_) => unreachable!(),
    }
}
