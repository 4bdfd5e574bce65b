//! Lines that are repeated for each number of a range.
use crate::codes::code_of;
use crate::fault::Fault;
use crate::texts::{Part, put_filled};
use lei_values::{Bytes, NoMemory};
use std::alloc::Global;

/// The names that a repeated line uses for its number: the number, its code, and the code of the number before it.
pub const NUMBER_NAMES: [&str; 3] = ["NUMBER", "LEI", "BEFORE"];

/// A line that is repeated: the numbers, from the first to the last, and the line as its sign and its text.
#[derive(Clone, Copy)]
pub struct Repeated<'a> {
    pub first: u32,
    pub last: u32,
    pub sign: &'a str,
    pub text: &'a str,
}

impl<'a> Repeated<'a> {
    /// What the rest of a line says after its word.
    pub fn read(rest: &'a str) -> Result<Self, Fault> {
        let mut words = rest.splitn(4, ' ');
        let (Some(first), Some(last)) = (words.next(), words.next()) else {
            return Err(Fault::Form);
        };
        let (Some(sign), Some(text)) = (words.next(), words.next()) else {
            return Err(Fault::Form);
        };
        match (first.parse::<u32>().ok(), last.parse::<u32>().ok()) {
            (Some(first), Some(last)) => Ok(Repeated {
                first,
                last,
                sign,
                text,
            }),
            _ => Err(Fault::Form),
        }
    }

    /// The bytes of the line, whose parts and whose end these are, for each of its numbers.
    pub fn bytes(&self, alloc: Global, parts: &[Part], end: &[u8]) -> Result<Vec<u8>, NoMemory> {
        let mut bytes = Vec::new(alloc);
        for number in self.first..=self.last {
            put_filled(&mut bytes, parts, &number_texts(alloc, number)?)?;
            bytes.extend_from_slice(end)?;
        }
        Ok(bytes)
    }
}

// The texts that the names stand for.
fn number_texts(alloc: Global, number: u32) -> Result<[Bytes; 3], NoMemory> {
    let decimal = format!(in alloc; "{number}")?;
    Ok([
        Bytes::copy_of(alloc, decimal.as_bytes())?,
        code_of(alloc, number)?,
        code_of(alloc, number.saturating_sub(1))?,
    ])
}
