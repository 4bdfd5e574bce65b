//! Texts with names.
use lei_values::{Bytes, List, NoMemory, Text};
use std::alloc::Global;

/// A part of a text: bytes as they are, or the hole of a parameter, by its index.
#[derive(Drop)]
pub enum Part {
    Plain(Bytes),
    Hole(usize),
}

/// A text with a name and this many parameters.
#[derive(Drop)]
pub struct Named {
    pub name: Text,
    pub parameters: usize,
    pub parts: List<Part>,
}

/// The text with this name and this many parameters.
pub fn text_named<'a>(known: &'a [Named], name: &str, parameters: usize) -> Option<&'a Named> {
    known.iter().find(|text| text.name.as_str() == name && text.parameters == parameters)
}

/// A part with these bytes.
pub fn plain(alloc: Global, bytes: &[u8]) -> Result<Part, NoMemory> {
    Ok(Part::Plain(Bytes::copy_of(alloc, bytes)?))
}

/// Appends the bytes of a text with these arguments in its holes.
pub fn put_filled(
    bytes: &mut Vec<u8>,
    parts: &[Part],
    arguments: &[Bytes],
) -> Result<(), NoMemory> {
    for part in parts {
        match part {
            Part::Plain(plain) => bytes.extend_from_slice(plain.as_slice())?,
            Part::Hole(index) => {
                if let Some(argument) = arguments.get(*index) {
                    bytes.extend_from_slice(argument.as_slice())?;
                }
            }
        }
    }
    Ok(())
}
