//! Texts in which `<NAME ARGUMENT ..>` means another text.
use crate::fault::Fault;
use crate::texts::{Named, Part, plain, text_named};
use lei_values::NoMemory;
use std::alloc::Global;

/// The parts of a text with these parameters, if these texts are known.
pub fn text_parts(
    alloc: Global,
    known: &[Named],
    parameters: &[&str],
    text: &str,
) -> Result<Vec<Part>, Fault> {
    let mut parts = Vec::new(alloc);
    for (place, piece) in text.split('<').enumerate() {
        if place == 0 {
            parts.push(plain(alloc, piece.as_bytes())?)?;
        } else {
            put_piece(alloc, known, parameters, &mut parts, piece)?;
        }
    }
    Ok(parts)
}

// Appends the parts of a piece that follows a `<`.
fn put_piece(
    alloc: Global,
    known: &[Named],
    parameters: &[&str],
    parts: &mut Vec<Part>,
    piece: &str,
) -> Result<(), Fault> {
    let Some((inside, after)) = piece.split_once('>') else {
        return Err(Fault::Form);
    };
    let words: Vec<&str> = inside.split(' ').collect(alloc)?;
    put_words(alloc, known, parameters, parts, words.as_slice())?;
    parts.push(plain(alloc, after.as_bytes())?)?;
    Ok(())
}

// Appends what a name with its arguments stands for: the hole of a parameter, a known text, or a byte.
fn put_words(
    alloc: Global,
    known: &[Named],
    parameters: &[&str],
    parts: &mut Vec<Part>,
    words: &[&str],
) -> Result<(), Fault> {
    let [name, arguments @ ..] = words else {
        return Err(Fault::Form);
    };
    if arguments.is_empty() {
        if let Some(index) = index_of(parameters, name) {
            parts.push(Part::Hole(index))?;
            return Ok(());
        }
    }
    match text_named(known, name, arguments.len()) {
        Some(text) => {
            for part in text.parts.as_slice() {
                put_part(alloc, known, parameters, parts, part, arguments)?;
            }
            Ok(())
        }
        None => put_byte(alloc, parts, name, arguments),
    }
}

// The index of a name among others.
fn index_of(names: &[&str], name: &str) -> Option<usize> {
    names.iter().position(|other| *other == name)
}

fn put_byte(
    alloc: Global,
    parts: &mut Vec<Part>,
    name: &str,
    arguments: &[&str],
) -> Result<(), Fault> {
    let [text] = arguments else {
        return Err(Fault::Form);
    };
    match text.parse::<u8>().ok() {
        Some(byte) if name == "byte" => {
            parts.push(plain(alloc, &[byte])?)?;
            Ok(())
        }
        _ => Err(Fault::Form),
    }
}

// Appends a part of a known text with these arguments in its holes.
fn put_part(
    alloc: Global,
    known: &[Named],
    parameters: &[&str],
    parts: &mut Vec<Part>,
    part: &Part,
    arguments: &[&str],
) -> Result<(), NoMemory> {
    match part {
        Part::Plain(bytes) => parts.push(plain(alloc, bytes.as_slice())?)?,
        Part::Hole(index) => {
            if let Some(word) = arguments.get(*index) {
                put_argument(alloc, known, parameters, parts, word)?;
            }
        }
    }
    Ok(())
}

// Appends what an argument stands for: the hole of a parameter, a known text, or the word itself.
fn put_argument(
    alloc: Global,
    known: &[Named],
    parameters: &[&str],
    parts: &mut Vec<Part>,
    word: &str,
) -> Result<(), NoMemory> {
    if let Some(index) = index_of(parameters, word) {
        parts.push(Part::Hole(index))?;
        return Ok(());
    }
    match text_named(known, word, 0) {
        Some(text) => put_copies(alloc, parts, text.parts.as_slice()),
        None => Ok(parts.push(plain(alloc, word.as_bytes())?)?),
    }
}

fn put_copies(alloc: Global, parts: &mut Vec<Part>, others: &[Part]) -> Result<(), NoMemory> {
    for part in others {
        let copy = match part {
            Part::Plain(bytes) => plain(alloc, bytes.as_slice())?,
            Part::Hole(index) => Part::Hole(*index),
        };
        parts.push(copy)?;
    }
    Ok(())
}
