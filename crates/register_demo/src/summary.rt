//! Prints the summary.
ghost use Rattle.std.specs.Prelude.{◌≡◌, ◌++◌, ◌∷◌, [], decimal, IfOk, OnOk};
ghost use Rattle.register_demo.specs.Summary.{delta_lines, lines_text, publication_lines, verdict_lines};

use crate::marks::{digits_after, times};
use itoa::Buffer;
use lei_values::{Bytes, NoMemory};
use std::alloc::Global;

/// What the replies say about a register that was made.
#[derive(Drop)]
pub struct Told {
    /// The answers to its uploads, one after the other, without those to repeats.
    pub answers: Vec<u8>,
    /// How many repeated uploads got a reply with the status code 200.
    pub repeats: u32,
    /// How many publications were made.
    pub publications: u32,
    /// The answer to the last publication.
    pub published: Bytes,
    /// How many rows the delta of records has.
    pub records: usize,
    /// How many rows the delta of relationships has.
    pub relationships: usize,
    /// How many bytes the patched copy of relationships has.
    pub applied: usize,
}

// Appends a line with a name and the digits of a number.
fn put_digits(out: &mut Vec<u8>, name: &str, digits: &[u8]) -> Result<(), NoMemory>
    ensures { OnOk result (out.new.items ≡ out.old.items ++ lines_text ((name.now, digits.now) ∷ [])) }
{
    out.extend_from_slice(name.as_bytes())?;
    out.push(b' ')?;
    out.extend_from_slice(digits)?;
    out.push(b'\n')?;
    Ok(())
}

// Appends a line with a name and a number.
fn put_number(out: &mut Vec<u8>, name: &str, number: u64) -> Result<(), NoMemory>
    ensures { OnOk result (out.new.items ≡ out.old.items ++ lines_text ((name.now, decimal number) ∷ [])) }
{
    let mut digits = Buffer::new();
    put_digits(out, name, digits.format(number).as_bytes())
}

// Appends lines that say how many entries there are, and how many items were accepted and rejected.
fn put_verdicts(out: &mut Vec<u8>, entries: u64, answers: &[u8]) -> Result<(), NoMemory>
    ensures { OnOk result (out.new.items ≡ out.old.items ++ lines_text (verdict_lines entries answers.now)) }
{
    put_number(out, "entries", entries)?;
    put_number(out, "accepted", times(b"\"ACCEPTED\"", answers) as u64)?;
    put_number(out, "rejected C19", times(b"\"C19 ", answers) as u64)?;
    put_number(out, "rejected C32", times(b"\"C32 ", answers) as u64)?;
    put_number(out, "rejected C33", times(b"\"C33 ", answers) as u64)?;
    Ok(())
}

// Appends the lines about repeats and publications.
fn put_publications(
    out: &mut Vec<u8>,
    repeats: u32,
    publications: u32,
    answer: &[u8],
) -> Result<(), NoMemory>
    ensures { OnOk result (out.new.items
        ≡ out.old.items ++ lines_text (publication_lines repeats publications answer.now)) }
{
    put_number(out, "repeats", u64::from(repeats))?;
    put_number(out, "publications", u64::from(publications))?;
    put_digits(out, "lei", digits_after(b"\"lei\":", answer))?;
    put_digits(out, "rr", digits_after(b"\"rr\":", answer))?;
    Ok(())
}

// Appends the lines about deltas.
fn put_deltas(
    out: &mut Vec<u8>,
    records: usize,
    relationships: usize,
    applied: usize,
) -> Result<(), NoMemory>
    ensures { OnOk result (out.new.items
        ≡ out.old.items ++ lines_text (delta_lines records relationships applied)) }
{
    put_number(out, "delta lei", records as u64)?;
    put_number(out, "delta rr", relationships as u64)?;
    put_number(out, "applied rr csv", applied as u64)?;
    Ok(())
}

/// The summary of a register with this many entries.
pub fn summary_of(alloc: Global, entries: u64, told: &Told) -> Result<Bytes, NoMemory>
    ensures { IfOk result (λ text. text ≡ lines_text (verdict_lines entries told.now.answers.items
        ++ (publication_lines told.now.repeats told.now.publications told.now.published
        ++ delta_lines told.now.records told.now.relationships told.now.applied))) }
{
    let mut out = Vec::new(alloc);
    put_verdicts(&mut out, entries, &told.answers)?;
    put_publications(
        &mut out,
        told.repeats,
        told.publications,
        told.published.as_slice(),
    )?;
    put_deltas(&mut out, told.records, told.relationships, told.applied)?;
    Ok(Bytes::from(out))
}
