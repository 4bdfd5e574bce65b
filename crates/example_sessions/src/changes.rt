//! Changes to a store before a run, as they are written in lines.
use crate::fault::Fault;
use lei_shapes::Moment;
use lei_values::{Bytes, NoMemory, Shared};
use std::alloc::Global;

/// A change to a store: to the entry with a number, or to the cell with a name.
#[derive(Drop)]
pub enum Change {
    Entry(u64, EntryChange),
    Cell(CellName, CellChange),
}

/// What is changed of an entry.
#[derive(Drop)]
pub enum EntryChange {
    /// It is removed.
    Gone,
    Answer(Bytes),
    /// Its own number.
    Number(u32),
    /// Its moment, in seconds.
    Moment(i64),
    Rules(u16),
}

/// A cell's kind and name.
#[derive(Drop)]
pub struct CellName {
    pub kind: u8,
    pub name: Bytes,
}

/// What is changed of a cell.
#[derive(Drop)]
pub enum CellChange {
    /// It is removed.
    Gone,
    /// Its row, or that it has none.
    Row(Option<Shared>),
    /// The number of its entry. If there is no such cell, one without a row is added.
    Touched(u64),
}

impl Change {
    /// The change of a line, given as its first word and the rest after it.
    pub fn of(alloc: Global, word: &str, rest: &str) -> Result<Self, Fault> {
        let Some((first, rest)) = rest.split_once(' ') else {
            return Err(Fault::Form);
        };
        let Some(number) = first.parse::<u64>().ok() else {
            return Err(Fault::Form);
        };
        match word {
            "cell" => cell_change(alloc, number, rest),
            "changed" => {
                let answer = Bytes::copy_of(alloc, rest.as_bytes())?;
                Ok(Change::Entry(number, EntryChange::Answer(answer)))
            }
            "rules" => match rest.parse::<u16>().ok() {
                Some(rules) => Ok(Change::Entry(number, EntryChange::Rules(rules))),
                None => Err(Fault::Form),
            },
            _ => Ok(Change::Entry(number, entry_change(rest)?)),
        }
    }
}

// What is changed of an entry by a line with this rest.
fn entry_change(rest: &str) -> Result<EntryChange, Fault> {
    let change = match rest.split_once(' ') {
        None if rest == "gone" => Some(EntryChange::Gone),
        Some((word, text)) if word == "number" => number_change(text),
        Some((word, text)) if word == "moment" => moment_change(text),
        _ => None,
    };
    change.ok_or(Fault::Form)
}

fn number_change(text: &str) -> Option<EntryChange> {
    let number = text.parse::<u32>().ok()?;
    Some(EntryChange::Number(number))
}

fn moment_change(text: &str) -> Option<EntryChange> {
    let moment = Moment::read(text)?;
    Some(EntryChange::Moment(moment.seconds()))
}

// The change to a cell of this kind by a line with this rest.
fn cell_change(alloc: Global, kind: u64, rest: &str) -> Result<Change, Fault> {
    let (Some((name, rest)), Ok(kind)) = (rest.split_once(' '), u8::try_from(kind)) else {
        return Err(Fault::Form);
    };
    let name = Bytes::copy_of(alloc, name.as_bytes())?;
    let change = match rest.split_once(' ') {
        None if rest == "gone" => CellChange::Gone,
        None if rest == "row" => CellChange::Row(None),
        Some((word, text)) if word == "row" => row_change(alloc, text)?,
        Some((word, text)) if word == "touched" => match text.parse::<u64>().ok() {
            Some(touched) => CellChange::Touched(touched),
            None => return Err(Fault::Form),
        },
        _ => return Err(Fault::Form),
    };
    Ok(Change::Cell(CellName { kind, name }, change))
}

fn row_change(alloc: Global, text: &str) -> Result<CellChange, NoMemory> {
    Ok(CellChange::Row(Some(Shared::copy_of(alloc, text.as_bytes())?)))
}
