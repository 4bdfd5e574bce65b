//! The changes of a publication, rendered and split by sheet.
ghost use Rattle.std.specs.Prelude.{◌≡◌, ◌+◌, ◌++◌, ◌∷◌, [], IfOk, OnOk, length, map};
ghost use Rattle.std.specs.List.{AllZip, filter};
ghost use Rattle.register_words.specs.declared.sheets.Sheet.{Sheet as DeclaredSheet};
ghost use Rattle.golden_shelf.specs.Keys.{is_key_of};
ghost use Rattle.golden_shelf.specs.Sides.{NotesChange};

use crate::lines::Note;
use copy_forms::ItemRow;
use lei_records::RowKey;
use lei_values::{List, NoMemory};
use std::alloc::Global;
use std::sync::ledger::Ledger;
use std::thread::Threads;
use worker_pool::{Steps, map_list};

/// The notes of each sheet.
#[derive(Drop)]
pub struct Parts {
    pub lei: Vec<Note>,
    pub rr: Vec<Note>,
    pub repex: Vec<Note>,
}

/// A change with its row rendered, if it has one.
pub fn render(alloc: Global, change: &(RowKey, Option<ItemRow>)) -> Result<Note, NoMemory>
    ensures { IfOk result (λ note. NotesChange change.now note) }
{
    let texts = match &change.1 {
        Some(row) => Some(row.texts(alloc)?),
        None => None,
    };
    Ok(Note {
        key: change.0,
        texts,
    })
}

/// The notes of all changes, rendered in as many threads as there are processors. Each change is a step.
pub fn render_all<L: Ledger, R: Threads + Sync>(
    rt: &R,
    alloc: Global,
    changes: &[(RowKey, Option<ItemRow>)],
    steps: &mut Steps<L>,
) -> Result<Vec<Note>, NoMemory>
    ensures notes { IfOk result (λ notes. AllZip NotesChange changes.now notes.items) }
    ensures steps { steps.new ≡ steps.old + length changes.now }
{
    map_list(
        rt,
        alloc,
        changes,
        |change: &(RowKey, Option<ItemRow>)| -> Result<Note, NoMemory>
            ensures { IfOk result (λ note. NotesChange change.now note) }
        { render(alloc, change) },
        steps,
    )
}

/// Notes split by sheet: each is in the part of its key's sheet.
pub fn split_notes(alloc: Global, notes: Vec<Note>) -> Result<Parts, NoMemory>
    ensures lei { IfOk result
        (λ parts. parts.lei.items ≡ filter (λ note. is_key_of DeclaredSheet.Lei note.key) notes.items) }
    ensures rr { IfOk result (λ parts. parts.rr.items
        ≡ filter (λ note. is_key_of DeclaredSheet.Rr note.key) notes.items) }
    ensures repex { IfOk result
        (λ parts. parts.repex.items ≡ filter (λ note. is_key_of DeclaredSheet.Repex note.key) notes.items) }
{
    let mut parts = Parts {
        lei: Vec::new(alloc),
        rr: Vec::new(alloc),
        repex: Vec::new(alloc),
    };
    for note in notes {
        put_part(&mut parts, note)?;
    }
    Ok(parts)
}

// Appends a note to those of its sheet.
fn put_part(parts: &mut Parts, note: Note) -> Result<(), NoMemory>
    ensures lei { OnOk result
        (parts.new.lei.items ≡ parts.old.lei.items
        ++ filter (λ note. is_key_of DeclaredSheet.Lei note.key) (note ∷ [])) }
    ensures rr { OnOk result (parts.new.rr.items
        ≡ parts.old.rr.items ++ filter (λ note. is_key_of DeclaredSheet.Rr note.key) (note ∷ [])) }
    ensures repex { OnOk result
        (parts.new.repex.items ≡ parts.old.repex.items
        ++ filter (λ note. is_key_of DeclaredSheet.Repex note.key) (note ∷ [])) }
{
    match note.key {
        RowKey::Rec(_) => parts.lei.push(note)?,
        RowKey::Rel(_, _, _) => parts.rr.push(note)?,
        RowKey::Exc(_, _) => parts.repex.push(note)?,
    }
    Ok(())
}

/// The keys of changes, in order.
pub fn keys_of(
    alloc: Global,
    changes: &[(RowKey, Option<ItemRow>)],
) -> Result<List<RowKey>, NoMemory>
    ensures { IfOk result (λ keys. keys ≡ map (λ change. change.0) changes.now) }
{
    let mut keys = Vec::with_capacity(alloc, changes.len())?;
    for change in changes {
        keys.push(change.0)?;
    }
    Ok(List::from(keys))
}
