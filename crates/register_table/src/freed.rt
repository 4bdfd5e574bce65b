//! Keys of the indexes that writes freed. They stay until the next writes, so that the writes that freed them can be
//! undone without allocating memory, and are then dropped. Keys that writes took are dropped when these are undone.
ghost use Rattle.std.specs.Prelude.{◌≡◌, Some, map};
ghost use Rattle.std.specs.List.{All, AllByRecursion};
ghost use Rattle.lei_records.specs.declared.item.Item.{Item};
ghost use Rattle.register_table.specs.Held.{rows};
ghost use Rattle.register_table.specs.Parts.{ArePartsOfTable, CanBeUndone, IsMarked, IsNoteWithin, MarksAreWithin, MarksStay, NotesCell, all_marks, held_by, lei_marks, note_cell};
ghost use Rattle.register_table.specs.Undos.{cells_before};

use crate::authority_key_index::held_key;
use crate::parts::{Note, Parts};
use crate::writes::undo_notes;
use copy_forms::SharedItem;
use lei_records::{Item, Record, Relation};
use lei_values::NoMemory;

/// Undoes writes by their notes, and drops the keys that nobody holds any more, except those that the notes of the
/// writes before name. Nothing is allocated.
pub fn take_back(parts: &mut Parts, mut notes: Vec<Note>, before: &[Note])
    requires parts { ArePartsOfTable parts.old }
    requires undoable { CanBeUndone (all_marks parts.old) notes.items parts.old.cells }
    requires before { AllByRecursion (NotesCell (all_marks parts.old)) before.now }
    ensures cells { parts.new.cells ≡ cells_before (map note_cell notes.items) parts.old.cells }
    ensures parts { ArePartsOfTable parts.new }
    ensures before { AllByRecursion (NotesCell (all_marks parts.new)) before.now }
{
    undo_notes(parts, notes.as_mut_slice());
    free_keys(parts, notes.as_slice());
    hold_keys(parts, before);
    drop_freed(parts, notes.as_slice());
}

/// Frees the keys of the items of these notes that nobody holds any more. The indexes keep all keys, and no key gets an
/// LEI that had none.
pub fn free_keys(parts: &mut Parts, notes: &[Note])
    requires { ArePartsOfTable parts.old }
    ensures cells { parts.new.cells ≡ parts.old.cells }
    ensures parts { ArePartsOfTable parts.new }
    ensures noted { MarksStay (all_marks parts.old) (all_marks parts.new) }
    ensures fewer { MarksStay (lei_marks parts.new) (lei_marks parts.old) }
    ensures left { All (IsNoteWithin (lei_marks parts.new) (held_by (rows parts.old.cells))) notes.now }
{
    for note in notes {
        free_note(parts, note);
    }
}

fn free_note(parts: &mut Parts, note: &Note)
    requires { ArePartsOfTable parts.old }
    ensures cells { parts.new.cells ≡ parts.old.cells }
    ensures parts { ArePartsOfTable parts.new }
    ensures noted { MarksStay (all_marks parts.old) (all_marks parts.new) }
    ensures fewer { MarksStay (lei_marks parts.new) (lei_marks parts.old) }
    ensures left { IsNoteWithin (lei_marks parts.new) (held_by (rows parts.old.cells)) note.now }
{
    if let Some(slot) = &note.slot {
        free_item(parts, &slot.item);
    }
}

fn free_item(parts: &mut Parts, item: &Option<SharedItem>)
    requires { ArePartsOfTable parts.old }
    ensures cells { parts.new.cells ≡ parts.old.cells }
    ensures parts { ArePartsOfTable parts.new }
    ensures noted { MarksStay (all_marks parts.old) (all_marks parts.new) }
    ensures fewer { MarksStay (lei_marks parts.new) (lei_marks parts.old) }
    ensures left { MarksAreWithin (lei_marks parts.new) (held_by (rows parts.old.cells)) item.now }
{
    match item {
        Some(item) => match item.item() {
            Item::Record(record) => free_key(parts, record),
            Item::Relation(relation) => free_start(parts, relation),
            Item::Exception(_) => (),
        },
        None => (),
    }
}

fn free_key(parts: &mut Parts, record: &Record)
    requires { ArePartsOfTable parts.old }
    ensures cells { parts.new.cells ≡ parts.old.cells }
    ensures parts { ArePartsOfTable parts.new }
    ensures noted { MarksStay (all_marks parts.old) (all_marks parts.new) }
    ensures fewer { MarksStay (lei_marks parts.new) (lei_marks parts.old) }
    ensures left { MarksAreWithin (lei_marks parts.new) (held_by (rows parts.old.cells))
        (Some (Item.Record record.now)) }
{
    if let Some((authority, id)) = held_key(record) {
        if parts.holder(authority, id).is_none() {
            parts.holders.free(authority, id);
        }
    }
}

fn free_start(parts: &mut Parts, relation: &Relation)
    requires { ArePartsOfTable parts.old }
    ensures cells { parts.new.cells ≡ parts.old.cells }
    ensures parts { ArePartsOfTable parts.new }
    ensures noted { MarksStay (all_marks parts.old) (all_marks parts.new) }
    ensures fewer { MarksStay (lei_marks parts.new) (lei_marks parts.old) }
    ensures left { MarksAreWithin (lei_marks parts.new) (held_by (rows parts.old.cells))
        (Some (Item.Relation relation.now)) }
{
    if relation.is_active() {
        let (start, kind) = (relation.start(), relation.kind());
        if parts.active(&start, kind).is_none() {
            parts.ends.free(&start, kind);
        }
    }
}

/// Puts an LEI under each key of the items of these notes that has none, so that it isn't dropped. Keys that have an
/// LEI keep one. The indexes have the keys already, so nothing is allocated.
fn hold_keys(parts: &mut Parts, notes: &[Note])
    requires parts { ArePartsOfTable parts.old }
    requires places { AllByRecursion (NotesCell (all_marks parts.old)) notes.now }
    ensures cells { parts.new.cells ≡ parts.old.cells }
    ensures parts { ArePartsOfTable parts.new }
    ensures held { AllByRecursion (NotesCell (lei_marks parts.new)) notes.now }
{
    for note in notes {
        hold_note(parts, note);
    }
}

fn hold_note(parts: &mut Parts, note: &Note)
    requires parts { ArePartsOfTable parts.old }
    requires places { NotesCell (all_marks parts.old) note.now }
    ensures cells { parts.new.cells ≡ parts.old.cells }
    ensures parts { ArePartsOfTable parts.new }
    ensures noted { MarksStay (all_marks parts.old) (all_marks parts.new) }
    ensures taken { MarksStay (lei_marks parts.old) (lei_marks parts.new) }
    ensures held { NotesCell (lei_marks parts.new) note.now }
{
    if let Some(slot) = &note.slot {
        hold_item(parts, &slot.item);
    }
}

fn hold_item(parts: &mut Parts, item: &Option<SharedItem>)
    requires parts { ArePartsOfTable parts.old }
    requires places { IsMarked (all_marks parts.old) item.now }
    ensures cells { parts.new.cells ≡ parts.old.cells }
    ensures parts { ArePartsOfTable parts.new }
    ensures noted { MarksStay (all_marks parts.old) (all_marks parts.new) }
    ensures taken { MarksStay (lei_marks parts.old) (lei_marks parts.new) }
    ensures held { IsMarked (lei_marks parts.new) item.now }
{
    match item {
        Some(item) => match item.item() {
            Item::Record(record) => hold_key(parts, record),
            Item::Relation(relation) => hold_start(parts, relation),
            Item::Exception(_) => (),
        },
        None => (),
    }
}

fn hold_key(parts: &mut Parts, record: &Record)
    requires parts { ArePartsOfTable parts.old }
    requires places { IsMarked (all_marks parts.old) (Some (Item.Record record.now)) }
    ensures cells { parts.new.cells ≡ parts.old.cells }
    ensures parts { ArePartsOfTable parts.new }
    ensures noted { MarksStay (all_marks parts.old) (all_marks parts.new) }
    ensures taken { MarksStay (lei_marks parts.old) (lei_marks parts.new) }
    ensures held { IsMarked (lei_marks parts.new) (Some (Item.Record record.now)) }
{
    if let Some((authority, id)) = held_key(record) {
        if parts.holders.get(authority, id).is_none() {
            match parts.holders.put(record) {
                Ok(()) => (),
                Err(NoMemory) => unreachable!(),
            }
        }
    }
}

fn hold_start(parts: &mut Parts, relation: &Relation)
    requires parts { ArePartsOfTable parts.old }
    requires places { IsMarked (all_marks parts.old) (Some (Item.Relation relation.now)) }
    ensures cells { parts.new.cells ≡ parts.old.cells }
    ensures parts { ArePartsOfTable parts.new }
    ensures noted { MarksStay (all_marks parts.old) (all_marks parts.new) }
    ensures taken { MarksStay (lei_marks parts.old) (lei_marks parts.new) }
    ensures held { IsMarked (lei_marks parts.new) (Some (Item.Relation relation.now)) }
{
    if relation.is_active() {
        let (start, kind) = (relation.start(), relation.kind());
        if parts.ends.get(&start, kind).is_none() {
            match parts.ends.put(relation) {
                Ok(()) => (),
                Err(NoMemory) => unreachable!(),
            }
        }
    }
}

/// Drops the keys of the items of these notes that have no LEI. Keys that have an LEI keep one.
pub fn drop_freed(parts: &mut Parts, notes: &[Note])
    requires { ArePartsOfTable parts.old }
    ensures cells { parts.new.cells ≡ parts.old.cells }
    ensures parts { ArePartsOfTable parts.new }
    ensures taken { MarksStay (lei_marks parts.old) (lei_marks parts.new) }
    ensures fewer { MarksStay (all_marks parts.new) (all_marks parts.old) }
    ensures left { All (IsNoteWithin (all_marks parts.new) (lei_marks parts.new)) notes.now }
{
    for note in notes {
        drop_note(parts, note);
    }
}

fn drop_note(parts: &mut Parts, note: &Note)
    requires { ArePartsOfTable parts.old }
    ensures cells { parts.new.cells ≡ parts.old.cells }
    ensures parts { ArePartsOfTable parts.new }
    ensures taken { MarksStay (lei_marks parts.old) (lei_marks parts.new) }
    ensures fewer { MarksStay (all_marks parts.new) (all_marks parts.old) }
    ensures left { IsNoteWithin (all_marks parts.new) (lei_marks parts.new) note.now }
{
    if let Some(slot) = &note.slot {
        drop_item(parts, &slot.item);
    }
}

fn drop_item(parts: &mut Parts, item: &Option<SharedItem>)
    requires { ArePartsOfTable parts.old }
    ensures cells { parts.new.cells ≡ parts.old.cells }
    ensures parts { ArePartsOfTable parts.new }
    ensures taken { MarksStay (lei_marks parts.old) (lei_marks parts.new) }
    ensures fewer { MarksStay (all_marks parts.new) (all_marks parts.old) }
    ensures left { MarksAreWithin (all_marks parts.new) (lei_marks parts.new) item.now }
{
    match item {
        Some(item) => match item.item() {
            Item::Record(record) => drop_key(parts, record),
            Item::Relation(relation) => drop_start(parts, relation),
            Item::Exception(_) => (),
        },
        None => (),
    }
}

fn drop_key(parts: &mut Parts, record: &Record)
    requires { ArePartsOfTable parts.old }
    ensures cells { parts.new.cells ≡ parts.old.cells }
    ensures parts { ArePartsOfTable parts.new }
    ensures taken { MarksStay (lei_marks parts.old) (lei_marks parts.new) }
    ensures fewer { MarksStay (all_marks parts.new) (all_marks parts.old) }
    ensures left { MarksAreWithin (all_marks parts.new) (lei_marks parts.new)
        (Some (Item.Record record.now)) }
{
    if let Some((authority, id)) = held_key(record) {
        parts.holders.drop_freed(authority, id);
    }
}

fn drop_start(parts: &mut Parts, relation: &Relation)
    requires { ArePartsOfTable parts.old }
    ensures cells { parts.new.cells ≡ parts.old.cells }
    ensures parts { ArePartsOfTable parts.new }
    ensures taken { MarksStay (lei_marks parts.old) (lei_marks parts.new) }
    ensures fewer { MarksStay (all_marks parts.new) (all_marks parts.old) }
    ensures left { MarksAreWithin (all_marks parts.new) (lei_marks parts.new)
        (Some (Item.Relation relation.now)) }
{
    if relation.is_active() {
        parts.ends.drop_freed(&relation.start(), relation.kind());
    }
}
