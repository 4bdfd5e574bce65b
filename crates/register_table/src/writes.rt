//! Puts writes into the parts of a table, with notes by which they can be undone.
ghost use Rattle.std.specs.Prelude.{◌≡◌, ◌+◌, ◌<◌, ◌≤◌, [], IfOk, IsSome, OnOk, length, map, option_map, vec_capacity, vec_len};
ghost use Rattle.std.specs.FinMap.{get};
ghost use Rattle.lei_records.specs.Tables;
ghost use Rattle.register_table.specs.Cells.{cell_in};
ghost use Rattle.register_table.specs.Held.{CanBeKept, cell_key, rows};
ghost use Rattle.register_table.specs.Parts.{ArePartsOfTable, CanBeUndone, MarksStay, NotesCell, all_marks, lei_marks, note_cell};
ghost use Rattle.register_table.specs.Undos;
ghost use Rattle.register_table.specs.Undos.{AreOwn, IsOwn, StaysKept, cells_before, touch, touch_all};

use crate::parts::{Note, Parts, put, put_back};
use crate::slots::Slot;
use copy_forms::SharedItem;
use lei_records::{Item, RowKey};
use lei_values::NoMemory;
use std::alloc::Global;

/// Puts the writes of the entry with this number, from the first to the last, and notes what they replace. If `prints`
/// is set, the JSON record of each item is printed and held with it. There must be capacity for the notes. If memory
/// runs out, the notes are of the writes that were put.
pub fn put_writes(
    alloc: Global,
    parts: &mut Parts,
    writes: &[(RowKey, Option<Item>)],
    entry: u64,
    prints: bool,
    notes: &mut Vec<Note>,
) -> Result<(), NoMemory>
    requires own { AreOwn writes.now }
    requires parts { ArePartsOfTable parts.old }
    requires kept { StaysKept writes.now (rows parts.old.cells) }
    requires empty { notes.old.items ≡ [] }
    requires room { length writes.now ≤ vec_capacity notes.old }
    ensures cells { OnOk result (parts.new.cells ≡ touch_all entry writes.now parts.old.cells) }
    ensures parts { ArePartsOfTable parts.new }
    ensures back { cells_before (map note_cell notes.new.items) parts.new.cells ≡ parts.old.cells }
    ensures undoable { CanBeUndone (lei_marks parts.new) notes.new.items parts.new.cells }
    ensures noted { MarksStay (all_marks parts.old) (all_marks parts.new) }
{
    for write in writes {
        put_write(alloc, parts, write, entry, prints, notes)?;
    }
    Ok(())
}

fn put_write(
    alloc: Global,
    parts: &mut Parts,
    write: &(RowKey, Option<Item>),
    entry: u64,
    prints: bool,
    notes: &mut Vec<Note>,
) -> Result<(), NoMemory>
    requires own { IsOwn write.now }
    requires parts { ArePartsOfTable parts.old }
    requires kept { CanBeKept (Tables.put_write (rows parts.old.cells) write.now) }
    requires undoable { CanBeUndone (lei_marks parts.old) notes.old.items parts.old.cells }
    requires room { vec_len notes.old < vec_capacity notes.old }
    ensures cells { OnOk result (parts.new.cells ≡ touch entry parts.old.cells write.now) }
    ensures parts { ArePartsOfTable parts.new }
    ensures back { cells_before (map note_cell notes.new.items) parts.new.cells
        ≡ cells_before (map note_cell notes.old.items) parts.old.cells }
    ensures undoable { CanBeUndone (lei_marks parts.new) notes.new.items parts.new.cells }
    ensures noted { MarksStay (all_marks parts.old) (all_marks parts.new) }
    ensures capacity { vec_capacity notes.new ≡ vec_capacity notes.old }
    ensures len { vec_len notes.new ≤ vec_len notes.old + 1 }
{
    let slot = slot_of(alloc, &write.1, entry, prints)?;
    let out = put(parts, write.0, slot)?;
    notes.push_reserved(Note {
        key: write.0,
        slot: out,
    });
    Ok(())
}

// A slot with the number of the entry that puts it, and an item that shares its texts with this one, or none.
fn slot_of(alloc: Global, item: &Option<Item>, entry: u64, prints: bool) -> Result<Slot, NoMemory>
    ensures { IfOk result (λ slot. (slot.item ≡ item.now) × (slot.entry ≡ entry)) }
{
    Ok(Slot {
        entry,
        item: shared(alloc, item, prints)?,
    })
}

// An item for several holders that shares its texts with this one, or none.
fn shared(alloc: Global, item: &Option<Item>, prints: bool) -> Result<Option<SharedItem>, NoMemory>
    ensures { IfOk result (λ shared. shared ≡ item.now) }
{
    match item {
        Some(item) if prints => Ok(Some(SharedItem::printed(alloc, item.share()?)?)),
        Some(item) => Ok(Some(SharedItem::of(alloc, item.share()?)?)),
        None => Ok(None),
    }
}

/// Puts back what was noted, from the last note to the first, and notes instead what was held. Nothing is allocated.
pub fn undo_notes(parts: &mut Parts, notes: &mut [Note])
    requires parts { ArePartsOfTable parts.old }
    requires undoable { CanBeUndone (all_marks parts.old) notes.old parts.old.cells }
    ensures cells { parts.new.cells ≡ cells_before (map note_cell notes.old) parts.old.cells }
    ensures parts { ArePartsOfTable parts.new }
    ensures noted { MarksStay (all_marks parts.old) (all_marks parts.new) }
{
    let mut left = notes.len();
    while left > 0 {
        left -= 1;
        undo_note(parts, &mut notes[left]);
    }
}

fn undo_note(parts: &mut Parts, note: &mut Note)
    requires parts { ArePartsOfTable parts.old }
    requires note { NotesCell (all_marks parts.old) note.old }
    requires kept { CanBeKept (rows (Undos.put_back parts.old.cells (note_cell note.old))) }
    requires here { IsSome (get parts.old.cells (cell_key note.old.key)) }
    ensures cells { parts.new.cells ≡ Undos.put_back parts.old.cells (note_cell note.old) }
    ensures out { option_map cell_in note.new.slot ≡ get parts.old.cells (cell_key note.old.key) }
    ensures parts { ArePartsOfTable parts.new }
    ensures noted { MarksStay (all_marks parts.old) (all_marks parts.new) }
{
    let slot = note.slot.take();
    note.slot = put_back(parts, note.key, slot);
}
