//! The lines of one sheet, and what the last publication replaced among them.
ghost use Rattle.std.specs.Prelude.{◌≡◌, ◌+◌, ◌≤◌, [], length, map, IfSome, OnOk, option_map};
ghost use Rattle.std.specs.FinMap.Entries.{find};
ghost use Rattle.lei_records.specs.Tables.{key_cmp};
ghost use Rattle.golden_shelf.specs.Keys.{key_texts};
ghost use Rattle.golden_shelf.specs.Lines.{with_lines};
ghost use Rattle.golden_shelf.specs.Sides.{AreRisingChanges, HasRoomForChanges, IsChanged, IsSameSide, notes_of};

use crate::lines::{Lines, Note};
use crate::rest::Rest;
use crate::weaving::weave;
use copy_csv::RowTexts;
use lei_records::RowKey;
use lei_values::NoMemory;
use std::alloc::Global;
use std::marker::Model;

/// The lines of a sheet, and notes of what the last publication replaced. Contracts also see how many lines there is
/// room for.
#[derive(Drop)]
pub struct Side {
    rows: Lines,
    rest: Rest,
    notes: Vec<Note>,
}

impl Model for Side {
    ghost use Rattle.golden_shelf.specs.Sides.{AreSide, SideState, notes_of};

    ghost Value = { SideState };

    ghost view = { λ s. record { lines = s.rows.lines; notes = notes_of s.notes.items; room = s.rest.room } };

    ghost invariant = { λ s. AreSide s.rows s.rest (notes_of s.notes.items) };
}

impl Side {
    /// No lines.
    pub fn new(alloc: Global) -> Self
        ensures lines { result.lines ≡ [] }
        ensures notes { result.notes ≡ [] }
    {
        Side {
            rows: Lines::new(alloc),
            rest: Rest::new(alloc),
            notes: Vec::new(alloc),
        }
    }

    /// The number of lines.
    pub fn len(&self) -> usize
        ensures { result ≡ length self.now.lines }
    {
        self.rows.len()
    }

    /// The texts of all lines, in order.
    pub fn texts(&self) -> &[RowTexts]
        ensures { result.now ≡ map (λ line. line.1) self.now.lines }
    {
        self.rows.texts()
    }

    /// The texts of the line of a key, if there is one.
    pub fn texts_under(&self, key: &RowKey) -> Option<&RowTexts>
        ensures { option_map (λ texts. texts.now) result ≡ find key_cmp (key_texts key.now) self.now.lines }
    {
        let index = self.rows.place(key)?;
        self.rows.texts().get(index)
    }

    /// Makes room to put this many changes and to take them back.
    pub fn make_room(&mut self, changes: usize) -> Result<(), NoMemory>
        ensures same { IsSameSide self.old self.new }
        ensures room { OnOk result (length self.old.lines + changes + changes ≤ self.new.room) }
    {
        let Some(total) = total_of(self.rows.len(), changes) else {
            return Err(NoMemory);
        };
        self.rows.reserve(total)?;
        self.rest.reserve(total)
    }

    /// Puts changes, and notes what they replace. There must be room for them.
    pub fn put(&mut self, changes: Vec<Note>)
        requires rising { AreRisingChanges (notes_of changes.items) }
        requires room { HasRoomForChanges self.old changes.items }
        ensures { IsChanged self.old self.new changes.items }
    {
        self.notes = changes;
        weave(&mut self.rows, &mut self.rest, self.notes.as_mut_slice());
    }

    /// Takes back the changes that were put last.
    pub fn take_back(&mut self)
        ensures lines { self.new.lines ≡ with_lines self.old.lines self.old.notes }
        ensures notes { self.new.notes ≡ [] }
    {
        weave(&mut self.rows, &mut self.rest, self.notes.as_mut_slice());
        self.notes.clear();
    }
}

// The number of lines plus twice the number of changes, unless the sum is too large.
fn total_of(lines: usize, changes: usize) -> Option<usize>
    ensures { IfSome result (λ total. total ≡ lines + changes + changes) }
{
    lines.checked_add(changes)?.checked_add(changes)
}
