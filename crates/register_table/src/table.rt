//! The table: the cells that are held, and the writes that change them.
ghost use Rattle.std.specs.Prelude.{◌≡◌, ◌↔◌, ℕ, ◌+◌, [], Some, None, IsTrue, IfOk, IfSome, OnOk, OnErr, IsSome, map, option_map, take};
ghost use Rattle.std.specs.FinMap.{empty, len};
ghost use Rattle.cell_reads.specs.Reads.{Agrees};
ghost use Rattle.fetched_cells.specs.Fetching.{HasJust, fetched_keys};
ghost use Rattle.fetched_cells.specs.Maps.{fetched_view};
ghost use Rattle.lei_records.specs.Tables.{cells_of, put_all, record_count, row_at};
ghost use Rattle.lei_records.specs.declared.item.Item.{Item};
ghost use Rattle.register_table.specs.Cells.{AreOwnItems};
ghost use Rattle.register_table.specs.Held.{CanBeKept, no_rows, rows};
ghost use Rattle.register_table.specs.Touched.{cell_under_key, touched};
ghost use Rattle.register_table.specs.Undos.{IsLater, MayApply, touch_all};

use crate::authority_key_index::AuthorityKeyIndex;
use crate::cells::CellMap;
use crate::ends::Ends;
use crate::freed::{drop_freed, free_keys, take_back};
use crate::parts::{Note, Parts};
use crate::stamps::{Stamp, stamp_writes, stamps_within};
use crate::touched::Touched;
use crate::writes::put_writes;
use copy_forms::SharedItem;
use fetched_cells::Fetched;
use lei_code::Lei;
use lei_records::{CellKey, Reads, RecCell, RelCell, Seen, View, Writes};
use lei_shapes::{ExceptionCategory, RelationType};
use lei_values::NoMemory;
use std::alloc::Global;
use std::marker::Model;

/// The records, the relationships and the exceptions that are held, in ordered maps. Contracts see the cells that are
/// held, and those before the last writes, if these can be undone.
#[derive(Drop)]
pub struct Table {
    alloc: Global,
    parts: Parts,
    // Each key that was touched, after those of earlier entries.
    stamps: Vec<Stamp>,
    // What the last writes replaced, unless they were undone.
    last: Option<Vec<Note>>,
}

impl Model for Table {
    ghost use Rattle.std.specs.Prelude.{IfSome, map, option_map};
    ghost use Rattle.register_table.specs.Held.{TableState, state_code};
    ghost use Rattle.register_table.specs.Parts.{ArePartsOfTable, CanBeUndone, all_marks, note_cell};
    ghost use Rattle.register_table.specs.Stamps.{AreStamped, StampsDontFall};
    ghost use Rattle.register_table.specs.Undos.{cells_before};

    ghost Value = { TableState };

    ghost coded = { state_code };

    ghost view = { λ table. record {
      held = table.parts.cells;
      before = option_map (λ notes. cells_before (map note_cell notes.items) table.parts.cells) table.last;
    } };

    ghost invariant = { λ table. ArePartsOfTable table.parts
        × IfSome table.last (λ notes. CanBeUndone (all_marks table.parts) notes.items table.parts.cells)
        × StampsDontFall table.stamps.items × AreStamped table.stamps.items table.parts.cells
        × IfSome table.last (λ notes. AreStamped table.stamps.items
        (cells_before (map note_cell notes.items) table.parts.cells)) };
}

impl View for Table {
    ghost cells = { λ table. cells_of (rows table.held) };

    fn record_cell(&self, lei: &Lei) -> Seen<RecCell> {
        match self.parts.record(lei) {
            Some(record) => Seen::Held(record.cell()),
            None => Seen::Empty,
        }
    }

    fn holder(&self, authority: &str, id: &str) -> Seen<Lei> {
        match self.parts.holder(authority, id) {
            Some(lei) => Seen::Held(lei),
            None => Seen::Empty,
        }
    }

    fn relation(&self, start: &Lei, kind: RelationType, end: &Lei) -> Seen<RelCell> {
        match self.parts.relation(start, kind, end) {
            Some(relation) => Seen::Held(relation.cell()),
            None => Seen::Empty,
        }
    }

    fn active(&self, start: &Lei, kind: RelationType) -> Seen<Lei> {
        match self.parts.active(start, kind) {
            Some(end) => Seen::Held(end),
            None => Seen::Empty,
        }
    }

    fn exception(&self, lei: &Lei, category: ExceptionCategory) -> Seen<()> {
        if self.parts.has_exception(lei, category) {
            Seen::Held(())
        } else {
            Seen::Empty
        }
    }
}

impl Table {
    /// A table without cells.
    pub fn new(alloc: Global) -> Result<Self, NoMemory>
        ensures held { IfOk result (λ table. table.held ≡ empty) }
        ensures rows { IfOk result (λ table. rows table.held ≡ no_rows) }
        ensures numbers { IfOk result (λ table. (number : ℕ) → IsLater number table.held) }
        ensures before { IfOk result (λ table. table.before ≡ None) }
    {
        let parts = Parts {
            cells: CellMap::new(alloc),
            holders: AuthorityKeyIndex::new(alloc),
            ends: Ends::new(alloc),
        };
        Ok(Table {
            alloc,
            parts,
            stamps: Vec::new(alloc),
            last: None,
        })
    }

    /// Puts the writes of the entry with this number, from the first to the last. Each key that is written then has the
    /// number. If `prints` is set, the JSON record of each item is printed and held with it, so that nobody prints it
    /// again. If memory runs out, the table stays as it was, and so do the writes that can be undone.
    pub fn apply(&mut self, writes: &Writes, entry: u64, prints: bool) -> Result<(), NoMemory>
        requires may { MayApply writes.now (rows self.old.held) }
        requires later { IsLater entry self.old.held }
        ensures held { OnOk result (self.new.held ≡ touch_all entry writes.now self.old.held) }
        ensures rows { OnOk result (rows self.new.held ≡ put_all writes.now (rows self.old.held)) }
        ensures numbers { OnOk result (IsLater (entry + 1) self.new.held) }
        ensures before { OnOk result (self.new.before ≡ Some self.old.held) }
        ensures err { OnErr result (self.new ≡ self.old) }
    {
        let mut notes = Vec::with_capacity(self.alloc, writes.len())?;
        self.stamps.reserve(writes.len())?;
        free_keys(&mut self.parts, notes_of(&self.last));
        match put_writes(
            self.alloc,
            &mut self.parts,
            writes.as_slice(),
            entry,
            prints,
            &mut notes,
        ) {
            Ok(()) => {
                stamp_writes(&mut self.stamps, writes.as_slice(), entry);
                drop_freed(&mut self.parts, notes_of(&self.last));
                self.last = Some(notes);
                Ok(())
            }
            Err(NoMemory) => {
                take_back(&mut self.parts, notes, notes_of(&self.last));
                Err(NoMemory)
            }
        }
    }

    /// Undoes what the last successful `apply` put: numbers, rows and withdrawals. Nothing is allocated. There must be
    /// something to undo.
    pub fn undo(&mut self)
        requires { IsSome self.old.before }
        ensures held { Some self.new.held ≡ self.old.before }
        ensures before { self.new.before ≡ None }
    {
        if let Some(notes) = self.last.take() {
            take_back(&mut self.parts, notes, &[]);
        }
    }

    /// Each key that was last touched by an entry whose number is greater than `after` and at most `upto`, ordered by
    /// kind and key. Each has the item that is held under it, or none after a withdrawal.
    pub fn touched(&self, after: u64, upto: u64) -> Result<Vec<Touched>, NoMemory>
        ensures told { IfOk result
            (λ list. map cell_under_key list.items ≡ touched after upto self.now.held) }
        ensures own { IfOk result (λ list. AreOwnItems list.items) }
    {
        let stamps = stamps_within(self.stamps.as_slice(), after, upto);
        self.parts.cells.touched(self.alloc, stamps, after, upto)
    }

    /// The number of records.
    pub fn held(&self) -> u32
        ensures count { result ≡ record_count (rows self.now.held) }
        ensures kept { CanBeKept (rows self.now.held) }
    {
        self.parts.cells.counts().records as u32
    }

    /// The numbers of records, of relationships and of exceptions.
    pub fn counts(&self) -> (u64, u64, u64)
        ensures records { result.0 ≡ record_count (rows self.now.held) }
        ensures relations { result.1 ≡ len (rows self.now.held).relations }
        ensures exceptions { result.2 ≡ len (rows self.now.held).exceptions }
    {
        let counts = self.parts.cells.counts();
        (counts.records, counts.relations, counts.exceptions)
    }

    /// Whether each cell that was read, including empty ones, is that of the table. Nothing is allocated.
    pub fn agrees(&self, reads: &Reads) -> bool
        ensures { IsTrue result ↔ Agrees reads.now (rows self.now.held) }
    {
        cell_reads::agrees(self, reads)
    }

    /// The cells of these keys and, for each record among them, those of its successors and its direct parents. The
    /// successors are the first 201 different LEIs of its levels, level by level and in byte order within a level. The
    /// direct parents are those from it on, up to 200 members. The first `most` of all these cells are fetched. A cell
    /// that occurs twice counts twice.
    pub fn fetch(&self, keys: &[CellKey], most: u32) -> Result<Fetched, NoMemory>
        ensures { IfOk result (λ fetched. HasJust (fetched_view fetched) (cells_of (rows self.now.held))
            (take most (fetched_keys (cells_of (rows self.now.held)) keys.now))) }
    {
        fetched_cells::fetch(self.alloc, self, keys, most)
    }

    /// The record with this LEI, if one is held.
    pub fn show(&self, lei: &Lei) -> Option<&SharedItem>
        ensures { option_map (λ item. item.now) result
            ≡ option_map Item.Record (row_at (rows self.now.held) lei.now) }
    {
        self.parts.record_item(lei)
    }
}

// The notes of the last writes, if there are any.
fn notes_of(last: &Option<Vec<Note>>) -> &[Note]
    ensures some { IfSome last.now (λ notes. result.now ≡ notes.items) }
    ensures none { last.now ≡ None → result.now ≡ [] }
{
    match last {
        Some(notes) => notes.as_slice(),
        None => &[],
    }
}
