//! The cells of a table, in an ordered map.
ghost use Rattle.std.specs.Prelude.{◌≡◌, ◌++◌, ◌∷◌, [], true, Some, None, IfOk, OnOk, OnErr, IfSome, is_some, map, option_map};
ghost use Rattle.std.specs.List.{filter};
ghost use Rattle.std.specs.FinMap.{empty, entries, get, insert, remove};
ghost use Rattle.register_table.specs.Cells.{AreOwnCells, AreOwnItems, IsOwnCell, cell_in, held_in, owned_slots};
ghost use Rattle.register_table.specs.Counts.{AreCounts};
ghost use Rattle.lei_records.specs.Tables.{KeyTexts};
ghost use Rattle.register_table.specs.Held.{Cell, cell_key, row_in, rows};
ghost use Rattle.register_table.specs.Touched.{cell_under_key, is_touched, touched};
ghost use Rattle.register_table.specs.Stamps.{HasStamp};

use crate::counts::Counts;
use crate::keys::TextKey;
use crate::slots::Slot;
use crate::stamps::Stamp;
use crate::touched::{Touched, is_within, touched_of};
use lei_records::{Item, RowKey};
use lei_values::NoMemory;
use std::alloc::Global;
use std::collections::BTreeMap;
use std::marker::Model;

// To look up a cell and put it in order takes about as long as to go over this many cells in order.
const LOOK_UP: usize = 8;

// Borrowed slots under their keys.
type LentSlots<'a> = BTreeMap<TextKey, &'a Slot>;

/// The cells under their keys. Contracts see them as a finite map.
#[derive(Drop)]
pub struct CellMap {
    map: BTreeMap<TextKey, Slot>,
    counts: Counts,
}

impl Model for CellMap {
    ghost use Rattle.register_table.specs.Held.{Held, held_code, rows};
    ghost use Rattle.register_table.specs.Cells.{AreOwnCells, held_in};
    ghost use Rattle.register_table.specs.Counts.{AreCounts};

    ghost Value = { Held };

    ghost coded = { held_code };

    ghost view = { λ cells. held_in cells.map.entries };

    ghost invariant = { λ cells. AreOwnCells cells.map.entries
        × AreCounts cells.counts (rows (held_in cells.map.entries)) };
}

impl CellMap {
    /// A map without cells.
    pub fn new(alloc: Global) -> Self
        ensures { result ≡ empty }
    {
        let counts = Counts {
            records: 0,
            relations: 0,
            exceptions: 0,
        };
        CellMap {
            map: BTreeMap::new(alloc),
            counts,
        }
    }

    /// What is held under a key, or `None` if the key has no cell.
    pub fn get(&self, key: &RowKey) -> Option<&Slot>
        ensures cell { option_map (λ slot. cell_in slot.now) result ≡ get self.now (cell_key key.now) }
        ensures own { IfSome result (λ slot. IsOwnCell key.now slot.now) }
    {
        self.map.get(&TextKey { key: *key })
    }

    /// How many rows of each kind are held.
    pub fn counts(&self) -> Counts
        ensures { AreCounts result (rows self.now) }
    {
        self.counts
    }

    /// The cells whose numbers are greater than `after` and at most `upto`, in the order of their keys. Each of them
    /// must have a stamp. Few stamps are used to look up the cells. If there are many, all cells are gone over instead.
    pub fn touched(
        &self,
        alloc: Global,
        stamps: &[Stamp],
        after: u64,
        upto: u64,
    ) -> Result<Vec<Touched>, NoMemory>
        requires { (key : KeyTexts) (cell : Cell) → get self.now key ≡ Some cell
            → is_touched after upto cell ≡ true → HasStamp stamps.now cell.entry key }
        ensures told { IfOk result (λ list. map cell_under_key list.items ≡ touched after upto self.now) }
        ensures own { IfOk result (λ list. AreOwnItems list.items) }
    {
        if self.map.len() / LOOK_UP <= stamps.len() {
            let room = stamps.len().min(self.map.len());
            return touched_among(alloc, &self.map, room, after, upto);
        }
        let slots = self.slots_between(alloc, stamps, after, upto)?;
        touched_in(alloc, &slots)
    }

    // The slots whose numbers are greater than `after` and at most `upto`, looked up by their stamps.
    fn slots_between(
        &self,
        alloc: Global,
        stamps: &[Stamp],
        after: u64,
        upto: u64,
    ) -> Result<LentSlots<'_>, NoMemory>
        requires { (key : KeyTexts) (cell : Cell) → get self.now key ≡ Some cell
            → is_touched after upto cell ≡ true → HasStamp stamps.now cell.entry key }
        ensures found { IfOk result
            (λ slots. entries (held_in (owned_slots slots.entries)) ≡ touched after upto self.now) }
        ensures own { IfOk result (λ slots. AreOwnCells (owned_slots slots.entries)) }
    {
        let mut slots = BTreeMap::new(alloc);
        for stamp in stamps {
            if let Some(slot) = self.get(&stamp.key) {
                if is_within(slot, after, upto) {
                    lend(&mut slots, &stamp.key, slot)?;
                }
            }
        }
        Ok(slots)
    }

    /// Puts a cell under a key, and returns what was held there. If the key has a cell already, nothing is allocated.
    pub fn insert(&mut self, key: &RowKey, slot: Slot) -> Result<Option<Slot>, NoMemory>
        requires own { IsOwnCell key.now slot }
        ensures cells { OnOk result (self.new ≡ insert self.old (cell_key key.now) (cell_in slot)) }
        ensures out { IfOk result (λ out. option_map cell_in out ≡ get self.old (cell_key key.now)) }
        ensures own { IfOk result (λ out. IfSome out (IsOwnCell key.now)) }
        ensures err { OnErr result (self.new ≡ self.old) }
        ensures absent { OnErr result (get self.old (cell_key key.now) ≡ None) }
    {
        let is = slot.item.is_some();
        // The counts don't overflow, because no map has more than 2^63 cells.
        let _cells = self.map.len();
        match self.map.insert(TextKey { key: *key }, slot) {
            Ok(out) => {
                self.counts.change(key, has_item(&out), is);
                Ok(out)
            }
            Err(_) => Err(NoMemory),
        }
    }

    /// Removes the cell under a key, and returns it.
    pub fn remove(&mut self, key: &RowKey) -> Option<Slot>
        ensures cells { self.new ≡ remove self.old (cell_key key.now) }
        ensures out { option_map cell_in result ≡ get self.old (cell_key key.now) }
        ensures own { IfSome result (IsOwnCell key.now) }
    {
        let _cells = self.map.len();
        let out = self.map.remove(&TextKey { key: *key });
        self.counts.change(key, has_item(&out), false);
        out
    }
}

// Whether there is a slot that has an item.
fn has_item(slot: &Option<Slot>) -> bool
    ensures { result ≡ is_some (row_in (option_map cell_in slot.now)) }
{
    match slot {
        Some(slot) => slot.item.is_some(),
        None => false,
    }
}

// Puts a borrowed slot under its key.
fn lend<'a>(slots: &mut LentSlots<'a>, key: &RowKey, slot: &'a Slot) -> Result<(), NoMemory>
    requires own { IsOwnCell key.now slot.now }
    requires all_own { AreOwnCells (owned_slots slots.old.entries) }
    ensures cells { OnOk result (held_in (owned_slots slots.new.entries)
        ≡ insert (held_in (owned_slots slots.old.entries)) (cell_key key.now) (cell_in slot.now)) }
    ensures own { OnOk result (AreOwnCells (owned_slots slots.new.entries)) }
{
    match slots.insert(TextKey { key: *key }, slot) {
        Ok(_) => Ok(()),
        Err(_) => Err(NoMemory),
    }
}

// The slots under their keys, in the order of the keys. The result shares the items with the slots.
fn touched_in(alloc: Global, slots: &LentSlots<'_>) -> Result<Vec<Touched>, NoMemory>
    requires { AreOwnCells (owned_slots slots.now.entries) }
    ensures told { IfOk result
        (λ list. map cell_under_key list.items ≡ entries (held_in (owned_slots slots.now.entries))) }
    ensures own { IfOk result (λ list. AreOwnItems list.items) }
{
    let mut list = Vec::with_capacity(alloc, slots.len())?;
    for (key, slot) in slots {
        list.push(touched_of(&key.key, slot)?)?;
    }
    Ok(list)
}

// The cells whose numbers are greater than `after` and at most `upto`, found by going over all cells. Capacity for
// `room` of them is allocated at once.
fn touched_among(
    alloc: Global,
    cells: &BTreeMap<TextKey, Slot>,
    room: usize,
    after: u64,
    upto: u64,
) -> Result<Vec<Touched>, NoMemory>
    requires { AreOwnCells cells.now.entries }
    ensures told { IfOk result
        (λ list. map cell_under_key list.items ≡ touched after upto (held_in cells.now.entries)) }
    ensures own { IfOk result (λ list. AreOwnItems list.items) }
{
    // A step of the proof: the keys are in order.
    let _cells = cells.len();
    let mut list = Vec::with_capacity(alloc, room)?;
    for (key, slot) in cells {
        push_within(&mut list, &key.key, slot, after, upto)?;
    }
    Ok(list)
}

// Appends a slot under its key, if its number is greater than `after` and at most `upto`.
fn push_within(
    list: &mut Vec<Touched>,
    key: &RowKey,
    slot: &Slot,
    after: u64,
    upto: u64,
) -> Result<(), NoMemory>
    requires own { IsOwnCell key.now slot.now }
    requires all_own { AreOwnItems list.old.items }
    ensures told { OnOk result (map cell_under_key list.new.items ≡ map cell_under_key list.old.items
        ++ filter (λ cell. is_touched after upto cell.1) ((cell_key key.now, cell_in slot.now) ∷ [])) }
    ensures own { OnOk result (AreOwnItems list.new.items) }
{
    if is_within(slot, after, upto) {
        list.push(touched_of(key, slot)?)?;
    }
    Ok(())
}
