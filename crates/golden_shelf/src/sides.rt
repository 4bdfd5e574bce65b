//! The lines of all sheets.
ghost use Rattle.std.specs.Prelude.{◌≡◌, [], OnOk, map};
ghost use Rattle.golden_shelf.specs.Lines.{with_lines};
ghost use Rattle.golden_shelf.specs.Sides.{AreRisingChanges, HasRoomForChanges, IsChanged, IsSameSide, notes_of};
ghost use Rattle.golden_shelf.specs.Parts.{side_of};

use crate::notes::Parts;
use crate::side::Side;
use copy_csv::{RowTexts, Sheet};
use lei_values::NoMemory;
use std::alloc::Global;

/// The lines of each sheet.
#[derive(Drop)]
pub struct Sides {
    pub lei: Side,
    pub rr: Side,
    pub repex: Side,
}

impl Sides {
    /// No lines.
    pub fn new(alloc: Global) -> Self
        ensures lei { result.lei.lines ≡ [] }
        ensures rr { result.rr.lines ≡ [] }
        ensures repex { result.repex.lines ≡ [] }
    {
        Sides {
            lei: Side::new(alloc),
            rr: Side::new(alloc),
            repex: Side::new(alloc),
        }
    }

    /// The lines of a sheet.
    pub fn of(&self, sheet: Sheet) -> &Side
        ensures { result.now ≡ side_of self.now sheet }
    {
        match sheet {
            Sheet::Lei => &self.lei,
            Sheet::Rr => &self.rr,
            Sheet::Repex => &self.repex,
        }
    }

    /// The texts of the lines of a sheet, in order.
    pub fn texts(&self, sheet: Sheet) -> &[RowTexts]
        ensures { result.now ≡ map (λ line. line.1) (side_of self.now sheet).lines }
    {
        match sheet {
            Sheet::Lei => self.lei.texts(),
            Sheet::Rr => self.rr.texts(),
            Sheet::Repex => self.repex.texts(),
        }
    }

    /// Makes room to put changes and to take them back.
    pub fn make_room(&mut self, parts: &Parts) -> Result<(), NoMemory>
        ensures lei { IsSameSide self.old.lei self.new.lei }
        ensures rr { IsSameSide self.old.rr self.new.rr }
        ensures repex { IsSameSide self.old.repex self.new.repex }
        ensures lei_room { OnOk result (HasRoomForChanges self.new.lei parts.now.lei.items) }
        ensures rr_room { OnOk result (HasRoomForChanges self.new.rr parts.now.rr.items) }
        ensures repex_room { OnOk result (HasRoomForChanges self.new.repex parts.now.repex.items) }
    {
        self.lei.make_room(parts.lei.len())?;
        self.rr.make_room(parts.rr.len())?;
        self.repex.make_room(parts.repex.len())
    }

    /// Puts changes. There must be room for them.
    pub fn put(&mut self, parts: Parts)
        requires lei_rising { AreRisingChanges (notes_of parts.lei.items) }
        requires rr_rising { AreRisingChanges (notes_of parts.rr.items) }
        requires repex_rising { AreRisingChanges (notes_of parts.repex.items) }
        requires lei_room { HasRoomForChanges self.old.lei parts.lei.items }
        requires rr_room { HasRoomForChanges self.old.rr parts.rr.items }
        requires repex_room { HasRoomForChanges self.old.repex parts.repex.items }
        ensures lei { IsChanged self.old.lei self.new.lei parts.lei.items }
        ensures rr { IsChanged self.old.rr self.new.rr parts.rr.items }
        ensures repex { IsChanged self.old.repex self.new.repex parts.repex.items }
    {
        let Parts { lei, rr, repex } = parts;
        self.lei.put(lei);
        self.rr.put(rr);
        self.repex.put(repex);
    }

    /// Takes back the changes that were put last.
    pub fn take_back(&mut self)
        ensures lei { self.new.lei.lines ≡ with_lines self.old.lei.lines self.old.lei.notes }
        ensures rr { self.new.rr.lines ≡ with_lines self.old.rr.lines self.old.rr.notes }
        ensures repex { self.new.repex.lines ≡ with_lines self.old.repex.lines self.old.repex.notes }
    {
        self.lei.take_back();
        self.rr.take_back();
        self.repex.take_back();
    }
}
