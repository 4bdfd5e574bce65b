//! What the rules need of a table: cells, and a view that answers for them.
ghost use Rattle.std.specs.Prelude.{◌≡◌};
ghost use Rattle.lei_records.specs.Cells.{Cells, rec_cell};
ghost use Rattle.lei_records.specs.Relations.{rel_cell};

use crate::item::Item;
use crate::record::Record;
use crate::relation::Relation;
use crate::successors::Successors;
use lei_code::Lei;
use lei_shapes::{
    Category, ExceptionCategory, Moment, RecordStatus, RelationRegistration, RelationStatus,
    RelationType,
};
use lei_values::{List, Text};

/// A view's answer for a cell.
#[derive(Clone, Copy, Debug, PartialEq, Eq)]
pub enum Seen<T> {
    /// The cell has this.
    Held(T),
    /// The view has the cell, and the cell is empty.
    Empty,
    /// The view lacks the cell.
    Missing,
}

/// What the rules need of a held record.
#[derive(Clone, Copy, Debug, PartialEq, Eq)]
pub struct RecCell {
    pub status: RecordStatus,
    pub manager: Lei,
    pub transfer_to: Option<Lei>,
    pub initial: Moment,
    pub updated: Moment,
    pub category: Category,
    pub successors: Successors,
}

/// What the rules need of a held relationship.
#[derive(Clone, Copy, Debug, PartialEq, Eq)]
pub struct RelCell {
    pub status: RelationStatus,
    pub registration: RelationRegistration,
}

/// The key of a row.
#[derive(Clone, Copy, Debug, PartialEq, Eq)]
pub enum RowKey {
    /// The record of an entity.
    Rec(Lei),
    /// The relationship with this start, type and end.
    Rel(Lei, RelationType, Lei),
    /// The exception with this LEI and category.
    Exc(Lei, ExceptionCategory),
}

/// The key of a cell.
#[derive(Debug, PartialEq, Eq, Drop)]
pub enum CellKey {
    /// The record of an entity.
    Rec(Lei),
    /// The relationship with this start, type and end.
    Rel(Lei, RelationType, Lei),
    /// The exception with this LEI and category.
    Exc(Lei, ExceptionCategory),
    /// The live record that has an authority key: a registration authority and its id for the entity.
    Key(Text, Text),
    /// The active relationship with this start and type.
    Act(Lei, RelationType),
}

/// What was read from a cell. An empty cell is `None`, or `false` if it is that of an exception.
#[derive(Clone, Copy, Debug, PartialEq, Eq)]
pub enum CellSeen {
    Rec(Option<RecCell>),
    Rel(Option<RelCell>),
    Exc(bool),
    Key(Option<Lei>),
    /// The end of the active relationship.
    Act(Option<Lei>),
}

/// What accepted items do to a table, in order of acceptance: the key of each with its item, or with `None` for a
/// withdrawal.
pub type Writes = List<(RowKey, Option<Item>)>;

/// The cells that were read, each with what it had.
pub type Reads = List<(CellKey, CellSeen)>;

/// Something that answers for the cells of a table, or of a part of one.
pub trait View {
    /// What it answers for each cell.
    ghost cells: { Self → Cells };

    /// The record of an entity.
    fn record_cell(&self, lei: &Lei) -> Seen<RecCell>
        ensures { result ≡ (cells self.now).record_cell lei.now };

    /// The LEI of the live record that has an authority key.
    fn holder(&self, authority: &str, id: &str) -> Seen<Lei>
        ensures { result ≡ (cells self.now).holder authority.now id.now };

    /// The relationship with this start, type and end.
    fn relation(&self, start: &Lei, kind: RelationType, end: &Lei) -> Seen<RelCell>
        ensures { result ≡ (cells self.now).relation start.now kind end.now };

    /// The end of the active relationship with this start and type.
    fn active(&self, start: &Lei, kind: RelationType) -> Seen<Lei>
        ensures { result ≡ (cells self.now).active start.now kind };

    /// Whether there is an exception with this LEI and category.
    fn exception(&self, lei: &Lei, category: ExceptionCategory) -> Seen<()>
        ensures { result ≡ (cells self.now).exception lei.now category };
}

impl Record {
    /// What the rules need of it.
    pub fn cell(&self) -> RecCell
        ensures { result ≡ rec_cell self.now }
    {
        RecCell {
            status: self.status(),
            manager: self.manager(),
            transfer_to: self.transfer_to(),
            initial: self.initial(),
            updated: self.updated(),
            category: self.category(),
            successors: self.successors(),
        }
    }
}

impl Relation {
    /// What the rules need of it.
    pub fn cell(&self) -> RelCell
        ensures { result ≡ rel_cell self.now }
    {
        RelCell {
            status: self.status(),
            registration: self.registration(),
        }
    }
}
