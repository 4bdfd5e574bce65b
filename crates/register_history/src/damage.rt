//! The differences between a store and what the replay of its entries makes.

use lei_values::Bytes;

/// The first difference between what a keeper has and what the replay of its entries makes.
#[derive(Debug, PartialEq, Eq, Drop)]
pub struct Damage {
    /// The number of the entry that differs, or of the entry that touched the cell last.
    pub entry: u64,
    /// What is kept, in one line, or `none`.
    pub kept: Bytes,
    /// What the replay makes instead: a line, the text of a reply, `none` or `NOT_AN_ENTRY`.
    pub replayed: Bytes,
}
