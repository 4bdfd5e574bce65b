//! The terms of the next entry.
use lei_shapes::Moment;

/// The rules by which an entry is made, and its moment.
#[derive(Debug, Clone, Copy, PartialEq, Eq)]
pub struct EntryTerms {
    /// The number of the rules, from 1 to the newest.
    pub rules: u16,
    pub moment: Moment,
}
