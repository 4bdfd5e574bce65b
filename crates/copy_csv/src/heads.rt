//! Heads of golden copies and of deltas, and what reading a whole copy or delta returns.
use crate::rows::{Change, Row};
use lei_shapes::Moment;
use lei_values::List;

/// The head of a copy or a delta in JSON. In CSV it isn't printed.
#[derive(Clone, Copy, Debug, PartialEq, Eq)]
pub struct Head {
    /// The moment of the publication.
    pub moment: Moment,
    /// The number of the publication, from 1 to 1,000,000.
    pub publication: u32,
    /// The number of the publication that a delta starts from, from 1 to 1,000,000; 0 in a copy.
    pub from: u32,
}

/// A golden copy that was read.
#[derive(Debug, Drop)]
pub struct CopyRead {
    /// `None` if and only if the copy is in CSV.
    pub head: Option<Head>,
    /// Whether the file is wide: it has a column for each field, including the last ones. True only in CSV of `lei`.
    pub wide: bool,
    pub rows: List<Row>,
}

/// A delta that was read.
#[derive(Debug, Drop)]
pub struct DeltaRead {
    /// `None` if and only if the delta is in CSV.
    pub head: Option<Head>,
    /// Whether the file is wide: it has a column for each field, including the last ones. True only in CSV of `lei`.
    pub wide: bool,
    pub changes: List<Change>,
}
