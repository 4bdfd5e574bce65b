//! The publication that a delta starts from.

/// The publication that a delta starts from.
#[derive(Clone, Copy, Debug, PartialEq, Eq)]
pub enum Base {
    /// The one with this number.
    Number(u32),
    /// The last one that is at least a day older than the latest one.
    LastDay,
    /// The last one that is at least 7 days older.
    LastWeek,
    /// The last one that is at least 31 days older.
    LastMonth,
}
