//! The terms under which items are judged.
use lei_code::Lei;
use lei_records::Rules;

/// The terms under which the items of one upload are judged: the same for each of them.
#[derive(Debug, Clone, Copy, PartialEq, Eq)]
pub struct Sitting {
    pub rules: Rules,
    /// The greatest number of records: of all that a table has or, if only some of its cells are known, of those that
    /// are added.
    pub limit: u32,
    /// The day, counted from 1970-01-01.
    pub today: i32,
    /// The issuer that uploads the items.
    pub issuer: Lei,
}
