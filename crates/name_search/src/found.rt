//! The result of a search.
use lei_values::{List, Text};

/// What a search found.
#[derive(Debug, Drop)]
pub struct Found {
    /// The number of rows that match.
    pub matches: u64,
    /// The key and the name of each match on the page, in the order of the keys.
    pub names: List<(Text, Text)>,
}
