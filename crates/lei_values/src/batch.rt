// What is kept together.

use crate::{KeptCell, KeptEntry, List};

/// What is kept in one step: an entry, and the cells that it touched.
#[derive(Debug, PartialEq, Eq, Drop)]
pub struct Batch {
    pub entry: KeptEntry,
    pub cells: List<KeptCell>,
}
