//! An index of the rows of a golden copy by the words of their names.
#![tactic(auto)]

mod faults;
mod found;
mod gathering;
mod index;
mod key;
mod merging;
mod named_row;
mod opening;
mod places;
mod postings;
mod rising;
mod word;
mod words;

pub use faults::{FindFault, TakeFault};
pub use found::Found;
pub use index::Index;
pub use words::folded;
