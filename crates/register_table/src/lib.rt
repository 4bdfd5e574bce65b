//! The records, the relationships and the exceptions that are held, in ordered maps. Writes are put in order, and the
//! last ones can be undone without allocating memory.
#![tactic(auto)]

mod authority_key_index;
mod cells;
mod counts;
mod ends;
mod freed;
mod keys;
mod long_key_index;
mod parts;
mod reading;
mod short_key_index;
mod slots;
mod stamps;
mod table;
mod touched;
mod writes;

pub use table::Table;
pub use touched::Touched;
