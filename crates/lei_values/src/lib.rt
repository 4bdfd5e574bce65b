//! The plain values of the register: bytes, texts and lists, and what it keeps of its entries and rows.
#![tactic(auto)]

mod batch;
mod cell;
mod entry;
mod list;
mod no_memory;
mod order;
mod shared;
mod texts;

pub use batch::Batch;
pub use cell::KeptCell;
pub use entry::KeptEntry;
pub use list::{Bytes, List, Text};
pub use no_memory::NoMemory;
pub use shared::Shared;
pub use texts::Texts;
