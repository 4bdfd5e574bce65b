//! The shelf: golden copies and deltas of a trail of publications, joined from texts that are kept.
#![tactic(auto)]

mod bases;
mod deltas;
mod fault;
mod issue;
mod keys;
mod lines;
mod notes;
mod order;
mod replacing;
mod rest;
mod shelf;
mod side;
mod sides;
mod touched;
mod weaving;

pub use fault::ShelfFault;
pub use issue::Issue;
pub use register_words::Base;
pub use shelf::Shelf;
