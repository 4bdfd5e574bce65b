//! Applying a delta to a golden copy.
#![tactic(auto)]

mod applying;
mod csv;
mod fault;
mod json;

pub use applying::apply;
pub use fault::ApplyFault;
