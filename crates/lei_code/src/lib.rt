//! Legal Entity Identifiers: reading and judging a code, and computing its check digits.
#![tactic(auto)]

pub mod code;
pub mod digits;
pub mod fault;
pub mod laws;
mod order;
mod remainder;

pub use code::Lei;
pub use digits::check_digits;
pub use fault::LeiFault;
