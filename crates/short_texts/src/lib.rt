//! Short texts as numbers, which a map compares without reading any text. No call takes memory.
#![tactic(auto)]

pub mod laws;
mod numbers;

pub use numbers::{packed, packed_pair};
