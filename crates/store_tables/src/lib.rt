//! The kept tables that the rows of a store tell, and what the statements make of them.
#![tactic(auto)]

pub mod laws;
