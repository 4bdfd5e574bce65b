//! The statements of the stored tables, the meaning of each statement's text, and which tables a store has.
#![tactic(auto)]

mod stage;

pub use stage::{Stage, stage_of};
