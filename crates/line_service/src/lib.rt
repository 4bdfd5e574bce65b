//! Lines answered from the office of what a keeper has, for any source, sink, keeper and clock.
#![tactic(auto)]

mod damage;
mod lines;

pub use lines::run_lines;
