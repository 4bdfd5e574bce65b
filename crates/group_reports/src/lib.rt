//! Reports on groups: which entities belong to an entity by direct parents, and where reported ultimate parents differ.
#![tactic(auto)]

mod arcs;
mod entity;
mod faults;
mod finding;
mod groups;
mod kinds;
mod laws;
mod lines;
mod links;
mod listing;
mod names;
mod opening;
mod places;
mod reports;
mod texts;
mod tops;
mod tree;

pub use faults::{GroupFault, ReportFault};
pub use groups::Groups;
pub use laws::members_are_those_with_a_chain;
