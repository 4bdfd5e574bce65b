//! The ledger: the entries of a history, and the lookups among them.
#![tactic(auto)]

mod index;
mod kinds;
mod ledger;
mod place;
mod totals;

pub use kinds::{ACCREDIT, PUBLISH, UPLOAD};
pub use ledger::Ledger;
pub use place::Place;
pub use totals::Totals;
