//! The register as one value, with its ledger, its table and its shelf. It decides how a request is answered and what
//! is added, and adds and keeps the entry.
#![tactic(auto)]

mod books;
mod deciding;
mod decision;
mod entries;
mod judge;
mod keeping;
mod planning;
mod publishing;
mod register;

pub use decision::Decision;
pub use entries::RULES;
pub use planning::{accepted_items, items_of, plan_of};
pub use register::Register;
