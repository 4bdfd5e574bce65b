//! The register's view of what it is kept in: a device that keeps entries and cells.
#![tactic(auto)]

mod fault;
mod keeper;

pub use fault::KeepFault;
pub use keeper::Keeper;
