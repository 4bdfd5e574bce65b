//! What the register keeps, in an SQLite store.
#![tactic(auto)]

mod faults;
mod keeper;
mod making;
mod moving;
mod over;
mod reading;
mod rows;
mod store;
mod writing;

pub use faults::Cause;
pub use keeper::SqliteKeeper;
