//! The rules of a record's registration status: how it may change and by whom, and what it requires of the entity
//! status and renewal date. These rules are this project's own profile. No call takes memory.
#![tactic(auto)]

mod statuses;
mod transitions;

pub use statuses::{entity_fits, renewal_fits};
pub use transitions::{Party, transition};
