//! Which cells of a table an item needs, a list of the cells that were read, and whether a view still agrees with that
//! list. This project's profile.
#![tactic(auto)]

mod agreeing;
mod cells;
mod naming;
mod noting;

pub use agreeing::agrees;
pub use naming::keys_of;
pub use noting::{Noted, note_needs};
