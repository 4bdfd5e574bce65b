//! Authority keys: the id that a registration authority gave to an entity. No two live records have the same key. No
//! call takes memory. This project's profile.
#![tactic(auto)]

mod keys;
mod laws;

pub use keys::{holds, is_live, key_of, taken};
pub use laws::free_records_keep_tables_sound;
