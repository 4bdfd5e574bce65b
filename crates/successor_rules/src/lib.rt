//! Successors: which entity followed another one, and that no chain of successors comes back. No call takes memory.
//! This project's profile.
#![tactic(auto)]

mod branches;
mod found;
mod laws;
mod spreading;
mod successors;
mod walks;

pub use branches::{SuccessorBranches, walk_by_levels};
pub use found::{Found, is_among};
pub use laws::{
    agreeing_views_tell_the_levels, clear_levels_keep_ends, clear_ways_keep_ends,
    ending_walks_keep_ends, ending_ways_never_return, levels_go_by_what_is_reached,
    others_are_counted_once, single_levels_are_chains,
};
pub use spreading::{Branches, reach, spread_from};
pub use successors::{SuccessorChain, walk};
pub use walks::{Chain, Walked, follow};
