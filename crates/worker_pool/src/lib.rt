//! Work on each member of a list, in as many threads as there are processors.
#![tactic(auto)]

mod lists;
mod steps;

pub use lists::map_list;
pub use steps::Steps;
