//! A part of a view: the cells with some keys, and those of the walks from the records among them. It has as many of
//! these cells as there is room for. This project's profile.
#![tactic(auto)]

mod fetched;
mod fetching;
mod filling;
mod laws;
mod nearest;

pub use fetched::Fetched;
pub use fetching::fetch;
pub use laws::{nearest_leis_are_those_of_levels, needed_cells_are_fetched};
