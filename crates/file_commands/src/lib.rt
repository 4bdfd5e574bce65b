//! The commands of the program that need no register: over single texts, and over files that are read to their ends.
#![tactic(auto)]

mod applying;
mod codes;
mod files;
mod grouping;
mod mirroring;
mod searching;
mod writing;

pub use applying::apply;
pub use codes::{check, digits};
pub use files::{MAX_FILE, no_file};
pub use grouping::group;
pub use mirroring::mirror;
pub use searching::search;
pub use writing::tell_text;
