//! What the words after the program's name ask for, and the report to a person on how the program ended.
#![tactic(auto)]

mod arguments;
mod commands;
mod ends;
mod fault;
mod help;
mod runs;
mod telling;
mod version;

pub use arguments::words;
pub use fault::WordsFault;
pub use help::help_of;
pub use runs::{Command, WantedRun, wanted_run};
pub use telling::tell;
