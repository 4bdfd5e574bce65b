//! The commands of the program, for any sources, any sink, any keeper and any clock, and with the devices of the
//! machine.
#![tactic(auto)]

mod command;
mod demo;
mod laws;
mod one_of;
mod program;
mod running;

pub use file_commands::no_file;
pub use laws::{
    applied_copies_lead_on, deltas_of_histories_lead_on, mirrors_show_copies_of_histories,
};
pub use one_of::OneOf;
pub use program::run;
pub use running::run_command;
