//! The command that serves the register over HTTP, over any keeper, desks and gate.
#![tactic(auto)]

mod desk;
mod serving;
mod words;
mod workers;

pub use desk::{Desk, DeskEnd, serve_desk};
pub use serving::serve;
pub use words::server_of;
