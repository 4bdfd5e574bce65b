//! One office for many callers, who put their requests to it in turns.
#![tactic(auto)]

mod answers;
mod calling;
mod hall;
mod slot;

pub use answers::Told;
pub use calling::Caller;
pub use hall::{Hall, Pass};
