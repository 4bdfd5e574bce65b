//! Sessions with the register, as they are written in files for readers: what is sent, and what must come back.
#![tactic(auto)]

mod came;
mod changes;
mod codes;
mod document;
mod fault;
mod filling;
mod repeating;
mod run;
mod session;
mod telling;
mod texts;

pub use came::Came;
pub use changes::{CellChange, CellName, Change, EntryChange};
pub use document::{Document, LineFault};
pub use fault::Fault;
pub use run::Run;
pub use session::Session;
pub use telling::{Trial, is_cut_short, is_wanted};
pub use texts::Named;
