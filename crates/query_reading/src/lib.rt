//! Lines of queries, each perhaps with a packet of bytes after it, as the frames of an input.
#![tactic(auto)]

mod asked;
mod framing;
mod grammar;
mod laws;
mod refusal;
mod reply;
mod stage;
mod writing;

pub use asked::QueryAsked;
pub use framing::QueryFraming;
pub use grammar::{Grammar, LineMeaning, MAX_QUERY};
pub use laws::bytes_ask_one_thing;
pub use line_reading::NoEnd;
pub use refusal::QueryRefusal;
pub use reply::QueryReply;
