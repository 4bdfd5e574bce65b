//! The queries of a mirror of the three tables, and the server that answers them.
#![tactic(auto)]

mod grammar;
mod laws;
mod server;
mod serving;
mod sizes;
mod texts;

pub use grammar::{MirrorGrammar, PacketHead, ShowQuery};
pub use laws::{
    publications_never_fall, queries_have_one_reply, served_mirrors_follow_trails,
    sessions_follow_trails,
};
pub use server::MirrorServer;
pub use serving::serve_mirror;
pub use sizes::{MAX_PACKET, MAX_SKIPPED};
