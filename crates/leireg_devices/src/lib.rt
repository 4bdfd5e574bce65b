//! The standard streams, files, TCP connections and the clock of the machine, as the devices of a run. There are also a
//! keeper and a sink that report to a person how far a long task is.
#![tactic(auto)]

mod clock;
mod files;
mod sockets;
mod streams;
mod watched;
mod watched_sink;

pub use clock::SystemClock;
pub use files::FileSource;
pub use sockets::{Deadlines, Operator, StreamLink, TcpDoor};
pub use streams::StdSink;
pub use watched::Watched;
pub use watched_sink::WatchedSink;
