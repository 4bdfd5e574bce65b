//! The register's view of the outside: devices that give and take bytes, give the time, or let connections in.
#![tactic(auto)]

mod clock;
mod door;
mod faults;
mod gate;
mod link;
mod sink;
mod source;

pub use clock::Clock;
pub use door::{Came, Door};
pub use faults::{Failed, SinkFault};
pub use gate::{Gate, OpenGate};
pub use link::{Link, send_all};
pub use sink::{Sink, write_all};
pub use source::Source;
