//! TCP connections, and the door that they come through, with the deadlines that keep a slow peer from holding up a
//! server.

mod closing;
mod deadlines;
mod door;
mod link;
mod operator;

pub use deadlines::Deadlines;
pub use door::TcpDoor;
pub use link::StreamLink;
pub use operator::Operator;
