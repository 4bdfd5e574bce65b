//! The person who runs a server.
use std::io;
use std::net::SocketAddr;

/// The person who runs a server, and who is informed of what happens to its listener.
pub trait Operator {
    /// From now on, connections to this address are accepted.
    fn note_listening(&mut self, address: SocketAddr);

    /// A connection couldn't be accepted, and the door tries again. This is called for the first of several failures in
    /// a row.
    fn note_accept_fault(&mut self, fault: &io::Error);
}
