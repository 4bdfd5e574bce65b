//! The register over HTTP: the requests at the start of bytes, the responses to them, and a connection that is served
//! alone.
#![tactic(auto)]

mod connection;
mod ended;
mod framing;
mod requests;
mod responses;
mod serving;

pub use connection::{serve_caller, serve_connection};
pub use ended::Ended;
pub use requests::{HttpRead, next_head, next_request};
pub use responses::{Scratch, send_response};
pub use serving::{MAX_INPUT, serve_alone, serve_with};
