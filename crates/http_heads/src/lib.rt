//! HTTP requests and responses, apart from what a connection does. These are the heads of requests and which are
//! refused, what a request asks, and the heads of responses.
#![tactic(auto)]

mod asking;
mod head;
mod headers;
pub mod laws;
mod responses;
mod routes;
mod words;

pub use asking::asked_of;
pub use head::{Head, HeadRead, MAX_HEAD, read_head, read_whole, text_of, with_body};
pub use headers::ContentLength;
pub use responses::{Content, Response, put_head};
pub use routes::{Method, Place, router};
