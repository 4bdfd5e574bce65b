//! A register of made-up records: the requests that make it, and a summary of the replies.
#![tactic(auto)]

mod asking;
mod bodies;
mod codes;
mod marks;
mod plan;
mod session;
mod summary;
mod whole;

pub use bodies::block_body;
pub use plan::{Group, block_count, request_count, upload_number};
pub use whole::demo;
