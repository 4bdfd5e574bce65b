//! Reads the body of an upload: a JSON object with lists of records, relationships and exceptions. Each of these is an
//! object whose values are texts.
#![tactic(auto)]

mod fault;
mod items;
mod ordered;
mod reading;
mod readying;
mod threads;

pub use fault::UploadFault;
pub use reading::{MAX_ITEMS, Reader, read_upload};
pub use register_words::Malformed;
