//! The lines of an input: what each asks, the bytes of the replies, and lines as the frames of an input. Also why a
//! command stops, and the status that it ends with.
#![tactic(auto)]

mod framing;
mod laws;
mod lines;
pub mod requests;
mod stop;
mod write_buffer;
mod writing;

pub use framing::{LineFraming, NoEnd};
pub use laws::lines_end_at_line_feeds;
pub use lines::{line_of, next_end};
pub use stop::{MAX_INPUT, Stop, ended_as};
pub use write_buffer::{BLOCK, WriteBuffer};
pub use writing::put_all;
