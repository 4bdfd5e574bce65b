//! One loop that reads requests from a wire, has an answerer answer them, and writes the replies, whatever the frames
//! of the bytes are.
#![tactic(auto)]

mod answering;
mod answers;
mod frames;
mod framing;
mod read_buffer;
mod serving;
mod wire;
mod writing;

pub use answers::Answers;
pub use frames::{Ended, Front, Want};
pub use framing::Framing;
pub use serving::{Intake, serve};
pub use wire::{Duplex, Wire, send_piece};
pub use writing::write_pieces;
