//! A mirror of the three tables of golden copies, fed by copies and deltas in any order.
#![tactic(auto)]

mod changes;
mod faults;
mod keeping;
mod kept_packet;
mod laws;
mod merging;
mod mirror;
mod packet;
mod reading;
mod ready;
mod settling;
mod shared;
mod showing;
mod tables;

pub use faults::{MirrorFault, ShowFault};
pub use laws::{bytes_spell_one_packet, packets_are_taken_in_one_way};
pub use mirror::{Mirror, Standing};
pub use packet::PacketKind;
