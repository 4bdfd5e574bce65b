//! Devices in memory: sources, sinks, links, doors, clocks and keepers. Some of them fail at the calls that they are
//! given.
#![tactic(auto)]

mod calls;
mod cell_list;
mod clock;
mod keeper;
mod link;
mod sink;
mod source;

pub use clock::ListClock;
pub use keeper::{MapKeeper, SureKeeper, may_be_kept};
pub use link::{ByteLink, ListDoor};
pub use sink::{ByteSink, SureSink};
pub use source::{ByteSource, SureSource};
