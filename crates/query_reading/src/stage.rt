//! How far an incomplete frame was read.
use crate::refusal::QueryRefusal;

/// How far an incomplete frame was read.
#[derive(Clone, Copy)]
pub enum FrameStage<H> {
    /// In its line. This many of the held bytes were searched, and have no line end.
    Line(usize),
    /// In its line, which is too long and isn't held.
    LongLine,
    /// In its packet, which has this many bytes. The line is no longer held.
    Packet(H, usize),
    /// In a packet that is refused and isn't held, with this many bytes left.
    Skipped(QueryRefusal, usize),
}
