//! The reasons why a delta isn't applied to a copy.

/// Why a delta isn't applied to a copy.
#[derive(Clone, Copy, Debug, PartialEq, Eq)]
pub enum ApplyFault {
    /// The copy isn't a copy of this sheet and form.
    CopyNotRead,
    /// The delta isn't a delta of this sheet and form.
    DeltaNotRead,
    /// In JSON: the number of the copy's publication, and the different number of the one that the delta starts from.
    WrongBase(u32, u32),
    /// In CSV of `lei`: the copy is wide, and the delta lacks columns that the copy has.
    OlderDelta,
    /// Out of memory.
    NoMemory,
}
