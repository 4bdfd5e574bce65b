//! Why a shelf doesn't return a text.

/// Why a shelf doesn't return a copy or a delta.
#[derive(Clone, Copy, Debug, PartialEq, Eq)]
pub enum ShelfFault {
    /// There is no publication yet.
    NothingPublished,
    /// There is no publication of this number.
    PublicationUnknown,
    /// No publication is old enough.
    NoBase,
    /// Out of memory.
    NoMemory,
}
