//! Why a delta isn't taken, and why a search isn't made.
ghost use Rattle.std.specs.Prelude.{◌≡◌};
ghost use Rattle.name_search.specs.declared.faults.FindFault.TheVariants as finding;
ghost use Rattle.name_search.specs.declared.faults.TakeFault.TheVariants as taking;

use lei_values::NoMemory;
use std::alloc::{AllocError, AllocFailed};

/// Why an index doesn't take a delta.
#[derive(Clone, Copy, Debug, PartialEq, Eq)]
pub enum TakeFault {
    /// In JSON: the number of the copy's publication, and the different number that the delta starts from.
    WrongBase(u32, u32),
    /// In CSV: the copy is wide, and the delta lacks columns that the copy has.
    OlderDelta,
    /// Out of memory.
    NoMemory,
}

impl From<NoMemory> for TakeFault {
    ghost from_gives = { λ _ fault. fault ≡ taking.NoMemory };

    fn from(_: NoMemory) -> Self {
        TakeFault::NoMemory
    }
}

impl From<AllocError> for TakeFault {
    ghost from_gives = { λ _ fault. fault ≡ taking.NoMemory };

    fn from(_: AllocError) -> Self {
        TakeFault::NoMemory
    }
}

/// Why an index doesn't search.
#[derive(Clone, Copy, Debug, PartialEq, Eq)]
pub enum FindFault {
    /// The text has no word.
    NoWord,
    /// The text has more than 8 words. A word that occurs twice counts twice.
    TooManyWords,
    /// Out of memory.
    NoMemory,
}

impl From<NoMemory> for FindFault {
    ghost from_gives = { λ _ fault. fault ≡ finding.NoMemory };

    fn from(_: NoMemory) -> Self {
        FindFault::NoMemory
    }
}
