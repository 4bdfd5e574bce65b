//! Why a packet isn't taken, and why nothing is shown.
ghost use Rattle.std.specs.Prelude.{◌≡◌};
ghost use Rattle.lei_mirror.specs.declared.faults.MirrorFault.TheVariants as taking;
ghost use Rattle.lei_mirror.specs.declared.faults.ShowFault.TheVariants as showing;

use lei_values::NoMemory;

/// Why a packet isn't taken.
#[derive(Clone, Copy, Debug, PartialEq, Eq)]
pub enum MirrorFault {
    /// Its bytes aren't a printed copy, or a printed delta, of the sheet in JSON.
    NotRead,
    /// It would be kept, but 64 packets are already kept, or those and this one have more than 536,870,912 bytes in
    /// total.
    Full,
    /// Out of memory.
    NoMemory,
}

impl From<NoMemory> for MirrorFault {
    ghost from_gives = { λ _ fault. fault ≡ taking.NoMemory };

    fn from(_: NoMemory) -> Self {
        MirrorFault::NoMemory
    }
}

/// Why nothing is shown.
#[derive(Clone, Copy, Debug, PartialEq, Eq)]
pub enum ShowFault {
    /// No publication is shown yet.
    NothingHeld,
    /// Out of memory.
    NoMemory,
}

impl From<NoMemory> for ShowFault {
    ghost from_gives = { λ _ fault. fault ≡ showing.NoMemory };

    fn from(_: NoMemory) -> Self {
        ShowFault::NoMemory
    }
}
