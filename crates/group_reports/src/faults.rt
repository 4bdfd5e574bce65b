//! Why no groups are opened, and why no group is reported.
ghost use Rattle.std.specs.Prelude.{◌≡◌};
ghost use Rattle.group_reports.specs.declared.faults.GroupFault.TheVariants as opening;
ghost use Rattle.group_reports.specs.declared.faults.ReportFault.TheVariants as reporting;

use lei_values::NoMemory;
use std::alloc::{AllocError, AllocFailed};

/// Why two copies aren't taken together.
#[derive(Clone, Copy, Debug, PartialEq, Eq)]
pub enum GroupFault {
    /// In JSON: the number of the publication of `lei`, and the different one of `rr`.
    OtherPublication(u32, u32),
    /// Memory ran out.
    NoMemory,
}

impl From<NoMemory> for GroupFault {
    ghost from_gives = { λ _ fault. fault ≡ opening.NoMemory };

    fn from(_: NoMemory) -> Self {
        GroupFault::NoMemory
    }
}

impl From<AllocError> for GroupFault {
    ghost from_gives = { λ _ fault. fault ≡ opening.NoMemory };

    fn from(_: AllocError) -> Self {
        GroupFault::NoMemory
    }
}

/// Why no group is reported.
#[derive(Clone, Copy, Debug, PartialEq, Eq)]
pub enum ReportFault {
    /// The copy of `lei` has no row for the root.
    LeiUnknown,
    /// Memory ran out.
    NoMemory,
}

impl From<NoMemory> for ReportFault {
    ghost from_gives = { λ _ fault. fault ≡ reporting.NoMemory };

    fn from(_: NoMemory) -> Self {
        ReportFault::NoMemory
    }
}
