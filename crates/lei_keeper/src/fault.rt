// Why a keeper may refuse.
ghost use Rattle.std.specs.Prelude.{◌≡◌};

use lei_values::NoMemory;
use std::alloc::{AllocError, AllocFailed};
use std::error::Error;
use std::fmt;

/// Why a keeper kept or returned nothing.
#[derive(Clone, Copy, Debug, PartialEq, Eq)]
pub enum KeepFault {
    /// The device failed.
    Failed,
    /// Memory ran out.
    NoMemory,
}

impl fmt::Display for KeepFault {
    ghost use Rattle.std.specs.Prelude.{Some};
    ghost use Rattle.lei_keeper.specs.Faults.{keep_fault_text};

    ghost output = { λ fault. Some (keep_fault_text fault) };

    fn fmt<W: fmt::Write>(&self, f: &mut fmt::Formatter<W>) -> fmt::Result {
        match self {
            KeepFault::Failed => write!(f, "the keeper failed"),
            KeepFault::NoMemory => write!(f, "out of memory"),
        }
    }
}

impl Error for KeepFault {}

impl From<AllocError> for KeepFault {
    ghost use Rattle.lei_keeper.specs.declared.fault.KeepFault.TheVariants.{NoMemory as OutOfMemory};

    ghost from_gives = { λ _ e. e ≡ OutOfMemory };

    fn from(_: AllocError) -> Self {
        KeepFault::NoMemory
    }
}

impl<T: Drop> From<AllocFailed<T>> for KeepFault {
    ghost use Rattle.lei_keeper.specs.declared.fault.KeepFault.TheVariants.{NoMemory as OutOfMemory};

    ghost from_gives = { λ _ e. e ≡ OutOfMemory };

    fn from(_: AllocFailed<T>) -> Self {
        KeepFault::NoMemory
    }
}

impl From<NoMemory> for KeepFault {
    ghost use Rattle.lei_keeper.specs.declared.fault.KeepFault.TheVariants.{NoMemory as OutOfMemory};

    ghost from_gives = { λ _ e. e ≡ OutOfMemory };

    fn from(_: NoMemory) -> Self {
        KeepFault::NoMemory
    }
}
