//! The faults for which a body isn't read.
ghost use Rattle.std.specs.Prelude.{◌≡◌, Some};
ghost use Rattle.upload_format.specs.declared.fault.UploadFault.TheVariants as faults;

use lei_values::NoMemory;
use register_words::Malformed;
use std::alloc::{AllocError, AllocFailed};
use std::error::Error;
use std::fmt;

/// Why a body wasn't read.
#[derive(Clone, Copy, Debug, PartialEq, Eq)]
pub enum UploadFault {
    /// The body isn't an upload. The same bytes always have the same fault.
    Malformed(Malformed),
    /// Memory ran out. This says nothing about the body.
    NoMemory,
}

impl fmt::Display for UploadFault {
    ghost use Rattle.upload_format.specs.Faults.{upload_fault_words};

    ghost output = { λ fault. Some (upload_fault_words fault) };

    fn fmt<W: fmt::Write>(&self, f: &mut fmt::Formatter<W>) -> fmt::Result {
        match self {
            UploadFault::Malformed(fault) => fault.fmt(f),
            UploadFault::NoMemory => f.write_str("out of memory"),
        }
    }
}

impl Error for UploadFault {}

impl From<AllocError> for UploadFault {
    ghost from_gives = { λ _ fault. fault ≡ faults.NoMemory };

    fn from(_refused: AllocError) -> Self {
        UploadFault::NoMemory
    }
}

impl<T: Drop> From<AllocFailed<T>> for UploadFault {
    ghost from_gives = { λ _ fault. fault ≡ faults.NoMemory };

    fn from(_refused: AllocFailed<T>) -> Self {
        UploadFault::NoMemory
    }
}

impl From<NoMemory> for UploadFault {
    ghost from_gives = { λ _ fault. fault ≡ faults.NoMemory };

    fn from(_refused: NoMemory) -> Self {
        UploadFault::NoMemory
    }
}
