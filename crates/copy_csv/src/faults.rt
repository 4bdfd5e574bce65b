//! The reasons why a text wasn't read, with a message for each.
ghost use Rattle.std.specs.Prelude.{◌≡◌};

use lei_values::NoMemory;
use std::alloc::{AllocError, AllocFailed};
use std::error::Error;
use std::fmt;

/// Why a text wasn't read.
#[derive(Clone, Copy, Debug, PartialEq, Eq)]
pub enum FormFault {
    /// It isn't a text of this form and this sheet.
    NotRead,
    /// Out of memory.
    NoMemory,
}

impl fmt::Display for FormFault {
    ghost use Rattle.std.specs.Prelude.{Some};
    ghost use Rattle.copy_csv.specs.Faults.{form_fault_words};

    ghost output = { λ fault. Some (form_fault_words fault) };

    fn fmt<W: fmt::Write>(&self, f: &mut fmt::Formatter<W>) -> fmt::Result {
        match self {
            FormFault::NotRead => write!(f, "the text is of another form"),
            FormFault::NoMemory => write!(f, "out of memory"),
        }
    }
}

impl Error for FormFault {}

impl From<AllocError> for FormFault {
    ghost use Rattle.copy_csv.specs.declared.faults.FormFault.TheVariants.{NoMemory as OutOfMemory};

    ghost from_gives = { λ _ e. e ≡ OutOfMemory };

    fn from(_: AllocError) -> Self {
        FormFault::NoMemory
    }
}

impl<T: Drop> From<AllocFailed<T>> for FormFault {
    ghost use Rattle.copy_csv.specs.declared.faults.FormFault.TheVariants.{NoMemory as OutOfMemory};

    ghost from_gives = { λ _ e. e ≡ OutOfMemory };

    fn from(_: AllocFailed<T>) -> Self {
        FormFault::NoMemory
    }
}

impl From<NoMemory> for FormFault {
    ghost use Rattle.copy_csv.specs.declared.faults.FormFault.TheVariants.{NoMemory as OutOfMemory};

    ghost from_gives = { λ _ e. e ≡ OutOfMemory };

    fn from(_: NoMemory) -> Self {
        FormFault::NoMemory
    }
}
