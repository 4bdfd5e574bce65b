//! Why a line can't be read.
use lei_values::NoMemory;
use std::alloc::{AllocError, AllocFailed};

/// Why a line can't be read.
#[derive(Clone, Copy, PartialEq, Eq)]
pub enum Fault {
    /// It doesn't have the required form.
    Form,
    /// Memory ran out.
    Memory,
}

impl From<NoMemory> for Fault {
    fn from(_: NoMemory) -> Self {
        Fault::Memory
    }
}

impl From<AllocError> for Fault {
    fn from(_: AllocError) -> Self {
        Fault::Memory
    }
}

impl<T: Drop> From<AllocFailed<T>> for Fault {
    fn from(_: AllocFailed<T>) -> Self {
        Fault::Memory
    }
}
