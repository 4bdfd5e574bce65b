//! Why words can't be read.
use lei_values::NoMemory;
use std::alloc::AllocError;

/// Why the words after the program's name can't be read.
#[derive(Clone, Copy)]
pub enum WordsFault {
    /// They aren't a command.
    Usage,
    /// Memory ran out.
    NoMemory,
}

impl From<NoMemory> for WordsFault {
    ghost use Rattle.std.specs.Prelude.{◌≡◌};
    ghost use Rattle.program_words.specs.declared.fault.WordsFault.TheVariants as faults;

    ghost from_gives = { λ _ fault. fault ≡ faults.NoMemory };

    fn from(_: NoMemory) -> Self {
        WordsFault::NoMemory
    }
}

impl From<AllocError> for WordsFault {
    ghost use Rattle.std.specs.Prelude.{◌≡◌};
    ghost use Rattle.program_words.specs.declared.fault.WordsFault.TheVariants as faults;

    ghost from_gives = { λ _ fault. fault ≡ faults.NoMemory };

    fn from(_: AllocError) -> Self {
        WordsFault::NoMemory
    }
}
