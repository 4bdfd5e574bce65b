//! The words that the program is called with.
ghost use Rattle.std.specs.Prelude.{◌≡◌, ◌⊎◌, IfErr};

use register_words::ExitStatus;
use std::{env, io};

/// The words after the program's name, or else the exit status: a word that isn't text belongs to no command.
pub fn words(rt: &HostRuntime) -> Result<Vec<String>, u8>
    ensures { IfErr result (λ status. (status ≡ 1) ⊎ (status ≡ 6)) }
{
    let words = match env::args(rt) {
        Ok(args) => args.skip(1).collect(rt.alloc()),
        Err(fault) if fault.kind() == io::ErrorKind::InvalidData => return Err(
            ExitStatus::Usage.number(),
        ),
        Err(_) => return Err(ExitStatus::NoMemory.number()),
    };
    match words {
        Ok(words) => Ok(words),
        Err(_) => Err(ExitStatus::NoMemory.number()),
    }
}
