//! Reads the command that the words ask for.
ghost use Rattle.std.specs.Prelude.{◌≡◌, Some, map, string_bytes, IfOk};
ghost use Rattle.program_words.specs.Reading.{FindsWords};
ghost use Rattle.program_words.specs.Words.{IsInRange, invocation_of};
ghost use Rattle.leireg_run.specs.Words.{invocation_in, unless_serving};

use program_words::{Command, WordsFault, wanted_run};
use std::alloc::Global;

/// The command that these words are, out of those that run between an input and an output: any except to serve.
pub fn command_of<'a>(alloc: Global, words: &'a [String]) -> Result<Command<'a>, WordsFault>
    ensures meant { FindsWords invocation_of (invocation_in (map string_bytes words.now)) result }
    ensures range { IfOk result IsInRange }
    ensures run { IfOk result
        (λ command. unless_serving (invocation_of command) ≡ Some (invocation_of command)) }
{
    match wanted_run(alloc, words)?.command {
        Command::Serve => Err(WordsFault::Usage),
        command => Ok(command),
    }
}
