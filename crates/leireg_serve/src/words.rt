//! What a server is asked to do.
ghost use Rattle.std.specs.Prelude.{◌≤◌, map, string_bytes, IfOk};
ghost use Rattle.program_words.specs.Reading.{FindsWords};
ghost use Rattle.program_words.specs.Words.{run_meaning};
ghost use Rattle.leireg_serve.specs.Words.{served_by};

use program_words::{Command, WantedRun, WordsFault, wanted_run};
use std::alloc::Global;

/// What these words, which are the program's without its name, ask a server to do.
pub fn server_of<'a>(alloc: Global, words: &'a [String]) -> Result<WantedRun<'a>, WordsFault>
    ensures meant { FindsWords run_meaning (served_by (map string_bytes words.now)) result }
    ensures workers { IfOk result (λ run. (1 ≤ run.workers) × (run.workers ≤ 64)) }
{
    let run = wanted_run(alloc, words)?;
    match run.command {
        Command::Serve => Ok(run),
        _ => Err(WordsFault::Usage),
    }
}
