//! A command between its inputs and the standard output.
ghost use Rattle.std.specs.Prelude.{◌≡◌, ◌⊎◌, None, map, string_bytes};
ghost use Rattle.program_words.specs.Words.{to_answer_lines};
ghost use Rattle.leireg_run.specs.Words.{Mean, invocation_in};

use crate::one_of::OneOf;
use crate::program::run;
use lei_keeper::Keeper;
use leireg_devices::{FileSource, StdSink, SystemClock, WatchedSink};
use program_words::{Command, WantedRun};
use std::fs::File;
use std::io::Stdin;
use std::thread::Threads;

/// Runs a command over a keeper, with the clock of the machine. Returns its status and the keeper. The runtime is
/// passed twice: as one that may start threads, and as the host.
pub fn run_command<R: Threads + Sync, K: Keeper>(
    rt: &R,
    host: &HostRuntime,
    words: &[String],
    wanted: &WantedRun<'_>,
    keeper: K,
) -> (u8, K)
    ensures usage { result.0 ≡ 1 → invocation_in (map string_bytes words.now) ≡ None }
    ensures refused { invocation_in (map string_bytes words.now) ≡ None → (result.0 ≡ 1) ⊎ (result.0 ≡ 6) }
    ensures unkept { ¬ (Mean words.now to_answer_lines) → result.1 ≡ keeper }
{
    let mut input = FileSource::new(first_input(host, wanted));
    let mut second = FileSource::new(file_at(host, wanted.second));
    let mut out = WatchedSink::new(host, StdSink::new(host.stdout()));
    let mut clock = SystemClock::new(host);
    run(
        rt,
        host.alloc(),
        words,
        &mut input,
        &mut second,
        &mut out,
        keeper,
        &mut clock,
    )
}

// The input of a command: its first file, or the standard input.
fn first_input(host: &HostRuntime, wanted: &WantedRun<'_>) -> Option<OneOf<Stdin, File>> {
    match wanted.command {
        Command::Apply(_, _) | Command::Group(_, _) => file_at(host, wanted.first),
        _ => Some(OneOf::First(host.stdin())),
    }
}

// The file at a path, or `None` if it can't be opened, so that each read fails.
fn file_at(host: &HostRuntime, path: Option<&str>) -> Option<OneOf<Stdin, File>> {
    match path {
        Some(path) => match File::open(host, path) {
            Ok(file) => Some(OneOf::Second(file)),
            Err(_) => None,
        },
        None => None,
    }
}
