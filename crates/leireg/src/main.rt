//! The program of the register.
#![tactic(auto)]

mod reported;
mod serving;
mod store;

use leireg_run::run_command;
use program_words::{Command, WantedRun, WordsFault, tell, wanted_run, words};
use register_words::ExitStatus;
use serving::serve_words;
use std::io;
use std::process::ExitCode;
use std::sync::Wait;
use std::thread::Threads;
use store::{close, keeper_at};

fn main(rt: HostRuntime) -> io::Result<ExitCode> {
    let status = match words(&rt) {
        Ok(words) => run_words(&rt, &rt, &words),
        Err(status) => {
            tell(&rt, status, &[]);
            status
        }
    };
    Ok(ExitCode::from(status))
}

// Does what the words ask for, and returns the status. If it isn't `Ok`, what happened and what to do is reported to a
// person.
fn run_words<R: Threads + Wait + Sync>(rt: &R, host: &HostRuntime, words: &[String]) -> u8 {
    let status = match wanted_run(host.alloc(), words) {
        Ok(wanted) => run_wanted(rt, host, words, &wanted),
        Err(WordsFault::Usage) => ExitStatus::Usage.number(),
        Err(WordsFault::NoMemory) => ExitStatus::NoMemory.number(),
    };
    tell(host, status, words);
    status
}

// The runtime is passed twice: as one that may start threads and wait, and as the host.
fn run_wanted<R: Threads + Wait + Sync>(
    rt: &R,
    host: &HostRuntime,
    words: &[String],
    wanted: &WantedRun<'_>,
) -> u8 {
    match wanted.command {
        Command::Serve => serve_words(rt, host, words),
        _ => {
            let keeper = keeper_at(host, wanted.store);
            let (status, keeper) = run_command(rt, host, words, wanted, keeper);
            close(keeper);
            status
        }
    }
}
