//! The program of the register over memory alone, for a first look. It has no store and no connections, and so is
//! compiled in less than half the time. If the first word is `sessions`, it runs the worked examples of the files that
//! the others name.
#![tactic(auto)]

mod commands;
mod reporting;
mod sessions;
mod stores;
mod trial;

use commands::run_words;
use program_words::{tell, words};
use sessions::run_files;
use std::io;
use std::process::ExitCode;

fn main(rt: HostRuntime) -> io::Result<ExitCode> {
    let status = match words(&rt) {
        Ok(words) => match files_in(&words) {
            Some(files) => run_files(&rt, &rt, files)?,
            None => run_words(&rt, &rt, &words),
        },
        Err(status) => {
            tell(&rt, status, &[]);
            status
        }
    };
    Ok(ExitCode::from(status))
}

// The files whose sessions are run, if the words ask for that.
fn files_in(words: &[String]) -> Option<&[String]> {
    match words.split_first() {
        Some((first, files)) if first.as_str() == "sessions" => Some(files),
        _ => None,
    }
}
