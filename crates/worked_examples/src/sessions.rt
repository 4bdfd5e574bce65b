//! The worked examples of files.
use crate::reporting::{tell_help, tell_session};
use example_sessions::{Document, Fault, LineFault, Named};
use std::rt::Files;
use std::thread::Threads;
use std::{fs, io};

/// The file that shows how each command is called.
const GUIDE: &'static str = "GUIDE.md";

/// How many sessions passed, and how many did not, a file that is not read among them.
#[derive(Clone, Copy)]
struct Count {
    passed: u64,
    failed: u64,
}

impl Count {
    fn add(&mut self, passes: bool) {
        if passes {
            self.passed = self.passed.saturating_add(1);
        } else {
            self.failed = self.failed.saturating_add(1);
        }
    }
}

/// Runs the sessions of these files one after the other, and tells what comes of each. The status is 0 where all
/// passed. The runtime is handed on as one that reads files and may start threads, and as the host.
pub fn run_files<R: Print + Files + AllocGlobal + Threads + Sync>(
    rt: &R,
    host: &HostRuntime,
    files: &[String],
) -> io::Result<u8> {
    let mut known = Vec::new(host.alloc());
    let mut count = Count {
        passed: 0,
        failed: 0,
    };
    for file in files {
        known = run_file(rt, host, file.as_str(), known, &mut count)?;
    }
    let Count { passed, failed } = count;
    println!(rt; "{passed} passed, {failed} failed")?;
    Ok(u8::from(failed > 0))
}

// Runs the sessions of a file with the texts that are known, and returns those that are known after it.
fn run_file<R: Print + Files + AllocGlobal + Threads + Sync>(
    rt: &R,
    host: &HostRuntime,
    file: &str,
    known: Vec<Named>,
    count: &mut Count,
) -> io::Result<Vec<Named>> {
    let alloc = host.alloc();
    let Ok(text) = fs::read_to_string(rt, file) else {
        count.add(false);
        println!(rt; "{file}: cannot be read")?;
        return Ok(known);
    };
    if file == GUIDE {
        count.add(tell_help(rt, file, text.as_str())?);
    }
    match Document::read(alloc, known, text.as_str()) {
        Ok(document) => {
            for session in document.sessions() {
                count.add(tell_session(rt, alloc, file, session)?);
            }
            Ok(document.into_known())
        }
        Err(LineFault { line, fault }) => {
            count.add(false);
            match fault {
                Fault::Form => println!(rt; "{file}: line {line} is not of the form")?,
                Fault::Memory => println!(rt; "{file}: no memory for line {line}")?,
            }
            Ok(Vec::new(alloc))
        }
    }
}
