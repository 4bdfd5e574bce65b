//! The report on a run whose result isn't the required one.
ghost use Rattle.std.specs.Prelude.{◌≡◌, ◌↔◌, IfOk, IsTrue, nat_eq};
ghost use Rattle.std.specs.List.{starts_with};

use crate::came::Came;
use crate::run::Run;
use std::alloc::Global;
use std::io;

/// The session that a run belongs to: with this title, in this file. The run is made by reads and writes of at most
/// this many bytes.
#[derive(Clone, Copy)]
pub struct Trial<'a> {
    pub file: &'a str,
    pub title: &'a str,
    pub size: usize,
}

/// Whether a run has the required result. If it doesn't, that is printed, with the trial that it was made in.
pub fn is_wanted<R: Print + AllocGlobal>(
    rt: &R,
    alloc: Global,
    trial: Trial<'_>,
    run: &Run,
    came: &Came,
) -> io::Result<bool>
    ensures { IfOk result (λ wanted. IsTrue wanted
        ↔ ((came.now.written ≡ run.now.expected) × (came.now.status ≡ run.now.status))) }
{
    if came.is(run) {
        return Ok(true);
    }
    let Trial { file, title, size } = trial;
    println!(rt; "{file}: {title}: FAILED by at most {size} bytes")?;
    tell_difference(rt, alloc, run, came)?;
    Ok(false)
}

/// Whether a run ended with the status of a fault, and wrote a front of what must come back. If it didn't, that is
/// printed, with the trial that it was made in and the call that failed.
pub fn is_cut_short<R: Print + AllocGlobal>(
    rt: &R,
    trial: Trial<'_>,
    run: &Run,
    came: &Came,
    status: u8,
    call: u64,
) -> io::Result<bool>
    ensures { IfOk result (λ cut. IsTrue cut
        ↔ (IsTrue (starts_with nat_eq run.now.expected came.now.written) × (came.now.status ≡ status))) }
{
    if came.is_front(run, status) {
        return Ok(true);
    }
    let Trial { file, title, size } = trial;
    let ended = came.status;
    println!(rt; "{file}: {title}: FAILED by at most {size} bytes, with call {call} failing")?;
    println!(rt; "  status {ended} came, and {status} was expected, with a front of the replies")?;
    Ok(false)
}

fn tell_difference<R: Print + AllocGlobal>(
    rt: &R,
    alloc: Global,
    run: &Run,
    came: &Came,
) -> io::Result<()> {
    let (status, wanted) = (came.status, run.status());
    if status != wanted {
        println!(rt; "  status {status} came, and {wanted} was expected")?;
    }
    let (written, expected) = (came.written.as_slice(), run.expected());
    if written != expected {
        let same = alike(written, expected);
        let before = &written[..same.min(written.len())];
        let ended = before.iter().filter(|byte| **byte == b'\n').count();
        println!(rt; "  behind {ended} lines that are alike:")?;
        let came = around(alloc, written, same)?;
        println!(rt; "  came:     {came}")?;
        let wanted = around(alloc, expected, same)?;
        println!(rt; "  expected: {wanted}")?;
    }
    Ok(())
}

// The part of a text from some bytes before this position to some bytes after it.
fn around(alloc: Global, bytes: &[u8], at: usize) -> io::Result<String> {
    let begin = at.saturating_sub(60).min(bytes.len());
    let end = at.saturating_add(60).min(bytes.len());
    Ok(String::from_utf8_lossy(alloc, &bytes[begin..end])?)
}

// How many bytes at the start of two texts are equal.
fn alike(one: &[u8], other: &[u8]) -> usize {
    for count in 0..one.len() {
        if one.get(count) != other.get(count) {
            return count;
        }
    }
    one.len()
}
