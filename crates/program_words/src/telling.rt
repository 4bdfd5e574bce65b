//! How a command ended, as reported to a person on the standard error.
use crate::ends::{advice, cause};
use crate::help::help_of;
use crate::version::{MAKES, VERSION};
use register_words::ExitStatus;

/// Reports a status other than `Ok`: its word, what happened, and what to do. If the status is `Usage`, it reports the
/// version and how the command named by the first of these words is called, instead of what to do.
pub fn tell(host: &HostRuntime, status: u8, words: &[String]) {
    match ExitStatus::of(status) {
        Some(ExitStatus::Ok) | None => {}
        Some(ExitStatus::Usage) => print_usage(host, help_of(first_of(words))),
        Some(status) => print(host, status, advice(status)),
    }
}

fn print(host: &HostRuntime, status: ExitStatus, advice: &str) {
    let _ = eprintln!(host; "{}\n{}\n{advice}", status.name(), cause(status));
}

fn print_usage(host: &HostRuntime, help: &str) {
    let usage = ExitStatus::Usage;
    let _ = eprintln!(host;
        "{}\n{}\nleireg {}: {}\n{help}",
        usage.name(),
        cause(usage),
        VERSION,
        MAKES
    );
}

// The first word, or the empty one if there is none.
fn first_of(words: &[String]) -> &str {
    match words.first() {
        Some(word) => word.as_str(),
        None => "",
    }
}
