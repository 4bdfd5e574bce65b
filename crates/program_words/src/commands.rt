//! The commands of the program as they are given to `clap`, and what `clap` reads by them.
ghost use Rattle.std.specs.Prelude.{◌≡◌, true, map, string_bytes, IfOk};
ghost use Rattle.clap.specs.Simple.{app_of};
ghost use Rattle.clap.specs.Faults.{is_simple_and_free};
ghost use Rattle.clap.specs.Matches.{found_of};
ghost use Rattle.clap.specs.Walk.{rows_of};
ghost use Rattle.program_words.specs.Commands.{app_with_text, apply_app, check_app, demo_app, digits_app, group_app, lines_app, mirror_app, plain, read_by, search_app, serve_app, with_option};
ghost use Rattle.program_words.specs.Reading.{FindsWords};

use crate::fault::WordsFault;
use clap::error::ErrorKind;
use clap::{Arg, ArgAction, ArgMatches, Command};
use lei_values::NoMemory;
use std::alloc::Global;

// A command with this name that has no option yet.
fn plain<'a>(alloc: Global, name: &'a str) -> Command<'a>
    ensures { app_of result ≡ plain name.now }
{
    Command::new(alloc, name)
        .no_binary_name(true)
        .disable_help_flag(true)
}

// The command with an option of this name.
fn with_option<'a>(
    alloc: Global,
    command: Command<'a>,
    name: &'a str,
) -> Result<Command<'a>, NoMemory>
    ensures { IfOk result (λ made. app_of made ≡ with_option name.now (app_of command.entry)) }
{
    let option = Arg::new(alloc, name).long(name).action(ArgAction::Set);
    let command = command.arg(option)?;
    Ok(command)
}

// The command with one more text.
fn with_text<'a>(
    alloc: Global,
    command: Command<'a>,
    name: &'a str,
) -> Result<Command<'a>, NoMemory>
    ensures { IfOk result (λ made. app_of made ≡ app_with_text name.now (app_of command.entry)) }
{
    let text = Arg::new(alloc, name).action(ArgAction::Set);
    let command = command.arg(text)?;
    Ok(command)
}

pub fn lines_command<'a>(alloc: Global) -> Result<Command<'a>, NoMemory>
    ensures { IfOk result (λ made. app_of made ≡ lines_app) }
{
    with_option(alloc, plain(alloc, "lines"), "store")
}

pub fn serve_command<'a>(alloc: Global) -> Result<Command<'a>, NoMemory>
    ensures { IfOk result (λ made. app_of made ≡ serve_app) }
{
    let command = with_option(alloc, plain(alloc, "serve"), "port")?;
    let command = with_option(alloc, command, "workers")?;
    let command = with_option(alloc, command, "connections")?;
    with_option(alloc, command, "store")
}

pub fn apply_command<'a>(alloc: Global) -> Result<Command<'a>, NoMemory>
    ensures { IfOk result (λ made. app_of made ≡ apply_app) }
{
    let command = with_text(alloc, plain(alloc, "apply"), "TABLE")?;
    let command = with_text(alloc, command, "FORM")?;
    let command = with_text(alloc, command, "COPY")?;
    with_text(alloc, command, "DELTA")
}

pub fn search_command<'a>(alloc: Global) -> Result<Command<'a>, NoMemory>
    ensures { IfOk result (λ made. app_of made ≡ search_app) }
{
    let command = with_text(alloc, plain(alloc, "search"), "FORM")?;
    with_text(alloc, command, "COPY")
}

pub fn mirror_command<'a>(alloc: Global) -> Result<Command<'a>, NoMemory>
    ensures { IfOk result (λ made. app_of made ≡ mirror_app) }
{
    Ok(plain(alloc, "mirror"))
}

pub fn group_command<'a>(alloc: Global) -> Result<Command<'a>, NoMemory>
    ensures { IfOk result (λ made. app_of made ≡ group_app) }
{
    let command = with_text(alloc, plain(alloc, "group"), "WHO")?;
    let command = with_text(alloc, command, "FORM")?;
    let command = with_text(alloc, command, "LEICOPY")?;
    with_text(alloc, command, "RRCOPY")
}

pub fn check_command<'a>(alloc: Global) -> Result<Command<'a>, NoMemory>
    ensures { IfOk result (λ made. app_of made ≡ check_app) }
{
    with_text(alloc, plain(alloc, "check"), "CODE")
}

pub fn digits_command<'a>(alloc: Global) -> Result<Command<'a>, NoMemory>
    ensures { IfOk result (λ made. app_of made ≡ digits_app) }
{
    with_text(alloc, plain(alloc, "digits"), "TEXT")
}

pub fn demo_command<'a>(alloc: Global) -> Result<Command<'a>, NoMemory>
    ensures { IfOk result (λ made. app_of made ≡ demo_app) }
{
    with_text(alloc, plain(alloc, "demo"), "N")
}

/// What a command reads from the words.
pub fn read<'a>(command: Command<'a>, words: &'a [String]) -> Result<ArgMatches<'a>, WordsFault>
    requires simple { is_simple_and_free (app_of command) ≡ true }
    ensures { FindsWords (λ matches. rows_of (found_of matches))
        (read_by (app_of command.entry) (map string_bytes words.now)) result }
{
    match command.try_get_matches_from(words) {
        Ok(matches) => Ok(matches),
        Err(fault) => match fault.kind() {
            ErrorKind::OutOfMemory => Err(WordsFault::NoMemory),
            _ => Err(WordsFault::Usage),
        },
    }
}
