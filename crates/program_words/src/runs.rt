//! What the program is asked to do.
ghost use Rattle.std.specs.Prelude.{◌≡◌, ◌≤◌, Some, IfOk, IfSome, codes, map, option_and_then, option_map, string_bytes};
ghost use Rattle.clap.specs.Matches.{found_of};
ghost use Rattle.clap.specs.Walk.{first_of, rows_of};
ghost use Rattle.program_words.specs.Commands.{apply_app, check_app, demo_app, digits_app, group_app, lines_app, mirror_app, read_by, search_app, serve_app};
ghost use Rattle.program_words.specs.Reading.{FindsWords};
ghost use Rattle.program_words.specs.Words.{AreInRange, apply_meant, check_meant, connections_given, demo_meant, digits_meant, group_meant, invocation_of, lines_meant, meant_run, mirror_meant, number_under, only, run_meaning, search_meant, serve_meant};

use crate::commands::{
    apply_command, check_command, demo_command, digits_command, group_command, lines_command,
    mirror_command, read, search_command, serve_command,
};
use crate::fault::WordsFault;
use clap::ArgMatches;
use register_words::{Form, Sheet, form_of, number_within, sheet_of};
use std::alloc::Global;

/// How many connections a worker takes by default, and at most. This project's profile.
const MOST_CONNECTIONS: u32 = 4_294_967_295;
/// The greatest number of workers. This project's profile.
const MOST_WORKERS: u32 = 64;
/// The greatest port.
const MOST_PORT: u32 = 65_535;
/// The greatest number of generated records. This project's profile.
const MOST_RECORDS: u32 = 100_000;

/// A command of the program, with its text or number. This project's profile.
#[derive(Clone, Copy)]
pub enum Command<'a> {
    /// To answer each line of the input.
    Lines,
    /// To answer requests over HTTP.
    Serve,
    /// To patch a copy of this sheet and form by a delta.
    Apply(Sheet, Form),
    /// To search the names of a copy of `lei` in this form.
    Search(Form),
    /// To keep the three tables of a register up to date from its copies and deltas.
    Mirror,
    /// To report on the group of an entity from copies of `lei` and `rr` in this form. With `ALL` instead of an LEI, to
    /// report which parents disagree.
    Group(&'a str, Form),
    /// To say whether a text is a code.
    Check(&'a str),
    /// To compute the check digits for the first 18 characters of a code.
    Digits(&'a str),
    /// To generate a register with this many records, and to report the result.
    Demo(u32),
}

/// What the program is asked to do: a command, and its arguments. A path may be any text, including the empty one.
#[derive(Clone, Copy)]
pub struct WantedRun<'a> {
    pub command: Command<'a>,
    /// The path of the store of `lines` and `serve`; None if the register is in memory.
    pub store: Option<&'a str>,
    /// The path of the copy that `apply` patches, or of the copy of `lei` that `group` reads.
    pub first: Option<&'a str>,
    /// The path of the delta that `apply` uses, of the copy that `search` opens, or of the copy of `rr` that `group`
    /// reads.
    pub second: Option<&'a str>,
    /// The port of `serve`; at 0 the machine chooses one.
    pub port: u16,
    /// How many workers answer requests at the same time.
    pub workers: u32,
    /// How many connections each of them takes.
    pub connections: u64,
}

/// What these words ask for: the program's words without its name. `clap` reads those after the first, as the options
/// and texts of the command that the first one names.
pub fn wanted_run<'a>(alloc: Global, words: &'a [String]) -> Result<WantedRun<'a>, WordsFault>
    ensures meant { FindsWords run_meaning (meant_run (map string_bytes words.now)) result }
    ensures range { IfOk result AreInRange }
{
    let Some((name, words)) = words.split_first() else {
        return Err(WordsFault::Usage);
    };
    match name.as_str() {
        "lines" => wanted_lines(alloc, words),
        "serve" => wanted_serve(alloc, words),
        "apply" => wanted_apply(alloc, words),
        "search" => wanted_search(alloc, words),
        "mirror" => wanted_mirror(alloc, words),
        "group" => wanted_group(alloc, words),
        "check" => wanted_check(alloc, words),
        "digits" => wanted_digits(alloc, words),
        "demo" => wanted_demo(alloc, words),
        _ => Err(WordsFault::Usage),
    }
}

fn wanted_lines<'a>(alloc: Global, words: &'a [String]) -> Result<WantedRun<'a>, WordsFault>
    ensures meant { FindsWords run_meaning
        (option_and_then lines_meant (read_by lines_app (map string_bytes words.now))) result }
    ensures range { IfOk result AreInRange }
{
    let matches = read(lines_command(alloc)?, words)?;
    Ok(lines_of(&matches))
}

fn wanted_serve<'a>(alloc: Global, words: &'a [String]) -> Result<WantedRun<'a>, WordsFault>
    ensures meant { FindsWords run_meaning
        (option_and_then serve_meant (read_by serve_app (map string_bytes words.now))) result }
    ensures range { IfOk result AreInRange }
{
    let matches = read(serve_command(alloc)?, words)?;
    serve_of(&matches).ok_or(WordsFault::Usage)
}

fn wanted_apply<'a>(alloc: Global, words: &'a [String]) -> Result<WantedRun<'a>, WordsFault>
    ensures meant { FindsWords run_meaning
        (option_and_then apply_meant (read_by apply_app (map string_bytes words.now))) result }
    ensures range { IfOk result AreInRange }
{
    let matches = read(apply_command(alloc)?, words)?;
    apply_of(&matches).ok_or(WordsFault::Usage)
}

fn wanted_search<'a>(alloc: Global, words: &'a [String]) -> Result<WantedRun<'a>, WordsFault>
    ensures meant { FindsWords run_meaning
        (option_and_then search_meant (read_by search_app (map string_bytes words.now))) result }
    ensures range { IfOk result AreInRange }
{
    let matches = read(search_command(alloc)?, words)?;
    search_of(&matches).ok_or(WordsFault::Usage)
}

fn wanted_mirror<'a>(alloc: Global, words: &'a [String]) -> Result<WantedRun<'a>, WordsFault>
    ensures meant { FindsWords run_meaning
        (option_and_then mirror_meant (read_by mirror_app (map string_bytes words.now))) result }
    ensures range { IfOk result AreInRange }
{
    read(mirror_command(alloc)?, words)?;
    Ok(only(Command::Mirror))
}

fn wanted_group<'a>(alloc: Global, words: &'a [String]) -> Result<WantedRun<'a>, WordsFault>
    ensures meant { FindsWords run_meaning
        (option_and_then group_meant (read_by group_app (map string_bytes words.now))) result }
    ensures range { IfOk result AreInRange }
{
    let matches = read(group_command(alloc)?, words)?;
    group_of(&matches).ok_or(WordsFault::Usage)
}

fn wanted_check<'a>(alloc: Global, words: &'a [String]) -> Result<WantedRun<'a>, WordsFault>
    ensures meant { FindsWords run_meaning
        (option_and_then check_meant (read_by check_app (map string_bytes words.now))) result }
    ensures range { IfOk result AreInRange }
{
    let matches = read(check_command(alloc)?, words)?;
    check_of(&matches).ok_or(WordsFault::Usage)
}

fn wanted_digits<'a>(alloc: Global, words: &'a [String]) -> Result<WantedRun<'a>, WordsFault>
    ensures meant { FindsWords run_meaning
        (option_and_then digits_meant (read_by digits_app (map string_bytes words.now))) result }
    ensures range { IfOk result AreInRange }
{
    let matches = read(digits_command(alloc)?, words)?;
    digits_of(&matches).ok_or(WordsFault::Usage)
}

fn wanted_demo<'a>(alloc: Global, words: &'a [String]) -> Result<WantedRun<'a>, WordsFault>
    ensures meant { FindsWords run_meaning
        (option_and_then demo_meant (read_by demo_app (map string_bytes words.now))) result }
    ensures range { IfOk result AreInRange }
{
    let matches = read(demo_command(alloc)?, words)?;
    demo_of(&matches).ok_or(WordsFault::Usage)
}

// A command without any further argument.
fn only<'a>(command: Command<'a>) -> WantedRun<'a>
    ensures meant { run_meaning result ≡ only (invocation_of command.entry) }
    ensures command { result.command ≡ command.entry }
{
    WantedRun {
        command,
        store: None,
        first: None,
        second: None,
        port: 0,
        workers: 0,
        connections: 0,
    }
}

// The text that was read under a name.
fn text<'a>(matches: &ArgMatches<'a>, name: &str) -> Option<&'a str>
    ensures { option_map (λ text. text.now) result ≡ first_of name.now (rows_of (found_of matches.now)) }
{
    matches.get_str(name)
}

// The number in this range that was read under a name.
fn number(matches: &ArgMatches<'_>, name: &str, low: u32, high: u32) -> Option<u32>
    ensures value { result ≡ number_under name.now low high (rows_of (found_of matches.now)) }
    ensures range { IfSome result (λ number. (low ≤ number) × (number ≤ high)) }
{
    match text(matches, name) {
        Some(text) => number_within(text.as_bytes(), low, high),
        None => None,
    }
}

fn connections(matches: &ArgMatches<'_>) -> Option<u32>
    ensures { result ≡ connections_given (first_of (codes "connections") (rows_of (found_of matches.now))) }
{
    match text(matches, "connections") {
        Some(text) => number_within(text.as_bytes(), 1, MOST_CONNECTIONS),
        None => Some(MOST_CONNECTIONS),
    }
}

fn lines_of<'a>(matches: &ArgMatches<'a>) -> WantedRun<'a>
    ensures meant { lines_meant (rows_of (found_of matches.now)) ≡ Some (run_meaning result) }
    ensures range { AreInRange result }
{
    let store = text(matches, "store");
    WantedRun {
        store,
        ..only(Command::Lines)
    }
}

fn serve_of<'a>(matches: &ArgMatches<'a>) -> Option<WantedRun<'a>>
    ensures meant { option_map run_meaning result ≡ serve_meant (rows_of (found_of matches.now)) }
    ensures range { IfSome result AreInRange }
{
    let port = number(matches, "port", 0, MOST_PORT)?;
    let workers = number(matches, "workers", 1, MOST_WORKERS)?;
    let connections = connections(matches)?;
    let store = text(matches, "store");
    Some(WantedRun {
        store,
        port: port as u16,
        workers,
        connections: u64::from(connections),
        ..only(Command::Serve)
    })
}

fn apply_of<'a>(matches: &ArgMatches<'a>) -> Option<WantedRun<'a>>
    ensures meant { option_map run_meaning result ≡ apply_meant (rows_of (found_of matches.now)) }
    ensures range { IfSome result AreInRange }
{
    let sheet = sheet_of(text(matches, "TABLE")?.as_bytes())?;
    let form = form_of(text(matches, "FORM")?.as_bytes())?;
    let copy = text(matches, "COPY")?;
    let delta = text(matches, "DELTA")?;
    Some(WantedRun {
        first: Some(copy),
        second: Some(delta),
        ..only(Command::Apply(sheet, form))
    })
}

fn search_of<'a>(matches: &ArgMatches<'a>) -> Option<WantedRun<'a>>
    ensures meant { option_map run_meaning result ≡ search_meant (rows_of (found_of matches.now)) }
    ensures range { IfSome result AreInRange }
{
    let form = form_of(text(matches, "FORM")?.as_bytes())?;
    let copy = text(matches, "COPY")?;
    Some(WantedRun {
        second: Some(copy),
        ..only(Command::Search(form))
    })
}

fn group_of<'a>(matches: &ArgMatches<'a>) -> Option<WantedRun<'a>>
    ensures meant { option_map run_meaning result ≡ group_meant (rows_of (found_of matches.now)) }
    ensures range { IfSome result AreInRange }
{
    let who = text(matches, "WHO")?;
    let form = form_of(text(matches, "FORM")?.as_bytes())?;
    let lei = text(matches, "LEICOPY")?;
    let rr = text(matches, "RRCOPY")?;
    Some(WantedRun {
        first: Some(lei),
        second: Some(rr),
        ..only(Command::Group(who, form))
    })
}

fn check_of<'a>(matches: &ArgMatches<'a>) -> Option<WantedRun<'a>>
    ensures meant { option_map run_meaning result ≡ check_meant (rows_of (found_of matches.now)) }
    ensures range { IfSome result AreInRange }
{
    let code = text(matches, "CODE")?;
    Some(only(Command::Check(code)))
}

fn digits_of<'a>(matches: &ArgMatches<'a>) -> Option<WantedRun<'a>>
    ensures meant { option_map run_meaning result ≡ digits_meant (rows_of (found_of matches.now)) }
    ensures range { IfSome result AreInRange }
{
    let text = text(matches, "TEXT")?;
    Some(only(Command::Digits(text)))
}

fn demo_of<'a>(matches: &ArgMatches<'a>) -> Option<WantedRun<'a>>
    ensures meant { option_map run_meaning result ≡ demo_meant (rows_of (found_of matches.now)) }
    ensures range { IfSome result AreInRange }
{
    let records = number(matches, "N", 2, MOST_RECORDS)?;
    Some(only(Command::Demo(records)))
}
