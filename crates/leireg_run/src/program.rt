//! The program's run, from its words, its inputs, its output, its keeper and its clock to its status.
ghost use Rattle.std.specs.Prelude.{◌≡◌, ◌≢◌, ◌⊎◌, None, Some, Ok, false, map, string_bytes, IsErrOf};
ghost use Rattle.lei_values.specs.Count.{Rose};
ghost use Rattle.leireg_run.specs.Ends.{Does, DoesIfRead, CompletesRun};
ghost use Rattle.line_service.specs.Ends.{IsUnopened, WritesDamage};
ghost use Rattle.register_history.specs.Opened.{MayTell};
ghost use Rattle.line_service.specs.Outside.{OutputFails, outside};
ghost use Rattle.line_reading.specs.Status.{end_status};
ghost use Rattle.file_commands.specs.TwoFiles.{OneFailsIf};
ghost use Rattle.program_words.specs.Words.{Invocation, IsInRange, invocation_of, to_answer_lines};
ghost use Rattle.leireg_run.specs.Words.{Mean, invocation_in, reads_input, reads_second, unless_serving};

use crate::command::command_of;
use crate::demo::tell_demo;
use file_commands::{apply, check, digits, group, mirror, search};
use lei_keeper::Keeper;
use lei_outside::{Clock, Sink, Source};
use line_reading::Stop;
use line_service::run_lines;
use program_words::{Command, WordsFault};
use register_words::ExitStatus;
use std::alloc::Global;
use std::thread::Threads;

// A command with what it runs on: what starts its threads, and where its memory comes from.
#[derive(Drop)]
struct Job<'a, R> {
    rt: &'a R,
    alloc: Global,
    command: Command<'a>,
}

/// Does what the words ask for, which are the program's words without its name. Returns the status that the run ends
/// with, and the keeper. Lines are answered from the office of what the keeper has. The clock is asked for one moment
/// for each request in a line, after the line was read.
pub fn run<R: Threads + Sync, S: Source, T: Source, W: Sink, K: Keeper, C: Clock>(
    rt: &R,
    alloc: Global,
    words: &[String],
    input: &mut S,
    second: &mut T,
    out: &mut W,
    keeper: K,
    clock: &mut C,
) -> (u8, K)
    ensures usage { result.0 ≡ 1 → invocation_in (map string_bytes words.now) ≡ None }
    ensures refused { invocation_in (map string_bytes words.now) ≡ None → (result.0 ≡ 1) ⊎ (result.0 ≡ 6) }
    ensures untouched { invocation_in (map string_bytes words.now) ≡ None
        → (out.new ≡ out.old) × (input.new ≡ input.old) × (second.new ≡ second.old) }
    ensures unread { (what : Invocation) → Mean words.now what → reads_input what ≡ false
        → input.new ≡ input.old }
    ensures second_unread { (what : Invocation) → Mean words.now what → reads_second what ≡ false
        → second.new ≡ second.old }
    ensures unasked { ¬ (Mean words.now to_answer_lines) → clock.new ≡ clock.old }
    ensures unkept { ¬ (Mean words.now to_answer_lines) → result.1 ≡ keeper }
    ensures unopened { IsUnopened result.0 → (input.new ≡ input.old) × (clock.new ≡ clock.old) }
    ensures does { (what : Invocation) → Mean words.now what → DoesIfRead (MayTell K.tables) what
        (outside (S.left input.old) (C.given clock.old) (W.written out.old) (K.tables keeper)
        (K.faults keeper))
        (outside (S.left input.new) (C.given clock.new) (W.written out.new) (K.tables result.1)
        (K.faults result.1))
        (T.left second.old) (T.left second.new) result.0 }
    ensures reads { OneFailsIf (result.0 ≡ 3) S.left S.faults input.old input.new
        T.left T.faults second.old second.new }
    ensures writes { OutputFails (result.0 ≡ 4) (result.0 ≡ 7)
        W.written W.faults out.old out.new }
    ensures damage_told { result.0 ≡ 7 → ¬ (Rose (W.faults out.old) (W.faults out.new))
        → WritesDamage {E = Unit {0}}
        (outside (S.left input.old) (C.given clock.old) (W.written out.old) (K.tables keeper)
        (K.faults keeper))
        (outside (S.left input.new) (C.given clock.new) (W.written out.new) (K.tables result.1)
        (K.faults result.1))
        (Ok (tt {0})) }
    ensures complete { (what : Invocation) → Mean words.now what → result.0 ≢ 6
        → ¬ (Rose (S.faults input.old) (S.faults input.new))
        → ¬ (Rose (T.faults second.old) (T.faults second.new))
        → ¬ (Rose (W.faults out.old) (W.faults out.new))
        → CompletesRun (MayTell K.tables) what
        (outside (S.left input.old) (C.given clock.old) (W.written out.old) (K.tables keeper)
        (K.faults keeper))
        (outside (S.left input.new) (C.given clock.new) (W.written out.new) (K.tables result.1)
        (K.faults result.1))
        (T.left second.old) (T.left second.new) result.0 }
{
    let command = match command_of(alloc, words) {
        Ok(command) => command,
        Err(WordsFault::Usage) => return (ExitStatus::Usage.number(), keeper),
        Err(WordsFault::NoMemory) => return (ExitStatus::NoMemory.number(), keeper),
    };
    let job = Job { rt, alloc, command };
    match run_command(&job, input, second, out, keeper, clock) {
        (Ok(()), keeper) => (ExitStatus::Ok.number(), keeper),
        (Err(stop), keeper) => (stop.status(), keeper),
    }
}

fn run_command<R: Threads + Sync, S: Source, T: Source, W: Sink, K: Keeper, C: Clock>(
    job: &Job<'_, R>,
    input: &mut S,
    second: &mut T,
    out: &mut W,
    keeper: K,
    clock: &mut C,
) -> (Result<(), Stop>, K)
    requires range { IsInRange job.now.command }
    requires run { unless_serving (invocation_of job.now.command) ≡ Some (invocation_of job.now.command) }
    ensures unread { reads_input (invocation_of job.now.command) ≡ false → input.new ≡ input.old }
    ensures second_unread { reads_second (invocation_of job.now.command) ≡ false → second.new ≡ second.old }
    ensures unasked { ¬ (invocation_of job.now.command ≡ to_answer_lines) → clock.new ≡ clock.old }
    ensures unkept { ¬ (invocation_of job.now.command ≡ to_answer_lines) → result.1 ≡ keeper }
    ensures unopened { IsUnopened (end_status result.0) → (input.new ≡ input.old) × (clock.new ≡ clock.old) }
    ensures does { Does (MayTell K.tables) (invocation_of job.now.command)
        (outside (S.left input.old) (C.given clock.old) (W.written out.old) (K.tables keeper)
        (K.faults keeper))
        (outside (S.left input.new) (C.given clock.new) (W.written out.new) (K.tables result.1)
        (K.faults result.1))
        (T.left second.old) (T.left second.new) (end_status result.0) }
    ensures reads { OneFailsIf (IsErrOf result.0 Stop.ReadFault) S.left S.faults input.old input.new
        T.left T.faults second.old second.new }
    ensures writes { OutputFails (IsErrOf result.0 Stop.WriteFault) (IsErrOf result.0 Stop.StoreDamaged)
        W.written W.faults out.old out.new }
    ensures damage_told { IsErrOf result.0 Stop.StoreDamaged → ¬ (Rose (W.faults out.old) (W.faults out.new))
        → WritesDamage {E = Unit {0}}
        (outside (S.left input.old) (C.given clock.old) (W.written out.old) (K.tables keeper)
        (K.faults keeper))
        (outside (S.left input.new) (C.given clock.new) (W.written out.new) (K.tables result.1)
        (K.faults result.1))
        (Ok (tt {0})) }
{
    let rt = job.rt;
    let alloc = job.alloc;
    match &job.command {
        Command::Lines => run_lines(rt, alloc, input, out, keeper, clock),
        Command::Serve => unreachable!(),
        Command::Check(code) => (check(code, out), keeper),
        Command::Digits(text) => (digits(text, out), keeper),
        Command::Apply(sheet, form) => (apply(alloc, *sheet, *form, input, second, out), keeper),
        Command::Search(form) => (search(rt, alloc, *form, input, second, out), keeper),
        Command::Mirror => (mirror(rt, alloc, input, out), keeper),
        Command::Group(who, form) => (group(alloc, who, *form, input, second, out), keeper),
        Command::Demo(records) => (tell_demo(rt, alloc, *records, out), keeper),
    }
}
