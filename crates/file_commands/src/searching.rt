//! The command that searches the names of a golden copy.
ghost use Rattle.std.specs.Prelude.{◌≡◌, [], Err, IsErrOf};
ghost use Rattle.request_loop.specs.Devices.{FailsIf};
ghost use Rattle.search_queries.specs.Grammar.{search_says};
ghost use Rattle.search_queries.specs.Searchers.{IsStateOf};
ghost use Rattle.search_queries.specs.Searches.{SearchState};
ghost use Rattle.query_reading.specs.QueryFrames.{HoldsQuery};
ghost use Rattle.file_commands.specs.Searching.{AnswersCopy, AnswersFrom, Searches, copy_refusal};
ghost use Rattle.file_commands.specs.Sides.{sides};
ghost use Rattle.file_commands.specs.TwoFiles.{OneFailsIf, WritesOutcome, files};
ghost use Rattle.line_reading.specs.Status.{end_status};

use crate::files::read_file;
use copy_csv::{Form, FormFault, Sheet};
use copy_forms::read_copy;
use lei_outside::{Sink, Source};
use line_reading::{MAX_INPUT, Stop, ended_as};
use query_reading::QueryFraming;
use request_loop::{Duplex, Intake, send_piece};
use search_queries::{SearchGrammar, Searcher, serve_queries};
use std::alloc::Global;
use std::marker::Brand;
use std::sync::ledger::{Blank, Ledger};
use worker_pool::Steps;

/// Reads a copy of `lei` to its end, and then answers the queries of the input over it. If the file isn't a copy, it
/// writes that instead.
pub fn search<R, S: Source, T: Source, W: Sink>(
    rt: &R,
    alloc: Global,
    form: Form,
    input: &mut S,
    second: &mut T,
    out: &mut W,
) -> Result<(), Stop>
    ensures searches { Searches form
        (files (S.left input.old) (T.left second.old) (W.written out.old))
        (files (S.left input.new) (T.left second.new) (W.written out.new))
        (end_status result) }
    ensures reads { OneFailsIf (IsErrOf result Stop.ReadFault) S.left S.faults input.old input.new
        T.left T.faults second.old second.new }
    ensures writes { FailsIf (IsErrOf result Stop.WriteFault) W.written W.faults out.old out.new }
{
    let copy = read_file(alloc, second)?;
    let mut wire = Duplex { input, out };
    search_in::<Brand, R, S, W>(rt, alloc, form, copy, &mut wire, Blank::new(1))
}

// Answers the queries of a wire over the copy of `lei` in these bytes, or writes that they aren't a copy. The names
// that are folded are counted in a ledger that nobody reads.
fn search_in<L: Ledger, R, S: Source, W: Sink>(
    rt: &R,
    alloc: Global,
    form: Form,
    bytes: Vec<u8>,
    wire: &mut Duplex<'_, S, W>,
    blank: Blank,
) -> Result<(), Stop>
    requires name { blank.name ≡ L.name }
    requires parts { blank.parts ≡ L.parts }
    requires one { blank.parts ≡ 1 }
    ensures answers { AnswersCopy form bytes.items
        (sides (S.left wire.old.input.now) (W.written wire.old.out.now))
        (sides (S.left wire.new.input.now) (W.written wire.new.out.now)) (end_status result) }
    ensures reads { FailsIf (IsErrOf result Stop.ReadFault) S.left S.faults
        wire.old.input.now wire.new.input.now }
    ensures writes { FailsIf (IsErrOf result Stop.WriteFault) W.written W.faults
        wire.old.out.now wire.new.out.now }
    ensures input { wire.new.input.ghost_name ≡ wire.old.input.ghost_name }
    ensures out { wire.new.out.ghost_name ≡ wire.old.out.ghost_name }
{
    let copy = match read_copy(alloc, &bytes, Sheet::Lei, form) {
        Ok(copy) => copy,
        Err(FormFault::NotRead) => return refuse_copy(wire),
        Err(FormFault::NoMemory) => return Err(Stop::NoMemory),
    };
    drop(bytes);
    let mut framing = QueryFraming::new(alloc, SearchGrammar {})?;
    let mut searcher = Searcher::open(alloc, &copy, form, Steps::<L>::new(blank))?;
    drop(copy);
    answer_queries(rt, &mut searcher, &mut framing, wire)
}

// Writes that a file isn't a copy.
fn refuse_copy<S: Source, W: Sink>(wire: &mut Duplex<'_, S, W>) -> Result<(), Stop>
    ensures tells { WritesOutcome (Err copy_refusal) (W.written wire.old.out.now) (W.written wire.new.out.now)
        (end_status result) }
    ensures unread { S.left wire.new.input.now ≡ S.left wire.old.input.now }
    ensures no_read { ¬ (IsErrOf result Stop.ReadFault) }
    ensures no_read_fault { S.faults wire.new.input.now ≡ S.faults wire.old.input.now }
    ensures writes { FailsIf (IsErrOf result Stop.WriteFault) W.written W.faults
        wire.old.out.now wire.new.out.now }
    ensures input { wire.new.input.ghost_name ≡ wire.old.input.ghost_name }
    ensures out { wire.new.out.ghost_name ≡ wire.old.out.ghost_name }
{
    send_piece(wire, b"refused COPY_NOT_READ\n")?;
    Err(Stop::Refused)
}

// Answers the queries of a wire, with a framing that has read nothing.
fn answer_queries<R, L: Ledger, S: Source, W: Sink>(
    rt: &R,
    searcher: &mut Searcher<L>,
    framing: &mut QueryFraming<SearchGrammar>,
    wire: &mut Duplex<'_, S, W>,
) -> Result<(), Stop>
    requires holds { HoldsQuery search_says framing.old.stage [] [] }
    ensures answers { (state : SearchState) → IsStateOf state searcher.old.table
        → AnswersFrom searcher.old.form state
        (sides (S.left wire.old.input.now) (W.written wire.old.out.now))
        (sides (S.left wire.new.input.now) (W.written wire.new.out.now)) (end_status result) }
    ensures reads { FailsIf (IsErrOf result Stop.ReadFault) S.left S.faults
        wire.old.input.now wire.new.input.now }
    ensures writes { FailsIf (IsErrOf result Stop.WriteFault) W.written W.faults
        wire.old.out.now wire.new.out.now }
    ensures input { wire.new.input.ghost_name ≡ wire.old.input.ghost_name }
    ensures out { wire.new.out.ghost_name ≡ wire.old.out.ghost_name }
{
    let intake = Intake {
        alloc: framing.alloc,
        most: MAX_INPUT,
    };
    ended_as(serve_queries(rt, intake, searcher, framing, wire))
}
