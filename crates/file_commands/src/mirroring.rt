//! The command that keeps a mirror of the three tables.
ghost use Rattle.std.specs.Prelude.{◌≡◌, [], IsErrOf};
ghost use Rattle.request_loop.specs.Devices.{FailsIf};
ghost use Rattle.lei_mirror.specs.Mirrors.{empty_mirror};
ghost use Rattle.mirror_queries.specs.Grammar.{mirror_says};
ghost use Rattle.query_reading.specs.QueryFrames.{HoldsQuery};
ghost use Rattle.file_commands.specs.Mirroring.{AnswersMirror, Mirrors};
ghost use Rattle.file_commands.specs.Sides.{sides};
ghost use Rattle.line_reading.specs.Status.{end_status};

use lei_outside::{Sink, Source};
use line_reading::{MAX_INPUT, Stop, ended_as};
use mirror_queries::{MirrorGrammar, MirrorServer, serve_mirror};
use query_reading::QueryFraming;
use request_loop::{Duplex, Intake};
use std::alloc::Global;

/// Takes the copies and deltas of the input into a mirror that is empty at first, and shows its tables.
pub fn mirror<R, S: Source, W: Sink>(
    rt: &R,
    alloc: Global,
    input: &mut S,
    out: &mut W,
) -> Result<(), Stop>
    ensures mirrors { Mirrors (sides (S.left input.old) (W.written out.old))
        (sides (S.left input.new) (W.written out.new)) (end_status result) }
    ensures reads { FailsIf (IsErrOf result Stop.ReadFault) S.left S.faults input.old input.new }
    ensures writes { FailsIf (IsErrOf result Stop.WriteFault) W.written W.faults out.old out.new }
{
    let mut framing = QueryFraming::new(alloc, MirrorGrammar {})?;
    let mut server = MirrorServer::new(alloc)?;
    let mut wire = Duplex { input, out };
    answer_mirror(rt, &mut server, &mut framing, &mut wire)
}

// Answers the queries of a wire from an empty mirror, with a framing that has read nothing.
fn answer_mirror<R, S: Source, W: Sink>(
    rt: &R,
    server: &mut MirrorServer,
    framing: &mut QueryFraming<MirrorGrammar>,
    wire: &mut Duplex<'_, S, W>,
) -> Result<(), Stop>
    requires empty { server.old ≡ empty_mirror }
    requires holds { HoldsQuery mirror_says framing.old.stage [] [] }
    ensures answers { AnswersMirror (sides (S.left wire.old.input.now) (W.written wire.old.out.now))
        (sides (S.left wire.new.input.now) (W.written wire.new.out.now)) (end_status result) }
    ensures reads { FailsIf (IsErrOf result Stop.ReadFault) S.left S.faults
        wire.old.input.now wire.new.input.now }
    ensures writes { FailsIf (IsErrOf result Stop.WriteFault) W.written W.faults
        wire.old.out.now wire.new.out.now }
    ensures input { wire.new.input.ghost_name ≡ wire.old.input.ghost_name }
    ensures out { wire.new.out.ghost_name ≡ wire.old.out.ghost_name }
{
    let intake = Intake {
        alloc: framing.alloc,
        most: MAX_INPUT,
    };
    ended_as(serve_mirror(rt, intake, server, framing, wire))
}
