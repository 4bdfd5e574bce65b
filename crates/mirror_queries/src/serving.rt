//! Serves one session of a mirror.
ghost use Rattle.std.specs.Prelude.{◌≡◌, ◌<◌, ℕ, List, [], Some};
ghost use Rattle.lei_values.specs.Count.{Rose};
ghost use Rattle.lei_outside.specs.Links.{link_told};
ghost use Rattle.query_reading.specs.QueryFrames.{HoldsQuery};
ghost use Rattle.request_loop.specs.Devices.{FailsIf};
ghost use Rattle.request_loop.specs.Serving.{Completes, Serves};
ghost use Rattle.request_loop.specs.declared.frames.Ended.{Ended as Ending};
ghost use Rattle.mirror_queries.specs.Answering.{MirrorStep};
ghost use Rattle.mirror_queries.specs.Grammar.{mirror_says};
ghost use Rattle.mirror_queries.specs.Serving.{mirror_progress, mirror_rules};

use crate::grammar::MirrorGrammar;
use crate::server::MirrorServer;
use lei_outside::Clock;
use line_reading::NoEnd;
use query_reading::QueryFraming;
use request_loop::{Ended, Intake, Wire, serve};

// The clock of a mirror, which is never read.
#[derive(Drop)]
struct UnaskedClock {}

impl Clock for UnaskedClock {
    ghost use Rattle.std.specs.Prelude.{None};

    ghost given = { λ _. None };

    fn now(&mut self) -> i64 {
        0
    }
}

/// Serves one session of a mirror. It reads lines from the wire, with the packets that they announce, and writes the
/// reply to each query before it answers the next one.
pub fn serve_mirror<R, W: Wire>(
    rt: &R,
    intake: Intake,
    server: &mut MirrorServer,
    framing: &mut QueryFraming<MirrorGrammar>,
    link: &mut W,
) -> Ended<NoEnd>
    requires some { 0 < intake.most }
    requires holds { HoldsQuery mirror_says framing.old.stage [] [] }
    ensures serves { Serves MirrorStep mirror_rules intake.most
        (mirror_progress server.old (W.written link.old)) (W.left link.old)
        (mirror_progress server.new (W.written link.new)) (W.left link.new) result }
    ensures reads { FailsIf (result ≡ Ending.ReadFault) (link_told W.left W.written)
        W.read_faults link.old link.new }
    ensures writes { FailsIf (result ≡ Ending.WriteFault) (link_told W.left W.written)
        W.write_faults link.old link.new }
    ensures wire { W.lends_same link.old link.new }
    ensures complete { (bytes : List ℕ) → W.left link.old ≡ Some bytes → ¬ (result ≡ Ending.NoMemory)
        → ¬ (Rose (W.read_faults link.old) (W.read_faults link.new))
        → ¬ (Rose (W.write_faults link.old) (W.write_faults link.new))
        → Completes MirrorStep mirror_rules intake.most result
        (mirror_progress server.old (W.written link.old)) bytes
        (mirror_progress server.new (W.written link.new)) }
{
    let mut clock = UnaskedClock {};
    serve(rt, intake, server, framing, link, &mut clock)
}
