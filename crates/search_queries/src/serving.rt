//! A search that is served.
ghost use Rattle.std.specs.Prelude.{◌≡◌, ◌<◌, ℕ, List, [], Some};
ghost use Rattle.lei_values.specs.Count.{Rose};
ghost use Rattle.lei_outside.specs.Links.{link_told};
ghost use Rattle.query_reading.specs.QueryFrames.{HoldsQuery};
ghost use Rattle.request_loop.specs.Devices.{FailsIf};
ghost use Rattle.request_loop.specs.declared.frames.Ended.{Ended as Ending};
ghost use Rattle.search_queries.specs.Grammar.{search_says};
ghost use Rattle.search_queries.specs.Searchers.{IsStateOf};
ghost use Rattle.search_queries.specs.Searches.{SearchState};
ghost use Rattle.search_queries.specs.Serving.{CompletesQueries, ServesQueries};

use crate::grammar::SearchGrammar;
use crate::searcher::Searcher;
use lei_outside::Clock;
use line_reading::NoEnd;
use query_reading::QueryFraming;
use request_loop::{Ended, Intake, Wire, serve};
use std::sync::ledger::Ledger;

// The clock of a search, which is never read.
#[derive(Drop)]
struct UnaskedClock {}

impl Clock for UnaskedClock {
    ghost use Rattle.std.specs.Prelude.{None};

    ghost given = { λ _. None };

    fn now(&mut self) -> i64 {
        0
    }
}

/// Serves one session of a search. It reads lines from the wire, with the deltas that they announce, and writes the
/// reply to each query before it answers the next one.
pub fn serve_queries<R, L: Ledger, W: Wire>(
    rt: &R,
    intake: Intake,
    searcher: &mut Searcher<L>,
    framing: &mut QueryFraming<SearchGrammar>,
    link: &mut W,
) -> Ended<NoEnd>
    requires some { 0 < intake.most }
    requires holds { HoldsQuery search_says framing.old.stage [] [] }
    ensures serves { (state : SearchState) → IsStateOf state searcher.old.table
        → ServesQueries searcher.old.form intake.most state (W.written link.old) (W.left link.old)
        searcher.new.table (W.written link.new) (W.left link.new) result }
    ensures reads { FailsIf (result ≡ Ending.ReadFault) (link_told W.left W.written)
        W.read_faults link.old link.new }
    ensures writes { FailsIf (result ≡ Ending.WriteFault) (link_told W.left W.written)
        W.write_faults link.old link.new }
    ensures wire { W.lends_same link.old link.new }
    ensures complete { (state : SearchState) → IsStateOf state searcher.old.table
        → (bytes : List ℕ) → W.left link.old ≡ Some bytes → ¬ (result ≡ Ending.NoMemory)
        → ¬ (Rose (W.read_faults link.old) (W.read_faults link.new))
        → ¬ (Rose (W.write_faults link.old) (W.write_faults link.new))
        → CompletesQueries searcher.old.form intake.most state (W.written link.old) bytes
        searcher.new.table (W.written link.new) result }
{
    let mut clock = UnaskedClock {};
    serve(rt, intake, searcher, framing, link, &mut clock)
}
