//! The walk of successors.
ghost use Rattle.std.specs.Prelude.{◌≡◌};
ghost use Rattle.lei_records.specs.declared.view.CellKey.{CellKey};
ghost use Rattle.lei_records.specs.Tables.{Table, cells_of};
ghost use Rattle.lei_records.specs.Walks.{successor_of};
ghost use Rattle.successor_rules.specs.Successors;
ghost use Rattle.successor_rules.specs.Walks.{walk_end};

use crate::walks::{Chain, Walked, follow};
use lei_code::Lei;
use lei_records::{CellKey, RecCell, Seen, View};

/// The chain of successors over a view, whose records name at most one each.
#[derive(Drop)]
pub struct SuccessorChain<'a, V> {
    pub view: &'a V,
}

impl<'a, V: View> Chain for SuccessorChain<'a, V> {
    ghost answers = { λ chain lei. Successors.successor_seen ((V.cells chain.view.now).record_cell lei) };

    ghost cell = { λ chain lei. CellKey.Rec lei };

    fn next(&self, lei: &Lei) -> Seen<Lei> {
        successor_seen(self.view.record_cell(lei))
    }

    fn key(&self, lei: Lei) -> CellKey {
        CellKey::Rec(lei)
    }
}

fn successor_seen(seen: Seen<RecCell>) -> Seen<Lei>
    ensures { result ≡ Successors.successor_seen seen }
{
    match seen {
        Seen::Held(cell) => seen_successor(cell.successors.first()),
        Seen::Empty => Seen::Empty,
        Seen::Missing => Seen::Missing,
    }
}

fn seen_successor(successor: Option<Lei>) -> Seen<Lei>
    ensures { result ≡ Successors.seen_successor successor }
{
    match successor {
        Some(lei) => Seen::Held(lei),
        None => Seen::Empty,
    }
}

/// The walk of successors of a record whose code is `avoid`. It starts at the successor `from`, and goes from each
/// record to the successor that the record names. `Missing` if, before the walk is decided, the view lacks the record
/// of one of the first 200 members. It has the key of the first such record.
pub fn walk<V: View>(view: &V, from: &Lei, avoid: &Lei) -> Walked
    ensures answers { result ≡ Successors.walk (V.cells view.now) avoid.now from.now }

    // Over the cells of a table.
    ensures over_tables { (table : Table) → V.cells view.now ≡ cells_of table
        → result ≡ walk_end (successor_of table) avoid.now from.now }
{
    follow(&SuccessorChain { view }, from, avoid)
}
