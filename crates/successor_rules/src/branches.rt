//! The walk of successors if a record may name several.
ghost use Rattle.std.specs.Prelude.{◌≡◌};
ghost use Rattle.lei_records.specs.declared.view.CellKey.{CellKey};
ghost use Rattle.lei_records.specs.Tables.{Table, cells_of};
ghost use Rattle.lei_records.specs.Walks.{successors_of};
ghost use Rattle.successor_rules.specs.Levels.{spread_out};
ghost use Rattle.successor_rules.specs.Successors as OverViews;

use crate::spreading::{Branches, spread_from};
use crate::walks::Walked;
use lei_code::Lei;
use lei_records::{CellKey, RecCell, Seen, Successors, View};

/// The successors over a view, if a record may name several.
#[derive(Drop)]
pub struct SuccessorBranches<'a, V> {
    pub view: &'a V,
}

impl<'a, V: View> Branches for SuccessorBranches<'a, V> {
    ghost answers = { λ branches lei. OverViews.successors_seen
        ((V.cells branches.view.now).record_cell lei) };

    ghost cell = { λ branches lei. CellKey.Rec lei };

    fn next(&self, lei: &Lei) -> Seen<Successors> {
        successors_seen(self.view.record_cell(lei))
    }

    fn key(&self, lei: Lei) -> CellKey {
        CellKey::Rec(lei)
    }
}

fn successors_seen(seen: Seen<RecCell>) -> Seen<Successors>
    ensures { result ≡ OverViews.successors_seen seen }
{
    match seen {
        Seen::Held(cell) => Seen::Held(cell.successors),
        Seen::Empty => Seen::Empty,
        Seen::Missing => Seen::Missing,
    }
}

/// The walk by levels of a record whose LEI is `own` and which names the successors `from`. It goes from each record to
/// all successors that the record names. `Long` if it reaches more than 200 different LEIs. Otherwise `Missing` with
/// the key of the first record that the view lacks, or else `Meets` if it comes back to `own`.
pub fn walk_by_levels<V: View>(view: &V, own: &Lei, from: &Successors) -> Walked
    ensures answers { result ≡ OverViews.walk_by_levels (V.cells view.now) own.now from.now }

    // Over the cells of a table.
    ensures over_tables { (table : Table) → V.cells view.now ≡ cells_of table
        → result ≡ spread_out (successors_of table) own.now from.now }
{
    spread_from(&SuccessorBranches { view }, own, from)
}
