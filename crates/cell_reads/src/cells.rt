//! What a view has in one cell.
ghost use Rattle.std.specs.Prelude.{◌≡◌, ◌↔◌, IsTrue, MatchOption};
ghost use Rattle.lei_records.specs.declared.view.Seen.{Seen as SeenCell};
ghost use Rattle.lei_records.specs.Tables;
ghost use Rattle.relation_rules.specs.Needs.{lacks};
ghost use Rattle.cell_reads.specs.Reads.{HasCell};

use lei_code::Lei;
use lei_records::{CellKey, CellSeen, RecCell, RelCell, Seen, View};

/// What a view has in the cell with this key, or `None` if the view lacks the cell.
pub fn found_in<V: View>(view: &V, key: &CellKey) -> Option<CellSeen>
    ensures { MatchOption result (IsTrue (lacks (V.cells view.now) key.now))
        (λ found. HasCell (V.cells view.now) key.now found) }
{
    match key {
        CellKey::Rec(lei) => Some(CellSeen::Rec(known_content(view.record_cell(lei))?)),
        CellKey::Rel(start, kind, end) => {
            Some(CellSeen::Rel(known_content(view.relation(start, *kind, end))?))
        }
        CellKey::Exc(lei, category) => {
            Some(CellSeen::Exc(known_fact(view.exception(lei, *category))?))
        }
        CellKey::Key(authority, id) => {
            Some(CellSeen::Key(known_content(view.holder(authority.as_str(), id.as_str()))?))
        }
        CellKey::Act(start, kind) => Some(CellSeen::Act(known_content(view.active(start, *kind))?)),
    }
}

// What the cell has, or `None` if the view lacks the cell.
fn known_content<T: Copy>(seen: Seen<T>) -> Option<Option<T>>
    ensures { MatchOption result (seen ≡ SeenCell.Missing) (λ found. seen ≡ Tables.seen found) }
{
    match seen {
        Seen::Held(value) => Some(Some(value)),
        Seen::Empty => Some(None),
        Seen::Missing => None,
    }
}

// Whether the cell has something, or `None` if the view lacks the cell.
fn known_fact(seen: Seen<()>) -> Option<bool>
    ensures { MatchOption result (seen ≡ SeenCell.Missing) (λ stands. seen ≡ Tables.seen_fact stands) }
{
    match seen {
        Seen::Held(()) => Some(true),
        Seen::Empty => Some(false),
        Seen::Missing => None,
    }
}

/// Whether a view has this value in the cell with this key.
pub fn has_cell<V: View>(view: &V, key: &CellKey, found: &CellSeen) -> bool
    ensures { IsTrue result ↔ HasCell (V.cells view.now) key.now found.now }
{
    match (key, found) {
        (CellKey::Rec(lei), CellSeen::Rec(found)) => has_record(view.record_cell(lei), found),
        (CellKey::Rel(start, kind, end), CellSeen::Rel(found)) => {
            has_relation(view.relation(start, *kind, end), found)
        }
        (CellKey::Exc(lei, category), CellSeen::Exc(stands)) => {
            has_fact(view.exception(lei, *category), *stands)
        }
        (CellKey::Key(authority, id), CellSeen::Key(found)) => {
            has_lei(view.holder(authority.as_str(), id.as_str()), found)
        }
        (CellKey::Act(start, kind), CellSeen::Act(found)) => {
            has_lei(view.active(start, *kind), found)
        }
        _ => false,
    }
}

fn has_record(seen: Seen<RecCell>, found: &Option<RecCell>) -> bool
    ensures { IsTrue result ↔ (seen ≡ Tables.seen found.now) }
{
    match (seen, found) {
        (Seen::Held(cell), Some(found)) => is_same_record(&cell, found),
        (Seen::Empty, None) => true,
        _ => false,
    }
}

fn is_same_record(cell: &RecCell, found: &RecCell) -> bool
    ensures { IsTrue result ↔ (cell.now ≡ found.now) }
{
    is_same_state(cell, found) && has_same_parties(cell, found) && has_same_moments(cell, found)
}

fn is_same_state(cell: &RecCell, found: &RecCell) -> bool
    ensures { IsTrue result
        ↔ (cell.now.status ≡ found.now.status) × (cell.now.category ≡ found.now.category) }
{
    cell.status == found.status && cell.category == found.category
}

fn has_same_parties(cell: &RecCell, found: &RecCell) -> bool
    ensures { IsTrue result ↔ (cell.now.manager ≡ found.now.manager)
        × (cell.now.transfer_to ≡ found.now.transfer_to) × (cell.now.successors ≡ found.now.successors) }
{
    cell.manager == found.manager
        && cell.transfer_to == found.transfer_to
        && are_same(cell.successors.as_slice(), found.successors.as_slice())
}

fn are_same(leis: &[Lei], others: &[Lei]) -> bool
    ensures { IsTrue result ↔ (leis.now ≡ others.now) }
{
    leis == others
}

fn has_same_moments(cell: &RecCell, found: &RecCell) -> bool
    ensures { IsTrue result
        ↔ (cell.now.initial ≡ found.now.initial) × (cell.now.updated ≡ found.now.updated) }
{
    cell.initial == found.initial && cell.updated == found.updated
}

fn has_relation(seen: Seen<RelCell>, found: &Option<RelCell>) -> bool
    ensures { IsTrue result ↔ (seen ≡ Tables.seen found.now) }
{
    match (seen, found) {
        (Seen::Held(cell), Some(found)) => cell == *found,
        (Seen::Empty, None) => true,
        _ => false,
    }
}

fn has_lei(seen: Seen<Lei>, found: &Option<Lei>) -> bool
    ensures { IsTrue result ↔ (seen ≡ Tables.seen found.now) }
{
    match (seen, found) {
        (Seen::Held(lei), Some(found)) => lei == *found,
        (Seen::Empty, None) => true,
        _ => false,
    }
}

fn has_fact(seen: Seen<()>, stands: bool) -> bool
    ensures { IsTrue result ↔ (seen ≡ Tables.seen_fact stands) }
{
    match (seen, stands) {
        (Seen::Held(()), true) => true,
        (Seen::Empty, false) => true,
        _ => false,
    }
}
