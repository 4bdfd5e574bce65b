//! The checks of a record from C10 to C19, over any view.
ghost use Rattle.std.specs.Prelude.{◌≡◌, Some, IfOk, unwrap_or};
ghost use Rattle.lei_records.specs.Cells.{akey, lei_in, successor_in, successors_in};
ghost use Rattle.register_judge.specs.Judging;
ghost use Rattle.relation_rules.specs.Checking;
ghost use Rattle.relation_rules.specs.declared.checked.Checked.{Checked as Outcome};
ghost use Rattle.successor_rules.specs.Successors as OverViews;

use crate::checks::held_check;
use crate::sitting::Sitting;
use authority_rules::{is_live, key_of, taken};
use lei_code::Lei;
use lei_records::numbers::{
    AUTHORITY_KEY_TAKEN, SUCCESSOR_CHAIN_LONG, SUCCESSOR_CYCLE, SUCCESSOR_UNKNOWN,
};
use lei_records::{CellKey, RecCell, Record, Rules, Seen, Successors, View};
use lei_values::{NoMemory, Text};
use relation_rules::{Checked, check_failure, check_with_lei};
use std::alloc::Global;
use successor_rules::{Walked, walk, walk_by_levels};

/// C10 to C19, with the record that is held under the item's LEI. The key of a cell that the view lacks may be
/// allocated.
pub fn check_with_held<V: View>(
    alloc: Global,
    view: &V,
    held: &Option<RecCell>,
    sitting: &Sitting,
    item: &Record,
) -> Result<Checked, NoMemory>
    ensures { IfOk result (λ checked. checked
        ≡ Judging.check_with_held (V.cells view.now) sitting.now item.now held.now) }
{
    if let Some(check) = held_check(held, sitting, item) {
        return Ok(Checked::Fails(check));
    }
    match sitting.rules {
        Rules::First => check_first(alloc, view, item),
        Rules::Second | Rules::Third => check_levels(alloc, view, item),
    }
}

// C16 to C19 by the first rules.
fn check_first<V: View>(alloc: Global, view: &V, item: &Record) -> Result<Checked, NoMemory>
    ensures { IfOk result (λ checked. checked
        ≡ Judging.check_first (V.cells view.now) item.now (successor_in item.now)) }
{
    match item.successor() {
        Some(successor) => check_successor(alloc, view, item, &successor),
        None => check_key(alloc, view, item),
    }
}

// C16 to C19 by the later rules.
fn check_levels<V: View>(alloc: Global, view: &V, item: &Record) -> Result<Checked, NoMemory>
    ensures { IfOk result (λ checked. checked
        ≡ Judging.check_levels (V.cells view.now) item.now (successors_in item.now)) }
{
    let successors = item.successors();
    if successors.is_empty() {
        return check_key(alloc, view, item);
    }
    match first_unheld(view, successors.as_slice()) {
        Some(checked) => Ok(checked),
        None => check_spread(alloc, view, item, &successors),
    }
}

// The result of C16 at the first of these that isn't held or whose cell the view lacks, if there is one.
fn first_unheld<V: View>(view: &V, leis: &[Lei]) -> Option<Checked>
    ensures { (next : Outcome) → Judging.check_each (V.cells view.now) leis.now next ≡ unwrap_or result next }
{
    for lei in leis {
        match view.record_cell(lei) {
            Seen::Held(_) => {}
            Seen::Empty => return Some(check_failure(SUCCESSOR_UNKNOWN)),
            Seen::Missing => return Some(Checked::Missing(CellKey::Rec(*lei))),
        }
    }
    None
}

// C17 to C19 by the later rules, for an item whose successors are held.
fn check_spread<V: View>(
    alloc: Global,
    view: &V,
    item: &Record,
    successors: &Successors,
) -> Result<Checked, NoMemory>
    ensures { IfOk result (λ checked. checked ≡ Checking.check_walked 17 18
        (OverViews.walk_by_levels (V.cells view.now) (lei_in item.now) successors.now)
        (Judging.check_key (V.cells view.now) item.now)) }
{
    by_walk(
        alloc,
        view,
        item,
        walk_by_levels(view, &item.lei(), successors),
    )
}

// C17 to C19, given the result of the walk along an item's successors.
fn by_walk<V: View>(
    alloc: Global,
    view: &V,
    item: &Record,
    walked: Walked,
) -> Result<Checked, NoMemory>
    ensures { IfOk result (λ checked. checked
        ≡ Checking.check_walked 17 18 walked (Judging.check_key (V.cells view.now) item.now)) }
{
    match walked {
        Walked::Meets => Ok(check_failure(SUCCESSOR_CYCLE)),
        Walked::Long => Ok(check_failure(SUCCESSOR_CHAIN_LONG)),
        Walked::Ends => check_key(alloc, view, item),
        Walked::Missing(key) => Ok(Checked::Missing(key)),
    }
}

// C16 to C19 by the first rules, for an item with this successor.
fn check_successor<V: View>(
    alloc: Global,
    view: &V,
    item: &Record,
    successor: &Lei,
) -> Result<Checked, NoMemory>
    ensures { IfOk result (λ checked. checked
        ≡ Judging.check_first (V.cells view.now) item.now (Some successor.now)) }
{
    match view.record_cell(successor) {
        Seen::Held(_) => check_walk(alloc, view, item, successor),
        Seen::Empty => Ok(check_failure(SUCCESSOR_UNKNOWN)),
        Seen::Missing => Ok(Checked::Missing(CellKey::Rec(*successor))),
    }
}

// C17 to C19 by the first rules, for an item whose successor is held.
fn check_walk<V: View>(
    alloc: Global,
    view: &V,
    item: &Record,
    successor: &Lei,
) -> Result<Checked, NoMemory>
    ensures { IfOk result (λ checked. checked ≡ Checking.check_walked 17 18
        (OverViews.walk (V.cells view.now) (lei_in item.now) successor.now)
        (Judging.check_key (V.cells view.now) item.now)) }
{
    by_walk(alloc, view, item, walk(view, successor, &item.lei()))
}

// C19. The key of a record that isn't live isn't looked up.
fn check_key<V: View>(alloc: Global, view: &V, item: &Record) -> Result<Checked, NoMemory>
    ensures { IfOk result (λ checked. checked ≡ Judging.check_key (V.cells view.now) item.now) }
{
    if !is_live(item) {
        return Ok(Checked::Passes);
    }
    match taken(view, item) {
        Seen::Held(other) => Ok(Checked::Fails(check_with_lei(AUTHORITY_KEY_TAKEN, other))),
        Seen::Empty => Ok(Checked::Passes),
        Seen::Missing => Ok(Checked::Missing(key_cell(alloc, item)?)),
    }
}

// The key of the cell for an item's authority key.
fn key_cell(alloc: Global, item: &Record) -> Result<CellKey, NoMemory>
    ensures { IfOk result (λ key. key ≡ Judging.key_cell (akey item.now)) }
{
    let (authority, id) = key_of(item).unwrap_or(("", ""));
    Ok(CellKey::Key(Text::copy_of(alloc, authority)?, Text::copy_of(alloc, id)?))
}
