//! The verdict on one item, over any view.
ghost use Rattle.std.specs.Prelude.{◌≡◌, IfOk};
ghost use Rattle.register_judge.specs.Judging;
ghost use Rattle.register_judge.specs.Outcomes.{JudgesItem};
ghost use Rattle.register_judge.specs.Taking;

use crate::checks::{event_check, own_check, room_check};
use crate::outcome::{JudgeStop, Verdict};
use crate::records::check_with_held;
use crate::sitting::Sitting;
use lei_records::{CellKey, Check, Item, Readied, RecCell, Record, Seen, View};
use lei_values::NoMemory;
use relation_rules::{Checked, exception_check, relation_check};
use std::alloc::Global;

/// The outcome of an item: its verdict, and whether it is new. It is new if it is a record that reached the check of
/// room, C20, while no record with its LEI was held.
#[derive(Drop)]
pub struct ItemOutcome {
    pub verdict: Verdict,
    pub new: bool,
}

fn rejection(check: Check) -> ItemOutcome
    ensures { result ≡ Judging.rejection check }
{
    ItemOutcome {
        verdict: Verdict::Rejected(check),
        new: false,
    }
}

// The outcome of an accepted item that takes up no room.
fn acceptance() -> ItemOutcome
    ensures { result ≡ Judging.acceptance }
{
    ItemOutcome {
        verdict: Verdict::Accepted,
        new: false,
    }
}

/// The outcome of an item over a view. If `full` is true, no further record fits.
pub fn judge_item<V: View>(
    alloc: Global,
    view: &V,
    full: bool,
    sitting: &Sitting,
    item: &Readied,
) -> Result<ItemOutcome, JudgeStop>
    ensures { JudgesItem result (Judging.judge_item (V.cells view.now) full sitting.now item.now) }
{
    match item {
        Readied::Bad(check) => Ok(rejection(check.copy(alloc)?)),
        Readied::Good(Item::Record(item)) => judge_record(alloc, view, full, sitting, item),
        Readied::Good(Item::Relation(item)) => {
            outcome_by(relation_check(view, &sitting.issuer, item), acceptance())
        }
        Readied::Good(Item::Exception(item)) => {
            outcome_by(exception_check(view, &sitting.issuer, item), acceptance())
        }
    }
}

// The outcome of an item, given the result of its checks. `passed` is its outcome if they pass.
fn outcome_by(checked: Checked, passed: ItemOutcome) -> Result<ItemOutcome, JudgeStop>
    ensures { JudgesItem result (Judging.item_outcome_by checked passed) }
{
    match checked {
        Checked::Passes => Ok(passed),
        Checked::Fails(check) => Ok(rejection(check)),
        Checked::Missing(key) => Err(JudgeStop::NeedCell(key)),
    }
}

#[tactic(auto, unfolding(crate::specs::Judging::check_record))]
fn judge_record<V: View>(
    alloc: Global,
    view: &V,
    full: bool,
    sitting: &Sitting,
    item: &Record,
) -> Result<ItemOutcome, JudgeStop>
    ensures { JudgesItem result (Judging.judge_record (V.cells view.now) full sitting.now item.now) }
{
    if let Some(check) = own_check(sitting, item) {
        return Ok(rejection(check));
    }
    let held = match view.record_cell(&item.lei()) {
        Seen::Held(held) => Some(held),
        Seen::Empty => None,
        Seen::Missing => return Err(JudgeStop::NeedCell(CellKey::Rec(item.lei()))),
    };
    let checked = check_with_held(alloc, view, &held, sitting, item)?;
    outcome_by(checked, judge_late(alloc, &held, full, sitting, item)?)
}

// The outcome of a record that reached C20, by the checks from there on.
fn judge_late(
    alloc: Global,
    held: &Option<RecCell>,
    full: bool,
    sitting: &Sitting,
    item: &Record,
) -> Result<ItemOutcome, NoMemory>
    ensures { IfOk result (λ judged. judged ≡ Judging.judge_late sitting.now item.now held.now full) }
{
    let failed = match room_check(held, full) {
        Some(check) => Some(check),
        None => event_check(alloc, sitting, item)?,
    };
    Ok(ItemOutcome {
        verdict: verdict_of(failed),
        new: held.is_none(),
    })
}

fn verdict_of(failed: Option<Check>) -> Verdict
    ensures { result ≡ Taking.verdict_of failed }
{
    match failed {
        Some(check) => Verdict::Rejected(check),
        None => Verdict::Accepted,
    }
}
