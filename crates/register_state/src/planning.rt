//! Plans: the outcome of an upload, judged ahead of its turn on a part of the table.
ghost use Rattle.std.specs.Prelude.{◌≡◌, IfSome, count_by, if◌then◌else◌, min};
ghost use Rattle.register_state.specs.Planning.{AreItemsOf, IsPlanOf, is_accepted};

use crate::entries::RULES;
use lei_records::{Readied, View};
use lei_shapes::{Moment, day_number};
use register_judge::{Plan, Verdict, judge_all};
use register_words::Call;
use std::alloc::Global;
use std::thread::Threads;
use upload_format::Reader;

/// The items of an upload, with their fields checked by the newest rules. There are none if the body has no reading, or
/// if memory runs out.
pub fn items_of<R: Threads + Sync>(rt: &R, alloc: Global, call: &Call) -> Option<Vec<Readied>>
    ensures { IfSome result (λ items. AreItemsOf call.now items.items) }
{
    let mut reader = Reader::new(alloc);
    reader
        .read_ready(rt, alloc, RULES, call.body.as_slice())
        .ok()
}

/// A plan of an upload by the newest rules, judged on what a view has of a table. There is none if the view lacks a
/// cell that an item needs, or if memory runs out.
pub fn plan_of<V: View>(
    alloc: Global,
    view: &V,
    call: &Call,
    items: &[Readied],
    moment: Moment,
) -> Option<Plan>
    requires { AreItemsOf call.now items.now }
    ensures { IfSome result (IsPlanOf call.now) }
{
    let today = day_number(moment.seconds());
    match judge_all(alloc, view, u32::MAX, &call.office, today, items) {
        Ok(outcome) => Some(Plan { outcome, today }),
        Err(_) => None,
    }
}

/// The number of items that a plan accepts. It stops at `u32::MAX`.
pub fn accepted_items(plan: &Plan) -> u32
    ensures { result ≡ min (count_by is_accepted plan.now.outcome.verdicts) 4294967295 }
{
    count_accepted(plan.outcome.verdicts.as_slice())
}

fn count_accepted(verdicts: &[Verdict]) -> u32
    ensures { result ≡ min (count_by is_accepted verdicts.now) 4294967295 }
{
    let mut count: u32 = 0;
    for verdict in verdicts {
        count = count.saturating_add(one_if_accepted(verdict));
    }
    count
}

// 1 for an accepted item, and 0 for any other.
fn one_if_accepted(verdict: &Verdict) -> u32
    ensures { result ≡ if is_accepted verdict.now then 1 else 0 }
{
    match verdict {
        Verdict::Accepted => 1,
        Verdict::Rejected(_) => 0,
    }
}
