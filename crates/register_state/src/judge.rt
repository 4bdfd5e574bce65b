//! Judges the items of an upload.
ghost use Rattle.std.specs.Prelude.{◌≡◌, ◌≤◌, ◌+◌, IfOk, IsTrue, length};
ghost use Rattle.cell_reads.specs.Reads.{Agrees};
ghost use Rattle.lei_shapes.specs.Moment.{IsMoment, day_of};
ghost use Rattle.lei_records.specs.Tables.{record_count};
ghost use Rattle.register_judge.specs.Taking.{take};
ghost use Rattle.register_table.specs.Held.{rows};
ghost use Rattle.register_state.specs.Judging.{ShowsTaken};

use lei_records::Readied;
use lei_shapes::day_number;
use lei_values::NoMemory;
use register_judge::{JudgeStop, Outcome, Plan, Sitting, judge_by};
use register_table::Table;
use std::alloc::Global;

// Judges the items of an upload on the table, in a sitting whose limit is for all records of the table.
pub fn judge(
    alloc: Global,
    table: &Table,
    sitting: &Sitting,
    items: &[Readied],
) -> Result<Outcome, NoMemory>
    requires count { length items.now ≤ 5000 }
    requires fits { record_count (rows table.now.held) ≤ sitting.now.limit }
    ensures { IfOk result
        (λ outcome. ShowsTaken outcome (take (rows table.now.held) sitting.now items.now)) }
{
    let within = Sitting {
        rules: sitting.rules,
        limit: sitting.limit.saturating_sub(table.held()),
        today: sitting.today,
        issuer: sitting.issuer,
    };
    match judge_by(alloc, table, &within, items) {
        Ok(outcome) => Ok(outcome),
        Err(JudgeStop::NoMemory) => Err(NoMemory),
        Err(JudgeStop::NeedCell(_)) => unreachable!(),
    }
}

// Whether a plan can be used. It has to be for the moment's day, and its new records have to fit. The table has to
// agree with what the plan has read.
pub fn is_usable(table: &Table, records: u32, moment: i64, plan: &Plan) -> bool
    requires moment { IsMoment moment }
    requires fits { record_count (rows table.now.held) ≤ records }
    ensures day { IsTrue result → plan.now.today ≡ day_of moment }
    ensures agrees { IsTrue result → Agrees plan.now.outcome.reads (rows table.now.held) }
    ensures fits { IsTrue result
        → record_count (rows table.now.held) + plan.now.outcome.new_records ≤ records }
    ensures used { plan.now.today ≡ day_of moment → Agrees plan.now.outcome.reads (rows table.now.held)
        → record_count (rows table.now.held) + plan.now.outcome.new_records ≤ records → IsTrue result }
{
    plan.today == day_number(moment)
        && plan.outcome.new_records <= records.saturating_sub(table.held())
        && table.agrees(&plan.outcome.reads)
}
