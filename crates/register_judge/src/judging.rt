//! The verdicts on the items of an upload.
ghost use Rattle.std.specs.Prelude.{◌≡◌, ◌<◌, ◌≤◌, ◌+◌, ◌∷◌, ◌++◌, [], Err, IfOk, IfSome, IsSome, IsTrue, OnOk, length, if◌then◌else◌};
ghost use Rattle.lei_records.specs.Tables.{Table, IsSoundTable, cells_of, record_count, row_key};
ghost use Rattle.lei_records.specs.declared.view.CellKey.{CellKey as Key};
ghost use Rattle.relation_rules.specs.Needs.{lacks};
ghost use Rattle.cell_reads.specs.Needs.{needs};
ghost use Rattle.cell_reads.specs.Reads.{AnswersReads};
ghost use Rattle.register_judge.specs.Agreement.{IsAgreed, IsByReads, IsNeededIn, NotesMore};
ghost use Rattle.register_judge.specs.declared.outcome.JudgeStop.{JudgeStop as Stop};
ghost use Rattle.lei_records.specs.RuleNumbers.{newest};
ghost use Rattle.register_judge.specs.Judging;
ghost use Rattle.register_judge.specs.Outcomes.{Judges, Shows, TakesItems};
ghost use Rattle.register_judge.specs.Overlays.{overlay_view};
ghost use Rattle.register_judge.specs.Sittings.{over_table, sitting_by};
ghost use Rattle.register_judge.specs.Taking;
ghost use Rattle.register_judge.specs.Taking.{item_after, take, writes_of};

use crate::judge::{ItemOutcome, judge_item};
use crate::keys::row_key;
use crate::outcome::{JudgeStop, Outcome, Verdict};
use crate::overlay::Overlay;
use crate::sitting::Sitting;
use cell_reads::{Noted, note_needs};
use lei_code::Lei;
use lei_records::{Item, Readied, RowKey, Rules, View};
use lei_values::{List, NoMemory};
use std::alloc::Global;

// What was judged so far.
#[derive(Drop)]
struct Progress {
    verdicts: Vec<Verdict>,
    writes: Vec<(RowKey, Option<Item>)>,
    new_records: u32,
    // The number of records that were added.
    added: u32,
    // The cells that were read, if they are listed.
    noted: Option<Noted>,
}

/// Judges the items of an upload by the newest rules, from left to right. Each is judged on what the view answers after
/// the accepted items before it are put. `room` is the number of further records that fit, and `issuer` is the one that
/// uploads the items. `today` is the day, counted from 1970-01-01. The outcome lists the cells that the items needed,
/// as the view has them. On each sound table that agrees with them and has this room, the items have the same outcome.
pub fn judge_all<V: View>(
    alloc: Global,
    view: &V,
    room: u32,
    issuer: &Lei,
    today: i32,
    items: &[Readied],
) -> Result<Outcome, JudgeStop>
    requires { length items.now ≤ 5000 }
    // The number of the view's records isn't known, so the limit is on the records that are added.
    ensures answers { Judges result
        (Judging.judge_items (V.cells view.now) 0 (sitting_by newest room today issuer.now) items.now) }

    // Over the cells of a sound table that has room for this many more records.
    ensures over_tables { (table : Table) → IsSoundTable table → V.cells view.now ≡ cells_of table
        → TakesItems result
        (take table (sitting_by newest (record_count table + room) today issuer.now) items.now) }

    // The view has in each cell that is listed as read what is listed for it.
    ensures read { IfOk result (λ outcome. AnswersReads outcome.reads (V.cells view.now)) }

    // The outcome is the same on each sound table that agrees with the reads and has room for this many more records.
    ensures agreed { IfOk result (λ outcome. IsAgreed outcome room today issuer.now items.now) }

    // If judging stops at a cell, it is one that the view lacks and an item needs.
    ensures wanting { (key : Key) → result ≡ Err (Stop.NeedCell key) → IsTrue (lacks (V.cells view.now) key)
        × IsNeededIn (V.cells view.now) 0 (sitting_by newest room today issuer.now) items.now key }
{
    let sitting = Sitting {
        rules: Rules::Third,
        limit: room,
        today,
        issuer: *issuer,
    };
    judge_each(alloc, view, Some(Noted::new(alloc)), &sitting, items)
}

/// Judges items as [`judge_all`] does, but by the rules of a sitting. The sitting's limit is the number of further
/// records that fit. No cells are listed as read: an upload that is judged in its turn doesn't need them.
pub fn judge_by<V: View>(
    alloc: Global,
    view: &V,
    sitting: &Sitting,
    items: &[Readied],
) -> Result<Outcome, JudgeStop>
    requires { length items.now ≤ 5000 }
    ensures answers { Judges result (Judging.judge_items (V.cells view.now) 0 sitting.now items.now) }
    ensures over_tables { (table : Table) → IsSoundTable table → V.cells view.now ≡ cells_of table
        → TakesItems result
        (take table (over_table sitting.now (record_count table + sitting.now.limit)) items.now) }
{
    judge_each(alloc, view, None, sitting, items)
}

// Judges items in a sitting whose limit is on the records that are added. The cells that are read are listed if there
// is a list for them.
fn judge_each<V: View>(
    alloc: Global,
    view: &V,
    noted: Option<Noted>,
    sitting: &Sitting,
    items: &[Readied],
) -> Result<Outcome, JudgeStop>
    requires few { length items.now ≤ 5000 }
    requires fresh { IfSome noted (λ reads. reads ≡ []) }
    ensures answers { Judges result (Judging.judge_items (V.cells view.now) 0 sitting.now items.now) }
    ensures by_reads { IsSome noted
        → IfOk result (λ outcome. IsByReads outcome (V.cells view.now) sitting.now items.now) }
{
    let mut overlay = Overlay::new(alloc, view);
    let mut progress = Progress {
        verdicts: Vec::with_capacity(alloc, items.len())?,
        writes: Vec::with_capacity(alloc, items.len())?,
        new_records: 0,
        added: 0,
        noted,
    };
    for item in items {
        note_item(
            alloc,
            sitting.rules,
            view,
            &overlay,
            &mut progress.noted,
            item,
        )?;
        let full = sitting.limit <= progress.added;
        let judged = match judge_item(alloc, &overlay, full, sitting, item) {
            Ok(judged) => judged,
            Err(stop) => return Err(stop),
        };
        write_item(
            alloc,
            &mut overlay,
            &mut progress.writes,
            &judged.verdict,
            item,
        )?;
        add(&mut progress, judged)?;
    }
    Ok(outcome_of(alloc, progress))
}

// Notes the cells that an item needs over the accepted items, as the view has them, if cells are listed.
fn note_item<'a, V: View>(
    alloc: Global,
    rules: Rules,
    view: &V,
    overlay: &Overlay<'a, V>,
    noted: &mut Option<Noted>,
    item: &Readied,
) -> Result<(), NoMemory>
    ensures { OnOk result (NotesMore noted.old noted.new (V.cells view.now)
        (needs rules (overlay_view V.cells overlay.now) item.now)) }
{
    match noted {
        Some(noted) => note_needs(alloc, rules, view, overlay, noted, item),
        None => Ok(()),
    }
}

// Puts an accepted item over the view, and appends its write to the writes.
fn write_item<'a, V: View>(
    alloc: Global,
    overlay: &mut Overlay<'a, V>,
    writes: &mut Vec<(RowKey, Option<Item>)>,
    verdict: &Verdict,
    item: &'a Readied,
) -> Result<(), NoMemory>
    ensures cells { OnOk result (overlay_view V.cells overlay.new
        ≡ Judging.put_writes (writes_of verdict.now item.now) (overlay_view V.cells overlay.old)) }
    ensures writes { OnOk result (writes.new.items ≡ writes.old.items ++ writes_of verdict.now item.now) }
{
    match (verdict, item) {
        (Verdict::Accepted, Readied::Good(item)) => accept(alloc, overlay, writes, item),
        _ => Ok(()),
    }
}

fn accept<'a, V: View>(
    alloc: Global,
    overlay: &mut Overlay<'a, V>,
    writes: &mut Vec<(RowKey, Option<Item>)>,
    item: &'a Item,
) -> Result<(), NoMemory>
    ensures cells { OnOk result (overlay_view V.cells overlay.new
        ≡ Judging.put_writes ((row_key item.now, item_after item.now) ∷ [])
        (overlay_view V.cells overlay.old)) }
    ensures writes { OnOk result
        (writes.new.items ≡ writes.old.items ++ (row_key item.now, item_after item.now) ∷ []) }
{
    overlay.put(alloc, item)?;
    writes.push((row_key(item), item_after(item)?))?;
    Ok(())
}

// What is held under the key of an accepted item: the item, or nothing if it is a withdrawal.
fn item_after(item: &Item) -> Result<Option<Item>, NoMemory>
    ensures { IfOk result (λ held. held ≡ Taking.item_after item.now) }
{
    match item {
        Item::Exception(exception) if exception.withdraws() => Ok(None),
        item => Ok(Some(item.share()?)),
    }
}

// Adds the outcome of an item to what was judged so far.
fn add(progress: &mut Progress, judged: ItemOutcome) -> Result<(), NoMemory>
    requires new_records { progress.old.new_records < 5000 }
    requires added { progress.old.added < 5000 }
    ensures verdicts { OnOk result
        (progress.new.verdicts.items ≡ progress.old.verdicts.items ++ judged.verdict ∷ []) }
    ensures writes { progress.new.writes ≡ progress.old.writes }
    ensures noted { progress.new.noted ≡ progress.old.noted }
    ensures new_records { progress.new.new_records
        ≡ progress.old.new_records + (if judged.new then 1 else 0) }
    ensures added { progress.new.added
        ≡ progress.old.added + Judging.records_added judged.verdict judged.new }
{
    progress.added += records_added(&judged.verdict, judged.new);
    progress.new_records += u32::from(judged.new);
    progress.verdicts.push(judged.verdict)?;
    Ok(())
}

// The number of records that an item adds: one if it is accepted and new.
fn records_added(verdict: &Verdict, new: bool) -> u32
    ensures { result ≡ Judging.records_added verdict.now new }
{
    match verdict {
        Verdict::Accepted if new => 1,
        _ => 0,
    }
}

// The outcome of what was judged. It has no reads if cells aren't listed.
fn outcome_of(alloc: Global, progress: Progress) -> Outcome
    ensures shows { Shows result progress.verdicts.items progress.writes.items progress.new_records }
    ensures reads { IfSome progress.noted (λ reads. result.reads ≡ reads) }
{
    let reads = progress.noted.map(|noted| noted.into_reads());
    Outcome {
        verdicts: List::from(progress.verdicts),
        writes: List::from(progress.writes),
        new_records: progress.new_records,
        reads: reads.unwrap_or(List::from(Vec::new(alloc))),
    }
}
