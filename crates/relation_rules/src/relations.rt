//! The checks of a relationship, over any view.
ghost use Rattle.std.specs.Prelude.{◌≡◌, IsTrue, Some, true};
ghost use Rattle.lei_shapes.specs.declared.lists.ExceptionCategory.{ExceptionCategory};
ghost use Rattle.lei_records.specs.declared.view.CellKey.{CellKey};
ghost use Rattle.lei_records.specs.declared.view.Seen.{Seen};
ghost use Rattle.lei_records.specs.Checks.{first_failing};
ghost use Rattle.lei_records.specs.Parents;
ghost use Rattle.lei_records.specs.Relations;
ghost use Rattle.lei_records.specs.Tables.{IsSoundTable, Table, cells_of};
ghost use Rattle.authority_rules.specs.Taken.{unless_own};
ghost use Rattle.relation_rules.specs.Checking;
ghost use Rattle.relation_rules.specs.Checks.{relation_checks};
ghost use Rattle.relation_rules.specs.Needs.{IsNeeded, lacks};
ghost use Rattle.relation_rules.specs.declared.checked.Checked.{Checked};

use crate::checked::{Checked, check_failure, check_with_lei};
use crate::checks::{held_check, own_check, start_check};
use crate::parents::{is_direct, parent_category, walk};
use lei_code::Lei;
use lei_records::numbers::{
    ACTIVE_TAKEN, END_UNKNOWN, EXCEPTION_STANDS, PARENT_CHAIN_LONG, PARENT_CYCLE, START_UNKNOWN,
};
use lei_records::{CellKey, RecCell, RelCell, Relation, Seen, View};
use lei_shapes::ExceptionCategory;
use successor_rules::Walked;

/// The checks C30 to C40 of a relationship that an issuer uploads, by what the view answers: the first that fails.
/// `Missing` if none fails before one that needs a cell that the view lacks, with the key of the first such cell. The
/// cells are read in the order of the checks: the records of start and end, and the relationship held under the item's
/// key. For an active item the active relationship of its start and type follows. Then come the direct parents of a
/// direct parent, and the exception that replaces a parent.
pub fn relation_check<V: View>(view: &V, issuer: &Lei, item: &Relation) -> Checked
    ensures answers { result ≡ Checking.check_relation (V.cells view.now) issuer.now item.now }

    // A cell that is reported missing is one that the view lacks and the item needs.
    ensures lacking { (key : CellKey) → result ≡ Checked.Missing key → IsTrue (lacks (V.cells view.now) key) }
    ensures needed { (key : CellKey) → result ≡ Checked.Missing key
        → IsNeeded (V.cells view.now) item.now key }

    // Over the cells of a sound table: the first that fails of all checks, each applied to all rows.
    ensures over_tables { (table : Table) → IsSoundTable table → V.cells view.now ≡ cells_of table
        → result ≡ Checking.checked_of (first_failing (relation_checks table issuer.now item.now)) }
{
    check_relation(view, issuer, item)
}

#[tactic(auto, unfolding(crate::specs::Checking::check_relation))]
fn check_relation<V: View>(view: &V, issuer: &Lei, item: &Relation) -> Checked
    ensures { result ≡ Checking.check_relation (V.cells view.now) issuer.now item.now }
{
    if let Some(check) = own_check(item) {
        return Checked::Fails(check);
    }
    match view.record_cell(&item.start()) {
        Seen::Held(start) => check_start(view, issuer, item, &start),
        Seen::Empty => check_failure(START_UNKNOWN),
        Seen::Missing => Checked::Missing(CellKey::Rec(item.start())),
    }
}

// C33 and the checks after it, with the start's record.
fn check_start<V: View>(view: &V, issuer: &Lei, item: &Relation, start: &RecCell) -> Checked
    ensures { result ≡ Checking.check_start (V.cells view.now) issuer.now item.now (Some start.now) }
{
    match view.record_cell(&item.end()) {
        Seen::Held(_) => check_managed(view, issuer, item, start),
        Seen::Empty => check_failure(END_UNKNOWN),
        Seen::Missing => Checked::Missing(CellKey::Rec(item.end())),
    }
}

// C34 and the checks after it: the end has a record too.
fn check_managed<V: View>(view: &V, issuer: &Lei, item: &Relation, start: &RecCell) -> Checked
    ensures { result ≡ Checking.check_managed (V.cells view.now) issuer.now item.now (Some start.now) }
{
    if let Some(check) = start_check(start, issuer, item) {
        return Checked::Fails(check);
    }
    match view.relation(&item.start(), item.kind(), &item.end()) {
        Seen::Held(held) => check_held(view, item, Some(held)),
        Seen::Empty => check_held(view, item, None),
        Seen::Missing => { Checked::Missing(CellKey::Rel(item.start(), item.kind(), item.end())) }
    }
}

// C36 and the checks after it, with the relationship that is held under the item's key.
fn check_held<V: View>(view: &V, item: &Relation, held: Option<RelCell>) -> Checked
    ensures { result ≡ Checking.check_held (V.cells view.now) item.now held }
{
    if let Some(check) = held_check(held, item) {
        return Checked::Fails(check);
    }
    check_active(view, item)
}

// C37 and the checks after it: a relationship that isn't active needs no further cell.
fn check_active<V: View>(view: &V, item: &Relation) -> Checked
    ensures { result ≡ Checking.check_active (V.cells view.now) item.now }
{
    if !item.is_active() {
        return Checked::Passes;
    }
    match view.active(&item.start(), item.kind()) {
        Seen::Held(end) => check_end(view, item, end),
        Seen::Empty => check_parents(view, item),
        Seen::Missing => Checked::Missing(CellKey::Act(item.start(), item.kind())),
    }
}

// C37 of an active item, with the end of the active relationship of its start and type, and the checks after it.
fn check_end<V: View>(view: &V, item: &Relation, end: Lei) -> Checked
    ensures { Relations.is_active item.now ≡ true
        → (key : CellKey) → result
        ≡ Checking.on_seen (unless_own (Relations.end_in item.now) (Seen.Held end)) key
        (Checking.check_other_end (V.cells view.now) item.now) }
{
    if end != item.end() {
        return Checked::Fails(check_with_lei(ACTIVE_TAKEN, end));
    }
    check_parents(view, item)
}

// C38 and the checks after it, of an active item: only a direct parent is followed.
fn check_parents<V: View>(view: &V, item: &Relation) -> Checked
    ensures { Relations.is_active item.now ≡ true
        → result ≡ Checking.check_parents (V.cells view.now) item.now }
{
    if !is_direct(item.kind()) {
        return check_exception(view, item);
    }
    match walk(view, &item.start(), &item.end()) {
        Walked::Meets => check_failure(PARENT_CYCLE),
        Walked::Long => check_failure(PARENT_CHAIN_LONG),
        Walked::Ends => check_exception(view, item),
        Walked::Missing(key) => Checked::Missing(key),
    }
}

// C40 of an active item: a relationship that isn't a parent needs no exception.
fn check_exception<V: View>(view: &V, item: &Relation) -> Checked
    ensures { Relations.is_active item.now ≡ true
        → result ≡ Checking.check_category (V.cells view.now) item.now
        (Parents.parent_category (Relations.kind_in item.now)) }
{
    match parent_category(item.kind()) {
        None => Checked::Passes,
        Some(category) => check_category(view, item, category),
    }
}

fn check_category<V: View>(view: &V, item: &Relation, category: ExceptionCategory) -> Checked
    ensures { Relations.is_active item.now ≡ true
        → result ≡ Checking.check_category (V.cells view.now) item.now (Some category) }
{
    match view.exception(&item.start(), category) {
        Seen::Held(()) => check_failure(EXCEPTION_STANDS),
        Seen::Empty => Checked::Passes,
        Seen::Missing => Checked::Missing(CellKey::Exc(item.start(), category)),
    }
}
