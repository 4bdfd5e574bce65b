//! The checks of an exception, over any view.
ghost use Rattle.std.specs.Prelude.{◌≡◌, Contains, IsTrue, Some, false, true};
ghost use Rattle.lei_shapes.specs.declared.lists.ExceptionCategory.{ExceptionCategory};
ghost use Rattle.lei_shapes.specs.declared.lists.RelationType.{RelationType};
ghost use Rattle.lei_records.specs.declared.view.CellKey.{CellKey};
ghost use Rattle.lei_records.specs.Checks.{first_failing};
ghost use Rattle.lei_records.specs.Tables.{IsSoundTable, Table, cells_of};
ghost use Rattle.relation_rules.specs.Checking;
ghost use Rattle.relation_rules.specs.Checks.{exception_checks};
ghost use Rattle.relation_rules.specs.Needs.{exception_names, lacks};
ghost use Rattle.relation_rules.specs.declared.checked.Checked.{Checked};

use crate::checked::{Checked, check_failure, check_with_lei};
use crate::checks::manager_check;
use crate::parents::parent_type;
use lei_code::Lei;
use lei_records::numbers::{LEI_UNKNOWN, NOTHING_TO_WITHDRAW, PARENT_STANDS};
use lei_records::{CellKey, ExceptionItem, RecCell, Seen, View};
use lei_shapes::{ExceptionCategory, RelationType};

/// The checks C50 to C53 of an exception, or of its withdrawal, that an issuer uploads, by what the view answers: the
/// first that fails. `Missing` if none fails before one that needs a cell that the view lacks, with the key of the
/// first such cell. The check reads the record of the exception's LEI. It then reads the active parent of its category
/// for a put, or the exception itself for a withdrawal.
pub fn exception_check<V: View>(view: &V, issuer: &Lei, item: &ExceptionItem) -> Checked
    ensures answers { result ≡ Checking.check_exception (V.cells view.now) issuer.now item.now }

    // A cell that is reported missing is one that the view lacks and the item names.
    ensures lacking { (key : CellKey) → result ≡ Checked.Missing key → IsTrue (lacks (V.cells view.now) key) }
    ensures named { (key : CellKey) → result ≡ Checked.Missing key
        → Contains (exception_names item.now.0) key }

    // Over the cells of a sound table: the first that fails of all checks, each applied to all rows.
    ensures over_tables { (table : Table) → IsSoundTable table → V.cells view.now ≡ cells_of table
        → result ≡ Checking.checked_of (first_failing (exception_checks table issuer.now item.now)) }
{
    check_exception(view, issuer, item)
}

#[tactic(auto, unfolding(crate::specs::Checking::check_exception))]
fn check_exception<V: View>(view: &V, issuer: &Lei, item: &ExceptionItem) -> Checked
    ensures { result ≡ Checking.check_exception (V.cells view.now) issuer.now item.now }
{
    match view.record_cell(&item.lei()) {
        Seen::Held(held) => check_subject(view, issuer, item, &held),
        Seen::Empty => check_failure(LEI_UNKNOWN),
        Seen::Missing => Checked::Missing(CellKey::Rec(item.lei())),
    }
}

// C51 and the checks after it, with the record of the exception's LEI.
fn check_subject<V: View>(view: &V, issuer: &Lei, item: &ExceptionItem, held: &RecCell) -> Checked
    ensures { result ≡ Checking.check_subject (V.cells view.now) issuer.now item.now (Some held.now) }
{
    if let Some(check) = manager_check(held, issuer) {
        return Checked::Fails(check);
    }
    if item.withdraws() {
        check_withdrawal(view, item, item.category())
    } else {
        check_put(view, item, parent_type(item.category()))
    }
}

// C52 of a put: the entity may have no such parent.
fn check_put<V: View>(view: &V, item: &ExceptionItem, kind: RelationType) -> Checked
    ensures { item.now.1 ≡ false → result ≡ Checking.check_put (V.cells view.now) item.now kind }
{
    match view.active(&item.lei(), kind) {
        Seen::Held(parent) => Checked::Fails(check_with_lei(PARENT_STANDS, parent)),
        Seen::Empty => Checked::Passes,
        Seen::Missing => Checked::Missing(CellKey::Act(item.lei(), kind)),
    }
}

// C53 of a withdrawal: there has to be such an exception.
fn check_withdrawal<V: View>(view: &V, item: &ExceptionItem, category: ExceptionCategory) -> Checked
    ensures { item.now.1 ≡ true → result ≡ Checking.check_withdrawal (V.cells view.now) item.now category }
{
    match view.exception(&item.lei(), category) {
        Seen::Held(()) => Checked::Passes,
        Seen::Empty => check_failure(NOTHING_TO_WITHDRAW),
        Seen::Missing => Checked::Missing(CellKey::Exc(item.lei(), category)),
    }
}
