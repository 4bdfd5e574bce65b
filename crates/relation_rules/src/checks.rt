//! The checks of relationships and exceptions, each as a test. This project's profile.
ghost use Rattle.std.specs.Prelude.{◌≡◌, ◌∷◌, [], false, int_lt, Some};
ghost use Rattle.std.specs.Option.{option_map_or};
ghost use Rattle.lei_records.specs.Checks.{first_failing};
ghost use Rattle.relation_rules.specs.Checks;

use crate::checked::plain;
use crate::statuses::{is_over, may_follow};
use lei_code::Lei;
use lei_records::numbers::{
    NOT_MANAGED, PERIOD_ORDER, RELATION_TRANSITION, SAME_NODE, START_CATEGORY, START_NOT_MANAGED,
};
use lei_records::{Check, RecCell, RelCell, Relation};
use lei_shapes::{Category, Moment, RelationType};

// ---- a relationship

// C30 and C31: the item alone.
pub fn own_check(item: &Relation) -> Option<Check>
    ensures { result ≡ first_failing (Checks.c30 item.now ∷ Checks.c31 item.now ∷ []) }
{
    if item.start() == item.end() {
        return Some(plain(SAME_NODE));
    }
    if has_wrong_order(item) {
        return Some(plain(PERIOD_ORDER));
    }
    None
}

fn has_wrong_order(item: &Relation) -> bool
    ensures { result ≡ (Checks.c31 item.now).fails }
{
    is_before(item.end_date(), item.start_date()) || item.updated() < item.initial()
}

fn is_before(ended: Option<Moment>, started: Moment) -> bool
    ensures { result ≡ option_map_or (λ moment. int_lt moment started) ended false }
{
    match ended {
        Some(ended) => ended < started,
        None => false,
    }
}

// C34 and C35: the start's record, and the issuer that uploads it.
pub fn start_check(start: &RecCell, issuer: &Lei, item: &Relation) -> Option<Check>
    ensures { result ≡ first_failing
        (Checks.c34 (Some start.now) issuer.now item.now ∷ Checks.c35 (Some start.now) item.now ∷ []) }
{
    if item.manager() != *issuer || start.manager != *issuer {
        return Some(plain(START_NOT_MANAGED));
    }
    if !may_start(item.kind(), start.category) {
        return Some(plain(START_CATEGORY));
    }
    None
}

fn may_start(kind: RelationType, category: Category) -> bool
    ensures { result ≡ Checks.may_start kind category }
{
    match kind {
        RelationType::IsDirectlyConsolidatedBy | RelationType::IsUltimatelyConsolidatedBy => true,
        RelationType::IsInternationalBranchOf => category == Category::Branch,
        RelationType::IsFundManagedBy | RelationType::IsSubfundOf | RelationType::IsFeederTo => {
            category == Category::Fund
        }
    }
}

// C36: the relationship held under the item's key.
pub fn held_check(held: Option<RelCell>, item: &Relation) -> Option<Check>
    ensures { result ≡ first_failing (Checks.c36 held item.now ∷ []) }
{
    let registration = item.registration();
    let follows = may_follow(held.map(|cell| cell.registration), registration);
    if !follows || (item.is_active() && is_over(registration)) {
        return Some(plain(RELATION_TRANSITION));
    }
    None
}

// ---- an exception

// C51: the record of the exception's LEI, and the issuer that uploads it.
pub fn manager_check(held: &RecCell, issuer: &Lei) -> Option<Check>
    ensures { result ≡ first_failing (Checks.c51 (Some held.now) issuer.now ∷ []) }
{
    if held.manager != *issuer {
        return Some(plain(NOT_MANAGED));
    }
    None
}
