//! Parents: the walk from one direct parent to the next, and the exceptions that replace parents.
ghost use Rattle.std.specs.Prelude.{◌≡◌};
ghost use Rattle.lei_records.specs.declared.view.CellKey.{CellKey};
ghost use Rattle.lei_shapes.specs.declared.lists.RelationType.{RelationType};
ghost use Rattle.lei_records.specs.Parents as Kinds;
ghost use Rattle.relation_rules.specs.Checking;

use lei_code::Lei;
use lei_records::{CellKey, Seen, View};
use lei_shapes::{ExceptionCategory, RelationType};
use successor_rules::{Chain, Walked, follow};

/// The category of the exceptions about the parents of a type, and `None` if the type isn't a parent's.
pub fn parent_category(kind: RelationType) -> Option<ExceptionCategory>
    ensures { result ≡ Kinds.parent_category kind }
{
    match kind {
        RelationType::IsDirectlyConsolidatedBy => {
            Some(ExceptionCategory::DirectAccountingConsolidationParent)
        }
        RelationType::IsUltimatelyConsolidatedBy => {
            Some(ExceptionCategory::UltimateAccountingConsolidationParent)
        }
        _ => None,
    }
}

/// The type of the parents that exceptions of a category are about.
pub fn parent_type(category: ExceptionCategory) -> RelationType
    ensures { result ≡ Kinds.parent_type category }
{
    match category {
        ExceptionCategory::DirectAccountingConsolidationParent => {
            RelationType::IsDirectlyConsolidatedBy
        }
        ExceptionCategory::UltimateAccountingConsolidationParent => {
            RelationType::IsUltimatelyConsolidatedBy
        }
    }
}

/// Whether relationships of the type lead to direct parents.
pub fn is_direct(kind: RelationType) -> bool
    ensures { result ≡ Kinds.is_direct_type kind }
{
    matches!(kind, RelationType::IsDirectlyConsolidatedBy)
}

/// The chain of direct parents over a view. By its active relationships an entity has at most one direct parent.
#[derive(Drop)]
pub struct ParentChain<'a, V> {
    pub view: &'a V,
}

impl<'a, V: View> Chain for ParentChain<'a, V> {
    ghost answers = { λ chain lei. (V.cells chain.view.now).active lei
        RelationType.IsDirectlyConsolidatedBy };

    ghost cell = { λ chain lei. CellKey.Act lei RelationType.IsDirectlyConsolidatedBy };

    fn next(&self, lei: &Lei) -> Seen<Lei> {
        self.view
            .active(lei, RelationType::IsDirectlyConsolidatedBy)
    }

    fn key(&self, lei: Lei) -> CellKey {
        CellKey::Act(lei, RelationType::IsDirectlyConsolidatedBy)
    }
}

// The walk of an entity whose LEI is `start`: it starts at its parent `first`, and goes from each to that one's direct
// parent.
pub fn walk<V: View>(view: &V, start: &Lei, first: &Lei) -> Walked
    ensures { result ≡ Checking.walk_parents (V.cells view.now) start.now first.now }
{
    follow(&ParentChain { view }, first, start)
}
