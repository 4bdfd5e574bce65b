//! The registration statuses of relationships.
ghost use Rattle.std.specs.Prelude.{◌≡◌};
ghost use Rattle.relation_rules.specs.Statuses;

use lei_shapes::RelationRegistration;

// Whether a status may follow the held one, or may come first if none is held.
pub fn may_follow(held: Option<RelationRegistration>, new: RelationRegistration) -> bool
    ensures { result ≡ Statuses.status_may_follow held new }
{
    match held {
        None | Some(RelationRegistration::Annulled) => is_in_force(new),
        Some(RelationRegistration::Retired) => new != RelationRegistration::Lapsed,
        Some(_) => true,
    }
}

// ISSUED and PUBLISHED are two spellings of one status.
fn is_in_force(status: RelationRegistration) -> bool
    ensures { result ≡ Statuses.status_may_follow None status }
{
    matches!(
        status,
        RelationRegistration::Issued | RelationRegistration::Published
    )
}

// Whether the registration has ended.
pub fn is_over(status: RelationRegistration) -> bool
    ensures { result ≡ Statuses.is_over status }
{
    matches!(
        status,
        RelationRegistration::Retired | RelationRegistration::Annulled
    )
}
