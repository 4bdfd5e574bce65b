//! What the registration status requires of the entity status and of the renewal date.
ghost use Rattle.std.specs.Prelude.{◌≡◌};
ghost use Rattle.status_rules.specs.Statuses;

use lei_shapes::{EntityStatus, RecordStatus};

// How many days ahead the renewal of an issued record may be.
const LONGEST_TERM: i64 = 400;

/// Whether a record may have this status together with this status of its entity.
pub fn entity_fits(status: RecordStatus, entity: EntityStatus) -> bool
    ensures { result ≡ Statuses.entity_fits status entity }
{
    match (status, entity) {
        (RecordStatus::Issued, entity) => entity == EntityStatus::Active,
        (RecordStatus::Retired, entity) => entity == EntityStatus::Inactive,
        (RecordStatus::Duplicate | RecordStatus::Annulled, _) => true,
        (_, entity) => entity != EntityStatus::Null,
    }
}

/// Whether the day of the next renewal fits the status. Days are counted from 1970-01-01.
pub fn renewal_fits(status: RecordStatus, renewal_day: i32, today: i32) -> bool
    ensures { result ≡ Statuses.renewal_fits status renewal_day today }
{
    match status {
        RecordStatus::Issued => {
            renewal_day >= today && i64::from(renewal_day) <= i64::from(today) + LONGEST_TERM
        }
        RecordStatus::Lapsed => renewal_day < today,
        _ => true,
    }
}
