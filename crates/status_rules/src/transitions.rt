//! Transitions of the registration status.
ghost use Rattle.std.specs.Prelude.{◌≡◌, None, Some};
ghost use Rattle.lei_shapes.specs.declared.lists.RecordStatus.{RecordStatus};
ghost use Rattle.status_rules.specs.Transitions.{party};

use lei_shapes::RecordStatus;

/// The issuer that may make a change.
#[derive(Clone, Copy, Debug, PartialEq, Eq)]
pub enum Party {
    /// The one that the item names as its manager.
    New,
    /// The one that the held record names as its manager.
    Manager,
    /// The one that the held record is to be transferred to.
    Receiver,
}

/// Who may change a held status to the item's status. `None` if nobody may. `old` is `None` if no record is held.
pub fn transition(old: Option<RecordStatus>, new: RecordStatus) -> Option<Party>
    ensures { result ≡ party old new }
{
    match old {
        None => from_none(new),
        Some(RecordStatus::Issued) | Some(RecordStatus::Lapsed) => from_valid(new),
        Some(RecordStatus::PendingTransfer) => from_pending_transfer(new),
        Some(RecordStatus::PendingArchival) => from_pending_archival(new),
        Some(RecordStatus::Retired) => from_retired(new),
        Some(RecordStatus::Duplicate) => from_duplicate(new),
        Some(RecordStatus::Annulled) => None,
    }
}

// No record is held: a new record is ISSUED.
fn from_none(new: RecordStatus) -> Option<Party>
    ensures { result ≡ party None new }
{
    match new {
        RecordStatus::Issued => Some(Party::New),
        _ => None,
    }
}

// From ISSUED and from LAPSED alike.
fn from_valid(new: RecordStatus) -> Option<Party>
    ensures issued { result ≡ party (Some RecordStatus.Issued) new }
    ensures lapsed { result ≡ party (Some RecordStatus.Lapsed) new }
{
    match new {
        RecordStatus::PendingArchival => None,
        _ => Some(Party::Manager),
    }
}

fn from_pending_transfer(new: RecordStatus) -> Option<Party>
    ensures { result ≡ party (Some RecordStatus.PendingTransfer) new }
{
    match new {
        RecordStatus::Retired | RecordStatus::Duplicate | RecordStatus::Annulled => None,
        _ => Some(Party::Manager),
    }
}

// The receiver takes over the record, or the manager returns it to transfer.
fn from_pending_archival(new: RecordStatus) -> Option<Party>
    ensures { result ≡ party (Some RecordStatus.PendingArchival) new }
{
    match new {
        RecordStatus::Issued | RecordStatus::Lapsed => Some(Party::Receiver),
        RecordStatus::PendingTransfer => Some(Party::Manager),
        _ => None,
    }
}

fn from_retired(new: RecordStatus) -> Option<Party>
    ensures { result ≡ party (Some RecordStatus.Retired) new }
{
    match new {
        RecordStatus::Issued | RecordStatus::Retired => Some(Party::Manager),
        _ => None,
    }
}

fn from_duplicate(new: RecordStatus) -> Option<Party>
    ensures { result ≡ party (Some RecordStatus.Duplicate) new }
{
    match new {
        RecordStatus::Duplicate => Some(Party::Manager),
        _ => None,
    }
}
