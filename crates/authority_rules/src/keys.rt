//! Which records are live, and their authority keys.
ghost use Rattle.std.specs.Prelude.{◌≡◌, option_map};
ghost use Rattle.authority_rules.specs.Taken;
ghost use Rattle.lei_records.specs.Cells.{akey, is_no_authority as names_none};
ghost use Rattle.lei_records.specs.Cells;
ghost use Rattle.lei_records.specs.Tables.{Table, IsSoundTable, cells_of, other_holder, seen};

use lei_code::Lei;
use lei_records::{Record, Seen, View};
use lei_shapes::RecordStatus;

// The codes that the registration authority's field has if there is no authority.
const NO_AUTHORITY: [&str; 2] = ["RA888888", "RA999999"];

/// Whether the record is live: its status is ISSUED, LAPSED, PENDING_TRANSFER or PENDING_ARCHIVAL.
pub fn is_live(item: &Record) -> bool
    ensures { result ≡ Cells.is_live item.now }
{
    is_live_status(item.status())
}

fn is_live_status(status: RecordStatus) -> bool
    ensures { result ≡ Cells.is_live_status status }
{
    match status {
        RecordStatus::Retired | RecordStatus::Duplicate | RecordStatus::Annulled => false,
        _ => true,
    }
}

/// Whether the record is live and has this authority key.
#[tactic(auto, unfolding(lei_records::specs::Cells::holds))]
pub fn holds(item: &Record, authority: &str, id: &str) -> bool
    ensures { result ≡ Cells.holds authority.now id.now item.now }
{
    is_live(item) && is_key(key_of(item), authority, id)
}

fn is_key(key: Option<(&str, &str)>, authority: &str, id: &str) -> bool
    ensures { result ≡ Cells.is_authority_key authority.now id.now (option_map
        (λ k. (k.0.now, k.1.now)) key.entry) }
{
    match key {
        Some(key) => key.0 == authority && key.1 == id,
        None => false,
    }
}

/// The entity's registration authority and its id there. `None` if the id is absent, or if a code says that there is no
/// authority.
#[tactic(auto, unfolding(lei_records::specs::Cells::akey))]
pub fn key_of(item: &Record) -> Option<(&str, &str)>
    ensures { option_map (λ key. (key.0.now, key.1.now)) result ≡ akey item.now }
{
    let (authority, id) = (item.authority(), item.authority_id());
    if id.is_empty() {
        return None;
    }
    if is_no_authority(authority) {
        return None;
    }
    Some((authority, id))
}

/// Another live record that has the item's authority key, whatever the item's own status is. `Missing` if the view
/// doesn't know who has the key.
pub fn taken<V: View>(view: &V, item: &Record) -> Seen<Lei>
    ensures answers { result ≡ Taken.taken (V.cells view.now) item.now }

    // Over the cells of a sound table: of the other records that are live and have the key, the first by code.
    ensures over_tables { (table : Table) → IsSoundTable table → V.cells view.now ≡ cells_of table
        → result ≡ seen (other_holder table item.now) }
{
    unless_own(item.lei(), seen_holder(view, key_of(item)))
}

// Who has a key, or nobody if there is no key.
fn seen_holder<V: View>(view: &V, key: Option<(&str, &str)>) -> Seen<Lei>
    ensures { result ≡ Taken.seen_holder (V.cells view.now) (option_map (λ k. (k.0.now, k.1.now)) key.entry) }
{
    match key {
        Some((authority, id)) => view.holder(authority, id),
        None => Seen::Empty,
    }
}

// A record doesn't conflict with itself.
fn unless_own(own: Lei, holder: Seen<Lei>) -> Seen<Lei>
    ensures { result ≡ Taken.unless_own own holder }
{
    match holder {
        Seen::Held(lei) if lei == own => Seen::Empty,
        holder => holder,
    }
}

// Whether the code is one of the two.
fn is_no_authority(authority: &str) -> bool
    ensures { result ≡ names_none authority.now }
{
    NO_AUTHORITY.contains(&authority)
}
