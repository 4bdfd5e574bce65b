//! Stamps: the keys that were touched, in the order of the numbers of the entries that touched them.
ghost use Rattle.std.specs.Prelude.{ℕ, ◌+◌, ◌<◌, ◌≤◌, ◌≡◌, length, vec_capacity, vec_len};
ghost use Rattle.std.specs.List.{All};
ghost use Rattle.lei_records.specs.Tables.{KeyTexts};
ghost use Rattle.register_table.specs.Held.{Held};
ghost use Rattle.register_table.specs.Stamps.{AreStamped, NoneFrom, StampsDontFall};
ghost use Rattle.register_table.specs.Undos.{IsLater, touch_all};

use lei_records::{Item, RowKey};

/// A key that the entry with this number touched.
#[derive(Clone, Copy)]
pub struct Stamp {
    pub entry: u64,
    pub key: RowKey,
}

/// Appends stamps of the writes of an entry to those of earlier entries. There must be capacity for them. Stamps with
/// its number or a greater one are of writes that were undone, and are removed.
pub fn stamp_writes(stamps: &mut Vec<Stamp>, writes: &[(RowKey, Option<Item>)], entry: u64)
    requires order { StampsDontFall stamps.old.items }
    requires room { vec_len stamps.old + length writes.now ≤ vec_capacity stamps.old }
    ensures order { StampsDontFall stamps.new.items }
    ensures before { (held : Held) → IsLater entry held → AreStamped stamps.old.items held
        → AreStamped stamps.new.items held }
    ensures after { (held : Held) → IsLater entry held → AreStamped stamps.old.items held
        → AreStamped stamps.new.items (touch_all entry writes.now held) }
{
    drop_from(stamps, entry);
    for write in writes {
        stamps.push_reserved(Stamp {
            entry,
            key: write.0,
        });
    }
}

// Removes the stamps with this number or a greater one.
fn drop_from(stamps: &mut Vec<Stamp>, entry: u64)
    requires order { StampsDontFall stamps.old.items }
    ensures order { StampsDontFall stamps.new.items }
    ensures below { All (λ (stamp : Stamp). stamp.entry < entry) stamps.new.items }
    ensures kept { (held : Held) → IsLater entry held → AreStamped stamps.old.items held
        → AreStamped stamps.new.items held }
    ensures len { vec_len stamps.new ≤ vec_len stamps.old }
    ensures capacity { vec_capacity stamps.new ≡ vec_capacity stamps.old }
{
    let below = stamps
        .as_slice()
        .partition_point(|stamp| stamp.entry < entry);
    stamps.truncate(below);
}

/// The stamps whose numbers are greater than `after` and at most `upto`.
pub fn stamps_within(stamps: &[Stamp], after: u64, upto: u64) -> &[Stamp]
    requires order { StampsDontFall stamps.now }
    ensures whole { (entry : ℕ) (key : KeyTexts) → after < entry → entry ≤ upto
        → NoneFrom 0 result.now entry key → NoneFrom 0 stamps.now entry key }
    ensures range { All (λ (stamp : Stamp). (after < stamp.entry) × (stamp.entry ≤ upto)) result.now }
{
    let first = &stamps[..stamps.partition_point(|stamp| stamp.entry <= upto)];
    &first[first.partition_point(|stamp| stamp.entry <= after)..]
}
