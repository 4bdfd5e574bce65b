//! Walks from LEI to LEI, level by level, if each may name several next ones. No call takes memory.
ghost use Rattle.std.specs.Prelude.{◌≡◌, ◌++◌, ◌∷◌, ◌<◌, List, ℕ, length, take, Option, Some, None, if◌then◌else◌};
ghost use Rattle.std.specs.Bool.{OnFalse, OnTrue};
ghost use Rattle.std.specs.Set.{is_member};
ghost use Rattle.std.specs.Str.{bytes_eq};
ghost use Rattle.lei_records.specs.declared.view.CellKey.{CellKey};
ghost use Rattle.successor_rules.specs.declared.walks.Walked.{Walked};
ghost use Rattle.successor_rules.specs.Levels.{SeenNexts, each_once, held_nexts, known_nexts, lacks_nexts, reachable, spread_over};

use crate::found::{Found, is_among};
use crate::walks::Walked;
use lei_code::Lei;
use lei_records::{CellKey, Seen, Successors};

/// Something in which an LEI names several next ones.
pub trait Branches {
    /// What it answers for the next ones of each LEI.
    ghost answers: { Self → SeenNexts };

    /// The cell in which an LEI names the next ones.
    ghost cell: { Self → List ℕ → CellKey };

    /// The LEIs that this one names.
    fn next(&self, lei: &Lei) -> Seen<Successors>
        ensures { result ≡ answers self.now lei.now };

    /// The key of the cell in which this LEI names the next ones.
    fn key(&self, lei: Lei) -> CellKey
        ensures { result ≡ cell self.now lei };
}

/// Walks along branches by levels, for the entity whose LEI is `own`. The first level is what the entity itself names.
///
/// The walk looks up each LEI once, in the order in which it was found, which is that of the levels. So at most 200 are
/// looked up, and the one at index i is in level i + 1 or before.
pub fn spread_from<B: Branches>(branches: &B, own: &Lei, from: &Successors) -> Walked
    ensures { result ≡ spread_over (B.answers branches.now) (B.cell branches.now) own.now from.now }
{
    let mut found = Found::none(*own);
    if !found.add_all(own, from.as_slice()) {
        return Walked::Long;
    }
    let mut is_met = is_among(own, from.as_slice());
    let mut lacking = None;
    let mut asked = 0;
    while asked < found.len() {
        let lei = found.at(asked);
        let seen = branches.next(&lei);
        if !add_named(&mut found, own, &seen) {
            return Walked::Long;
        }
        is_met = is_met || names(&seen, own);
        lacking = lacking.or(if_missing(&seen, lei));
        asked += 1;
    }
    match lacking {
        Some(lei) => Walked::Missing(branches.key(lei)),
        None => end_by(is_met),
    }
}

/// The different LEIs other than `own` that a walk by levels reaches, in the order of the levels. If there are more
/// than 200, these are the first 200, so a list of 200 may not be complete.
pub fn reach<B: Branches>(branches: &B, own: &Lei, from: &Successors) -> Found
    ensures { result ≡ reachable (known_nexts (B.answers branches.now)) own.now from.now }
{
    let mut found = Found::none(*own);
    if !found.add_all(own, from.as_slice()) {
        return found;
    }
    let mut asked = 0;
    while asked < found.len() {
        let seen = branches.next(&found.at(asked));
        if !add_named(&mut found, own, &seen) {
            return found;
        }
        asked += 1;
    }
    found
}

fn end_by(is_met: bool) -> Walked
    ensures { result ≡ if is_met then Walked.Meets else Walked.Ends }
{
    if is_met { Walked::Meets } else { Walked::Ends }
}

// Adds the LEIs that are named there, and returns whether there was room for all of them.
fn add_named(found: &mut Found, own: &Lei, seen: &Seen<Successors>) -> bool
    ensures added { OnTrue result (found.new ≡ found.old
        ++ each_once (own.now ∷ found.old) (held_nexts seen.now)) }
    ensures full { OnFalse result
        (200 < length (found.old ++ each_once (own.now ∷ found.old) (held_nexts seen.now))) }
    ensures cut { OnFalse result
        (found.new ≡ take 200 (found.old ++ each_once (own.now ∷ found.old) (held_nexts seen.now))) }
{
    match seen {
        Seen::Held(named) => found.add_all(own, named.as_slice()),
        Seen::Empty | Seen::Missing => true,
    }
}

// Whether the LEI is named there.
fn names(seen: &Seen<Successors>, lei: &Lei) -> bool
    ensures { result ≡ is_member bytes_eq (held_nexts seen.now) lei.now }
{
    match seen {
        Seen::Held(named) => is_among(lei, named.as_slice()),
        Seen::Empty | Seen::Missing => false,
    }
}

// The LEI if what it names isn't known.
fn if_missing(seen: &Seen<Successors>, lei: Lei) -> Option<Lei>
    ensures { result ≡ if lacks_nexts seen.now then Some lei else None }
{
    match seen {
        Seen::Missing => Some(lei),
        Seen::Held(_) | Seen::Empty => None,
    }
}
