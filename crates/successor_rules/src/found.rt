//! The different LEIs that a walk by levels found, in an array, so that the walk takes no memory.
ghost use Rattle.std.specs.Prelude.{◌≡◌, ◌<◌, ◌≤◌, ◌++◌, ◌∷◌, [], length, slice_index_or, take};
ghost use Rattle.std.specs.Bool.{OnFalse, OnTrue};
ghost use Rattle.std.specs.Set.{is_member};
ghost use Rattle.std.specs.Str.{bytes_eq};
ghost use Rattle.successor_rules.specs.Levels.{each_once};

use lei_code::Lei;
use std::marker::Model;

// The most LEIs that a walk finds.
const MOST_FOUND: usize = 200;

/// Up to 200 different LEIs, in the order in which a walk by levels found them. Contracts see the list of them.
#[derive(Drop)]
pub struct Found {
    count: u8,
    // Those past the count aren't read.
    leis: [Lei; MOST_FOUND],
}

impl Model for Found {
    ghost use Rattle.std.specs.Prelude.{◌≡◌, ◌≤◌, List, length, take, ℕ};

    ghost Value = { List (List ℕ) };

    ghost view = { λ f. take f.count f.leis };

    ghost invariant = { λ f. (f.count ≤ 200) × (length f.leis ≡ 200) };
}

impl Found {
    // No LEIs yet. The free places must contain some LEI.
    pub(crate) fn none(any: Lei) -> Self
        ensures { result ≡ [] }
    {
        Found {
            count: 0,
            leis: [any; MOST_FOUND],
        }
    }

    // The number of LEIs.
    pub(crate) fn len(&self) -> usize
        ensures value { result ≡ length self.now }
        ensures few { result ≤ 200 }
    {
        usize::from(self.count)
    }

    // The LEI at this index.
    pub(crate) fn at(&self, index: usize) -> Lei
        requires { index < length self.now }
        ensures { result ≡ slice_index_or self.now index [] }
    {
        self.as_slice()[index]
    }

    /// All of them, as a slice.
    pub fn as_slice(&self) -> &[Lei]
        ensures { result.now ≡ self.now }
    {
        &self.leis[..usize::from(self.count)]
    }

    // Adds those of the LEIs that are neither `own` nor already there, each once, and returns whether there was room
    // for all of them.
    pub(crate) fn add_all(&mut self, own: &Lei, leis: &[Lei]) -> bool
        ensures added { OnTrue result (self.new ≡ self.old ++ each_once (own.now ∷ self.old) leis.now) }
        ensures full { OnFalse result (200 < length (self.old ++ each_once (own.now ∷ self.old) leis.now)) }
        ensures cut { OnFalse result
            (self.new ≡ take 200 (self.old ++ each_once (own.now ∷ self.old) leis.now)) }
    {
        for lei in leis {
            if !self.add(own, lei) {
                return false;
            }
        }
        true
    }

    fn add(&mut self, own: &Lei, lei: &Lei) -> bool
        ensures added { OnTrue result (self.new ≡ self.old ++ each_once (own.now ∷ self.old) (lei.now ∷ [])) }
        ensures full { OnFalse result (200 < length (self.old
            ++ each_once (own.now ∷ self.old) (lei.now ∷ []))) }
        ensures stays { OnFalse result ((self.new ≡ self.old) × (length self.old ≡ 200)) }
    {
        if lei == own || self.has(lei) {
            return true;
        }
        self.push(lei)
    }

    fn has(&self, lei: &Lei) -> bool
        ensures { result ≡ is_member bytes_eq self.now lei.now }
    {
        is_among(lei, self.as_slice())
    }

    // Adds an LEI after the others, and returns whether there was room.
    fn push(&mut self, lei: &Lei) -> bool
        ensures added { OnTrue result (self.new ≡ self.old ++ lei.now ∷ []) }
        ensures full { OnFalse result (200 < length (self.old ++ lei.now ∷ [])) }
        ensures stays { OnFalse result ((self.new ≡ self.old) × (length self.old ≡ 200)) }
    {
        let place = usize::from(self.count);
        if place == MOST_FOUND {
            return false;
        }
        self.leis[place] = *lei;
        self.count += 1;
        true
    }
}

/// Whether the LEI is one of these.
pub fn is_among(lei: &Lei, leis: &[Lei]) -> bool
    ensures { result ≡ is_member bytes_eq leis.now lei.now }
{
    leis.iter().any(|other| lei == other)
}
