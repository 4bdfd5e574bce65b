//! The LEIs that are nearest to an entity if each LEI may name several next ones.
ghost use Rattle.std.specs.Prelude.{◌≡◌, ◌≤◌, ◌∷◌, ◌++◌, drop, length, take, IfOk, OnOk};
ghost use Rattle.std.specs.BTreeSet.{insert_key};
ghost use Rattle.std.specs.Cmp.Lexicographic.{slice_cmp};
ghost use Rattle.std.specs.List.{fold};
ghost use Rattle.std.specs.Ordering.{nat_cmp};
ghost use Rattle.successor_rules.specs.Levels.{held_nexts, known_nexts};
ghost use Rattle.fetched_cells.specs.Nearest;
ghost use Rattle.fetched_cells.specs.Nearest.{new_ones, unmet_leis};

use lei_code::Lei;
use lei_records::{Seen, Successors};
use lei_values::NoMemory;
use std::alloc::Global;
use std::collections::BTreeSet;
use successor_rules::{Branches, is_among};

// How many LEIs to find, and how many levels to search. This many levels have this many LEIs, if there are as many.
const MOST_LEIS: usize = 201;

/// An LEI, followed by the first 201 different LEIs of its levels other than itself: level by level, and in byte order
/// within a level.
pub fn nearest<B: Branches>(alloc: Global, branches: &B, own: &Lei) -> Result<Vec<Lei>, NoMemory>
    ensures { IfOk result (λ met. met.items
        ≡ own.now ∷ Nearest.nearest (known_nexts (B.answers branches.now)) own.now) }
{
    let mut met = search(alloc, branches, own)?;
    met.truncate(MOST_LEIS + 1);
    Ok(met)
}

// The same, but with all LEIs of the level that has the last of them.
fn search<B: Branches>(alloc: Global, branches: &B, own: &Lei) -> Result<Vec<Lei>, NoMemory>
    ensures { IfOk result (λ met. take 202 met.items
        ≡ own.now ∷ Nearest.nearest (known_nexts (B.answers branches.now)) own.now) }
{
    let mut met = Vec::new(alloc);
    met.push(*own)?;
    let mut before = 0;
    for _ in 0..MOST_LEIS {
        if met.len() > MOST_LEIS || before == met.len() {
            return Ok(met);
        }
        let level = next_level(alloc, branches, met.as_slice(), before)?;
        before = met.len();
        push_all(&mut met, level)?;
    }
    Ok(met)
}

fn push_all(met: &mut Vec<Lei>, level: BTreeSet<Lei>) -> Result<(), NoMemory>
    ensures { OnOk result (met.new.items ≡ met.old.items ++ level.keys) }
{
    for lei in level {
        met.push(lei)?;
    }
    Ok(())
}

// The new LEIs of the next level. The LEIs of the level before it are those in `met` from the index `before` on.
fn next_level<B: Branches>(
    alloc: Global,
    branches: &B,
    met: &[Lei],
    before: usize,
) -> Result<BTreeSet<Lei>, NoMemory>
    requires { before ≤ length met.now }
    ensures { IfOk result (λ level. level.keys
        ≡ new_ones (known_nexts (B.answers branches.now)) met.now (drop before met.now)) }
{
    let mut level = BTreeSet::new(alloc);
    for lei in &met[before..] {
        add_named(&mut level, met, &branches.next(lei))?;
    }
    Ok(level)
}

// Adds the LEIs that are named there and weren't met.
fn add_named(
    level: &mut BTreeSet<Lei>,
    met: &[Lei],
    seen: &Seen<Successors>,
) -> Result<(), NoMemory>
    ensures { OnOk result (level.new.keys
        ≡ fold (insert_key (slice_cmp nat_cmp)) level.old.keys (unmet_leis met.now (held_nexts seen.now))) }
{
    match seen {
        Seen::Held(named) => add_unmet(level, met, named.as_slice()),
        Seen::Empty | Seen::Missing => Ok(()),
    }
}

fn add_unmet(level: &mut BTreeSet<Lei>, met: &[Lei], leis: &[Lei]) -> Result<(), NoMemory>
    ensures { OnOk result (level.new.keys
        ≡ fold (insert_key (slice_cmp nat_cmp)) level.old.keys (unmet_leis met.now leis.now)) }
{
    for lei in leis {
        if !is_among(lei, met) {
            add(level, *lei)?;
        }
    }
    Ok(())
}

fn add(level: &mut BTreeSet<Lei>, lei: Lei) -> Result<(), NoMemory>
    ensures { OnOk result (level.new.keys ≡ insert_key (slice_cmp nat_cmp) level.old.keys lei) }
{
    match level.insert(lei) {
        Ok(_) => Ok(()),
        Err(_) => Err(NoMemory),
    }
}
