//! Counts the matches of a search, and keeps those on a page.
ghost use Rattle.std.specs.Prelude.{◌<◌, ◌++◌, ◌∷◌, [], List, filter, true, option_map, option_to_list, IfOk, OnOk, ◌≡◌};
ghost use Rattle.name_search.specs.Searching as spec;
ghost use Rattle.name_search.specs.Keys.{AreKeysOf, text_cmp};
ghost use Rattle.name_search.specs.Walks.{Covers, hits, keys_in};
ghost use Rattle.std.specs.List.Sorted.{IsStrictlySortedBy};
ghost use Rattle.std.specs.FinMap.Entries.{find, is_sorted};
ghost use Rattle.name_search.specs.Gathering.{GathersPage};
ghost use Rattle.name_search.specs.NameTables.{Name};

use crate::key::{Key, SearchKey};
use crate::named_row::NamedRow;
use crate::places::row_at;
use crate::postings::{Keys, note_key};
use crate::word::Word;
use lei_values::{NoMemory, Text};
use std::alloc::Global;
use std::collections::BTreeSet;

/// The number of matches so far, and the names of those on the page.
#[derive(Drop)]
pub struct Gathered {
    pub matches: u64,
    pub names: Vec<(Text, Text)>,
}

impl Gathered {
    /// Counts the next match, and keeps it if it is on the page, which starts after the first `start` matches.
    pub fn add(&mut self, alloc: Global, start: u64, row: &NamedRow) -> Result<(), NoMemory>
        requires fits { self.old.matches < 18_446_744_073_709_551_615 }
        ensures { OnOk result ((before : List Name)
            → GathersPage start before self.old.matches self.old.names.items
            → GathersPage start (before ++ row.now ∷ []) self.new.matches self.new.names.items) }
    {
        let count = self.matches;
        self.matches += 1;
        if count < start {
            return Ok(());
        }
        if self.names.len() >= 50 {
            return Ok(());
        }
        self.names.push(row.name(alloc)?)?;
        Ok(())
    }
}

/// The rows that match, for a page that starts after the first `start` of them. All rows are looked at.
pub fn gather_all(
    alloc: Global,
    start: u64,
    wanted: &[Word],
    rows: &[NamedRow],
) -> Result<Gathered, NoMemory>
    ensures { IfOk result (λ gathered. GathersPage start (filter (spec.is_match wanted.now) rows.now)
        gathered.matches gathered.names.items) }
{
    let mut gathered = nothing(alloc);
    for row in rows {
        if row.is_match(wanted) {
            gathered.add(alloc, start, row)?;
        }
    }
    Ok(gathered)
}

/// The rows that match, for a page that starts after the first `start` of them. Only rows under these keys are looked
/// at. These are the keys of all rows that match, and maybe others.
pub fn gather_under(
    alloc: Global,
    start: u64,
    wanted: &[Word],
    rows: &[NamedRow],
    first: &[Key],
    later: Option<&Keys>,
) -> Result<Gathered, NoMemory>
    requires sorted { is_sorted text_cmp rows.now ≡ true }
    requires rising { IsStrictlySortedBy text_cmp first.now }
    requires covers { Covers (spec.is_match wanted.now) rows.now
        (first.now ++ keys_in (option_map (λ keys. keys.now) later)) }
    ensures { IfOk result (λ gathered. GathersPage start (filter (spec.is_match wanted.now) rows.now)
        gathered.matches gathered.names.items) }
{
    match later {
        Some(later) => gather_both(alloc, start, wanted, rows, first, later),
        None => gather_rising(alloc, start, wanted, rows, first),
    }
}

// The same for keys of which some came with deltas: the list and the set are joined in one set.
fn gather_both(
    alloc: Global,
    start: u64,
    wanted: &[Word],
    rows: &[NamedRow],
    first: &[Key],
    later: &Keys,
) -> Result<Gathered, NoMemory>
    requires sorted { is_sorted text_cmp rows.now ≡ true }
    requires covers { Covers (spec.is_match wanted.now) rows.now (first.now ++ later.now.keys) }
    ensures { IfOk result (λ gathered. GathersPage start (filter (spec.is_match wanted.now) rows.now)
        gathered.matches gathered.names.items) }
{
    let mut keys = BTreeSet::new(alloc);
    put_list(&mut keys, first)?;
    put_set(&mut keys, later)?;
    gather_each(alloc, start, wanted, rows, &keys)
}

// Adds the keys of a list to others.
fn put_list(keys: &mut Keys, list: &[Key]) -> Result<(), NoMemory>
    ensures stay { AreKeysOf keys.old.keys keys.new.keys }
    ensures put { OnOk result (AreKeysOf list.now keys.new.keys) }
{
    for key in list {
        note_key(keys, key)?;
    }
    Ok(())
}

// Adds the keys of a set to others.
fn put_set(keys: &mut Keys, set: &Keys) -> Result<(), NoMemory>
    ensures stay { AreKeysOf keys.old.keys keys.new.keys }
    ensures put { OnOk result (AreKeysOf set.now.keys keys.new.keys) }
{
    for key in set.iter() {
        note_key(keys, key)?;
    }
    Ok(())
}

// The same for a list of keys, none of which came with a delta.
fn gather_rising(
    alloc: Global,
    start: u64,
    wanted: &[Word],
    rows: &[NamedRow],
    keys: &[Key],
) -> Result<Gathered, NoMemory>
    requires sorted { is_sorted text_cmp rows.now ≡ true }
    requires rising { IsStrictlySortedBy text_cmp keys.now }
    requires covers { Covers (spec.is_match wanted.now) rows.now keys.now }
    ensures { IfOk result (λ gathered. GathersPage start (filter (spec.is_match wanted.now) rows.now)
        gathered.matches gathered.names.items) }
{
    let mut gathered = nothing(alloc);
    for key in keys {
        if let Some(row) = match_at(wanted, rows, &key.to_search_key()) {
            gathered.add(alloc, start, row)?;
        }
    }
    Ok(gathered)
}

// No matches so far.
fn nothing(alloc: Global) -> Gathered
    ensures matches { result.matches ≡ 0 }
    ensures names { result.names.items ≡ [] }
{
    Gathered {
        matches: 0,
        names: Vec::new(alloc),
    }
}

// The same for keys in a set.
fn gather_each(
    alloc: Global,
    start: u64,
    wanted: &[Word],
    rows: &[NamedRow],
    keys: &Keys,
) -> Result<Gathered, NoMemory>
    requires sorted { is_sorted text_cmp rows.now ≡ true }
    requires covers { Covers (spec.is_match wanted.now) rows.now keys.now.keys }
    ensures { IfOk result (λ gathered. GathersPage start (filter (spec.is_match wanted.now) rows.now)
        gathered.matches gathered.names.items) }
{
    let mut gathered = nothing(alloc);
    let count = keys.len();
    prove!(count <= usize::MAX / 2);
    for key in keys.iter() {
        if let Some(row) = match_at(wanted, rows, &key.to_search_key()) {
            gathered.add(alloc, start, row)?;
        }
    }
    Ok(gathered)
}

// The row of a key, if there is one and it matches.
fn match_at<'a>(wanted: &[Word], rows: &'a [NamedRow], key: &SearchKey<'_>) -> Option<&'a NamedRow>
    requires { is_sorted text_cmp rows.now ≡ true }
    ensures { option_to_list (option_map (λ row. row.now) result)
        ≡ hits (spec.is_match wanted.now) key.now (find text_cmp key.now rows.now) }
{
    let row = row_at(rows, key)?;
    if row.is_match(wanted) {
        Some(row)
    } else {
        None
    }
}
