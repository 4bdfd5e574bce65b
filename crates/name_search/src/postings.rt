//! For each word, the keys of the rows whose names have it.
ghost use Rattle.std.specs.Prelude.{◌≡◌, ◌≤◌, ◌<◌, [], length, true, IfOk, option_map, OnOk};
ghost use Rattle.std.specs.List.{list_all};
ghost use Rattle.std.specs.List.Sorted.{IsStrictlySortedBy};
ghost use Rattle.lei_code.specs.Texts.{Text as Bytes};
ghost use Rattle.std.specs.FinMap.Entries.{is_sorted};
ghost use Rattle.name_search.specs.Walks as spec;
ghost use Rattle.name_search.specs.Keys.{get_by_word, is_one_of_keys, text_cmp};
ghost use Rattle.name_search.specs.Walks.{FirstStays, LaterStays, NotesStay, StaysFor, TakesFrom, is_noted, keys_in, keys_under, rising_in};

use crate::key::Key;
use crate::named_row::NamedRow;
use crate::places::row_near;
use crate::rising::RisingKeys;
use crate::word::Word;
use lei_values::NoMemory;
use std::alloc::Global;
use std::collections::{BTreeMap, BTreeSet};

/// Keys in rising order.
pub type Keys = BTreeSet<Key>;

/// For each word, the keys of the rows whose names have it, and maybe others: those of removed rows may stay. The keys
/// of a copy's rows come in rising order and are kept in lists, which don't change later. Those that come later, with
/// deltas, are kept in sets.
#[derive(Drop)]
pub struct Postings {
    pub alloc: Global,
    pub first: BTreeMap<Word, RisingKeys>,
    pub later: BTreeMap<Word, Keys>,
}

impl Postings {
    /// No words.
    pub fn new(alloc: Global) -> Self
        ensures { (word : Bytes) → keys_under result word ≡ [] }
    {
        Postings {
            alloc,
            first: BTreeMap::new(alloc),
            later: BTreeMap::new(alloc),
        }
    }

    /// The list of a word's keys, without those in its set.
    pub fn first_keys(&self, word: &Word) -> &[Key]
        ensures value { result.now ≡ rising_in (get_by_word self.now.first word.now) }
        ensures rising { IsStrictlySortedBy text_cmp result.now }
    {
        match self.first.get(word) {
            Some(keys) => keys.as_slice(),
            None => &[],
        }
    }

    /// The set of a word's keys, if there is one.
    pub fn later_keys(&self, word: &Word) -> Option<&Keys>
        ensures { keys_in (option_map (λ keys. keys.now) result)
            ≡ keys_in (get_by_word self.now.later word.now) }
    {
        self.later.get(word)
    }

    /// The index of a word under which there are at most as many keys as under each of the others.
    pub fn rarest(&self, wanted: &[Word]) -> usize
        requires { 1 ≤ length wanted.now }
        ensures { result < length wanted.now }
    {
        let mut rarest = 0;
        let mut least = self.count(&wanted[0]);
        for index in 1..wanted.len() {
            let count = self.count(&wanted[index]);
            if count < least {
                least = count;
                rarest = index;
            }
        }
        rarest
    }

    /// The number of keys under a word.
    pub fn count(&self, word: &Word) -> usize {
        let first = self.first_keys(word).len();
        match self.later_keys(word) {
            Some(later) => first.saturating_add(later.len()),
            None => first,
        }
    }

    /// Notes the key of a row of a copy under each word of its name. These keys rise, and go to lists.
    pub fn note_of_copy(&mut self, row: &NamedRow) -> Result<(), NoMemory>
        ensures stays { NotesStay self.old self.new }
        ensures noted { OnOk result (is_noted self.new row.now ≡ true) }
    {
        for word in row.words() {
            self.note_first(word, row.key())?;
        }
        Ok(())
    }

    // Notes a key under a word: it goes to the word's list, or to its set if it comes before another one.
    fn note_first(&mut self, word: &Word, key: &Key) -> Result<(), NoMemory>
        ensures stays { NotesStay self.old self.new }
        ensures noted { OnOk result (is_one_of_keys key.now (keys_under self.new word.now) ≡ true) }
    {
        if push_first(self.alloc, &mut self.first, word, key)? {
            return Ok(());
        }
        note_later(self.alloc, &mut self.later, word, key)
    }

    /// Notes the keys of rows that come later.
    pub fn note_all(&mut self, rows: &[NamedRow]) -> Result<(), NoMemory>
        ensures stays { NotesStay self.old self.new }
        ensures noted { OnOk result (list_all (is_noted self.new) rows.now ≡ true) }
    {
        for row in rows {
            self.note_of_delta(row)?;
        }
        Ok(())
    }

    // Notes the key of a row that a delta puts under each word of its name. It goes to sets.
    fn note_of_delta(&mut self, row: &NamedRow) -> Result<(), NoMemory>
        ensures stays { NotesStay self.old self.new }
        ensures noted { OnOk result (is_noted self.new row.now ≡ true) }
    {
        for word in row.words() {
            self.note_next(word, row.key())?;
        }
        Ok(())
    }

    // Notes a key under a word: it goes to the word's set.
    fn note_next(&mut self, word: &Word, key: &Key) -> Result<(), NoMemory>
        ensures stays { NotesStay self.old self.new }
        ensures noted { OnOk result (is_one_of_keys key.now (keys_under self.new word.now) ≡ true) }
    {
        note_later(self.alloc, &mut self.later, word, key)
    }

    /// Removes the keys of removed rows from the sets of their words, unless the row that now has the key has the word.
    /// Each removed row comes with the index at which the row that now has the key may be.
    pub fn forget_all(&mut self, gone: &[(usize, NamedRow)], rows: &[NamedRow])
        requires { is_sorted text_cmp rows.now ≡ true }
        ensures { StaysFor rows.now self.old self.new }
    {
        for row in gone {
            self.forget(&row.1, row.0, rows);
        }
    }

    // The same for one row.
    fn forget(&mut self, gone: &NamedRow, place: usize, rows: &[NamedRow])
        requires { is_sorted text_cmp rows.now ≡ true }
        ensures { StaysFor rows.now self.old self.new }
    {
        let key = gone.key();
        let row = row_near(rows, &key.to_search_key(), place);
        for word in gone.words() {
            if has_word(row, word.as_str()) {
                continue;
            }
            forget_word(&mut self.later, word, key);
        }
    }
}

// Appends a key to a word's list, if it comes after the last one. `true` says that the list has the key then.
fn push_first(
    alloc: Global,
    first: &mut BTreeMap<Word, RisingKeys>,
    word: &Word,
    key: &Key,
) -> Result<bool, NoMemory>
    ensures stays { FirstStays first.old first.new }
    ensures noted { IfOk result
        (λ is. is ≡ true → is_one_of_keys key.now (rising_in (get_by_word first.new word.now)) ≡ true) }
{
    match first.get_mut(word) {
        Some(keys) => keys.push(key),
        None => {
            push_alone(alloc, first, word, key)?;
            Ok(true)
        }
    }
}

// Puts a key into a new list under a word that has none.
#[tactic(auto, using(crate::proofs::RisingLemmas::key_alone))]
fn push_alone(
    alloc: Global,
    first: &mut BTreeMap<Word, RisingKeys>,
    word: &Word,
    key: &Key,
) -> Result<(), NoMemory>
    requires { get_by_word first.old word.now ≡ None }
    ensures stays { FirstStays first.old first.new }
    ensures noted { OnOk result
        (is_one_of_keys key.now (rising_in (get_by_word first.new word.now)) ≡ true) }
{
    let keys = RisingKeys::of_one(alloc, key)?;
    let word = word.copy(alloc)?;
    first.insert(word, keys)?;
    Ok(())
}

// Adds a key to a word's set.
fn note_later(
    alloc: Global,
    later: &mut BTreeMap<Word, Keys>,
    word: &Word,
    key: &Key,
) -> Result<(), NoMemory>
    ensures stays { LaterStays later.old later.new }
    ensures noted { OnOk result (is_one_of_keys key.now (keys_in (get_by_word later.new word.now)) ≡ true) }
{
    match later.get_mut(word) {
        Some(keys) => note_key(keys, key),
        None => note_alone(alloc, later, word, key),
    }
}

// The same for the first key of a word.
fn note_alone(
    alloc: Global,
    later: &mut BTreeMap<Word, Keys>,
    word: &Word,
    key: &Key,
) -> Result<(), NoMemory>
    requires { get_by_word later.old word.now ≡ None }
    ensures stays { LaterStays later.old later.new }
    ensures noted { OnOk result (is_one_of_keys key.now (keys_in (get_by_word later.new word.now)) ≡ true) }
{
    let mut keys = BTreeSet::new(alloc);
    note_key(&mut keys, key)?;
    let word = word.copy(alloc)?;
    later.insert(word, keys)?;
    Ok(())
}

// Removes a key from a word's set.
fn forget_word(later: &mut BTreeMap<Word, Keys>, word: &Word, key: &Key)
    ensures { TakesFrom word.now key.now later.old later.new }
{
    if let Some(keys) = later.get_mut(word) {
        keys.remove(key);
    }
}

// Whether there is a row and its name has a word.
fn has_word(row: Option<&NamedRow>, word: &str) -> bool
    ensures { result ≡ spec.has_word (option_map (λ row. row.now) row.entry) word.now }
{
    match row {
        Some(row) => row.has_word(word),
        None => false,
    }
}

/// Adds a key to others.
pub fn note_key(keys: &mut Keys, key: &Key) -> Result<(), NoMemory>
    ensures stay { (k : Bytes) → is_one_of_keys k keys.old.keys ≡ true
        → is_one_of_keys k keys.new.keys ≡ true }
    ensures noted { OnOk result (is_one_of_keys key.now keys.new.keys ≡ true) }
{
    keys.insert(key.share()?)?;
    Ok(())
}
