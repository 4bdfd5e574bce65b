//! A row as an index keeps it.
ghost use Rattle.std.specs.Prelude.{◌≡◌, ◌+◌, ◌≤◌, IfOk};
ghost use Rattle.lei_records.specs.Rows.{text_at};
ghost use Rattle.register_words.specs.declared.sheets.Sheet.{Sheet as DeclaredSheet};
ghost use Rattle.copy_csv.specs.Sheets.{IsSheetRow};
ghost use Rattle.name_search.specs.NameTables.{key_and_name};
ghost use Rattle.name_search.specs.Searching as spec;
ghost use Rattle.name_search.specs.Words.{words};

use crate::key::Key;
use crate::word::Word;
use crate::words::words_in_step;
use copy_csv::{Row, Sheet};
use lei_values::{List, NoMemory, Text};
use std::alloc::Global;
use std::marker::Model;
use std::sync::ledger::Ledger;
use worker_pool::Steps;

/// The key of a row, its name, and the words of the name. Contracts see the key and the name.
#[derive(Drop)]
pub struct NamedRow {
    key: Key,
    name: Text,
    words: List<Word>,
}

impl Model for NamedRow {
    ghost use Rattle.std.specs.Prelude.{◌≡◌};
    ghost use Rattle.name_search.specs.NameTables.{Name};
    ghost use Rattle.name_search.specs.Words as of_texts;

    ghost Value = { Name };

    ghost view = { λ row. (row.key, row.name) };

    ghost invariant = { λ row. row.words ≡ of_texts.words row.name };
}

impl NamedRow {
    /// The key and the name of a row of `lei`. Its name is folded, which is one step.
    pub fn of<L: Ledger>(alloc: Global, row: &Row, steps: &mut Steps<L>) -> Result<Self, NoMemory>
        requires { row.now.sheet ≡ DeclaredSheet.Lei }
        ensures value { IfOk result (λ made. made ≡ key_and_name row.now) }
        ensures steps { steps.new ≡ steps.old + 1 }
    {
        let words = words_in_step(alloc, text_of(row, 2), steps)?;
        let key = Key::copy_of(alloc, text_of(row, 1))?;
        let name = Text::copy_of(alloc, text_of(row, 2))?;
        Ok(NamedRow { key, name, words })
    }

    /// The key of the row.
    pub fn key(&self) -> &Key
        ensures { result.now ≡ self.now.0 }
    {
        &self.key
    }

    /// The words of the name, in order.
    pub fn words(&self) -> &[Word]
        ensures { result.now ≡ words self.now.1 }
    {
        self.words.as_slice()
    }

    /// Whether the name has a word.
    pub fn has_word(&self, word: &str) -> bool
        ensures { result ≡ spec.is_word_among (words self.now.1) word.now }
    {
        is_among(self.words.as_slice(), word)
    }

    /// Whether the name has each of these words.
    pub fn is_match(&self, wanted: &[Word]) -> bool
        ensures { result ≡ spec.is_match wanted.now self.now }
    {
        has_each(wanted, self.words.as_slice())
    }

    /// Copies of the key and the name.
    pub fn name(&self, alloc: Global) -> Result<(Text, Text), NoMemory>
        ensures { IfOk result (λ name. name ≡ self.now) }
    {
        let key = Text::copy_of(alloc, self.key.as_str())?;
        let name = Text::copy_of(alloc, self.name.as_str())?;
        Ok((key, name))
    }
}

/// The text of a row of `lei` at a place from 1 to 32.
pub fn text_of(row: &Row, place: usize) -> &str
    requires lei { row.now.sheet ≡ DeclaredSheet.Lei }
    requires first { 1 ≤ place }
    requires last { place ≤ 32 }
    ensures value { result.now ≡ text_at row.now.texts place }
    ensures row { IsSheetRow row.now }
{
    let is_record = row.sheet() == Sheet::Lei;
    prove!(is_record);
    row.text(place)
}

// Whether each of the wanted words is among these.
fn has_each(wanted: &[Word], words: &[Word]) -> bool
    ensures { result ≡ spec.has_each wanted.now words.now }
{
    for word in wanted {
        if !is_among(words, word.as_str()) {
            return false;
        }
    }
    true
}

// Whether a word is among these.
fn is_among(words: &[Word], word: &str) -> bool
    ensures { result ≡ spec.is_word_among words.now word.now }
{
    for other in words {
        if word == other.as_str() {
            return true;
        }
    }
    false
}
