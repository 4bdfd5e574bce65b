//! The lines of a sheet: keys and texts in two lists, so that the texts are one slice.
ghost use Rattle.std.specs.Prelude.{◌≡◌, ◌<◌, ◌≤◌, ◌++◌, ◌∷◌, [], MatchOption, length, map, option_map, ◌-◌, ℕ, OnOk, Some};
ghost use Rattle.std.specs.List.{slice_get};
ghost use Rattle.golden_shelf.specs.Keys.{key_texts};
ghost use Rattle.golden_shelf.specs.Lines.{AreSorted};
ghost use Rattle.golden_shelf.specs.Places.{IsLinePlace, line_texts_at, with_texts_at};

use crate::keys::compare;
use copy_csv::RowTexts;
use lei_records::RowKey;
use lei_values::NoMemory;
use std::alloc::Global;
use std::cmp::Ordering;
use std::marker::Model;
use std::mem;

/// A key, with the texts of its row if it has one.
#[derive(Drop)]
pub struct Note {
    pub key: RowKey,
    pub texts: Option<RowTexts>,
}

/// Lines, and the total number of lines that they have room for. Contracts see both.
#[derive(Drop)]
pub struct Lines {
    keys: Vec<RowKey>,
    texts: Vec<RowTexts>,
    room: usize,
}

impl Model for Lines {
    ghost use Rattle.std.specs.Prelude.{◌≡◌, ◌≤◌, length, vec_capacity};
    ghost use Rattle.golden_shelf.specs.Beside.{LinesState, lines_in};

    ghost Value = { LinesState };

    ghost view = { λ l. record { lines = lines_in l.keys.items l.texts.items; room = l.room } };

    ghost invariant = { λ l. (length l.keys.items ≡ length l.texts.items) × (l.room ≤ vec_capacity l.keys)
        × (l.room ≤ vec_capacity l.texts) };
}

impl Lines {
    /// No lines, and no room for any.
    pub fn new(alloc: Global) -> Self
        ensures lines { result.lines ≡ [] }
        ensures room { result.room ≡ 0 }
    {
        Lines {
            keys: Vec::new(alloc),
            texts: Vec::new(alloc),
            room: 0,
        }
    }

    /// The number of lines.
    pub fn len(&self) -> usize
        ensures { result ≡ length self.now.lines }
    {
        self.texts.len()
    }

    /// The texts of all lines, in order.
    pub fn texts(&self) -> &[RowTexts]
        ensures { result.now ≡ map (λ line. line.1) self.now.lines }
    {
        self.texts.as_slice()
    }

    /// The key of the last line, if there is one.
    pub fn last_key(&self) -> Option<&RowKey>
        ensures { option_map (λ key. key_texts key.now) result
            ≡ slice_get (map (λ line. line.0) self.now.lines) (length self.now.lines - 1) }
    {
        self.keys.as_slice().last()
    }

    /// The index of the line of a key, if there is one. The keys must be in rising order.
    pub fn place(&self, key: &RowKey) -> Option<usize>
        requires { AreSorted self.now.lines }
        ensures { IsLinePlace (key_texts key.now) self.now.lines result }
    {
        let keys = self.keys.as_slice();
        let mut low = 0;
        let mut high = keys.len();
        while low < high {
            let middle = low + (high - low) / 2;
            match compare(key, &keys[middle]) {
                Ordering::Less => high = middle,
                Ordering::Equal => return Some(middle),
                Ordering::Greater => low = middle + 1,
            }
        }
        None
    }

    /// Swaps the texts of the line at an index with those passed in.
    pub fn exchange(&mut self, index: usize, texts: &mut RowTexts)
        requires { index < length self.old.lines }
        ensures lines { self.new.lines ≡ with_texts_at self.old.lines index texts.old }
        ensures texts { Some texts.new ≡ line_texts_at self.old.lines index }
        ensures room { self.new.room ≡ self.old.room }
    {
        mem::swap(&mut self.texts[index], texts);
    }

    /// Makes room for this many lines in all, counting those that are there.
    pub fn reserve(&mut self, total: usize) -> Result<(), NoMemory>
        requires { length self.old.lines ≤ total }
        ensures lines { self.new.lines ≡ self.old.lines }
        ensures room { OnOk result (total ≤ self.new.room) }
        ensures stays { self.old.room ≤ self.new.room }
        ensures most { (bound : ℕ) → self.old.room ≤ bound → total ≤ bound → self.new.room ≤ bound }
    {
        if total <= self.room {
            return Ok(());
        }
        self.keys.reserve(total - self.keys.len())?;
        self.texts.reserve(total - self.texts.len())?;
        self.room = total;
        Ok(())
    }

    /// Appends a line. There must be room for it.
    pub fn push_reserved(&mut self, key: RowKey, texts: RowTexts)
        requires { length self.old.lines < self.old.room }
        ensures lines { self.new.lines ≡ self.old.lines ++ (key_texts key, texts) ∷ [] }
        ensures room { self.new.room ≡ self.old.room }
    {
        self.keys.push_reserved(key);
        self.texts.push_reserved(texts);
    }

    /// Removes the last line and returns it.
    pub fn pop(&mut self) -> Option<(RowKey, RowTexts)>
        ensures line { MatchOption result ((self.old.lines ≡ []) × (self.new.lines ≡ []))
            (λ line. self.old.lines ≡ self.new.lines ++ (key_texts line.0, line.1) ∷ []) }
        ensures room { self.new.room ≡ self.old.room }
    {
        let key = self.keys.pop()?;
        let texts = self.texts.pop()?;
        Some((key, texts))
    }
}
