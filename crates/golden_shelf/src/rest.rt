//! Lines that wait to be appended to others, starting with the first.
ghost use Rattle.std.specs.Prelude.{◌≡◌, ◌<◌, ◌≤◌, ◌∷◌, [], MatchOption, length, ℕ, OnOk};
ghost use Rattle.std.specs.declared.cmp.Ordering.{Ordering as Order};
ghost use Rattle.lei_records.specs.Tables.{key_cmp};
ghost use Rattle.golden_shelf.specs.Keys.{key_texts};
ghost use Rattle.golden_shelf.specs.Walks.{below, first_order, lines_from, past, texts_under};

use crate::keys::compare;
use crate::lines::Lines;
use copy_csv::RowTexts;
use lei_records::RowKey;
use lei_values::NoMemory;
use std::alloc::Global;
use std::cmp::Ordering;
use std::marker::Model;

/// Lines that are removed starting with the first. In memory they are in reverse order.
#[derive(Drop)]
pub struct Rest {
    back: Lines,
}

impl Model for Rest {
    ghost use Rattle.std.specs.Prelude.{reverse};
    ghost use Rattle.golden_shelf.specs.Beside.{LinesState};

    ghost Value = { LinesState };

    ghost view = { λ r. record { lines = reverse r.back.lines; room = r.back.room } };
}

impl Rest {
    /// No lines, and no room for any.
    pub fn new(alloc: Global) -> Self
        ensures lines { result.lines ≡ [] }
        ensures room { result.room ≡ 0 }
    {
        Rest {
            back: Lines::new(alloc),
        }
    }

    /// Makes room for this many lines in all, counting those that are there.
    pub fn reserve(&mut self, total: usize) -> Result<(), NoMemory>
        requires { length self.old.lines ≤ total }
        ensures lines { self.new.lines ≡ self.old.lines }
        ensures room { OnOk result (total ≤ self.new.room) }
        ensures stays { self.old.room ≤ self.new.room }
        ensures most { (bound : ℕ) → self.old.room ≤ bound → total ≤ bound → self.new.room ≤ bound }
    {
        self.back.reserve(total)
    }

    /// Puts a line before the others. There must be room for it.
    pub fn push_first_reserved(&mut self, key: RowKey, texts: RowTexts)
        requires { length self.old.lines < self.old.room }
        ensures lines { self.new.lines ≡ (key_texts key, texts) ∷ self.old.lines }
        ensures room { self.new.room ≡ self.old.room }
    {
        self.back.push_reserved(key, texts);
    }

    /// Removes the first line and returns it.
    pub fn pop_first(&mut self) -> Option<(RowKey, RowTexts)>
        ensures line { MatchOption result ((self.old.lines ≡ []) × (self.new.lines ≡ []))
            (λ line. self.old.lines ≡ (key_texts line.0, line.1) ∷ self.new.lines) }
        ensures room { self.new.room ≡ self.old.room }
    {
        self.back.pop()
    }

    // How a key compares with that of the first line, if there is one.
    fn order_of_first(&self, key: &RowKey) -> Option<Ordering>
        ensures { result ≡ first_order (key_texts key.now) self.now.lines }
    {
        match self.back.last_key() {
            Some(first) => Some(compare(key, first)),
            None => None,
        }
    }

    /// Removes the first line and returns it, if it is before this key.
    pub fn pop_before(&mut self, key: &RowKey) -> Option<(RowKey, RowTexts)>
        ensures line { MatchOption result
            ((self.new.lines ≡ self.old.lines) × (below (key_texts key.now) self.old.lines ≡ [])
            × (lines_from (key_texts key.now) self.old.lines ≡ self.old.lines))
            (λ line. (self.old.lines ≡ (key_texts line.0, line.1) ∷ self.new.lines)
            × (key_cmp (key_texts key.now) (key_texts line.0) ≡ Order.Greater)) }
        ensures room { self.new.room ≡ self.old.room }
    {
        if matches!(self.order_of_first(key), Some(Ordering::Greater)) {
            self.pop_first()
        } else {
            None
        }
    }

    /// Removes the first line if it has this key, and returns its texts. Used when no line is before the key.
    pub fn pop_at(&mut self, key: &RowKey) -> Option<RowTexts>
        ensures texts { result ≡ texts_under (key_texts key.now) self.old.lines }
        ensures lines { self.new.lines ≡ past (key_texts key.now) self.old.lines }
        ensures room { self.new.room ≡ self.old.room }
    {
        if !matches!(self.order_of_first(key), Some(Ordering::Equal)) {
            return None;
        }
        let (_, texts) = self.pop_first()?;
        Some(texts)
    }
}
