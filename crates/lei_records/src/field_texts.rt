//! The texts of a row in one piece of memory.
ghost use Rattle.std.specs.Prelude.{◌≡◌, ◌==◌, ◌<◌, ◌≤◌, ◌++◌, ◌∷◌, [], codes, length, slice_index_or, take, IfOk, OnOk, OnErr};
ghost use Rattle.std.proofs.Common.{rules};
ghost use Rattle.std.specs.Cmp.Rules.{comparing};
ghost use Rattle.std.specs.Cmp.Lexicographic.{pointwise};
ghost use Rattle.lei_values.specs.Pieces.{AreEnds, pieces};
ghost use Rattle.lei_records.specs.Places.{record_places};

use crate::places::RECORD_PLACES;
use lei_values::NoMemory;
use std::alloc::Global;
use std::fmt;
use std::marker::Model;

/// The texts of a row's fields: at most 32, stored one after another in one piece of memory of at most 65,535 bytes.
/// Contracts see the list of them, each by its UTF-8 bytes.
#[derive(Drop)]
pub struct FieldTexts {
    text: String,
    // The end of each text. The ends past the last text have no meaning.
    ends: [u16; RECORD_PLACES],
    count: u8,
}

impl Model for FieldTexts {
    ghost use Rattle.std.specs.Prelude.{◌≤◌, length, string_bytes, take};
    ghost use Rattle.lei_values.specs.Pieces.{AreEnds, pieces};
    ghost use Rattle.lei_records.specs.Rows.{Row};

    ghost Value = { Row };

    ghost view = { λ t. pieces 0 (take t.count t.ends) (string_bytes t.text) };

    ghost invariant = { λ t. (t.count ≤ length t.ends)
        × AreEnds 0 (take t.count t.ends) (string_bytes t.text) };
}

impl FieldTexts {
    /// No texts yet, with room for this many bytes in total.
    pub fn with_capacity(alloc: Global, bytes: usize) -> Result<Self, NoMemory>
        ensures { IfOk result (λ t. t ≡ []) }
    {
        Ok(FieldTexts {
            text: String::with_capacity(alloc, bytes)?,
            ends: [0; RECORD_PLACES],
            count: 0,
        })
    }

    /// Adds a text after the others. The error is also `NoMemory` if the texts would have more than 65,535 bytes in
    /// total. An item that passed its checks has at most 32 fields of at most 2,000 bytes.
    pub fn push(&mut self, text: &str) -> Result<(), NoMemory>
        requires { length self.old < record_places }
        ensures ok { OnOk result (self.new ≡ self.old ++ text.now ∷ []) }
        ensures err { OnErr result (self.new ≡ self.old) }
    {
        let length = self.text.len().checked_add(text.len()).ok_or(NoMemory)?;
        let end = u16::try_from(length).map_err(|_| NoMemory)?;
        self.text.push_str(text)?;
        self.ends[self.count as usize] = end;
        self.count += 1;
        Ok(())
    }

    /// The number of texts.
    pub fn len(&self) -> usize
        ensures { result ≡ length self.now }
    {
        self.count as usize
    }

    /// The text at this index.
    pub fn text(&self, index: usize) -> &str
        requires { index < length self.now }
        ensures { result.now ≡ slice_index_or self.now index (codes "") }
    {
        piece_at(&self.text, ends_of(&self.ends, self.count), index)
    }
}

impl PartialEq for FieldTexts {
    ghost eq = { pointwise (pointwise ◌==◌) };

    ghost laws = { Prim.search (comparing, rules) };

    fn eq(&self, other: &Self) -> bool {
        ends_of(&self.ends, self.count) == ends_of(&other.ends, other.count)
            && self.text == other.text
    }
}

impl Eq for FieldTexts {
    ghost laws = { Prim.search (comparing, rules) };
}

impl fmt::Debug for FieldTexts {
    fn fmt<W: fmt::Write>(&self, f: &mut fmt::Formatter<W>) -> fmt::Result {
        f.debug_list()
            .entries((0..self.len()).map(|index| self.text(index)))
            .finish()
    }
}

// The ends of this many texts.
fn ends_of(ends: &[u16; RECORD_PLACES], count: u8) -> &[u16]
    requires { count ≤ length ends.now }
    ensures { result.now ≡ take count ends.now }
{
    &ends[..count as usize]
}

// The text at this index among texts that are stored one after another.
fn piece_at<'a>(text: &'a str, ends: &[u16], index: usize) -> &'a str
    requires ends { AreEnds 0 ends.now text.now }
    requires index { index < length ends.now }
    ensures { result.now ≡ slice_index_or (pieces 0 ends.now text.now) index (codes "") }
{
    let start = start_of(ends, index) as usize;
    let end = ends[index] as usize;
    &text[start..end]
}

// The offset at which the text at this index starts.
fn start_of(ends: &[u16], index: usize) -> u16
    requires { index < length ends.now }
    ensures { result ≡ slice_index_or (0 ∷ ends.now) index 0 }
{
    if index == 0 { 0 } else { ends[index - 1] }
}
