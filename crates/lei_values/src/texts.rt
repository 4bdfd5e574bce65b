// Several texts in one piece of memory.
ghost use Rattle.std.specs.Prelude.{◌≡◌, ◌==◌, ◌<◌, ◌++◌, ◌∷◌, [], codes, length, slice_index_or, IfOk, OnOk, OnErr};
ghost use Rattle.std.proofs.Common.{rules};
ghost use Rattle.std.specs.Cmp.Rules.{comparing};
ghost use Rattle.std.specs.Cmp.Lexicographic.{pointwise};
ghost use Rattle.lei_values.specs.Pieces.{AreEnds, pieces};

use crate::NoMemory;
use std::alloc::Global;
use std::fmt;
use std::marker::Model;

/// Texts that are stored one after another in one piece of memory, of at most 4 GiB. Contracts see the list of them,
/// each by its UTF-8 bytes.
#[derive(Drop)]
pub struct Texts {
    text: String,
    ends: Vec<u32>,
}

impl Model for Texts {
    ghost use Rattle.std.specs.Prelude.{ℕ, List, string_bytes};
    ghost use Rattle.lei_values.specs.Pieces.{AreEnds, pieces};

    ghost Value = { List (List ℕ) };

    ghost view = { λ t. pieces 0 t.ends.items (string_bytes t.text) };

    ghost invariant = { λ t. AreEnds 0 t.ends.items (string_bytes t.text) };
}

impl Texts {
    /// No texts yet, with room for this many texts with this many bytes in total.
    pub fn with_capacity(alloc: Global, texts: usize, bytes: usize) -> Result<Self, NoMemory>
        ensures { IfOk result (λ t. t ≡ []) }
    {
        Ok(Texts {
            text: String::with_capacity(alloc, bytes)?,
            ends: Vec::with_capacity(alloc, texts)?,
        })
    }

    /// Adds a text after the others.
    pub fn push(&mut self, text: &str) -> Result<(), NoMemory>
        ensures ok { OnOk result (self.new ≡ self.old ++ text.now ∷ []) }
        ensures err { OnErr result (self.new ≡ self.old) }
    {
        let length = self.text.len().checked_add(text.len()).ok_or(NoMemory)?;
        let end = u32::try_from(length).map_err(|_| NoMemory)?;
        self.ends.reserve(1)?;
        self.text.push_str(text)?;
        self.ends.push_reserved(end);
        Ok(())
    }

    /// A copy of the texts in its own memory.
    pub fn copy(&self, alloc: Global) -> Result<Self, NoMemory>
        ensures { IfOk result (λ copy. copy ≡ self.now) }
    {
        Ok(Texts {
            text: String::from_str(alloc, self.text.as_str())?,
            ends: self.ends.as_slice().to_vec(alloc)?,
        })
    }

    /// The number of texts.
    pub fn len(&self) -> usize
        ensures { result ≡ length self.now }
    {
        self.ends.len()
    }

    /// Whether there are none.
    pub fn is_empty(&self) -> bool
        ensures { result ≡ (length self.now == 0) }
    {
        self.ends.is_empty()
    }

    /// The text at this index.
    pub fn text(&self, index: usize) -> &str
        requires { index < length self.now }
        ensures { result.now ≡ slice_index_or self.now index (codes "") }
    {
        piece_at(&self.text, &self.ends, index)
    }
}

impl PartialEq for Texts {
    ghost eq = { pointwise (pointwise ◌==◌) };

    ghost laws = { Prim.search (comparing, rules) };

    fn eq(&self, other: &Self) -> bool {
        self.ends == other.ends && self.text == other.text
    }
}

impl Eq for Texts {
    ghost laws = { Prim.search (comparing, rules) };
}

impl fmt::Debug for Texts {
    fn fmt<W: fmt::Write>(&self, f: &mut fmt::Formatter<W>) -> fmt::Result {
        f.debug_list()
            .entries((0..self.len()).map(|index| self.text(index)))
            .finish()
    }
}

// The text at this index among those that are stored one after another.
fn piece_at<'a>(text: &'a str, ends: &[u32], index: usize) -> &'a str
    requires ends { AreEnds 0 ends.now text.now }
    requires index { index < length ends.now }
    ensures { result.now ≡ slice_index_or (pieces 0 ends.now text.now) index (codes "") }
{
    let start = start_of(ends, index) as usize;
    let end = ends[index] as usize;
    &text[start..end]
}

// The offset of the first byte of the text at this index.
fn start_of(ends: &[u32], index: usize) -> u32
    requires { index < length ends.now }
    ensures { result ≡ slice_index_or (0 ∷ ends.now) index 0 }
{
    if index == 0 { 0 } else { ends[index - 1] }
}
