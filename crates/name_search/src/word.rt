//! Words, whose first bytes decide most comparisons.
ghost use Rattle.std.specs.Prelude.{◌≡◌, ◌==◌, slice_index_or, IfOk, Some};
ghost use Rattle.std.proofs.Common.{rules};
ghost use Rattle.std.proofs.lemmas.Cmp.{nat_list_cmp_total};
ghost use Rattle.std.specs.Cmp.Lexicographic.{pointwise, slice_cmp};
ghost use Rattle.std.specs.Cmp.Rules.{comparing};
ghost use Rattle.std.specs.Ordering.{nat_cmp};
ghost use Rattle.name_search.specs.Heads.{head_of};

use lei_values::{List, NoMemory, Text};
use std::alloc::Global;
use std::cmp::Ordering;
use std::marker::Model;

/// A word. Contracts see its bytes, and words compare by them. The number that its first eight bytes form is kept
/// beside its text: where two words differ in these bytes, their texts aren't looked at.
#[derive(Drop)]
pub struct Word {
    head: u64,
    text: Text,
}

impl Model for Word {
    ghost use Rattle.std.specs.Prelude.{◌≡◌, ℕ, List};
    ghost use Rattle.name_search.specs.Heads.{head_of};

    ghost Value = { List ℕ };

    ghost view = { λ word. word.text };

    ghost invariant = { λ word. word.head ≡ head_of word.text };
}

impl Word {
    /// A word with these bytes, in its own memory.
    pub fn copy_of(alloc: Global, text: &str) -> Result<Self, NoMemory>
        ensures { IfOk result (λ word. word ≡ text.now) }
    {
        Ok(Word {
            head: head_of(text),
            text: Text::copy_of(alloc, text)?,
        })
    }

    /// A copy of the word in its own memory.
    pub fn copy(&self, alloc: Global) -> Result<Self, NoMemory>
        ensures { IfOk result (λ word. word ≡ self.now) }
    {
        Ok(Word {
            head: self.head,
            text: Text::copy_of(alloc, self.as_str())?,
        })
    }

    /// The text of the word.
    pub fn as_str(&self) -> &str
        ensures { result.now ≡ self.now }
    {
        self.text.as_str()
    }

    // The text without its number.
    fn into_text(self) -> Text
        ensures { result ≡ self }
    {
        self.text
    }
}

// The number that the first eight bytes of a text form, the first byte as the highest. Past the end of the text the
// bytes are zeros.
fn head_of(text: &str) -> u64
    ensures { result ≡ head_of text.now }
{
    let bytes = text.as_bytes();
    u64::from_be_bytes([
        byte_at(bytes, 0),
        byte_at(bytes, 1),
        byte_at(bytes, 2),
        byte_at(bytes, 3),
        byte_at(bytes, 4),
        byte_at(bytes, 5),
        byte_at(bytes, 6),
        byte_at(bytes, 7),
    ])
}

// The byte at an index, or zero past the end.
fn byte_at(bytes: &[u8], index: usize) -> u8
    ensures { result ≡ slice_index_or bytes.now index 0 }
{
    bytes.get(index).copied().unwrap_or(0)
}

/// The texts of words.
pub fn texts_of(alloc: Global, words: List<Word>) -> Result<List<Text>, NoMemory>
    ensures { IfOk result (λ texts. texts ≡ words) }
{
    let words = words.into_vec();
    let mut texts = Vec::with_capacity(alloc, words.len())?;
    for word in words {
        texts.push(word.into_text())?;
    }
    Ok(List::from(texts))
}

impl PartialEq for Word {
    ghost eq = { pointwise ◌==◌ };

    ghost laws = { Prim.search (comparing, rules) };

    fn eq(&self, other: &Self) -> bool {
        self.head == other.head && self.as_str() == other.as_str()
    }
}

impl Eq for Word {
    ghost laws = { Prim.search (comparing, rules) };
}

impl PartialOrd for Word {
    ghost partial_cmp = { λ x y. Some (slice_cmp nat_cmp x y) };

    ghost laws = { Prim.search (comparing, rules) };

    fn partial_cmp(&self, other: &Self) -> Option<Ordering> {
        Some(self.cmp(other))
    }
}

impl Ord for Word {
    ghost cmp = { slice_cmp nat_cmp };

    ghost total = { nat_list_cmp_total };

    ghost matches_partial_cmp = { Prim.search (comparing, rules) };

    ghost matches_eq = { Prim.search (comparing, rules) };

    fn cmp(&self, other: &Self) -> Ordering {
        compare(self.head, self.as_str(), other.head, other.as_str())
    }
}

// The order of two texts with these heads.
fn compare(head: u64, text: &str, other_head: u64, other: &str) -> Ordering
    requires head { head ≡ head_of text.now }
    requires other_head { other_head ≡ head_of other.now }
    ensures { result ≡ slice_cmp nat_cmp text.now other.now }
{
    match head.cmp(&other_head) {
        Ordering::Equal => text.cmp(other),
        unequal => unequal,
    }
}
