//! Keys that rows and lists of keys share.
ghost use Rattle.std.specs.Prelude.{◌≡◌, ◌==◌, IfOk, Some};
ghost use Rattle.std.proofs.Common.{rules};
ghost use Rattle.std.proofs.lemmas.Cmp.{nat_list_cmp_total};
ghost use Rattle.std.specs.Cmp.Lexicographic.{pointwise, slice_cmp};
ghost use Rattle.std.specs.Cmp.Rules.{comparing};
ghost use Rattle.std.specs.Ordering.{nat_cmp};

use lei_code::Lei;
use lei_values::{NoMemory, Text};
use std::alloc::Global;
use std::cmp::Ordering;
use std::marker::Model;
use std::sync::Arc;

// The text of a key. An LEI is kept in its place, and compares as two numbers. Any other text is shared by its holders.
#[derive(Drop)]
enum KeyText {
    Code(Lei),
    Other(Arc<Text, Global>),
}

/// The key of a row, which has several holders: another holder needs no copy of a text in memory of its own. Contracts
/// see its bytes, and keys compare by them.
#[derive(Drop)]
pub struct Key {
    text: KeyText,
}

impl Model for Key {
    ghost use Rattle.std.specs.Prelude.{ℕ, List};
    ghost use Rattle.name_search.specs.KeyTexts.{key_text};

    ghost Value = { List ℕ };

    ghost view = { λ key. key_text key.text };
}

impl Key {
    /// A key with this text.
    pub fn copy_of(alloc: Global, text: &str) -> Result<Self, NoMemory>
        ensures { IfOk result (λ key. key ≡ text.now) }
    {
        let text = match Lei::read(text.as_bytes()) {
            Ok(code) => KeyText::Code(code),
            Err(_) => KeyText::Other(Arc::new(alloc, Text::copy_of(alloc, text)?)?),
        };
        Ok(Key { text })
    }

    /// The same key for one more holder.
    pub fn share(&self) -> Result<Self, NoMemory>
        ensures { IfOk result (λ key. key ≡ self.now) }
    {
        let text = match &self.text {
            KeyText::Code(code) => KeyText::Code(*code),
            KeyText::Other(text) => KeyText::Other(Arc::try_clone(text)?),
        };
        Ok(Key { text })
    }

    /// The text of the key.
    pub fn as_str(&self) -> &str
        ensures { result.now ≡ self.now }
    {
        match &self.text {
            KeyText::Code(code) => code.as_str(),
            KeyText::Other(text) => text.as_str(),
        }
    }

    // How the key compares with an LEI.
    fn compare_with_code(&self, other: &Lei) -> Ordering
        ensures { result ≡ slice_cmp nat_cmp self.now other.now }
    {
        match &self.text {
            KeyText::Code(code) => code.cmp(other),
            KeyText::Other(text) => text.as_str().cmp(other.as_str()),
        }
    }

    /// The key, to look for it.
    pub fn to_search_key(&self) -> SearchKey<'_>
        ensures { result ≡ self.now }
    {
        let text = match &self.text {
            KeyText::Code(code) => SearchText::Code(*code),
            KeyText::Other(text) => SearchText::Other(text.as_str()),
        };
        SearchKey { text }
    }
}

impl PartialEq for Key {
    ghost eq = { pointwise ◌==◌ };

    ghost laws = { Prim.search (comparing, rules) };

    fn eq(&self, other: &Self) -> bool {
        self.as_str() == other.as_str()
    }
}

impl Eq for Key {
    ghost laws = { Prim.search (comparing, rules) };
}

impl PartialOrd for Key {
    ghost partial_cmp = { λ x y. Some (slice_cmp nat_cmp x y) };

    ghost laws = { Prim.search (comparing, rules) };

    fn partial_cmp(&self, other: &Self) -> Option<Ordering> {
        Some(self.cmp(other))
    }
}

impl Ord for Key {
    ghost cmp = { slice_cmp nat_cmp };

    ghost total = { nat_list_cmp_total };

    ghost matches_partial_cmp = { Prim.search (comparing, rules) };

    ghost matches_eq = { Prim.search (comparing, rules) };

    fn cmp(&self, other: &Self) -> Ordering {
        match &other.text {
            KeyText::Code(code) => self.compare_with_code(code),
            KeyText::Other(text) => self.as_str().cmp(text.as_str()),
        }
    }
}

// The text of a key to look for.
#[derive(Clone, Copy)]
enum SearchText<'a> {
    Code(Lei),
    Other(&'a str),
}

/// A key to look for. Contracts see its bytes.
#[derive(Drop)]
pub struct SearchKey<'a> {
    text: SearchText<'a>,
}

impl<'a> Model for SearchKey<'a> {
    ghost use Rattle.std.specs.Prelude.{ℕ, List};
    ghost use Rattle.name_search.specs.KeyTexts.{search_text};

    ghost Value = { List ℕ };

    ghost view = { λ key. search_text key.text };
}

impl<'a> SearchKey<'a> {
    /// The key with this text.
    pub fn of(text: &'a str) -> Self
        ensures { result ≡ text.now }
    {
        let text = match Lei::read(text.as_bytes()) {
            Ok(code) => SearchText::Code(code),
            Err(_) => SearchText::Other(text),
        };
        SearchKey { text }
    }

    /// How the key compares with one that is kept.
    pub fn compare(&self, key: &Key) -> Ordering
        ensures { result ≡ slice_cmp nat_cmp self.now key.now }
    {
        match &key.text {
            KeyText::Code(code) => self.compare_with_code(code),
            KeyText::Other(text) => self.as_str().cmp(text.as_str()),
        }
    }

    // How the key compares with an LEI.
    fn compare_with_code(&self, other: &Lei) -> Ordering
        ensures { result ≡ slice_cmp nat_cmp self.now other.now }
    {
        match &self.text {
            SearchText::Code(code) => code.cmp(other),
            SearchText::Other(text) => text.cmp(other.as_str()),
        }
    }

    fn as_str(&self) -> &str
        ensures { result.now ≡ self.now }
    {
        match &self.text {
            SearchText::Code(code) => code.as_str(),
            SearchText::Other(text) => text,
        }
    }
}
