//! Several texts in one buffer.
ghost use Rattle.std.specs.Prelude.{◌≡◌, ◌==◌, ◌≤◌, ◌++◌, ◌∷◌, [], length, IfOk, IsTrue, OnOk, OnErr};
ghost use Rattle.std.specs.List.{concat, list_all};
ghost use Rattle.std.specs.Str.{IsUtf8, is_utf8};
ghost use Rattle.lei_records.specs.Rows.{text_at};
ghost use Rattle.copy_csv.specs.Cuts.{IsCut, parts_at_ends};

use crate::ends::Ends;
use lei_values::NoMemory;
use std::alloc::Global;
use std::marker::Model;
use std::str;

/// Texts whose bytes are in one buffer, one text directly after the other. Contracts see the list of them, each by its
/// UTF-8 bytes.
#[derive(Debug, Drop)]
pub struct Texts {
    bytes: Vec<u8>,
    ends: Ends,
}

impl Model for Texts {
    ghost use Rattle.std.specs.Prelude.{ℕ, List};
    ghost use Rattle.copy_csv.specs.Cuts.{IsCut, parts_at_ends};

    ghost Value = { List (List ℕ) };

    ghost view = { λ t. parts_at_ends t.bytes.items t.ends };

    ghost invariant = { λ t. IsCut t.bytes.items t.ends };
}

impl Texts {
    /// An empty list of texts.
    pub fn new(alloc: Global) -> Self
        ensures { result ≡ [] }
    {
        Texts {
            bytes: Vec::new(alloc),
            ends: Ends::new(alloc),
        }
    }

    /// An empty list with capacity for `count` texts that have `bytes` bytes in total.
    pub fn with_capacity(alloc: Global, count: usize, bytes: usize) -> Result<Self, NoMemory>
        ensures { IfOk result (λ texts. texts ≡ []) }
    {
        Ok(Texts {
            bytes: Vec::with_capacity(alloc, bytes)?,
            ends: Ends::with_capacity(alloc, count)?,
        })
    }

    /// The texts that these bytes have between these ends; it takes both over. Each part must be UTF-8, and together
    /// they must cover all of the bytes.
    pub fn of(bytes: Vec<u8>, ends: Ends) -> Self
        requires { IsCut bytes.items ends }
        ensures { result ≡ parts_at_ends bytes.items ends }
    {
        Texts { bytes, ends }
    }

    /// Appends a text.
    pub fn push(&mut self, text: &str) -> Result<(), NoMemory>
        ensures pushed { OnOk result (self.new ≡ self.old ++ text.now ∷ []) }
        ensures kept { OnErr result (self.new ≡ self.old) }
    {
        let start = self.bytes.len();
        self.bytes.extend_from_slice(text.as_bytes())?;
        let end = self.bytes.len();
        match self.ends.push(end) {
            Ok(()) => Ok(()),
            Err(fault) => {
                self.bytes.truncate(start);
                Err(fault)
            }
        }
    }

    /// The number of texts.
    pub fn len(&self) -> usize
        ensures value { result ≡ length self.now }
        ensures utf8 { IsTrue (list_all is_utf8 self.now) }
    {
        self.ends.len()
    }

    /// Whether there are no texts.
    pub fn is_empty(&self) -> bool
        ensures { result ≡ (length self.now == 0) }
    {
        self.ends.is_empty()
    }

    /// The bytes of all texts, one text directly after the other.
    pub fn joined(&self) -> &[u8]
        ensures { result.now ≡ concat self.now }
    {
        self.bytes.as_slice()
    }

    /// The bytes of the text at a place, counted from 1.
    pub fn text_bytes(&self, place: usize) -> &[u8]
        requires first { 1 ≤ place }
        requires last { place ≤ length self.now }
        ensures value { result.now ≡ text_at self.now place }
        ensures text { IsUtf8 result.now }
        ensures utf8 { IsTrue (list_all is_utf8 self.now) }
    {
        let (start, end) = self.ends.span(place - 1);
        &self.bytes.as_slice()[start..end]
    }

    /// The text at a place, counted from 1.
    pub fn text(&self, place: usize) -> &str
        requires first { 1 ≤ place }
        requires last { place ≤ length self.now }
        ensures value { result.now ≡ text_at self.now place }
        ensures utf8 { IsTrue (list_all is_utf8 self.now) }
    {
        match str::from_utf8(self.text_bytes(place)) {
            Ok(text) => text,
            Err(_) => unreachable!(),
        }
    }
}
