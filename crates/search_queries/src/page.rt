//! The pages of the search results.
ghost use Rattle.std.specs.Prelude.{◌≡◌, ◌≤◌};
ghost use Rattle.search_queries.specs.Grammar.{page_named};

use register_words::number_within;
use std::marker::Model;

/// The greatest number of a page. This project's profile.
pub const MAX_PAGE: u32 = 1_000_000;

/// The number of a page, from 1 to [`MAX_PAGE`]. Contracts see it as a number.
#[derive(Drop)]
pub struct Page {
    number: u32,
}

impl Model for Page {
    ghost use Rattle.std.specs.Prelude.{ℕ, ◌≤◌};

    ghost Value = { ℕ };

    ghost view = { λ p. p.number };

    ghost invariant = { λ p. (1 ≤ p.number) × (p.number ≤ 1_000_000) };
}

impl Page {
    /// The page whose number the word writes in decimal, without sign or leading zero.
    pub fn read(word: &[u8]) -> Option<Self>
        ensures { result ≡ page_named word.now }
    {
        match number_within(word, 1, MAX_PAGE) {
            Some(number) => Some(Page { number }),
            None => None,
        }
    }

    /// Its number.
    pub fn number(&self) -> u32
        ensures value { result ≡ self.now }
        ensures first { 1 ≤ result }
        ensures last { result ≤ 1_000_000 }
    {
        self.number
    }
}
