//! The meaning of a search's lines.
ghost use Rattle.std.specs.Prelude.{◌≡◌, option_map, IfOk, OnErr};
ghost use Rattle.query_reading.specs.Meanings.{IsWholeQuery};
ghost use Rattle.search_queries.specs.Grammar.{find_of, search_says_alone, search_says_with, take_of, utf8_in};

use crate::page::Page;
use lei_values::{NoMemory, Text};
use line_reading::requests::cut_first_word;
use query_reading::{Grammar, LineMeaning, QueryRefusal};
use register_words::number_within;
use std::alloc::Global;

/// The greatest number of bytes of a delta: 1 GiB. This project's profile.
pub const MAX_DELTA: u32 = 1_073_741_824;

/// A search for the rows whose names have each word of a text.
#[derive(Drop)]
pub struct FindQuery {
    pub page: Page,
    pub text: Text,
}

/// The grammar of a search: `FIND page text`, and `TAKE n` with a packet that is a delta.
#[derive(Drop)]
pub struct SearchGrammar {}

// What a line of a search says.
type SearchMeaning = LineMeaning<FindQuery, ()>;

impl Grammar for SearchGrammar {
    ghost use Rattle.search_queries.specs.Grammar.{search_says};

    type Query = FindQuery;

    type Head = ();

    ghost says = { search_says };

    fn read(&self, alloc: Global, line: &[u8]) -> Result<SearchMeaning, NoMemory> {
        match cut_first_word(line) {
            Some((word, rest)) => read_words(alloc, word, rest),
            None => Ok(read_alone(line)),
        }
    }
}

// What a first word says on its own.
fn read_alone(word: &[u8]) -> SearchMeaning
    ensures { result ≡ search_says_alone word.now }
{
    if word == b"FIND".as_slice() || word == b"TAKE".as_slice() {
        return LineMeaning::Refused(QueryRefusal::Path);
    }
    LineMeaning::Refused(QueryRefusal::NoRoute)
}

// What a first word says with what follows its space.
fn read_words(alloc: Global, word: &[u8], rest: &[u8]) -> Result<SearchMeaning, NoMemory>
    ensures ok { IfOk result (λ meaning. meaning ≡ search_says_with word.now rest.now) }
    ensures err { OnErr result (IsWholeQuery (search_says_with word.now rest.now)) }
{
    if word == b"FIND".as_slice() {
        return read_find(alloc, rest);
    }
    if word == b"TAKE".as_slice() {
        return Ok(read_take(rest));
    }
    Ok(LineMeaning::Refused(QueryRefusal::NoRoute))
}

// FIND: the number of a page, and everything after the space that follows it as the text.
#[tactic(auto, unfolding(crate::specs::Grammar::find_of))]
fn read_find(alloc: Global, rest: &[u8]) -> Result<SearchMeaning, NoMemory>
    ensures ok { IfOk result (λ meaning. meaning ≡ find_of rest.now) }
    ensures err { OnErr result (IsWholeQuery (find_of rest.now)) }
{
    let Some((page, text)) = cut_first_word(rest) else {
        return Ok(LineMeaning::Refused(QueryRefusal::Path));
    };
    let (Some(page), Some(text)) = (Page::read(page), text_of(text)) else {
        return Ok(LineMeaning::Refused(QueryRefusal::Path));
    };
    Ok(LineMeaning::Query(FindQuery {
        page,
        text: Text::copy_of(alloc, text)?,
    }))
}

// The text that these bytes are in UTF-8.
fn text_of(bytes: &[u8]) -> Option<&str>
    ensures { option_map (λ text. text.now) result ≡ utf8_in bytes.now }
{
    match str::from_utf8(bytes) {
        Ok(text) => Some(text),
        Err(_) => None,
    }
}

// TAKE: the number of a delta's bytes.
#[tactic(auto, unfolding(crate::specs::Grammar::take_of))]
fn read_take(rest: &[u8]) -> SearchMeaning
    ensures { result ≡ take_of rest.now }
{
    match number_within(rest, 1, MAX_DELTA) {
        Some(size) => LineMeaning::Packet((), size as usize),
        None => LineMeaning::Refused(QueryRefusal::Path),
    }
}
