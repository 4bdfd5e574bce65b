//! What lines to a mirror say.
ghost use Rattle.std.specs.Prelude.{◌≡◌};
ghost use Rattle.mirror_queries.specs.Grammar.{mirror_says_alone, mirror_says_with, packet_of, packet_of_size, show_meaning};

use crate::sizes::{read_large, read_size};
use copy_csv::Sheet;
use lei_mirror::PacketKind;
use lei_values::NoMemory;
use line_reading::requests::cut_first_word;
use query_reading::{Grammar, LineMeaning, QueryRefusal};
use register_words::sheet_of;
use std::alloc::Global;

/// The table whose copy is asked for.
#[derive(Drop)]
pub struct ShowQuery {
    pub sheet: Sheet,
}

/// What a line says about its packet, except the size.
#[derive(Clone, Copy)]
pub struct PacketHead {
    pub kind: PacketKind,
    pub sheet: Sheet,
}

/// The grammar of a mirror: `COPY table n` and `DELTA table n`, each followed by a packet, and `SHOW table`.
#[derive(Drop)]
pub struct MirrorGrammar {}

// What a line to a mirror says.
type MirrorMeaning = LineMeaning<ShowQuery, PacketHead>;

impl Grammar for MirrorGrammar {
    ghost use Rattle.mirror_queries.specs.Grammar.{mirror_says};

    type Query = ShowQuery;

    type Head = PacketHead;

    ghost says = { mirror_says };

    fn read(&self, _alloc: Global, line: &[u8]) -> Result<MirrorMeaning, NoMemory> {
        match cut_first_word(line) {
            Some((word, rest)) => Ok(read_words(word, rest)),
            None => Ok(read_alone(line)),
        }
    }
}

// What a first word says if nothing follows it.
fn read_alone(word: &[u8]) -> MirrorMeaning
    ensures { result ≡ mirror_says_alone word.now }
{
    if word == b"COPY".as_slice() || word == b"DELTA".as_slice() || word == b"SHOW".as_slice() {
        return LineMeaning::Refused(QueryRefusal::Path);
    }
    LineMeaning::Refused(QueryRefusal::NoRoute)
}

// What a first word says with what follows its space.
fn read_words(word: &[u8], rest: &[u8]) -> MirrorMeaning
    ensures { result ≡ mirror_says_with word.now rest.now }
{
    if word == b"COPY".as_slice() {
        return read_packet(PacketKind::Copy, rest);
    }
    if word == b"DELTA".as_slice() {
        return read_packet(PacketKind::Delta, rest);
    }
    if word == b"SHOW".as_slice() {
        return read_show(rest);
    }
    LineMeaning::Refused(QueryRefusal::NoRoute)
}

// SHOW: the table whose copy is asked for.
#[tactic(auto, unfolding(crate::specs::Grammar::show_meaning))]
fn read_show(rest: &[u8]) -> MirrorMeaning
    ensures { result ≡ show_meaning rest.now }
{
    match sheet_of(rest) {
        Some(sheet) => LineMeaning::Query(ShowQuery { sheet }),
        None => LineMeaning::Refused(QueryRefusal::Path),
    }
}

// COPY and DELTA: the table and the number of bytes.
#[tactic(auto, unfolding(crate::specs::Grammar::packet_of))]
fn read_packet(kind: PacketKind, rest: &[u8]) -> MirrorMeaning
    ensures { result ≡ packet_of kind rest.now }
{
    let Some((table, size)) = cut_first_word(rest) else {
        return LineMeaning::Refused(QueryRefusal::Path);
    };
    match sheet_of(table) {
        Some(sheet) => read_packet_of_size(PacketHead { kind, sheet }, size),
        None => LineMeaning::Refused(QueryRefusal::Path),
    }
}

// A packet of the size that the word has in decimal. One that is too large is skipped.
#[tactic(auto, unfolding(crate::specs::Grammar::packet_of_size))]
fn read_packet_of_size(head: PacketHead, size: &[u8]) -> MirrorMeaning
    ensures { result ≡ packet_of_size head size.now }
{
    if let Some(bytes) = read_size(size) {
        return LineMeaning::Packet(head, bytes);
    }
    match read_large(size) {
        Some(bytes) => LineMeaning::Skipped(QueryRefusal::TooLong, bytes),
        None => LineMeaning::Refused(QueryRefusal::Path),
    }
}
