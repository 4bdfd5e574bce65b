//! The walk over the lines of a sheet and their changes.
ghost use Rattle.std.specs.Prelude.{◌≡◌, ◌+◌, ◌≤◌, ◌<◌, ◌++◌, [], length};
ghost use Rattle.golden_shelf.specs.Keys.{key_texts};
ghost use Rattle.golden_shelf.specs.Lines.{AreSorted, lines_under, with_lines};
ghost use Rattle.golden_shelf.specs.Sides.{AreRisingChanges, note_change, notes_of};
ghost use Rattle.golden_shelf.specs.Walks.{below, line_for, lines_from, past, texts_under};

use crate::lines::{Lines, Note};
use crate::replacing::{are_there, replace_all};
use crate::rest::Rest;
use lei_records::RowKey;
use std::mem;

/// Puts the change of each note into the lines, and notes what it replaced. No line waits before or after. If few lines
/// get other texts, and no line comes or goes, no line is moved.
pub fn weave(rows: &mut Lines, rest: &mut Rest, notes: &mut [Note])
    requires sorted { AreSorted rows.old.lines }
    requires rising { AreRisingChanges (notes_of notes.old) }
    requires none_waits { rest.old.lines ≡ [] }
    requires room { length rows.old.lines + length notes.old ≤ rest.old.room }
    requires rooms { rest.old.room ≤ rows.old.room }
    ensures rows { rows.new.lines ≡ with_lines rows.old.lines (notes_of notes.old) }
    ensures rest { rest.new.lines ≡ [] }
    ensures notes { notes_of notes.new ≡ lines_under rows.old.lines (notes_of notes.old) }
    ensures len { length notes.new ≡ length notes.old }
    ensures few { length rows.new.lines ≤ length rows.old.lines + length notes.old }
    ensures rows_room { rows.new.room ≡ rows.old.room }
    ensures rest_room { rest.new.room ≡ rest.old.room }
{
    if notes.len() <= rows.len() / 16 && are_there(rows, notes) {
        replace_all(rows, notes);
    } else {
        weave_all(rows, rest, notes);
    }
}

// The same, by a walk over all lines.
fn weave_all(rows: &mut Lines, rest: &mut Rest, notes: &mut [Note])
    requires sorted { AreSorted rows.old.lines }
    requires rising { AreRisingChanges (notes_of notes.old) }
    requires none_waits { rest.old.lines ≡ [] }
    requires room { length rows.old.lines + length notes.old ≤ rest.old.room }
    requires rooms { rest.old.room ≤ rows.old.room }
    ensures rows { rows.new.lines ≡ with_lines rows.old.lines (notes_of notes.old) }
    ensures rest { rest.new.lines ≡ [] }
    ensures notes { notes_of notes.new ≡ lines_under rows.old.lines (notes_of notes.old) }
    ensures len { length notes.new ≡ length notes.old }
    ensures few { length rows.new.lines ≤ length rows.old.lines + length notes.old }
    ensures rows_room { rows.new.room ≡ rows.old.room }
    ensures rest_room { rest.new.room ≡ rest.old.room }
{
    if notes.is_empty() {
        return;
    }
    lower(rows, rest);
    for index in 0..notes.len() {
        weave_one(rows, rest, &mut notes[index]);
    }
    raise_all(rows, rest);
}

// Appends the lines that wait before a note's key, and then the note's own line. The note gets what this replaced.
fn weave_one(rows: &mut Lines, rest: &mut Rest, note: &mut Note)
    requires { length rows.old.lines + length rest.old.lines < rows.old.room }
    ensures rows { rows.new.lines
        ≡ rows.old.lines ++ (below (key_texts note.old.key) rest.old.lines
        ++ line_for (note_change note.old)) }
    ensures rest { rest.new.lines
        ≡ past (key_texts note.old.key) (lines_from (key_texts note.old.key) rest.old.lines) }
    ensures key { note.new.key ≡ note.old.key }
    ensures texts { note.new.texts
        ≡ texts_under (key_texts note.old.key) (lines_from (key_texts note.old.key) rest.old.lines) }
    ensures len { length rows.new.lines + length rest.new.lines ≤ length rows.old.lines + length
        rest.old.lines + 1 }
    ensures rows_room { rows.new.room ≡ rows.old.room }
    ensures rest_room { rest.new.room ≡ rest.old.room }
{
    raise_before(rows, rest, &note.key);
    exchange(rows, rest, note);
}

// Moves all lines to the front of those that wait.
fn lower(rows: &mut Lines, rest: &mut Rest)
    requires { length rows.old.lines + length rest.old.lines ≤ rest.old.room }
    ensures rows { rows.new.lines ≡ [] }
    ensures rest { rest.new.lines ≡ rows.old.lines ++ rest.old.lines }
    ensures rows_room { rows.new.room ≡ rows.old.room }
    ensures rest_room { rest.new.room ≡ rest.old.room }
{
    while let Some((key, texts)) = rows.pop() {
        rest.push_first_reserved(key, texts);
    }
}

// Appends the lines that wait before this key.
fn raise_before(rows: &mut Lines, rest: &mut Rest, key: &RowKey)
    requires { length rows.old.lines + length rest.old.lines ≤ rows.old.room }
    ensures rows { rows.new.lines ≡ rows.old.lines ++ below (key_texts key.now) rest.old.lines }
    ensures rest { rest.new.lines ≡ lines_from (key_texts key.now) rest.old.lines }
    ensures len { length rows.new.lines + length rest.new.lines
        ≡ length rows.old.lines + length rest.old.lines }
    ensures rows_room { rows.new.room ≡ rows.old.room }
    ensures rest_room { rest.new.room ≡ rest.old.room }
{
    while let Some((first, texts)) = rest.pop_before(key) {
        rows.push_reserved(first, texts);
    }
}

// Appends all lines that wait.
fn raise_all(rows: &mut Lines, rest: &mut Rest)
    requires { length rows.old.lines + length rest.old.lines ≤ rows.old.room }
    ensures rows { rows.new.lines ≡ rows.old.lines ++ rest.old.lines }
    ensures rest { rest.new.lines ≡ [] }
    ensures rows_room { rows.new.room ≡ rows.old.room }
    ensures rest_room { rest.new.room ≡ rest.old.room }
{
    while let Some((first, texts)) = rest.pop_first() {
        rows.push_reserved(first, texts);
    }
}

// Appends the line of a note, if it has texts. The note gets the texts of the line of its key instead, if that waits.
fn exchange(rows: &mut Lines, rest: &mut Rest, note: &mut Note)
    requires { length rows.old.lines < rows.old.room }
    ensures rows { rows.new.lines ≡ rows.old.lines ++ line_for (note_change note.old) }
    ensures rest { rest.new.lines ≡ past (key_texts note.old.key) rest.old.lines }
    ensures key { note.new.key ≡ note.old.key }
    ensures texts { note.new.texts ≡ texts_under (key_texts note.old.key) rest.old.lines }
    ensures len { length rows.new.lines + length rest.new.lines ≤ length rows.old.lines + length
        rest.old.lines + 1 }
    ensures rows_room { rows.new.room ≡ rows.old.room }
    ensures rest_room { rest.new.room ≡ rest.old.room }
{
    let found = rest.pop_at(&note.key);
    let put = mem::replace(&mut note.texts, found);
    if let Some(texts) = put {
        rows.push_reserved(note.key, texts);
    }
}
