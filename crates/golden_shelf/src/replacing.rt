//! Replaces the texts of lines without moving the lines.
ghost use Rattle.std.specs.Prelude.{◌≡◌, true, length};
ghost use Rattle.std.specs.FinMap.Entries.{find};
ghost use Rattle.std.specs.List.{list_all};
ghost use Rattle.lei_records.specs.Tables.{key_cmp};
ghost use Rattle.golden_shelf.specs.Keys.{key_texts};
ghost use Rattle.golden_shelf.specs.Lines.{AreSorted, lines_under, with_changed_line, with_lines};
ghost use Rattle.golden_shelf.specs.Places.{is_there as is_put_there};
ghost use Rattle.golden_shelf.specs.Sides.{AreRisingChanges, note_change, notes_of};

use crate::lines::{Lines, Note};

/// Whether each note has texts for a key that has a line.
pub fn are_there(rows: &Lines, notes: &[Note]) -> bool
    requires { AreSorted rows.now.lines }
    ensures { result ≡ list_all (is_put_there rows.now.lines) (notes_of notes.now) }
{
    for note in notes {
        if !is_there(rows, note) {
            return false;
        }
    }
    true
}

// Whether a note has texts for a key that has a line.
fn is_there(rows: &Lines, note: &Note) -> bool
    requires { AreSorted rows.now.lines }
    ensures { result ≡ is_put_there rows.now.lines (note_change note.now) }
{
    note.texts.is_some() && rows.place(&note.key).is_some()
}

/// Swaps the texts of each note with those of the line of its key. No line is moved.
pub fn replace_all(rows: &mut Lines, notes: &mut [Note])
    requires sorted { AreSorted rows.old.lines }
    requires rising { AreRisingChanges (notes_of notes.old) }
    requires there { list_all (is_put_there rows.old.lines) (notes_of notes.old) ≡ true }
    ensures rows { rows.new.lines ≡ with_lines rows.old.lines (notes_of notes.old) }
    ensures notes { notes_of notes.new ≡ lines_under rows.old.lines (notes_of notes.old) }
    ensures len { length notes.new ≡ length notes.old }
    ensures count { length rows.new.lines ≡ length rows.old.lines }
    ensures room { rows.new.room ≡ rows.old.room }
{
    for index in 0..notes.len() {
        replace(rows, &mut notes[index]);
    }
}

// Swaps the texts of a note with those of the line of its key.
fn replace(rows: &mut Lines, note: &mut Note)
    requires sorted { AreSorted rows.old.lines }
    requires there { is_put_there rows.old.lines (note_change note.old) ≡ true }
    ensures rows { rows.new.lines ≡ with_changed_line rows.old.lines (note_change note.old) }
    ensures key { note.new.key ≡ note.old.key }
    ensures texts { note.new.texts ≡ find key_cmp (key_texts note.old.key) rows.old.lines }
    ensures count { length rows.new.lines ≡ length rows.old.lines }
    ensures room { rows.new.room ≡ rows.old.room }
{
    let Some(index) = rows.place(&note.key) else {
        unreachable!();
    };
    if let Some(mut texts) = note.texts.take() {
        rows.exchange(index, &mut texts);
        note.texts = Some(texts);
    }
}
