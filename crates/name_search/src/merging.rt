//! Merges the rows of a copy with those of a delta, in the order of their keys.
ghost use Rattle.std.specs.Prelude.{◌≡◌, ◌+◌, ◌≤◌, ◌++◌, [], List, drop, length, map, take, true, vec_capacity, IfOk};
ghost use Rattle.std.specs.FinMap.Entries.{is_sorted};
ghost use Rattle.std.specs.List.{All};
ghost use Rattle.std.specs.Vec.Iter.{into_iter_items};
ghost use Rattle.register_words.specs.declared.sheets.Sheet.{Sheet as DeclaredSheet};
ghost use Rattle.copy_csv.specs.Rows.{AreChanges, AreRows, IsChangeOf};
ghost use Rattle.copy_csv.specs.Sheets.{SheetRow};
ghost use Rattle.copy_forms.specs.Patching.{patched};
ghost use Rattle.name_search.specs.Keys.{text_cmp};
ghost use Rattle.name_search.specs.NameTables.{Name, key_and_name, number_in};
ghost use Rattle.name_search.specs.Puts.{put_name, put_names};

use crate::key::SearchKey;
use crate::named_row::{NamedRow, text_of};
use crate::places::place_of;
use copy_csv::{Change, Head};
use lei_values::NoMemory;
use std::alloc::Global;
use std::collections::VecDeque;
use std::sync::ledger::Ledger;
use std::vec::IntoIter;
use worker_pool::Steps;

/// The number of the publication, if there is a head.
pub fn number_of(head: &Option<Head>) -> Option<u32>
    ensures { result ≡ number_in head.now }
{
    match head {
        Some(head) => Some(head.publication),
        None => None,
    }
}

/// The keys and names of the rows that changes of `lei` put. Each row is a step.
pub fn named_puts<L: Ledger>(
    alloc: Global,
    changes: &[Change],
    steps: &mut Steps<L>,
) -> Result<Vec<NamedRow>, NoMemory>
    requires { All (IsChangeOf DeclaredSheet.Lei) changes.now }
    ensures names { IfOk result (λ made. made.items ≡ put_names changes.now) }
    ensures steps { steps.new ≤ steps.old + length changes.now }
    ensures steps_stay { steps.old ≤ steps.new }
{
    let mut made = Vec::new(alloc);
    for change in changes {
        let Change::Put(row) = change else {
            continue;
        };
        made.push(NamedRow::of(alloc, row, steps)?)?;
    }
    Ok(made)
}

/// Puts the rows as they are after the changes into a vector. The vector has room for the rows of a copy and for
/// `puts`, the rows that the changes put. Removed rows go to another vector, each with the index at which a row that
/// replaced it is. The function doesn't allocate memory.
pub fn merge(
    out: &mut Vec<NamedRow>,
    rows: Vec<NamedRow>,
    puts: Vec<NamedRow>,
    changes: &[Change],
    gone: &mut Vec<(usize, NamedRow)>,
)
    requires empty { out.old.items ≡ [] }
    requires room { length rows.items + length puts.items ≤ vec_capacity out.old }
    requires none_gone { gone.old.items ≡ [] }
    requires room_for_gone { length changes.now ≤ vec_capacity gone.old }
    requires sorted { is_sorted text_cmp rows.items ≡ true }
    requires puts { puts.items ≡ put_names changes.now }
    requires changes { AreChanges DeclaredSheet.Lei changes.now }
    ensures { (copy : List SheetRow) → AreRows DeclaredSheet.Lei copy → rows.items ≡ map key_and_name copy
        → out.new.items ≡ map key_and_name (patched copy changes.now) }
{
    let mut rows = VecDeque::from_vec(rows);
    let mut puts = puts.into_iter();
    for change in changes {
        let (lesser, is_there) = place_of(&rows, &SearchKey::of(text_of(change.row(), 1)));
        move_rows(out, &mut rows, lesser);
        let place = out.len();
        put_change(out, &mut puts, change);
        if !is_there {
            continue;
        }
        take_first(gone, place, &mut rows);
    }
    let left = rows.len();
    move_rows(out, &mut rows, left);
}

// Moves the first `count` rows of a list to the end of another.
fn move_rows(out: &mut Vec<NamedRow>, rows: &mut VecDeque<NamedRow>, count: usize)
    requires count { count ≤ length rows.old.items }
    requires room { length out.old.items + count ≤ vec_capacity out.old }
    ensures out { out.new.items ≡ out.old.items ++ take count rows.old.items }
    ensures rows { rows.new.items ≡ drop count rows.old.items }
    ensures capacity { vec_capacity out.new ≡ vec_capacity out.old }
{
    for _ in 0..count {
        let Some(row) = rows.pop_front() else {
            unreachable!();
        };
        out.push_reserved(row);
    }
}

// Moves the first row to the end of those that have gone, with the index of the row that may replace it.
fn take_first(gone: &mut Vec<(usize, NamedRow)>, place: usize, rows: &mut VecDeque<NamedRow>)
    requires some { 1 ≤ length rows.old.items }
    requires room { length gone.old.items + 1 ≤ vec_capacity gone.old }
    ensures gone { length gone.new.items ≡ length gone.old.items + 1 }
    ensures capacity { vec_capacity gone.new ≡ vec_capacity gone.old }
    ensures rows { rows.new.items ≡ drop 1 rows.old.items }
{
    let Some(row) = rows.pop_front() else {
        unreachable!();
    };
    gone.push_reserved((place, row));
}

// Appends the row that a change puts, if it puts one. This is the next one in `puts`.
fn put_change(out: &mut Vec<NamedRow>, puts: &mut IntoIter<NamedRow>, change: &Change)
    requires room { length out.old.items + length (into_iter_items puts.old) ≤ vec_capacity out.old }
    requires next { (rest : List Name) × (into_iter_items puts.old ≡ put_name change.now ++ rest) }
    ensures out { out.new.items ≡ out.old.items ++ put_name change.now }
    ensures puts { into_iter_items puts.old ≡ put_name change.now ++ into_iter_items puts.new }
    ensures capacity { vec_capacity out.new ≡ vec_capacity out.old }
{
    let Change::Put(_) = change else {
        return;
    };
    let Some(row) = puts.next() else {
        unreachable!();
    };
    out.push_reserved(row);
}
