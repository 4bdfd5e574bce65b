//! Searches for a row by its key.
ghost use Rattle.std.specs.Prelude.{◌≡◌, ◌<◌, ◌≤◌, false, length, true, option_map};
ghost use Rattle.std.specs.FinMap.Entries.{find, is_sorted};
ghost use Rattle.name_search.specs.Keys.{text_cmp};
ghost use Rattle.name_search.specs.Places.{PrecedesNames, FollowsNames, IsHere};

use crate::key::SearchKey;
use crate::named_row::NamedRow;
use std::cmp::Ordering;
use std::collections::VecDeque;

/// The row of a key among rows in the order of their keys, if there is one.
pub fn row_at<'a>(rows: &'a [NamedRow], key: &SearchKey<'_>) -> Option<&'a NamedRow>
    requires { is_sorted text_cmp rows.now ≡ true }
    ensures { option_map (λ row. row.now) result
        ≡ option_map (λ name. (key.now, name)) (find text_cmp key.now rows.now) }
{
    let mut low = 0;
    let mut high = rows.len();
    while low < high {
        let middle = low + (high - low) / 2;
        let row = &rows[middle];
        match key.compare(row.key()) {
            Ordering::Less => high = middle,
            Ordering::Equal => return Some(row),
            Ordering::Greater => low = middle + 1,
        }
    }
    None
}

/// The same, for a key whose row may be at this index.
pub fn row_near<'a>(rows: &'a [NamedRow], key: &SearchKey<'_>, place: usize) -> Option<&'a NamedRow>
    requires { is_sorted text_cmp rows.now ≡ true }
    ensures { option_map (λ row. row.now) result
        ≡ option_map (λ name. (key.now, name)) (find text_cmp key.now rows.now) }
{
    if place < rows.len() {
        let row = &rows[place];
        match key.compare(row.key()) {
            Ordering::Equal => return Some(row),
            Ordering::Less | Ordering::Greater => {}
        }
    }
    row_at(rows, key)
}

/// The number of rows with lesser keys, and whether the next row has the key itself. The search takes as many steps as
/// this number has binary digits, twice over.
pub fn place_of(rows: &VecDeque<NamedRow>, key: &SearchKey<'_>) -> (usize, bool)
    requires { is_sorted text_cmp rows.now.items ≡ true }
    ensures within { result.0 ≤ length rows.now.items }
    ensures lesser { FollowsNames rows.now.items key.now result.0 }
    ensures there { result.1 ≡ true → result.0 < length rows.now.items }
    ensures same { result.1 ≡ true → IsHere rows.now.items key.now result.0 }
    ensures greater { result.1 ≡ false → PrecedesNames rows.now.items key.now result.0 }
{
    let (low, high) = bounds(rows, key);
    place_between(rows, key, low, high)
}

// Two indexes: the keys before the first are lesser, and those from the second on are greater. The search looks at
// indexes that double.
fn bounds(rows: &VecDeque<NamedRow>, key: &SearchKey<'_>) -> (usize, usize)
    requires { is_sorted text_cmp rows.now.items ≡ true }
    ensures ordered { result.0 ≤ result.1 }
    ensures within { result.1 ≤ length rows.now.items }
    ensures lesser { FollowsNames rows.now.items key.now result.0 }
    ensures greater { PrecedesNames rows.now.items key.now result.1 }
{
    let mut low = 0;
    while low < rows.len() - low {
        let place = low + low;
        let row = &rows[place];
        match key.compare(row.key()) {
            Ordering::Less => return (low, place),
            Ordering::Equal => return (low, place + 1),
            Ordering::Greater => low = place + 1,
        }
    }
    (low, rows.len())
}

// As `place_of`, by bisection. The keys before `low` are lesser, and those from `high` on are greater.
fn place_between(
    rows: &VecDeque<NamedRow>,
    key: &SearchKey<'_>,
    low: usize,
    high: usize,
) -> (usize, bool)
    requires sorted { is_sorted text_cmp rows.now.items ≡ true }
    requires ordered { low ≤ high }
    requires bound { high ≤ length rows.now.items }
    requires below { FollowsNames rows.now.items key.now low }
    requires above { PrecedesNames rows.now.items key.now high }
    ensures within { result.0 ≤ length rows.now.items }
    ensures lesser { FollowsNames rows.now.items key.now result.0 }
    ensures there { result.1 ≡ true → result.0 < length rows.now.items }
    ensures same { result.1 ≡ true → IsHere rows.now.items key.now result.0 }
    ensures greater { result.1 ≡ false → PrecedesNames rows.now.items key.now result.0 }
{
    let mut low = low;
    let mut high = high;
    while low < high {
        let middle = low + (high - low) / 2;
        let row = &rows[middle];
        match key.compare(row.key()) {
            Ordering::Less => high = middle,
            Ordering::Equal => return (middle, true),
            Ordering::Greater => low = middle + 1,
        }
    }
    (low, false)
}
