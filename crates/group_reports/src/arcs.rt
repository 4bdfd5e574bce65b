//! Rows of a golden copy of `rr` as arcs between places.
ghost use Rattle.std.specs.Prelude.{◌≡◌, ◌<◌, true, length, map, IfOk};
ghost use Rattle.std.specs.List.{All};
ghost use Rattle.std.specs.Set.{is_member};
ghost use Rattle.std.specs.Str.{bytes_eq};
ghost use Rattle.lei_records.specs.Rows.{text_at};
ghost use Rattle.copy_csv.specs.Rows.{IsRowOfSheet};
ghost use Rattle.register_words.specs.declared.sheets.Sheet.{Sheet as DeclaredSheet};
ghost use Rattle.group_reports.specs.Arcs as spec_arcs;
ghost use Rattle.group_reports.specs.Links as spec;
ghost use Rattle.group_reports.specs.Places.{LeadsWithin, at, leis_of};

use crate::kinds::{LinkKind, kind_of};
use crate::places::Places;
use copy_csv::{Row, Sheet};
use lei_values::NoMemory;
use std::alloc::Global;

/// A row: the place of its start, what it says of it, and the place of its end.
#[derive(Clone, Copy, Debug, Drop)]
pub struct Arc {
    pub start: usize,
    pub kind: LinkKind,
    pub end: usize,
}

/// The arcs of rows of `rr`. The places are those of the LEIs in them.
pub fn arcs_of(alloc: Global, places: &Places, rows: &[Row]) -> Result<Vec<Arc>, NoMemory>
    requires rows { All (IsRowOfSheet DeclaredSheet.Rr) rows.now }
    requires places { places.now ≡ leis_of (map spec.link_of rows.now) }
    ensures links { IfOk result (λ made. map (spec_arcs.link_at places.now) made.items
        ≡ map spec.link_of rows.now) }
    ensures within { IfOk result (λ made. All (spec_arcs.HasPlacesBelow (length places.now)) made.items) }
{
    let mut made = Vec::with_capacity(alloc, rows.len())?;
    for row in rows {
        made.push(arc_of(places, row))?;
    }
    Ok(made)
}

// The arc for a row.
fn arc_of(places: &Places, row: &Row) -> Arc
    requires row { row.now.sheet ≡ DeclaredSheet.Rr }
    requires start { is_member bytes_eq places.now (text_at row.now.texts 1) ≡ true }
    requires end { is_member bytes_eq places.now (text_at row.now.texts 3) ≡ true }
    ensures link { spec_arcs.link_at places.now result ≡ spec.link_of row.now }
    ensures within { spec_arcs.HasPlacesBelow (length places.now) result }
{
    let is_relation = row.sheet() == Sheet::Rr;
    prove!(is_relation);
    Arc {
        start: place_of(places, row.text(1)),
        kind: kind_of(row.text(2), row.text(4)),
        end: place_of(places, row.text(3)),
    }
}

// The place of an LEI that is known to be there.
fn place_of(places: &Places, lei: &str) -> usize
    requires { is_member bytes_eq places.now lei.now ≡ true }
    ensures within { result < length places.now }
    ensures lei { at places.now result ≡ lei.now }
{
    match places.find(lei) {
        Some(place) => place,
        None => unreachable!(),
    }
}

/// For each place below a count, the end of the first arc of a kind that starts there.
pub fn first_ends(
    alloc: Global,
    count: usize,
    arcs: &[Arc],
    kind: LinkKind,
) -> Result<Vec<Option<usize>>, NoMemory>
    requires { All (spec_arcs.HasPlacesBelow count) arcs.now }
    ensures ends { IfOk result (λ ends. spec_arcs.AreFirstEnds count arcs.now kind ends.items) }
    ensures within { IfOk result (λ ends. LeadsWithin ends.items) }
{
    let mut ends = vec![in alloc; None; count]?;
    for arc in arcs {
        if !is_of(kind, arc.kind) || ends[arc.start].is_some() {
            continue;
        }
        ends[arc.start] = Some(arc.end);
    }
    Ok(ends)
}

// Whether a kind is the wanted one, for a direct or an ultimate parent.
fn is_of(wanted: LinkKind, kind: LinkKind) -> bool
    ensures { result ≡ spec_arcs.is_wanted_kind wanted kind }
{
    matches!(
        (wanted, kind),
        (LinkKind::Direct, LinkKind::Direct) | (LinkKind::Ultimate, LinkKind::Ultimate)
    )
}
