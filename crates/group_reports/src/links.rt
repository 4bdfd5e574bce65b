//! Rows of a golden copy of `rr` as links between entities.
ghost use Rattle.std.specs.Prelude.{◌≡◌, ◌<◌, length, map, option_map, IfOk};
ghost use Rattle.std.specs.List.{All};
ghost use Rattle.copy_csv.specs.Rows.{IsRowOfSheet};
ghost use Rattle.register_words.specs.declared.sheets.Sheet.{Sheet as DeclaredSheet};
ghost use Rattle.group_reports.specs.Groups as groups;
ghost use Rattle.group_reports.specs.Links as spec;
ghost use Rattle.group_reports.specs.Places.{AreBelow, FindsEach, IsBelow, IsLeiPlace, are_same, at, at_some, leis_of, places_in_order};

use crate::arcs::{Arc, arcs_of, first_ends};
use crate::kinds::LinkKind;
use crate::places::Places;
use crate::tops::tops_of;
use crate::tree::{Tree, add_place, list_of};
use copy_csv::Row;
use lei_values::{List, NoMemory};
use std::alloc::Global;
use std::collections::BTreeSet;
use std::marker::Model;
use std::snapshot::Snapshot;

/// What reports need of links. Each LEI is identified by its place. Contracts see the list of the links, in the order
/// of the keys of their rows, and the list of the LEIs.
#[derive(Drop)]
pub struct Links {
    // The rows that they were read from. It takes no bytes.
    rows: Snapshot<List<Row>>,
    count: usize,
    places: Places,
    // The places that links start at.
    starts: Vec<usize>,
    tree: Tree,
    // The reported ultimate parents, and the computed ones.
    ultimates: Vec<Option<usize>>,
    tops: Vec<Option<usize>>,
}

impl Model for Links {
    ghost use Rattle.std.specs.Prelude.{map};
    ghost use Rattle.group_reports.specs.Links.{link_of};
    ghost use Rattle.group_reports.specs.Indexed.{LinkTable, LinksAreIndexed};

    ghost Value = { LinkTable };

    ghost view = { λ links. record { links = map link_of links.rows.value; leis = links.places } };

    ghost invariant = { λ links. LinksAreIndexed
        (map link_of links.rows.value) links.count links.places links.starts.items
        links.tree links.ultimates.items links.tops.items };
}

impl Links {
    /// The links of rows of `rr`.
    pub fn of(alloc: Global, rows: &List<Row>) -> Result<Self, NoMemory>
        requires { All (IsRowOfSheet DeclaredSheet.Rr) rows.now }
        ensures { IfOk result (λ links. links.links ≡ map spec.link_of rows.now) }
    {
        let count = rows.len();
        let places = Places::of(alloc, rows.as_slice())?;
        let arcs = arcs_of(alloc, &places, rows.as_slice())?;
        let starts = starts_of(alloc, arcs.as_slice())?;
        let parents = first_ends(alloc, places.len(), arcs.as_slice(), LinkKind::Direct)?;
        let ultimates = first_ends(alloc, places.len(), arcs.as_slice(), LinkKind::Ultimate)?;
        let tops = tops_of(alloc, parents.as_slice(), count)?;
        let tree = Tree::of(alloc, parents)?;
        Ok(Links {
            rows: Snapshot::of(rows),
            count,
            places,
            starts,
            tree,
            ultimates,
            tops,
        })
    }

    /// The number of links.
    pub fn len(&self) -> usize
        ensures { result ≡ length self.now.links }
    {
        self.count
    }

    /// The place of an LEI, if a link starts or ends there.
    pub fn find(&self, lei: &str) -> Option<usize>
        ensures place { IsLeiPlace self.now.leis lei.now result }
        ensures leis { self.now.leis ≡ leis_of self.now.links }
    {
        self.places.find(lei)
    }

    /// The LEI at a place.
    pub fn lei(&self, place: usize) -> &str
        requires { place < length self.now.leis }
        ensures lei { result.now ≡ at self.now.leis place }
        ensures leis { self.now.leis ≡ leis_of self.now.links }
    {
        self.places.lei(place)
    }

    /// The places that links start at, in order.
    pub fn starts(&self) -> &[usize]
        ensures leis { map (at self.now.leis) result.now ≡ groups.starts self.now.links }
        ensures below { AreBelow (length self.now.leis) result.now }
    {
        self.starts.as_slice()
    }

    /// The direct parents.
    pub fn tree(&self) -> &Tree
        ensures parents { FindsEach self.now.leis result.now (spec.direct self.now.links) }
        ensures leis { self.now.leis ≡ leis_of self.now.links }
    {
        &self.tree
    }

    /// The direct parent of an entity, if it has one.
    pub fn direct(&self, place: usize) -> Option<&str>
        requires { place < length self.now.leis }
        ensures { option_map (λ end. end.now) result ≡ spec.direct self.now.links (at self.now.leis place) }
    {
        self.lei_of(self.tree.parents()[place])
    }

    /// The reported ultimate parent of an entity, if one is reported.
    pub fn reported(&self, place: usize) -> Option<&str>
        requires { place < length self.now.leis }
        ensures { option_map (λ end. end.now) result ≡ spec.reported self.now.links (at self.now.leis place) }
    {
        self.lei_of(self.ultimates[place])
    }

    /// The computed ultimate parent of an entity, if there is one.
    pub fn top(&self, place: usize) -> Option<&str>
        requires { place < length self.now.leis }
        ensures { option_map (λ end. end.now) result ≡ groups.top self.now.links (at self.now.leis place) }
    {
        self.lei_of(self.tops[place])
    }

    /// Whether the reported ultimate parent of an entity isn't the computed one.
    pub fn disagrees(&self, place: usize) -> bool
        requires { place < length self.now.leis }
        ensures { result ≡ groups.disagrees self.now.links (at self.now.leis place) }
    {
        !is_same(self.ultimates[place], self.tops[place])
    }

    // The LEI at a place that may be missing.
    fn lei_of(&self, place: Option<usize>) -> Option<&str>
        requires { IsBelow (length self.now.leis) place }
        ensures { option_map (λ lei. lei.now) result ≡ at_some self.now.leis place }
    {
        match place {
            Some(place) => Some(self.places.lei(place)),
            None => None,
        }
    }
}

// Whether both are missing, or both are there and equal.
fn is_same(one: Option<usize>, other: Option<usize>) -> bool
    ensures { result ≡ are_same one other }
{
    match (one, other) {
        (None, None) => true,
        (Some(one), Some(other)) => one == other,
        _ => false,
    }
}

// The places that arcs start at, each once and in order.
fn starts_of(alloc: Global, arcs: &[Arc]) -> Result<Vec<usize>, NoMemory>
    ensures { IfOk result (λ starts. starts.items ≡ places_in_order (map (λ arc. arc.start) arcs.now)) }
{
    let mut starts = BTreeSet::new(alloc);
    for arc in arcs {
        add_place(&mut starts, arc.start)?;
    }
    list_of(alloc, starts)
}
