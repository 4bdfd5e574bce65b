//! Places of LEIs.
ghost use Rattle.std.specs.Prelude.{◌≡◌, ◌<◌, length, map, IfOk, OnOk, fold};
ghost use Rattle.std.specs.BTreeSet.{insert_key};
ghost use Rattle.std.specs.Cmp.Lexicographic.{slice_cmp};
ghost use Rattle.std.specs.Ordering.{nat_cmp};
ghost use Rattle.std.specs.List.{All};
ghost use Rattle.register_words.specs.declared.sheets.Sheet.{Sheet as DeclaredSheet};
ghost use Rattle.copy_csv.specs.Rows.{IsRowOfSheet};
ghost use Rattle.group_reports.specs.Links as spec;
ghost use Rattle.group_reports.specs.Places.{AreSortedLeis, IsLeiPlace, at, ends_of, leis_of};

use crate::entity::{Entity, add};
use crate::finding::find;
use copy_csv::{Row, Sheet, Texts};
use lei_values::NoMemory;
use std::alloc::Global;
use std::collections::BTreeSet;
use std::marker::Model;

/// LEIs in one piece of memory, each once and in byte order. Each is identified by its place, counted from 0. Contracts
/// see the list of them.
#[derive(Drop)]
pub struct Places {
    leis: Texts,
}

impl Model for Places {
    ghost use Rattle.std.specs.Prelude.{List};
    ghost use Rattle.lei_code.specs.Texts.{Lei};
    ghost use Rattle.group_reports.specs.Places.{AreSortedLeis};

    ghost Value = { List Lei };

    ghost view = { λ places. places.leis };

    ghost invariant = { λ places. AreSortedLeis places.leis };
}

impl Places {
    /// The LEIs that rows of `rr` start or end at.
    pub fn of(alloc: Global, rows: &[Row]) -> Result<Self, NoMemory>
        requires { All (IsRowOfSheet DeclaredSheet.Rr) rows.now }
        ensures { IfOk result (λ places. places ≡ leis_of (map spec.link_of rows.now)) }
    {
        let mut entities = BTreeSet::new(alloc);
        for row in rows {
            add_ends(alloc, &mut entities, row)?;
        }
        Ok(Places {
            leis: texts_of(alloc, entities)?,
        })
    }

    /// The number of LEIs.
    pub fn len(&self) -> usize
        ensures { result ≡ length self.now }
    {
        self.leis.len()
    }

    /// The LEI at a place.
    pub fn lei(&self, place: usize) -> &str
        requires { place < length self.now }
        ensures { result.now ≡ at self.now place }
    {
        let is_there = place < self.leis.len();
        prove!(is_there);
        self.leis.text(place + 1)
    }

    /// The place of an LEI, if it is there.
    pub fn find(&self, lei: &str) -> Option<usize>
        ensures { IsLeiPlace self.now lei.now result }
    {
        find(&self.leis, lei)
    }
}

// Adds the two LEIs of a row to others.
fn add_ends(alloc: Global, entities: &mut BTreeSet<Entity>, row: &Row) -> Result<(), NoMemory>
    requires { row.now.sheet ≡ DeclaredSheet.Rr }
    ensures { OnOk result (entities.new.keys
        ≡ fold (insert_key (slice_cmp nat_cmp)) entities.old.keys (ends_of (spec.link_of row.now))) }
{
    let is_relation = row.sheet() == Sheet::Rr;
    prove!(is_relation);
    add(alloc, entities, row.text(1))?;
    add(alloc, entities, row.text(3))?;
    Ok(())
}

// The LEIs of entities, in one piece of memory.
fn texts_of(alloc: Global, entities: BTreeSet<Entity>) -> Result<Texts, NoMemory>
    ensures texts { IfOk result (λ texts. texts ≡ entities.keys) }
    ensures order { IfOk result (λ texts. AreSortedLeis texts) }
{
    let mut texts = Texts::new(alloc);
    for entity in entities {
        texts.push(entity.as_str())?;
    }
    Ok(texts)
}
