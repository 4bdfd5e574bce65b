//! A fetched view while cells are copied into it.
ghost use Rattle.std.specs.Prelude.{[], ◌∷◌, map, OnOk};
ghost use Rattle.lei_records.specs.declared.view.CellKey.{CellKey};
ghost use Rattle.cell_reads.specs.Needs.{parent_walk};
ghost use Rattle.fetched_cells.specs.Fetching.{fetched_keys, keys_along, nearest_records};
ghost use Rattle.fetched_cells.specs.Filling.{AddsCells, member_keys};

use crate::fetched::Fetched;
use crate::nearest::nearest;
use lei_code::Lei;
use lei_records::{CellKey, Seen, View};
use lei_values::NoMemory;
use relation_rules::ParentChain;
use std::alloc::Global;
use successor_rules::{Chain, SuccessorBranches};

// The most members of a walk that are visited.
const MOST_MEMBERS: u8 = 200;

/// A view, and how many more cells there is room for. A cell that is copied twice takes up room twice.
#[derive(Drop)]
pub struct Filling {
    pub alloc: Global,
    pub fetched: Fetched,
    pub left: u32,
}

impl Filling {
    /// Copies the cells with the keys, each followed by the cells that are fetched along with it, as long as there is
    /// room.
    pub fn add_all<V: View>(&mut self, view: &V, keys: &[CellKey]) -> Result<(), NoMemory>
        ensures { OnOk result (AddsCells (V.cells view.now) self.old self.new
            (fetched_keys (V.cells view.now) keys.now)) }
    {
        for key in keys {
            if self.left == 0 {
                return Ok(());
            }
            self.add_named(view, key)?;
        }
        Ok(())
    }

    fn add_named<V: View>(&mut self, view: &V, key: &CellKey) -> Result<(), NoMemory>
        ensures { OnOk result (AddsCells (V.cells view.now) self.old self.new
            (key.now ∷ keys_along (V.cells view.now) key.now)) }
    {
        self.add(view, key)?;
        match key {
            CellKey::Rec(lei) => self.add_walks(view, lei),
            _ => Ok(()),
        }
    }

    // Copies the cells that are fetched along with the record of an LEI.
    fn add_walks<V: View>(&mut self, view: &V, lei: &Lei) -> Result<(), NoMemory>
        ensures { OnOk result (AddsCells (V.cells view.now) self.old self.new
            (keys_along (V.cells view.now) (CellKey.Rec lei.now))) }
    {
        self.add_successors(view, lei)?;
        self.add_parents(view, lei)
    }

    // Copies the records of the LEIs that are nearest by levels.
    fn add_successors<V: View>(&mut self, view: &V, lei: &Lei) -> Result<(), NoMemory>
        ensures { OnOk result (AddsCells (V.cells view.now) self.old self.new
            (nearest_records (V.cells view.now) lei.now)) }
    {
        if self.left == 0 {
            return Ok(());
        }
        let met = nearest(self.alloc, &SuccessorBranches { view }, lei)?;
        self.add_records(view, &met.as_slice()[1..])
    }

    fn add_records<V: View>(&mut self, view: &V, leis: &[Lei]) -> Result<(), NoMemory>
        ensures { OnOk result (AddsCells (V.cells view.now) self.old self.new (map CellKey.Rec leis.now)) }
    {
        for lei in leis {
            if self.left == 0 {
                return Ok(());
            }
            self.add(view, &CellKey::Rec(*lei))?;
        }
        Ok(())
    }

    fn add_parents<V: View>(&mut self, view: &V, lei: &Lei) -> Result<(), NoMemory>
        ensures { OnOk result (AddsCells (V.cells view.now) self.old self.new
            (parent_walk (V.cells view.now) lei.now)) }
    {
        self.add_walk(view, &ParentChain { view }, lei)
    }

    // Copies the cells of the first 200 members of a walk.
    fn add_walk<V: View, C: Chain>(
        &mut self,
        view: &V,
        chain: &C,
        first: &Lei,
    ) -> Result<(), NoMemory>
        ensures { OnOk result (AddsCells (V.cells view.now) self.old self.new
            (member_keys 200 (C.cell chain.now) (C.answers chain.now) first.now)) }
    {
        let mut member = *first;
        for _ in 0..MOST_MEMBERS {
            self.add(view, &chain.key(member))?;
            if self.left == 0 {
                return Ok(());
            }
            match chain.next(&member) {
                Seen::Held(next) => member = next,
                Seen::Empty => return Ok(()),
                Seen::Missing => return Ok(()),
            }
        }
        Ok(())
    }

    // Copies one cell, if there is room.
    fn add<V: View>(&mut self, view: &V, key: &CellKey) -> Result<(), NoMemory>
        ensures { OnOk result (AddsCells (V.cells view.now) self.old self.new (key.now ∷ [])) }
    {
        if self.left == 0 {
            return Ok(());
        }
        self.fetched.copy_cell(view, key)?;
        self.left -= 1;
        Ok(())
    }
}
