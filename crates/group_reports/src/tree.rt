//! Direct parents by places, with an index of children.
ghost use Rattle.std.specs.Prelude.{◌≡◌, ◌<◌, ◌==◌, ◌&&◌, ◌||◌, ℕ, not, length, IfOk, OnOk};
ghost use Rattle.std.specs.BTreeSet.{insert_key};
ghost use Rattle.std.specs.List.Sorted.{IsStrictlySortedBy};
ghost use Rattle.std.specs.Ordering.{nat_cmp};
ghost use Rattle.group_reports.specs.Places.{AreBelow, LeadsWithin, has_place, has_some, is_child, step_up};

use lei_values::NoMemory;
use std::alloc::Global;
use std::collections::BTreeSet;
use std::marker::Model;

/// The direct parent of each place, if it has one, and the children of each. Contracts see the list of the parents.
#[derive(Drop)]
pub struct Tree {
    alloc: Global,
    parents: Vec<Option<usize>>,
    // The first child of each place.
    firsts: Vec<Option<usize>>,
    // For each child, the next child of the same parent.
    nexts: Vec<Option<usize>>,
}

impl Model for Tree {
    ghost use Rattle.std.specs.Prelude.{ℕ, List, Option};
    ghost use Rattle.group_reports.specs.Places.{FindsChildren, LeadsWithin};

    ghost Value = { List (Option ℕ) };

    ghost view = { λ tree. tree.parents.items };

    ghost invariant = { λ tree. LeadsWithin tree.parents.items
        × FindsChildren tree.parents.items tree.firsts.items tree.nexts.items };
}

impl Tree {
    /// The tree of these parents, each of which is a place below their number.
    pub fn of(alloc: Global, parents: Vec<Option<usize>>) -> Result<Self, NoMemory>
        requires { LeadsWithin parents.items }
        ensures { IfOk result (λ tree. tree ≡ parents.items) }
    {
        let count = parents.len();
        let mut firsts = vec![in alloc; None; count]?;
        let mut nexts = vec![in alloc; None; count]?;
        for child in (0..count).rev() {
            if let Some(parent) = parents[child] {
                nexts[child] = firsts[parent];
                firsts[parent] = Some(child);
            }
        }
        Ok(Tree {
            alloc,
            parents,
            firsts,
            nexts,
        })
    }

    /// The direct parents of all places.
    pub fn parents(&self) -> &[Option<usize>]
        ensures { result.now ≡ self.now }
    {
        self.parents.as_slice()
    }

    /// The children of some places, each once and in order, without the root.
    pub fn children(&self, places: &[usize], root: usize) -> Result<Vec<usize>, NoMemory>
        requires { AreBelow (length self.now) places.now }
        ensures has { IfOk result (λ children. (place : ℕ) → has_place children.items place
            ≡ (not (place == root) && has_some places.now (step_up self.now place))) }
        ensures below { IfOk result (λ children. AreBelow (length self.now) children.items) }
        ensures order { IfOk result (λ children. IsStrictlySortedBy nat_cmp children.items) }
    {
        let mut children = BTreeSet::new(self.alloc);
        for parent in places {
            self.add_children(&mut children, *parent, root)?;
        }
        list_of(self.alloc, children)
    }

    // Adds the children of a place, without the root.
    fn add_children(
        &self,
        children: &mut BTreeSet<usize>,
        parent: usize,
        root: usize,
    ) -> Result<(), NoMemory>
        requires parent { parent < length self.now }
        requires below { AreBelow (length self.now) children.old.keys }
        ensures has { OnOk result ((place : ℕ) → has_place children.new.keys place
            ≡ (has_place children.old.keys place || not (place == root) && is_child self.now parent place)) }
        ensures below { OnOk result (AreBelow (length self.now) children.new.keys) }
    {
        let mut left = self.firsts[parent];
        while let Some(child) = left {
            add_other(children, child, root)?;
            left = self.nexts[child];
        }
        Ok(())
    }
}

// Adds a place to others that are in order, unless it is the root or already there.
fn add_other(places: &mut BTreeSet<usize>, place: usize, root: usize) -> Result<(), NoMemory>
    ensures has { OnOk result ((other : ℕ) → has_place places.new.keys other
        ≡ (has_place places.old.keys other || (other == place && not (place == root)))) }
    ensures below { OnOk result ((count : ℕ) → place < count → AreBelow count places.old.keys
        → AreBelow count places.new.keys) }
{
    if place == root {
        return Ok(());
    }
    add_place(places, place)?;
    Ok(())
}

/// Adds a place to others that are in order, unless it is already there.
pub fn add_place(places: &mut BTreeSet<usize>, place: usize) -> Result<(), NoMemory>
    ensures { OnOk result (places.new.keys ≡ insert_key nat_cmp places.old.keys place) }
{
    match places.insert(place) {
        Ok(_) => Ok(()),
        Err(_) => Err(NoMemory),
    }
}

/// Places in order as a vector.
pub fn list_of(alloc: Global, places: BTreeSet<usize>) -> Result<Vec<usize>, NoMemory>
    ensures places { IfOk result (λ made. made.items ≡ places.keys) }
    ensures order { IfOk result (λ made. IsStrictlySortedBy nat_cmp made.items) }
{
    let mut made = Vec::new(alloc);
    for place in places {
        made.push(place)?;
    }
    Ok(made)
}
