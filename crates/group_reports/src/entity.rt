//! Entities, as copies name them.
ghost use Rattle.std.specs.Prelude.{◌≡◌, ◌==◌, IfOk, OnOk, Some};
ghost use Rattle.std.proofs.Common.{rules};
ghost use Rattle.std.proofs.lemmas.Cmp.{nat_list_cmp_total};
ghost use Rattle.std.specs.BTreeSet.{insert_key};
ghost use Rattle.std.specs.Cmp.Lexicographic.{pointwise, slice_cmp};
ghost use Rattle.std.specs.Cmp.Rules.{comparing};
ghost use Rattle.std.specs.Ordering.{nat_cmp};

use lei_values::{NoMemory, Text};
use std::alloc::Global;
use std::cmp::Ordering;
use std::collections::BTreeSet;
use std::marker::Model;

/// The LEI of an entity, which may be any text in a copy. Contracts see its bytes, and entities compare by them.
#[derive(Debug, Drop)]
pub struct Entity {
    lei: Text,
}

impl Model for Entity {
    ghost use Rattle.std.specs.Prelude.{ℕ, List};

    ghost Value = { List ℕ };

    ghost view = { λ entity. entity.lei };
}

impl Entity {
    /// An entity in its own memory.
    pub fn copy_of(alloc: Global, lei: &str) -> Result<Self, NoMemory>
        ensures { IfOk result (λ entity. entity ≡ lei.now) }
    {
        Ok(Entity {
            lei: Text::copy_of(alloc, lei)?,
        })
    }

    /// Its LEI, borrowed.
    pub fn as_str(&self) -> &str
        ensures { result.now ≡ self.now }
    {
        self.lei.as_str()
    }
}

impl PartialEq for Entity {
    ghost eq = { pointwise ◌==◌ };

    ghost laws = { Prim.search (comparing, rules) };

    fn eq(&self, other: &Self) -> bool {
        self.as_str() == other.as_str()
    }
}

impl Eq for Entity {
    ghost laws = { Prim.search (comparing, rules) };
}

impl PartialOrd for Entity {
    ghost partial_cmp = { λ x y. Some (slice_cmp nat_cmp x y) };

    ghost laws = { Prim.search (comparing, rules) };

    fn partial_cmp(&self, other: &Self) -> Option<Ordering> {
        Some(self.cmp(other))
    }
}

impl Ord for Entity {
    ghost cmp = { slice_cmp nat_cmp };

    ghost total = { nat_list_cmp_total };

    ghost matches_partial_cmp = { Prim.search (comparing, rules) };

    ghost matches_eq = { Prim.search (comparing, rules) };

    fn cmp(&self, other: &Self) -> Ordering {
        self.as_str().cmp(other.as_str())
    }
}

/// Adds an entity to others that are in byte order, unless it is already there.
pub fn add(alloc: Global, entities: &mut BTreeSet<Entity>, lei: &str) -> Result<(), NoMemory>
    ensures { OnOk result (entities.new.keys ≡ insert_key (slice_cmp nat_cmp) entities.old.keys lei.now) }
{
    let entity = Entity::copy_of(alloc, lei)?;
    match entities.insert(entity) {
        Ok(_) => Ok(()),
        Err(_) => Err(NoMemory),
    }
}
