//! The index of the active relationships by start and type.
ghost use Rattle.std.specs.Prelude.{◌≡◌, ◌&&◌, List, ℕ, true, Some, None, if◌then◌else◌, OnOk, OnErr, is_some};
ghost use Rattle.std.specs.Str.{bytes_eq};
ghost use Rattle.lei_shapes.specs.declared.lists.RelationType.{RelationType};
ghost use Rattle.lei_records.specs.Relations;
ghost use Rattle.lei_records.specs.Relations.{end_in, is_same_type};
ghost use Rattle.register_table.specs.Indexes.{HasNewEnd, after_dropping, after_freeing, end_in_index, noted_end};

use lei_code::Lei;
use lei_records::Relation;
use lei_shapes::RelationType;
use lei_values::NoMemory;
use std::alloc::Global;
use std::collections::BTreeMap;

/// For each start and type, the end of the relationship that was last put as an active one. It may no longer be active.
/// A start and a type that are freed stay without an end until they are dropped. Types have no order of their own, so
/// their texts are used.
#[derive(Drop)]
pub struct Ends {
    pub map: BTreeMap<(Lei, &'static str), Option<Lei>>,
}

impl Ends {
    /// An index without ends.
    pub fn new(alloc: Global) -> Self
        ensures { (start : List ℕ) (kind : RelationType) → noted_end result start kind ≡ None }
    {
        Ends {
            map: BTreeMap::new(alloc),
        }
    }

    /// The end that was last noted under a start and a type, unless they were freed.
    pub fn get(&self, start: &Lei, kind: RelationType) -> Option<Lei>
        ensures { result ≡ end_in_index self.now start.now kind }
    {
        *self.map.get(&(*start, kind.text()))?
    }

    /// Notes the end of a relationship, if it is active. If the index has its start and type already, nothing is
    /// allocated.
    pub fn put(&mut self, relation: &Relation) -> Result<(), NoMemory>
        ensures put { OnOk result ((start : List ℕ) (kind : RelationType) → end_in_index self.new start kind
            ≡ (if Relations.is_active_of start kind relation.now then Some (end_in relation.now)
            else end_in_index self.old start kind)) }
        ensures err { OnErr result ((start : List ℕ) (kind : RelationType) → end_in_index self.new start kind
            ≡ end_in_index self.old start kind) }
        ensures stays { (start : List ℕ) (kind : RelationType)
            → is_some (noted_end self.old start kind) ≡ true
            → is_some (noted_end self.new start kind) ≡ true }
        ensures absent { OnErr result (HasNewEnd relation.now self.old) }
    {
        if !relation.is_active() {
            return Ok(());
        }
        match self.map.insert(
            (relation.start(), relation.kind().text()),
            Some(relation.end()),
        ) {
            Ok(_) => Ok(()),
            Err(_) => Err(NoMemory),
        }
    }

    /// Frees a start and a type: no end is left under them.
    pub fn free(&mut self, start: &Lei, kind: RelationType)
        ensures { (s : List ℕ) (k : RelationType) → noted_end self.new s k
            ≡ (if bytes_eq start.now s && is_same_type kind k then after_freeing (noted_end self.old s k)
            else noted_end self.old s k) }
    {
        if let Some(noted) = self.map.get_mut(&(*start, kind.text())) {
            *noted = None;
        }
    }

    /// Drops a start and a type that have no end.
    pub fn drop_freed(&mut self, start: &Lei, kind: RelationType)
        ensures { (s : List ℕ) (k : RelationType) → noted_end self.new s k
            ≡ (if bytes_eq start.now s && is_same_type kind k then after_dropping (noted_end self.old s k)
            else noted_end self.old s k) }
    {
        if self.get(start, kind).is_none() {
            self.map.remove(&(*start, kind.text()));
        }
    }
}
