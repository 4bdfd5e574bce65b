//! A view of the cells that were copied into it.
ghost use Rattle.std.specs.Prelude.{◌≡◌, ◌&&◌, IsTrue, List, ℕ, Some, None, OnErr, OnOk, if◌then◌else◌, string_bytes};
ghost use Rattle.std.specs.BTreeMap.{get_by_text};
ghost use Rattle.std.specs.Str.{bytes_eq};
ghost use Rattle.lei_records.specs.declared.view.CellKey.{CellKey};
ghost use Rattle.relation_rules.specs.Needs.{lacks};
ghost use Rattle.fetched_cells.specs.Filling.{IsCopied};
ghost use Rattle.fetched_cells.specs.Maps;
ghost use Rattle.fetched_cells.specs.Maps.{fetched_view, value_at_texts};

use lei_code::Lei;
use lei_records::{CellKey, RecCell, RelCell, Seen, View};
use lei_shapes::{ExceptionCategory, RelationType};
use lei_values::NoMemory;
use std::alloc::Global;
use std::collections::BTreeMap;

// The ids of one authority, each with the answer for its holder.
type Ids = BTreeMap<String, Seen<Lei>>;

// The ids of each authority.
type Holders = BTreeMap<String, Ids>;

/// A view that has the cells that were copied into it, and answers `Missing` for all others. The keys of its maps have
/// the texts of types and categories, because these have no order of their own.
#[derive(Drop)]
pub struct Fetched {
    alloc: Global,
    records: BTreeMap<Lei, Seen<RecCell>>,
    relations: BTreeMap<(Lei, &'static str, Lei), Seen<RelCell>>,
    ends: BTreeMap<(Lei, &'static str), Seen<Lei>>,
    exceptions: BTreeMap<(Lei, &'static str), Seen<()>>,
    holders: Holders,
}

impl View for Fetched {
    ghost cells = { fetched_view };

    fn record_cell(&self, lei: &Lei) -> Seen<RecCell> {
        match self.records.get(lei) {
            Some(found) => *found,
            None => Seen::Missing,
        }
    }

    fn holder(&self, authority: &str, id: &str) -> Seen<Lei> {
        match self.found_holder(authority, id) {
            Some(found) => found,
            None => Seen::Missing,
        }
    }

    fn relation(&self, start: &Lei, kind: RelationType, end: &Lei) -> Seen<RelCell> {
        match self.relations.get(&(*start, kind.text(), *end)) {
            Some(found) => *found,
            None => Seen::Missing,
        }
    }

    fn active(&self, start: &Lei, kind: RelationType) -> Seen<Lei> {
        match self.ends.get(&(*start, kind.text())) {
            Some(found) => *found,
            None => Seen::Missing,
        }
    }

    fn exception(&self, lei: &Lei, category: ExceptionCategory) -> Seen<()> {
        match self.exceptions.get(&(*lei, category.text())) {
            Some(found) => *found,
            None => Seen::Missing,
        }
    }
}

impl Fetched {
    /// A view that lacks all cells.
    pub fn new(alloc: Global) -> Self
        ensures { (key : CellKey) → IsTrue (lacks (fetched_view result) key) }
    {
        Fetched {
            alloc,
            records: BTreeMap::new(alloc),
            relations: BTreeMap::new(alloc),
            ends: BTreeMap::new(alloc),
            exceptions: BTreeMap::new(alloc),
            holders: BTreeMap::new(alloc),
        }
    }

    /// Copies the cell with this key from another view. If that view lacks the cell, this one lacks it too from then
    /// on.
    pub fn copy_cell<V: View>(&mut self, view: &V, key: &CellKey) -> Result<(), NoMemory>
        ensures copied { OnOk result
            (IsCopied (V.cells view.now) (fetched_view self.old) (fetched_view self.new) key.now) }
        ensures err { OnErr result (fetched_view self.new ≡ fetched_view self.old) }
    {
        match key {
            CellKey::Rec(lei) => self.put_record(lei, view.record_cell(lei)),
            CellKey::Rel(start, kind, end) => {
                self.put_relation(start, *kind, end, view.relation(start, *kind, end))
            }
            CellKey::Exc(lei, category) => {
                self.put_exception(lei, *category, view.exception(lei, *category))
            }
            CellKey::Key(authority, id) => {
                let found = view.holder(authority.as_str(), id.as_str());
                self.put_holder(authority.as_str(), id.as_str(), found)
            }
            CellKey::Act(start, kind) => self.put_end(start, *kind, view.active(start, *kind)),
        }
    }

    fn put_record(&mut self, lei: &Lei, found: Seen<RecCell>) -> Result<(), NoMemory>
        ensures put { OnOk result (fetched_view self.new
            ≡ Maps.with_record (fetched_view self.old) lei.now found) }
        ensures err { OnErr result (fetched_view self.new ≡ fetched_view self.old) }
    {
        match self.records.insert(*lei, found) {
            Ok(_) => Ok(()),
            Err(_) => Err(NoMemory),
        }
    }

    fn put_relation(
        &mut self,
        start: &Lei,
        kind: RelationType,
        end: &Lei,
        found: Seen<RelCell>,
    ) -> Result<(), NoMemory>
        ensures put { OnOk result
            (fetched_view self.new ≡ Maps.with_relation
            (fetched_view self.old) start.now kind end.now found) }
        ensures err { OnErr result (fetched_view self.new ≡ fetched_view self.old) }
    {
        match self.relations.insert((*start, kind.text(), *end), found) {
            Ok(_) => Ok(()),
            Err(_) => Err(NoMemory),
        }
    }

    fn put_end(&mut self, start: &Lei, kind: RelationType, found: Seen<Lei>) -> Result<(), NoMemory>
        ensures put { OnOk result
            (fetched_view self.new ≡ Maps.with_active_end (fetched_view self.old) start.now kind found) }
        ensures err { OnErr result (fetched_view self.new ≡ fetched_view self.old) }
    {
        match self.ends.insert((*start, kind.text()), found) {
            Ok(_) => Ok(()),
            Err(_) => Err(NoMemory),
        }
    }

    fn put_exception(
        &mut self,
        lei: &Lei,
        category: ExceptionCategory,
        found: Seen<()>,
    ) -> Result<(), NoMemory>
        ensures put { OnOk result
            (fetched_view self.new ≡ Maps.with_exception (fetched_view self.old) lei.now category found) }
        ensures err { OnErr result (fetched_view self.new ≡ fetched_view self.old) }
    {
        match self.exceptions.insert((*lei, category.text()), found) {
            Ok(_) => Ok(()),
            Err(_) => Err(NoMemory),
        }
    }

    fn put_holder(&mut self, authority: &str, id: &str, found: Seen<Lei>) -> Result<(), NoMemory>
        ensures put { OnOk result
            (fetched_view self.new ≡ Maps.with_holder (fetched_view self.old) authority.now id.now found) }
        ensures err { OnErr result (fetched_view self.new ≡ fetched_view self.old) }
    {
        insert_holder(self.alloc, &mut self.holders, authority, id, found)
    }

    fn found_holder(&self, authority: &str, id: &str) -> Option<Seen<Lei>>
        ensures { result ≡ value_at_texts self.now.holders authority.now id.now }
    {
        let ids = self.holders.get(authority)?;
        ids.get(id).copied()
    }
}

fn insert_holder(
    alloc: Global,
    holders: &mut Holders,
    authority: &str,
    id: &str,
    found: Seen<Lei>,
) -> Result<(), NoMemory>
    ensures put { OnOk result ((a i : List ℕ) → value_at_texts holders.new a i
        ≡ (if bytes_eq authority.now a && bytes_eq id.now i then Some found
        else value_at_texts holders.old a i)) }
    ensures err { OnErr result ((a i : List ℕ)
        → value_at_texts holders.new a i ≡ value_at_texts holders.old a i) }
{
    let id = String::from_str(alloc, id)?;
    match holders.get_mut(authority) {
        Some(ids) => insert_id(ids, id, found),
        None => insert_first(alloc, holders, authority, id, found),
    }
}

// Inserts an authority with its first id.
fn insert_first(
    alloc: Global,
    holders: &mut Holders,
    authority: &str,
    id: String,
    found: Seen<Lei>,
) -> Result<(), NoMemory>
    requires { get_by_text holders.old authority.now ≡ None }
    ensures put { OnOk result ((a i : List ℕ) → value_at_texts holders.new a i
        ≡ (if bytes_eq authority.now a && bytes_eq (string_bytes id) i then Some found
        else value_at_texts holders.old a i)) }
    ensures err { OnErr result ((a i : List ℕ)
        → value_at_texts holders.new a i ≡ value_at_texts holders.old a i) }
{
    let mut ids = BTreeMap::new(alloc);
    insert_id(&mut ids, id, found)?;
    let authority = String::from_str(alloc, authority)?;
    holders.insert(authority, ids)?;
    Ok(())
}

fn insert_id(ids: &mut Ids, id: String, found: Seen<Lei>) -> Result<(), NoMemory>
    ensures put { OnOk result ((i : List ℕ) → get_by_text ids.new i
        ≡ (if bytes_eq (string_bytes id) i then Some found else get_by_text ids.old i)) }
    ensures err { OnErr result ((i : List ℕ) → get_by_text ids.new i ≡ get_by_text ids.old i) }
{
    ids.insert(id, found)?;
    Ok(())
}
