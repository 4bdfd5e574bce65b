//! The index of the records whose authority keys have a text of more than 15 bytes.
ghost use Rattle.std.specs.Prelude.{◌≡◌, ◌&&◌, ◌↔◌, IsTrue, List, ℕ, Some, None, if◌then◌else◌, OnOk, OnErr, option_and_then, string_bytes};
ghost use Rattle.std.specs.BTreeMap.{get_by_text};
ghost use Rattle.std.specs.Bool.{OnTrue};
ghost use Rattle.std.specs.Str.{bytes_eq};
ghost use Rattle.register_table.specs.Indexes.{IsBare, after_dropping, after_freeing, noted_long};

use lei_code::Lei;
use lei_values::NoMemory;
use std::alloc::Global;
use std::collections::BTreeMap;

// The LEI of a record by the id under one authority, or none if nobody has the key any more.
type Ids = BTreeMap<String, Option<Lei>>;

/// For each of these keys, the LEI of the record that took it last. A key that is freed stays without an LEI until it
/// is dropped.
#[derive(Drop)]
pub struct LongKeyIndex {
    pub alloc: Global,
    pub map: BTreeMap<String, Ids>,
}

impl LongKeyIndex {
    /// An index without keys.
    pub fn new(alloc: Global) -> Self
        ensures { (authority id : List ℕ) → noted_long result authority id ≡ None }
    {
        LongKeyIndex {
            alloc,
            map: BTreeMap::new(alloc),
        }
    }

    /// The LEI that was last noted under a key, unless the key was freed.
    pub fn get(&self, authority: &str, id: &str) -> Option<Lei>
        ensures { result ≡ option_and_then (λ noted. noted) (noted_long self.now authority.now id.now) }
    {
        let ids = self.map.get(authority)?;
        *ids.get(id)?
    }

    /// Notes an LEI under a key. If the index has the key already, nothing is allocated.
    pub fn note(&mut self, authority: &str, id: &str, lei: Lei) -> Result<(), NoMemory>
        ensures put { OnOk result ((a i : List ℕ) → noted_long self.new a i
            ≡ (if bytes_eq authority.now a && bytes_eq id.now i then Some (Some lei) else noted_long
            self.old a i)) }
        ensures err { OnErr result ((a i : List ℕ) → noted_long self.new a i ≡ noted_long self.old a i) }
        ensures absent { OnErr result (noted_long self.old authority.now id.now ≡ None) }
    {
        match self.map.get_mut(authority) {
            Some(ids) => note_id(self.alloc, ids, id, lei),
            None => self.note_first(authority, id, lei),
        }
    }

    /// Frees a key: no LEI is left under it.
    pub fn free(&mut self, authority: &str, id: &str)
        ensures { (a i : List ℕ) → noted_long self.new a i
            ≡ (if bytes_eq authority.now a && bytes_eq id.now i then after_freeing (noted_long self.old a i)
            else noted_long self.old a i) }
    {
        if let Some(ids) = self.map.get_mut(authority) {
            free_id(ids, id);
        }
    }

    /// Drops a key that has no LEI.
    pub fn drop_freed(&mut self, authority: &str, id: &str)
        ensures { (a i : List ℕ) → noted_long self.new a i
            ≡ (if bytes_eq authority.now a && bytes_eq id.now i then after_dropping
            (noted_long self.old a i)
            else noted_long self.old a i) }
    {
        if self.get(authority, id).is_none() {
            self.remove(authority, id);
        }
    }

    // Removes an id, and its authority if this was the last id.
    fn remove(&mut self, authority: &str, id: &str)
        ensures { (a i : List ℕ) → noted_long self.new a i
            ≡ (if bytes_eq authority.now a && bytes_eq id.now i then None else noted_long self.old a i) }
    {
        if self.remove_id(authority, id) {
            self.map.remove(authority);
        }
    }

    // Removes an id. The result is whether the authority is left without ids.
    fn remove_id(&mut self, authority: &str, id: &str) -> bool
        ensures removed { (a i : List ℕ) → noted_long self.new a i
            ≡ (if bytes_eq authority.now a && bytes_eq id.now i then None else noted_long self.old a i) }
        ensures last { OnTrue result ((i : List ℕ) → noted_long self.new authority.now i ≡ None) }
        ensures bare { IsTrue result ↔ IsBare (get_by_text self.new.map authority.now) }
    {
        match self.map.get_mut(authority) {
            Some(ids) => {
                ids.remove(id);
                ids.is_empty()
            }
            None => false,
        }
    }

    // Notes the first id under an authority.
    fn note_first(&mut self, authority: &str, id: &str, lei: Lei) -> Result<(), NoMemory>
        requires { get_by_text self.old.map authority.now ≡ None }
        ensures put { OnOk result ((a i : List ℕ) → noted_long self.new a i
            ≡ (if bytes_eq authority.now a && bytes_eq id.now i then Some (Some lei) else noted_long
            self.old a i)) }
        ensures err { OnErr result ((a i : List ℕ) → noted_long self.new a i ≡ noted_long self.old a i) }
    {
        let mut ids = BTreeMap::new(self.alloc);
        note_id(self.alloc, &mut ids, id, lei)?;
        let authority = String::from_str(self.alloc, authority)?;
        self.map.insert(authority, ids)?;
        Ok(())
    }
}

// Frees an id: no LEI is left under it.
fn free_id(ids: &mut Ids, id: &str)
    ensures { (i : List ℕ) → get_by_text ids.new i
        ≡ (if bytes_eq id.now i then after_freeing (get_by_text ids.old i) else get_by_text ids.old i) }
{
    if let Some(noted) = ids.get_mut(id) {
        *noted = None;
    }
}

// Notes the LEI under an id.
fn note_id(alloc: Global, ids: &mut Ids, id: &str, lei: Lei) -> Result<(), NoMemory>
    ensures put { OnOk result ((i : List ℕ) → get_by_text ids.new i
        ≡ (if bytes_eq id.now i then Some (Some lei) else get_by_text ids.old i)) }
    ensures err { OnErr result ((i : List ℕ) → get_by_text ids.new i ≡ get_by_text ids.old i) }
    ensures absent { OnErr result (get_by_text ids.old id.now ≡ None) }
{
    if let Some(noted) = ids.get_mut(id) {
        *noted = Some(lei);
        return Ok(());
    }
    insert_id(ids, String::from_str(alloc, id)?, lei)
}

fn insert_id(ids: &mut Ids, id: String, lei: Lei) -> Result<(), NoMemory>
    ensures put { OnOk result ((i : List ℕ) → get_by_text ids.new i
        ≡ (if bytes_eq (string_bytes id) i then Some (Some lei) else get_by_text ids.old i)) }
    ensures err { OnErr result ((i : List ℕ) → get_by_text ids.new i ≡ get_by_text ids.old i) }
{
    ids.insert(id, Some(lei))?;
    Ok(())
}
