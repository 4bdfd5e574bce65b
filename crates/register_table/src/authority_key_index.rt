//! The index of the records that have authority keys.
ghost use Rattle.std.specs.Prelude.{◌≡◌, ◌&&◌, List, ℕ, true, Some, None, if◌then◌else◌, OnOk, OnErr, is_some, option_map};
ghost use Rattle.std.specs.Str.{bytes_eq};
ghost use Rattle.lei_records.specs.Cells;
ghost use Rattle.lei_records.specs.Cells.{lei_in};
ghost use Rattle.register_table.specs.Indexes.{HoldsNewKey, after_dropping, after_freeing, holder_in, noted_holder};

use crate::long_key_index::LongKeyIndex;
use crate::short_key_index::ShortKeyIndex;
use authority_rules::{is_live, key_of};
use lei_code::Lei;
use lei_records::Record;
use lei_values::NoMemory;
use short_texts::packed_pair;
use std::alloc::Global;

/// For each authority key, the LEI of the record that took it last. The record may no longer hold the key. A key that
/// is freed stays without an LEI until it is dropped. A key of two short texts is found by their numbers.
#[derive(Drop)]
pub struct AuthorityKeyIndex {
    pub short: ShortKeyIndex,
    pub long: LongKeyIndex,
}

impl AuthorityKeyIndex {
    /// An index without keys.
    pub fn new(alloc: Global) -> Self
        ensures { (authority id : List ℕ) → noted_holder result authority id ≡ None }
    {
        AuthorityKeyIndex {
            short: ShortKeyIndex::new(alloc),
            long: LongKeyIndex::new(alloc),
        }
    }

    /// The LEI that was last noted under a key, unless the key was freed.
    pub fn get(&self, authority: &str, id: &str) -> Option<Lei>
        ensures { result ≡ holder_in self.now authority.now id.now }
    {
        match packed_pair(authority, id) {
            Some(key) => self.short.get(key),
            None => self.long.get(authority, id),
        }
    }

    /// Notes a record under the key that it holds, if it holds one. If the index has the key already, nothing is
    /// allocated.
    pub fn put(&mut self, record: &Record) -> Result<(), NoMemory>
        ensures put { OnOk result ((authority id : List ℕ) → holder_in self.new authority id
            ≡ (if Cells.holds authority id record.now then Some (lei_in record.now)
            else holder_in self.old authority id)) }
        ensures err { OnErr result ((authority id : List ℕ) → holder_in self.new authority id
            ≡ holder_in self.old authority id) }
        ensures stays { (authority id : List ℕ) → is_some (noted_holder self.old authority id) ≡ true
            → is_some (noted_holder self.new authority id) ≡ true }
        ensures absent { OnErr result (HoldsNewKey record.now self.old) }
    {
        match held_key(record) {
            Some((authority, id)) => self.note(authority, id, record.lei()),
            None => Ok(()),
        }
    }

    /// Frees a key: no LEI is left under it.
    pub fn free(&mut self, authority: &str, id: &str)
        ensures { (a i : List ℕ) → noted_holder self.new a i
            ≡ (if bytes_eq authority.now a && bytes_eq id.now i then after_freeing (noted_holder self.old a i)
            else noted_holder self.old a i) }
    {
        match packed_pair(authority, id) {
            Some(key) => self.short.free(key),
            None => self.long.free(authority, id),
        }
    }

    /// Drops a key that has no LEI.
    pub fn drop_freed(&mut self, authority: &str, id: &str)
        ensures { (a i : List ℕ) → noted_holder self.new a i
            ≡ (if bytes_eq authority.now a && bytes_eq id.now i then after_dropping
            (noted_holder self.old a i)
            else noted_holder self.old a i) }
    {
        match packed_pair(authority, id) {
            Some(key) => self.short.drop_freed(key),
            None => self.long.drop_freed(authority, id),
        }
    }

    fn note(&mut self, authority: &str, id: &str, lei: Lei) -> Result<(), NoMemory>
        ensures put { OnOk result ((a i : List ℕ) → noted_holder self.new a i
            ≡ (if bytes_eq authority.now a && bytes_eq id.now i then Some (Some lei) else noted_holder
            self.old a i)) }
        ensures err { OnErr result ((a i : List ℕ) → noted_holder self.new a i ≡ noted_holder self.old a i) }
        ensures absent { OnErr result (noted_holder self.old authority.now id.now ≡ None) }
    {
        match packed_pair(authority, id) {
            Some(key) => self.short.note(key, lei),
            None => self.long.note(authority, id, lei),
        }
    }
}

/// The authority key that a record holds. A record that isn't live holds none.
#[tactic(auto, unfolding(lei_records::specs::Cells::holds))]
pub fn held_key(record: &Record) -> Option<(&str, &str)>
    ensures { (authority id : List ℕ) → Cells.holds authority id record.now
        ≡ Cells.is_authority_key authority id (option_map (λ key. (key.0.now, key.1.now)) result) }
{
    if is_live(record) {
        key_of(record)
    } else {
        None
    }
}
