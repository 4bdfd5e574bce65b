//! The index of the records whose authority keys have two texts of at most 15 bytes, by the numbers of these.
ghost use Rattle.std.specs.Prelude.{◌≡◌, ℕ, Some, None, if◌then◌else◌, OnOk, OnErr, option_and_then};
ghost use Rattle.short_texts.specs.Packed.{is_same_pair};
ghost use Rattle.register_table.specs.Indexes.{after_dropping, after_freeing, noted_short};

use lei_code::Lei;
use lei_values::NoMemory;
use std::alloc::Global;
use std::collections::BTreeMap;

/// For each of these keys, the LEI of the record that took it last. A key that is freed stays without an LEI until it
/// is dropped.
#[derive(Drop)]
pub struct ShortKeyIndex {
    pub map: BTreeMap<(u128, u128), Option<Lei>>,
}

impl ShortKeyIndex {
    /// An index without keys.
    pub fn new(alloc: Global) -> Self
        ensures { (key : ℕ × ℕ) → noted_short result key ≡ None }
    {
        ShortKeyIndex {
            map: BTreeMap::new(alloc),
        }
    }

    /// The LEI that was last noted under a key, unless the key was freed.
    pub fn get(&self, key: (u128, u128)) -> Option<Lei>
        ensures { result ≡ option_and_then (λ noted. noted) (noted_short self.now key) }
    {
        *self.map.get(&key)?
    }

    /// Notes an LEI under a key. If the index has the key already, nothing is allocated.
    pub fn note(&mut self, key: (u128, u128), lei: Lei) -> Result<(), NoMemory>
        ensures put { OnOk result ((other : ℕ × ℕ) → noted_short self.new other
            ≡ (if is_same_pair key other then Some (Some lei) else noted_short self.old other)) }
        ensures err { OnErr result ((other : ℕ × ℕ) → noted_short self.new other
            ≡ noted_short self.old other) }
        ensures absent { OnErr result (noted_short self.old key ≡ None) }
    {
        match self.map.insert(key, Some(lei)) {
            Ok(_) => Ok(()),
            Err(_) => Err(NoMemory),
        }
    }

    /// Frees a key: no LEI is left under it.
    pub fn free(&mut self, key: (u128, u128))
        ensures { (other : ℕ × ℕ) → noted_short self.new other
            ≡ (if is_same_pair key other then after_freeing (noted_short self.old other)
            else noted_short self.old other) }
    {
        if let Some(noted) = self.map.get_mut(&key) {
            *noted = None;
        }
    }

    /// Drops a key that has no LEI.
    pub fn drop_freed(&mut self, key: (u128, u128))
        ensures { (other : ℕ × ℕ) → noted_short self.new other
            ≡ (if is_same_pair key other then after_dropping (noted_short self.old other)
            else noted_short self.old other) }
    {
        if self.get(key).is_none() {
            self.map.remove(&key);
        }
    }
}
