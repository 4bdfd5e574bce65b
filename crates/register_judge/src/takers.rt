//! The records that took authority keys, by these keys.
ghost use Rattle.std.specs.Prelude.{◌≡◌, ◌&&◌, ℕ, List, Some, None, OnOk, if◌then◌else◌};
ghost use Rattle.std.specs.Str.{bytes_eq};
ghost use Rattle.short_texts.specs.Packed.{is_same_pair};
ghost use Rattle.register_judge.specs.Overlays;

use lei_code::Lei;
use lei_values::NoMemory;
use short_texts::packed_pair;
use std::alloc::Global;
use std::collections::BTreeMap;

// The LEI of a record, by the numbers of the two short texts of its key.
type ShortTakers = BTreeMap<(u128, u128), Lei>;

// The LEI of a record, by the id under one authority.
type Ids<'a> = BTreeMap<&'a str, Lei>;

// The ids of each authority, for keys that have a text of more than 15 bytes.
type LongTakers<'a> = BTreeMap<&'a str, Ids<'a>>;

/// For each authority key, the LEI of the record that took it last. A key of two short texts is found by their numbers.
#[derive(Drop)]
pub struct Takers<'a> {
    pub short: ShortTakers,
    pub long: LongTakers<'a>,
}

impl<'a> Takers<'a> {
    /// No record has taken a key.
    pub fn new(alloc: Global) -> Self
        ensures { (authority id : List ℕ) → Overlays.taker_at result authority id ≡ None }
    {
        Takers {
            short: BTreeMap::new(alloc),
            long: BTreeMap::new(alloc),
        }
    }

    /// The LEI of the record that took a key last.
    pub fn get(&self, authority: &str, id: &str) -> Option<Lei>
        ensures { result ≡ Overlays.taker_at self.now authority.now id.now }
    {
        match packed_pair(authority, id) {
            Some(numbers) => self.short.get(&numbers).copied(),
            None => self.long_taker(authority, id),
        }
    }

    fn long_taker(&self, authority: &str, id: &str) -> Option<Lei>
        ensures { result ≡ Overlays.long_taker_at self.now.long authority.now id.now }
    {
        let ids = self.long.get(authority)?;
        ids.get(id).copied()
    }

    /// Notes this LEI as that of the record that took the key last.
    pub fn insert(
        &mut self,
        alloc: Global,
        authority: &'a str,
        id: &'a str,
        lei: Lei,
    ) -> Result<(), NoMemory>
        ensures { OnOk result ((a i : List ℕ) → Overlays.taker_at self.new a i
            ≡ (if bytes_eq authority.now a && bytes_eq id.now i then Some lei else Overlays.taker_at
            self.old a i)) }
    {
        match packed_pair(authority, id) {
            Some(numbers) => insert_short(&mut self.short, numbers, lei),
            None => insert_long(alloc, &mut self.long, authority, id, lei),
        }
    }
}

// Notes this LEI under the numbers of two short texts.
fn insert_short(short: &mut ShortTakers, numbers: (u128, u128), lei: Lei) -> Result<(), NoMemory>
    ensures { OnOk result ((others : ℕ × ℕ) → Overlays.short_taker_at short.new others
        ≡ (if is_same_pair numbers others then Some lei else Overlays.short_taker_at short.old others)) }
{
    match short.insert(numbers, lei) {
        Ok(_) => Ok(()),
        Err(_) => Err(NoMemory),
    }
}

// Notes this LEI under two texts, of which one has more than 15 bytes.
fn insert_long<'a>(
    alloc: Global,
    long: &mut LongTakers<'a>,
    authority: &'a str,
    id: &'a str,
    lei: Lei,
) -> Result<(), NoMemory>
    ensures { OnOk result ((a i : List ℕ) → Overlays.long_taker_at long.new a i
        ≡ (if bytes_eq authority.now a && bytes_eq id.now i then Some lei else Overlays.long_taker_at
        long.old a i)) }
{
    match long.get_mut(authority) {
        Some(ids) => insert_id(ids, id, lei),
        None => insert_first(alloc, long, authority, id, lei),
    }
}

// Notes the first id under an authority.
fn insert_first<'a>(
    alloc: Global,
    long: &mut LongTakers<'a>,
    authority: &'a str,
    id: &'a str,
    lei: Lei,
) -> Result<(), NoMemory>
    requires { Overlays.ids_at long.old authority.now ≡ None }
    ensures { OnOk result ((a i : List ℕ) → Overlays.long_taker_at long.new a i
        ≡ (if bytes_eq authority.now a && bytes_eq id.now i then Some lei else Overlays.long_taker_at
        long.old a i)) }
{
    let mut ids = BTreeMap::new(alloc);
    insert_id(&mut ids, id, lei)?;
    match long.insert(authority, ids) {
        Ok(_) => Ok(()),
        Err(_) => Err(NoMemory),
    }
}

fn insert_id<'a>(ids: &mut Ids<'a>, id: &'a str, lei: Lei) -> Result<(), NoMemory>
    ensures { OnOk result ((i : List ℕ) → Overlays.id_at ids.new i
        ≡ (if bytes_eq id.now i then Some lei else Overlays.id_at ids.old i)) }
{
    match ids.insert(id, lei) {
        Ok(_) => Ok(()),
        Err(_) => Err(NoMemory),
    }
}
