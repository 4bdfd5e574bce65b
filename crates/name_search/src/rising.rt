//! Keys that came in rising order.
ghost use Rattle.std.specs.Prelude.{◌≡◌, ◌++◌, ◌∷◌, [], true, IfOk};
ghost use Rattle.std.specs.Cmp.Lexicographic.{slice_cmp};
ghost use Rattle.std.specs.List.Sorted.{IsStrictlySortedBy};
ghost use Rattle.std.specs.Ordering.{nat_cmp};
ghost use Rattle.std.specs.declared.cmp.Ordering.{Ordering as Order};
ghost use Rattle.lei_code.specs.Texts.{Text as Bytes};
ghost use Rattle.name_search.specs.Keys.{is_one_of_keys};

use crate::key::Key;
use lei_values::NoMemory;
use std::alloc::Global;
use std::cmp::Ordering;
use std::marker::Model;

/// Keys in rising order, each once. Contracts see the list of keys.
#[derive(Drop)]
pub struct RisingKeys {
    keys: Vec<Key>,
}

impl Model for RisingKeys {
    ghost use Rattle.std.specs.Prelude.{ℕ, List};
    ghost use Rattle.std.specs.Cmp.Lexicographic.{slice_cmp};
    ghost use Rattle.std.specs.List.Sorted.{IsStrictlySortedBy};
    ghost use Rattle.std.specs.Ordering.{nat_cmp};

    ghost Value = { List (List ℕ) };

    ghost view = { λ rising. rising.keys.items };

    ghost invariant = { λ rising. IsStrictlySortedBy (slice_cmp nat_cmp) rising.keys.items };
}

impl RisingKeys {
    /// A single key. Most words are in one name, so there is room for no more.
    pub fn of_one(alloc: Global, key: &Key) -> Result<Self, NoMemory>
        ensures { IfOk result (λ made. made ≡ key.now ∷ []) }
    {
        let mut keys = Vec::with_capacity(alloc, 1)?;
        keys.push_reserved(key.share()?);
        Ok(RisingKeys { keys })
    }

    /// The keys as a slice.
    pub fn as_slice(&self) -> &[Key]
        ensures value { result.now ≡ self.now }
        ensures rising { IsStrictlySortedBy (slice_cmp nat_cmp) self.now }
    {
        self.keys.as_slice()
    }

    /// Appends a key if it comes after the last one. Returns `false` if it comes before the last one, and otherwise
    /// `true`: then the list has the key.
    pub fn push(&mut self, key: &Key) -> Result<bool, NoMemory>
        ensures stay { (k : Bytes) → is_one_of_keys k self.old ≡ true → is_one_of_keys k self.new ≡ true }
        ensures is_there { IfOk result (λ is. is ≡ true → is_one_of_keys key.now self.new ≡ true) }
    {
        match order(self.keys.as_slice(), key) {
            Ordering::Less => return Ok(false),
            Ordering::Equal => return Ok(true),
            Ordering::Greater => {}
        }
        self.keys.push(key.share()?)?;
        Ok(true)
    }
}

// How a key compares with the last of rising keys. If there are none, it comes after them.
fn order(keys: &[Key], key: &Key) -> Ordering
    requires { IsStrictlySortedBy (slice_cmp nat_cmp) keys.now }
    ensures equal { result ≡ Order.Equal → is_one_of_keys key.now keys.now ≡ true }
    ensures greater { result ≡ Order.Greater → IsStrictlySortedBy (slice_cmp nat_cmp) (keys.now
        ++ key.now ∷ []) }
{
    match keys.last() {
        Some(last) => key.cmp(last),
        None => Ordering::Greater,
    }
}
