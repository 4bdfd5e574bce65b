//! Opens a store: its entries are replayed, and its cells are compared with those that the entries leave.
ghost use Rattle.std.specs.Prelude.{◌≡◌, ◌≤◌, ◌<◌, ◌+◌, [], IfOk, IfSome, IsErrOf, min};
ghost use Rattle.lei_values.specs.Count.{Rose};
ghost use Rattle.lei_values.specs.KeptTables.{AreKept, last_number};
ghost use Rattle.lei_keeper.specs.Keeping.{LeavesNoMore, TablesStay};
ghost use Rattle.register_words.specs.Limits.{AreLimits};
ghost use Rattle.lei_office.specs.Opening.{AllReplay, IsFoundInStore, IsStoreRead};

use crate::comparing::{PAGE, compare_cells};
use crate::replaying::replay_page;
use lei_keeper::{KeepFault, Keeper};
use register_history::Damage;
use register_state::Register;
use register_words::Limits;
use std::alloc::Global;
use std::thread::Threads;

/// Why an office can't be opened. Each fault returns the keeper, with its tables as they were.
#[derive(Drop)]
pub enum OpenFault<K> {
    /// A call of the keeper failed.
    KeeperFault(K),
    /// What the keeper has isn't what a history leaves under these limits. This is the first difference.
    StoreDamaged(K, Damage),
    /// Memory ran out.
    NoMemory(K),
}

/// What a store has: the register of its entries, or damage.
#[derive(Drop)]
pub enum Found {
    Sound(Register),
    Damaged(Damage),
}

/// Reads what a keeper has, by replaying its entries and comparing its cells.
pub fn read_store<K: Keeper, R: Threads + Sync>(
    rt: &R,
    alloc: Global,
    limits: Limits,
    keeper: &mut K,
) -> Result<Found, KeepFault>
    requires limits { AreLimits limits }
    ensures found { IfOk result (IsFoundInStore limits (K.tables keeper.new)) }
    ensures same { TablesStay (K.tables keeper.old) (K.tables keeper.new) }
    ensures crash { LeavesNoMore (K.leaves keeper.old) (K.leaves keeper.new) }
    ensures count { K.faults keeper.old ≤ K.faults keeper.new }
    ensures faultless { ¬ (IsErrOf result KeepFault.Failed) → K.faults keeper.new ≡ K.faults keeper.old }
    ensures failed { IsErrOf result KeepFault.Failed → Rose (K.faults keeper.old) (K.faults keeper.new) }
{
    let last = keeper.last()?;
    let mut register = Register::new(alloc, limits)?;
    match replay_store(rt, alloc, keeper, last, &mut register) {
        Ok(None) => Ok(Found::Sound(register)),
        Ok(Some(damage)) => Ok(Found::Damaged(damage)),
        Err(fault) => Err(fault),
    }
}

// Replays all stored entries, the last of which has this number, and compares the cells with those that they leave.
// Returns the first difference.
fn replay_store<K: Keeper, R: Threads + Sync>(
    rt: &R,
    alloc: Global,
    keeper: &mut K,
    last: u64,
    register: &mut Register,
) -> Result<Option<Damage>, KeepFault>
    requires kept { IfSome (K.tables keeper.old) AreKept }
    requires last { IfSome (K.tables keeper.old) (λ told. last ≡ last_number told) }
    requires empty { register.old.history ≡ [] }
    ensures read { IfOk result (IsStoreRead register.old.limits (K.tables keeper.new) register.new) }
    ensures same { TablesStay (K.tables keeper.old) (K.tables keeper.new) }
    ensures crash { LeavesNoMore (K.leaves keeper.old) (K.leaves keeper.new) }
    ensures count { K.faults keeper.old ≤ K.faults keeper.new }
    ensures faultless { ¬ (IsErrOf result KeepFault.Failed) → K.faults keeper.new ≡ K.faults keeper.old }
    ensures failed { IsErrOf result KeepFault.Failed → Rose (K.faults keeper.old) (K.faults keeper.new) }
{
    match replay_entries(rt, alloc, keeper, last, register)? {
        Some(damage) => return Ok(Some(damage)),
        None => {}
    }
    compare_cells(alloc, keeper, register)
}

// Replays all stored entries, the last of which has this number, page by page.
fn replay_entries<K: Keeper, R: Threads + Sync>(
    rt: &R,
    alloc: Global,
    keeper: &mut K,
    last: u64,
    register: &mut Register,
) -> Result<Option<Damage>, KeepFault>
    requires kept { IfSome (K.tables keeper.old) AreKept }
    requires last { IfSome (K.tables keeper.old) (λ told. last ≡ last_number told) }
    requires empty { register.old.history ≡ [] }
    ensures replays { IfOk result (AllReplay register.old.limits (K.tables keeper.new) register.new) }
    ensures same { TablesStay (K.tables keeper.old) (K.tables keeper.new) }
    ensures crash { LeavesNoMore (K.leaves keeper.old) (K.leaves keeper.new) }
    ensures count { K.faults keeper.old ≤ K.faults keeper.new }
    ensures faultless { ¬ (IsErrOf result KeepFault.Failed) → K.faults keeper.new ≡ K.faults keeper.old }
    ensures failed { IsErrOf result KeepFault.Failed → Rose (K.faults keeper.old) (K.faults keeper.new) }
{
    let mut after = 0;
    while after < last {
        let upto = page_end(after, last);
        let page = keeper.entries(after, upto)?;
        match replay_page(rt, alloc, register, page.as_slice(), upto)? {
            Some(damage) => return Ok(Some(damage)),
            None => after = upto,
        }
    }
    Ok(None)
}

// The last number of a page that starts after a number.
fn page_end(after: u64, last: u64) -> u64
    requires { after < last }
    ensures page { result ≡ min (after + 16) last }
    ensures more { after < result }
    ensures most { result ≤ last }
{
    if last - after > PAGE {
        after + PAGE
    } else {
        last
    }
}
