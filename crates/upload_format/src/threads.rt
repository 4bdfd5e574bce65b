//! Work on each item of an upload, in several threads if there are many items.
ghost use Rattle.std.specs.Prelude.{◌≡◌, Ok, IfOk};
ghost use Rattle.std.specs.Fn.{FnReturnsAt};
ghost use Rattle.std.specs.List.{AllZip};

use lei_values::NoMemory;
use std::alloc::Global;
use std::marker::Brand;
use std::sync::ledger::{Blank, Ledger};
use std::thread::Threads;
use worker_pool::{Steps, map_list};

// If there are at least this many items, they are worked on in several threads. An item takes some microseconds, and a
// thread takes about fifty to start. `map_list` gives a thread at least 1,024 members, so fewer than twice as many
// would stay in one thread. For these a plain loop is better, because it allocates memory for all of them at once.
const MANY_ITEMS: usize = 2_048;

// What `work` returns for each item, in order. If memory runs out for one item, the whole call fails.
pub fn map_items<
    T: Sync,
    U: Send + Drop,
    F: Fn(&T) -> Result<U, NoMemory> + Copy + Send + Sync,
    R: Threads + Sync,
>(rt: &R, alloc: Global, items: &[T], work: F) -> Result<Vec<U>, NoMemory>
    requires { F.IsAlwaysCallable work }
    ensures { IfOk result
        (λ made. AllZip (λ x u. FnReturnsAt F.Fn work x (Ok u)) items.now made.items) }
{
    if items.len() < MANY_ITEMS {
        return map_one_by_one(alloc, items, work);
    }
    map_in_threads::<T, U, Brand, F, R>(rt, alloc, items, work, Blank::new(1))
}

// The same, in as many threads as there are processors. Each item is a step, counted in a ledger that nobody reads.
fn map_in_threads<
    T: Sync,
    U: Send + Drop,
    L: Ledger,
    F: Fn(&T) -> Result<U, NoMemory> + Copy + Send + Sync,
    R: Threads + Sync,
>(rt: &R, alloc: Global, items: &[T], work: F, blank: Blank) -> Result<Vec<U>, NoMemory>
    requires name { blank.name ≡ L.name }
    requires parts { blank.parts ≡ L.parts }
    requires one { blank.parts ≡ 1 }
    requires work { F.IsAlwaysCallable work }
    ensures { IfOk result
        (λ made. AllZip (λ x u. FnReturnsAt F.Fn work x (Ok u)) items.now made.items) }
{
    let mut steps = Steps::<L>::new(blank);
    map_list(rt, alloc, items, work, &mut steps)
}

// The same in this thread.
fn map_one_by_one<T, U: Drop, F: Fn(&T) -> Result<U, NoMemory>>(
    alloc: Global,
    items: &[T],
    work: F,
) -> Result<Vec<U>, NoMemory>
    requires { F.IsAlwaysCallable work }
    ensures { IfOk result
        (λ made. AllZip (λ x u. FnReturnsAt F.Fn work x (Ok u)) items.now made.items) }
{
    let mut made = Vec::with_capacity(alloc, items.len())?;
    for item in items {
        made.push(work(item)?)?;
    }
    Ok(made)
}
