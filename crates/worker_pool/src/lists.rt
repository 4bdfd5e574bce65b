//! Work on each member of a list, in several threads.
ghost use Rattle.std.specs.Prelude.{◌≡◌, ◌+◌, Ok, length, IfOk};
ghost use Rattle.std.specs.Fn.{FnReturnsAt};
ghost use Rattle.std.specs.List.{AllZip};

use crate::steps::Steps;
use lei_values::NoMemory;
use rayon::prelude::*;
use std::alloc::Global;
use std::sync::ledger::Ledger;
use std::thread::Threads;

/// What `work` returns for each member of a list, in order: the results that a single thread would get one after the
/// other. If memory runs out for one member, the whole call fails. Each member counts as one step.
pub fn map_list<
    T: Sync,
    U: Send + Drop,
    L: Ledger,
    F: Fn(&T) -> Result<U, NoMemory> + Copy + Send + Sync,
    R: Threads + Sync,
>(rt: &R, alloc: Global, list: &[T], work: F, steps: &mut Steps<L>) -> Result<Vec<U>, NoMemory>
    requires { F.IsAlwaysCallable work }
    ensures answers { IfOk result
        (λ made. AllZip (λ x u. FnReturnsAt F.Fn work x (Ok u)) list.now made.items) }
    ensures steps { steps.new ≡ steps.old + length list.now }
{
    steps.add(list.len() as u64);
    list.par_iter().map(work).collect(rt, alloc)?
}
