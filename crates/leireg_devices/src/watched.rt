//! A keeper that reports to a person how far the opening of its store is.
ghost use Rattle.std.specs.Prelude.{◌≡◌};

use lei_keeper::{KeepFault, Keeper};
use lei_values::{Batch, KeptCell, KeptEntry, List};

// A store with fewer entries opens at once, and nothing is reported of it.
const MANY: u64 = 10_000;

/// A keeper that reports on the standard error how many entries of its store were read, in at most ten lines. What it
/// keeps and tells is the same as for the inner keeper.
#[derive(Drop)]
pub struct Watched<'a, K: Keeper> {
    pub keeper: K,
    rt: &'a HostRuntime,
    // The number of the last entry.
    last: u64,
    // The next tenth of the entries to report.
    tenth: u64,
}

impl<'a, K: Keeper> Watched<'a, K> {
    /// A keeper whose reads are reported.
    pub fn new(rt: &'a HostRuntime, keeper: K) -> Self
        ensures { result.keeper ≡ keeper }
    {
        Watched {
            keeper,
            rt,
            last: 0,
            tenth: 1,
        }
    }

    // Reports how many entries were read, if another tenth of all is complete.
    fn tell(&mut self, read: u64)
        ensures { self.new.keeper ≡ self.old.keeper }
    {
        let step = self.last / 10;
        if self.last >= MANY && self.tenth < 10 && read / step >= self.tenth {
            let _ = eprintln!(self.rt; "{read} of {} entries were read", self.last);
            self.tenth = read / step + 1;
        }
    }
}

impl<'a, K: Keeper> Keeper for Watched<'a, K> {
    ghost tables = { λ w. K.tables w.keeper };

    ghost faults = { λ w. K.faults w.keeper };

    ghost leaves = { λ w left. K.leaves w.keeper left };

    ghost may_stay = { λ w. K.may_stay w.keeper };

    fn last(&mut self) -> Result<u64, KeepFault> {
        let last = self.keeper.last()?;
        self.last = last;
        Ok(last)
    }

    fn entries(&mut self, after: u64, upto: u64) -> Result<List<KeptEntry>, KeepFault> {
        self.tell(after);
        self.keeper.entries(after, upto)
    }

    fn cells(&mut self, after: u64, upto: u64) -> Result<List<KeptCell>, KeepFault> {
        self.keeper.cells(after, upto)
    }

    fn commit(&mut self, batch: &Batch) -> Result<(), KeepFault> {
        self.keeper.commit(batch)
    }
}
