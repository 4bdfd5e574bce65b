//! A keeper whose faults are reported to the operator.
ghost use Rattle.std.specs.Prelude.{◌≡◌};

use keeper_sqlite::{Cause, SqliteKeeper};
use lei_keeper::{KeepFault, Keeper};
use lei_values::{Batch, KeptCell, KeptEntry, List};
use sqlite::Alter;

/// A keeper that knows why its last call failed.
pub trait HasCause {
    fn cause(&self) -> Cause;
}

impl<S: Alter> HasCause for SqliteKeeper<S> {
    fn cause(&self) -> Cause {
        SqliteKeeper::cause(self)
    }
}

/// A keeper for which the first of several failures in a row is reported on the standard error, with its cause. What it
/// keeps and tells is the same as for the inner keeper.
#[derive(Drop)]
pub struct Reported<'a, K: Keeper> {
    pub keeper: K,
    host: &'a HostRuntime,
    // Whether the last call failed.
    fails: bool,
}

impl<'a, K: Keeper + HasCause> Reported<'a, K> {
    /// A keeper without any failed call yet.
    pub fn new(host: &'a HostRuntime, keeper: K) -> Self {
        Reported {
            keeper,
            host,
            fails: false,
        }
    }

    // Notes how a call ended.
    fn note<T>(&mut self, answer: &Result<T, KeepFault>)
        ensures { self.new.keeper ≡ self.old.keeper }
    {
        let fails = matches!(answer, Err(KeepFault::Failed));
        if fails && !self.fails {
            let cause = self.keeper.cause();
            let _ = eprintln!(self.host; "the store fails: {cause}");
        }
        self.fails = fails;
    }
}

impl<'a, K: Keeper + HasCause> Keeper for Reported<'a, K> {
    ghost tables = { λ r. K.tables r.keeper };

    ghost faults = { λ r. K.faults r.keeper };

    ghost leaves = { λ r left. K.leaves r.keeper left };

    ghost may_stay = { λ r. K.may_stay r.keeper };

    fn last(&mut self) -> Result<u64, KeepFault> {
        let answer = self.keeper.last();
        self.note(&answer);
        answer
    }

    fn entries(&mut self, after: u64, upto: u64) -> Result<List<KeptEntry>, KeepFault> {
        let answer = self.keeper.entries(after, upto);
        self.note(&answer);
        answer
    }

    fn cells(&mut self, after: u64, upto: u64) -> Result<List<KeptCell>, KeepFault> {
        let answer = self.keeper.cells(after, upto);
        self.note(&answer);
        answer
    }

    fn commit(&mut self, batch: &Batch) -> Result<(), KeepFault> {
        let answer = self.keeper.commit(batch);
        self.note(&answer);
        answer
    }
}
