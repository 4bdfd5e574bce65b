// The device that keeps entries and cells.
ghost use Rattle.std.specs.Prelude.{◌≡◌, ℕ, ◌≤◌, Option, Some, IfOk, OnOk, IfSome, IsErrOf};
ghost use Rattle.lei_values.specs.Count.{Rose};
ghost use Rattle.lei_values.specs.KeptTables.{AreKept, IsBatch, IsNextOf, KeptTables, cells_between, entries_between, last_number};
ghost use Rattle.lei_keeper.specs.Keeping.{CommitLeaves, Commits, LeavesNoMore, TablesStay};

use crate::KeepFault;
use lei_values::{Batch, KeptCell, KeptEntry, List};

/// A device that keeps entries and cells, such as a file or memory. It keeps all of a batch, or nothing of it.
pub trait Keeper {
    /// The two tables, if the keeper tells them.
    ghost tables: { Self → Option KeptTables };

    /// How many calls have failed.
    ghost faults: { Self → ℕ };

    /// What the tables may be after a crash at this moment, or `None` if they can't be read then.
    ghost leaves: { Self → Option KeptTables → Type 0 };

    /// The number of the last entry, or 0 if there is none.
    fn last(&mut self) -> Result<u64, KeepFault>
        ensures answer { IfSome (tables self.new)
            (λ told. IfOk result (λ number. number ≡ last_number told)) }
        ensures kept { OnOk result (IfSome (tables self.new) AreKept) }
        ensures same { TablesStay (tables self.old) (tables self.new) }
        ensures crash { LeavesNoMore (leaves self.old) (leaves self.new) }
        ensures count { faults self.old ≤ faults self.new }
        ensures faultless { ¬ (IsErrOf result KeepFault.Failed) → faults self.new ≡ faults self.old }
        ensures failed { IsErrOf result KeepFault.Failed → Rose (faults self.old) (faults self.new) };

    /// The entries whose number is greater than `after` and at most `upto`, in order.
    fn entries(&mut self, after: u64, upto: u64) -> Result<List<KeptEntry>, KeepFault>
        ensures answer { IfSome (tables self.new)
            (λ told. IfOk result (λ list. list ≡ entries_between after upto told)) }
        ensures same { TablesStay (tables self.old) (tables self.new) }
        ensures crash { LeavesNoMore (leaves self.old) (leaves self.new) }
        ensures count { faults self.old ≤ faults self.new }
        ensures faultless { ¬ (IsErrOf result KeepFault.Failed) → faults self.new ≡ faults self.old }
        ensures failed { IsErrOf result KeepFault.Failed → Rose (faults self.old) (faults self.new) };

    /// The cells whose last entry has a number greater than `after` and at most `upto`, in the order of kinds and
    /// names.
    fn cells(&mut self, after: u64, upto: u64) -> Result<List<KeptCell>, KeepFault>
        ensures answer { IfSome (tables self.new)
            (λ told. IfOk result (λ list. list ≡ cells_between after upto told)) }
        ensures same { TablesStay (tables self.old) (tables self.new) }
        ensures crash { LeavesNoMore (leaves self.old) (leaves self.new) }
        ensures count { faults self.old ≤ faults self.new }
        ensures faultless { ¬ (IsErrOf result KeepFault.Failed) → faults self.new ≡ faults self.old }
        ensures failed { IsErrOf result KeepFault.Failed → Rose (faults self.old) (faults self.new) };

    /// Keeps a batch: its entry is added after the others, and each of its cells replaces the one of the same kind and
    /// name. After an `Err` the tables are as they were.
    fn commit(&mut self, batch: &Batch) -> Result<(), KeepFault>
        requires batch { IsBatch batch.now }
        requires next { IsNextOf (tables self.old) batch.now }
        ensures tables { Commits batch.now result (tables self.old) (tables self.new) }
        ensures crash { CommitLeaves batch.now result (tables self.old) (tables self.new) (leaves self.old)
            (leaves self.new) }
        ensures count { faults self.old ≤ faults self.new }
        ensures faultless { ¬ (IsErrOf result KeepFault.Failed) → faults self.new ≡ faults self.old }
        ensures failed { IsErrOf result KeepFault.Failed → Rose (faults self.old) (faults self.new) };

    /// A crash may leave the tables as they are. So a statement about everything that a crash may leave isn't empty.
    ghost may_stay: { (keeper : Self) → IfSome (tables keeper) (λ told. leaves keeper (Some told)) };
}
