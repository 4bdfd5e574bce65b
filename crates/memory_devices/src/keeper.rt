// Keepers that keep in memory.
ghost use Rattle.std.specs.Prelude.{◌≡◌, ◌↔◌, ◌≤◌, [], Some, IfOk, OnOk, OnErr, IsErrOf, IsTrue};
ghost use Rattle.lei_values.specs.Count.{Rose, count_up};
ghost use Rattle.lei_values.specs.KeptTables.{AreKept, IsBatch, IsNextOf, RiseFrom, cells_between, entries_between, last_number};
ghost use Rattle.memory_devices.specs.Memory.{AreOfEntries, FailsNext, MayBeKept, tables_of, with_kept};

use crate::calls::Calls;
use crate::cell_list::cells_between;
use lei_keeper::{KeepFault, Keeper};
use lei_values::{Batch, KeptCell, KeptEntry, List, NoMemory};
use std::alloc::Global;
use std::marker::Model;

/// A keeper in memory that never fails, unless memory runs out. It keeps each cell that came, even if a later one
/// replaced it.
#[derive(Drop)]
pub struct SureKeeper {
    alloc: Global,
    entries: Vec<KeptEntry>,
    cells: Vec<KeptCell>,
}

impl Model for SureKeeper {
    ghost use Rattle.lei_values.specs.KeptTables.{AreKept};
    ghost use Rattle.memory_devices.specs.Memory.{SureKeeperState, tables_of};

    ghost Value = { SureKeeperState };

    ghost view = { λ k. record { entries = k.entries.items; cells = k.cells.items } };

    ghost invariant = { λ k. AreKept
        (tables_of (record { entries = k.entries.items; cells = k.cells.items })) };
}

impl SureKeeper {
    /// A keeper that has kept nothing.
    pub fn new(alloc: Global) -> Self
        ensures { result ≡ record { entries = []; cells = [] } }
    {
        SureKeeper {
            alloc,
            entries: Vec::new(alloc),
            cells: Vec::new(alloc),
        }
    }
}

impl Keeper for SureKeeper {
    ghost use Rattle.std.specs.Prelude.{Some, ◌≡◌, refl};
    ghost use Rattle.memory_devices.specs.Memory.{tables_of};

    ghost tables = { λ k. Some (tables_of k) };

    ghost faults = { λ _. 0 };

    ghost leaves = { λ k left. left ≡ Some (tables_of k) };

    ghost may_stay = { λ _. refl };

    fn last(&mut self) -> Result<u64, KeepFault>
        ensures answer { IfOk result (λ number. number ≡ last_number (tables_of self.old)) }
        ensures kept { OnOk result (AreKept (tables_of self.new)) }
        ensures unchanged { self.new ≡ self.old }
        ensures sure { IsErrOf result KeepFault.Failed → ⊥ }
    {
        match self.entries.last() {
            Some(entry) => Ok(entry.seq),
            None => Ok(0),
        }
    }

    fn entries(&mut self, after: u64, upto: u64) -> Result<List<KeptEntry>, KeepFault>
        ensures answer { IfOk result (λ list. list ≡ entries_between after upto (tables_of self.old)) }
        ensures unchanged { self.new ≡ self.old }
        ensures sure { IsErrOf result KeepFault.Failed → ⊥ }
    {
        let mut list = Vec::new(self.alloc);
        for entry in &self.entries {
            if after < entry.seq && entry.seq <= upto {
                list.push(entry.copy(self.alloc)?)?;
            }
        }
        Ok(List::from(list))
    }

    fn cells(&mut self, after: u64, upto: u64) -> Result<List<KeptCell>, KeepFault>
        ensures answer { IfOk result (λ list. list ≡ cells_between after upto (tables_of self.old)) }
        ensures unchanged { self.new ≡ self.old }
        ensures sure { IsErrOf result KeepFault.Failed → ⊥ }
    {
        let list = cells_between(self.alloc, &self.cells, after, upto)?;
        Ok(List::from(list))
    }

    fn commit(&mut self, batch: &Batch) -> Result<(), KeepFault>
        requires batch { IsBatch batch.now }
        requires next { IsNextOf (Some (tables_of self.old)) batch.now }
        ensures ok { OnOk result (self.new ≡ with_kept batch.now self.old) }
        ensures err { OnErr result (self.new ≡ self.old) }
        ensures sure { IsErrOf result KeepFault.Failed → ⊥ }
    {
        let entry = batch.entry.copy(self.alloc)?;
        let mut cells = copies(self.alloc, batch.cells.as_slice())?;
        self.entries.reserve(1)?;
        self.cells.append(&mut cells)?;
        self.entries.push_reserved(entry);
        Ok(())
    }
}

// Copies of the cells in their own memory.
fn copies(alloc: Global, cells: &[KeptCell]) -> Result<Vec<KeptCell>, NoMemory>
    ensures { IfOk result (λ list. list.items ≡ cells.now) }
{
    let mut list = Vec::with_capacity(alloc, cells.len())?;
    for cell in cells {
        list.push(cell.copy(alloc)?)?;
    }
    Ok(list)
}

/// Whether a keeper may have these entries and cells. The numbers of the entries must be at least 1 and rise, and those
/// of the cells must be at least 1.
pub fn may_be_kept(entries: &[KeptEntry], cells: &[KeptCell]) -> bool
    ensures value { IsTrue result ↔ MayBeKept entries.now cells.now }
    ensures kept { IsTrue result → AreKept (tables_of (record { entries = entries.now; cells = cells.now })) }
{
    do_rise(entries) && are_of_entries(cells)
}

fn do_rise(entries: &[KeptEntry]) -> bool
    ensures { IsTrue result ↔ RiseFrom 0 entries.now }
{
    let mut number = 0;
    for entry in entries {
        if entry.seq <= number {
            return false;
        }
        number = entry.seq;
    }
    true
}

fn are_of_entries(cells: &[KeptCell]) -> bool
    ensures { IsTrue result ↔ AreOfEntries cells.now }
{
    for cell in cells {
        if cell.touched == 0 {
            return false;
        }
    }
    true
}

/// A keeper in memory, some of whose calls fail.
#[derive(Drop)]
pub struct MapKeeper {
    keeper: SureKeeper,
    calls: Calls,
}

impl Model for MapKeeper {
    ghost use Rattle.memory_devices.specs.Memory.{MemoryKeeperState};

    ghost Value = { MemoryKeeperState };

    ghost view = { λ k. record {
      kept = k.keeper;
      failing = k.calls.failing;
      calls = k.calls.count;
      faults = k.calls.faults;
    } };
}

impl MapKeeper {
    /// A keeper that has kept nothing. The calls with the numbers in `failing` fail. The first call has the number 1,
    /// and a call that finds no memory counts as well.
    pub fn new(alloc: Global, failing: List<u64>) -> Self
        ensures { result ≡ record
            { kept = record { entries = []; cells = [] }; failing = failing; calls = 0; faults = 0 } }
    {
        MapKeeper {
            keeper: SureKeeper::new(alloc),
            calls: Calls::new(failing),
        }
    }

    /// A keeper that has kept these entries and cells. The condition is that the numbers of the entries rise and those
    /// of the cells are at least 1. If several cells have one place, the last one is kept.
    pub fn of(
        alloc: Global,
        entries: List<KeptEntry>,
        cells: List<KeptCell>,
        failing: List<u64>,
    ) -> Self
        requires { AreKept (tables_of (record { entries = entries; cells = cells })) }
        ensures { result ≡ record
            { kept = record { entries = entries; cells = cells }; failing = failing; calls = 0; faults = 0 } }
    {
        let keeper = SureKeeper {
            alloc,
            entries: entries.into_vec(),
            cells: cells.into_vec(),
        };
        MapKeeper {
            keeper,
            calls: Calls::new(failing),
        }
    }

    /// How many calls have failed. It stops at `u64::MAX`.
    pub fn faults(&self) -> u64
        ensures { result ≡ self.now.faults }
    {
        self.calls.faults
    }
}

impl Keeper for MapKeeper {
    ghost use Rattle.std.specs.Prelude.{Some, ◌≡◌, refl};
    ghost use Rattle.memory_devices.specs.Memory.{tables_of};

    ghost tables = { λ k. Some (tables_of k.kept) };

    ghost faults = { λ k. k.faults };

    ghost leaves = { λ k left. left ≡ Some (tables_of k.kept) };

    ghost may_stay = { λ _. refl };

    fn last(&mut self) -> Result<u64, KeepFault>
        ensures answer { IfOk result (λ number. number ≡ last_number (tables_of self.old.kept)) }
        ensures kept { OnOk result (AreKept (tables_of self.new.kept)) }
        ensures unchanged { self.new.kept ≡ self.old.kept }
        ensures count { self.old.faults ≤ self.new.faults }
        ensures faultless { ¬ (IsErrOf result KeepFault.Failed) → self.new.faults ≡ self.old.faults }
        ensures failed { IsErrOf result KeepFault.Failed → Rose self.old.faults self.new.faults }
        ensures fails { IsErrOf result KeepFault.Failed ↔ FailsNext self.old.failing self.old.calls }
        ensures calls { self.new.calls ≡ count_up self.old.calls }
        ensures failing { self.new.failing ≡ self.old.failing }
    {
        if self.calls.next_fails() {
            return Err(KeepFault::Failed);
        }
        self.keeper.last()
    }

    fn entries(&mut self, after: u64, upto: u64) -> Result<List<KeptEntry>, KeepFault>
        ensures answer { IfOk result (λ list. list ≡ entries_between after upto (tables_of self.old.kept)) }
        ensures unchanged { self.new.kept ≡ self.old.kept }
        ensures count { self.old.faults ≤ self.new.faults }
        ensures faultless { ¬ (IsErrOf result KeepFault.Failed) → self.new.faults ≡ self.old.faults }
        ensures failed { IsErrOf result KeepFault.Failed → Rose self.old.faults self.new.faults }
        ensures fails { IsErrOf result KeepFault.Failed ↔ FailsNext self.old.failing self.old.calls }
        ensures calls { self.new.calls ≡ count_up self.old.calls }
        ensures failing { self.new.failing ≡ self.old.failing }
    {
        if self.calls.next_fails() {
            return Err(KeepFault::Failed);
        }
        self.keeper.entries(after, upto)
    }

    fn cells(&mut self, after: u64, upto: u64) -> Result<List<KeptCell>, KeepFault>
        ensures answer { IfOk result (λ list. list ≡ cells_between after upto (tables_of self.old.kept)) }
        ensures unchanged { self.new.kept ≡ self.old.kept }
        ensures count { self.old.faults ≤ self.new.faults }
        ensures faultless { ¬ (IsErrOf result KeepFault.Failed) → self.new.faults ≡ self.old.faults }
        ensures failed { IsErrOf result KeepFault.Failed → Rose self.old.faults self.new.faults }
        ensures fails { IsErrOf result KeepFault.Failed ↔ FailsNext self.old.failing self.old.calls }
        ensures calls { self.new.calls ≡ count_up self.old.calls }
        ensures failing { self.new.failing ≡ self.old.failing }
    {
        if self.calls.next_fails() {
            return Err(KeepFault::Failed);
        }
        self.keeper.cells(after, upto)
    }

    fn commit(&mut self, batch: &Batch) -> Result<(), KeepFault>
        requires batch { IsBatch batch.now }
        requires next { IsNextOf (Some (tables_of self.old.kept)) batch.now }
        ensures ok { OnOk result (self.new.kept ≡ with_kept batch.now self.old.kept) }
        ensures err { OnErr result (self.new.kept ≡ self.old.kept) }
        ensures count { self.old.faults ≤ self.new.faults }
        ensures faultless { ¬ (IsErrOf result KeepFault.Failed) → self.new.faults ≡ self.old.faults }
        ensures failed { IsErrOf result KeepFault.Failed → Rose self.old.faults self.new.faults }
        ensures fails { IsErrOf result KeepFault.Failed ↔ FailsNext self.old.failing self.old.calls }
        ensures calls { self.new.calls ≡ count_up self.old.calls }
        ensures failing { self.new.failing ≡ self.old.failing }
    {
        if self.calls.next_fails() {
            return Err(KeepFault::Failed);
        }
        self.keeper.commit(batch)
    }
}
