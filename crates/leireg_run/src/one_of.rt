//! One of two keepers, and one of two readers, so that the commands of the program are compiled once for them.
ghost use Rattle.leireg_run.specs.OneOf.{either, left_of_either};

use lei_keeper::{KeepFault, Keeper};
use lei_values::{Batch, KeptCell, KeptEntry, List};
use std::io::{self, Read};

/// The first or the second. What it keeps, reads and tells is the same as for that one.
#[derive(Drop)]
pub enum OneOf<A, B> {
    First(A),
    Second(B),
}

impl<K: Keeper, L: Keeper> Keeper for OneOf<K, L> {
    ghost use Rattle.leireg_run.specs.declared.one_of.OneOf.{OneOf};

    ghost tables = { either K.tables L.tables };

    ghost faults = { either K.faults L.faults };

    ghost leaves = { left_of_either K.leaves L.leaves };

    ghost may_stay = { elim [
      | OneOf.First keeper ↦ K.may_stay keeper
      | OneOf.Second keeper ↦
          L.may_stay keeper
    ] };

    fn last(&mut self) -> Result<u64, KeepFault> {
        match self {
            OneOf::First(keeper) => keeper.last(),
            OneOf::Second(keeper) => keeper.last(),
        }
    }

    fn entries(&mut self, after: u64, upto: u64) -> Result<List<KeptEntry>, KeepFault> {
        match self {
            OneOf::First(keeper) => keeper.entries(after, upto),
            OneOf::Second(keeper) => keeper.entries(after, upto),
        }
    }

    fn cells(&mut self, after: u64, upto: u64) -> Result<List<KeptCell>, KeepFault> {
        match self {
            OneOf::First(keeper) => keeper.cells(after, upto),
            OneOf::Second(keeper) => keeper.cells(after, upto),
        }
    }

    fn commit(&mut self, batch: &Batch) -> Result<(), KeepFault> {
        match self {
            OneOf::First(keeper) => keeper.commit(batch),
            OneOf::Second(keeper) => keeper.commit(batch),
        }
    }
}

impl<A: Read, B: Read> Read for OneOf<A, B> {
    fn read(&mut self, buffer: &mut [u8]) -> io::Result<usize> {
        match self {
            OneOf::First(reader) => reader.read(buffer),
            OneOf::Second(reader) => reader.read(buffer),
        }
    }
}
