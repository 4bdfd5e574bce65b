//! Which batches the tests may give to a keeper.
ghost use Rattle.std.specs.Prelude.{IsTrue};
ghost use Rattle.lei_values.specs.KeptTables.{IsBatch, IsCellOf};

use lei_values::{Batch, KeptCell};

/// Whether it is a batch with one cell that may be committed.
pub fn is_batch(batch: &Batch) -> bool
    ensures { IsTrue result → IsBatch batch.now }
{
    let seq = batch.entry.seq;
    let cells = match batch.cells.as_slice() {
        [cell] => is_cell_of(seq, cell),
        _ => false,
    };
    cells && seq <= 9_223_372_036_854_775_807 && batch.entry.office.as_slice().is_ascii()
}

fn is_cell_of(seq: u64, cell: &KeptCell) -> bool
    ensures { IsTrue result → IsCellOf seq cell.now }
{
    cell.touched == seq && cell.name.as_slice().is_ascii()
}
