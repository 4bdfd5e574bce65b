//! Whether a view still has what was read from it.
ghost use Rattle.std.specs.Prelude.{◌↔◌, IsTrue};
ghost use Rattle.std.specs.List.{All};
ghost use Rattle.cell_reads.specs.Reads.{AnswersReads, HasCell};

use crate::cells::has_cell;
use lei_records::{CellKey, CellSeen, Reads, View};

/// Whether a view has in each listed cell what was read from it, empty cells included. It allocates no memory.
pub fn agrees<V: View>(view: &V, reads: &Reads) -> bool
    ensures { IsTrue result ↔ AnswersReads reads.now (V.cells view.now) }
{
    has_cells(view, reads.as_slice())
}

fn has_cells<V: View>(view: &V, reads: &[(CellKey, CellSeen)]) -> bool
    ensures { IsTrue result ↔ All (λ read. HasCell (V.cells view.now) read.0 read.1) reads.now }
{
    for read in reads {
        if !has_cell(view, &read.0, &read.1) {
            return false;
        }
    }
    true
}
