//! Fetching the cells that items may need.
ghost use Rattle.std.specs.Prelude.{IfOk, take};
ghost use Rattle.fetched_cells.specs.Fetching.{HasJust, fetched_keys};
ghost use Rattle.fetched_cells.specs.Maps.{fetched_view};

use crate::fetched::Fetched;
use crate::filling::Filling;
use lei_records::{CellKey, View};
use lei_values::NoMemory;
use std::alloc::Global;

/// A view of the cells with these keys. Two lists of cells follow each record among them. The first has the records of
/// the first 201 different LEIs of its levels of successors. The second has the walk of direct parents from it, up to
/// 200 members. The LEIs of levels come level by level, and in byte order within a level. Only the first `most` of all
/// these cells are copied, and a cell that occurs twice counts twice.
pub fn fetch<V: View>(
    alloc: Global,
    view: &V,
    keys: &[CellKey],
    most: u32,
) -> Result<Fetched, NoMemory>
    ensures { IfOk result (λ fetched. HasJust (fetched_view fetched) (V.cells view.now)
        (take most (fetched_keys (V.cells view.now) keys.now))) }
{
    let mut filling = Filling {
        alloc,
        fetched: Fetched::new(alloc),
        left: most,
    };
    filling.add_all(view, keys)?;
    Ok(filling.fetched)
}
