// The cells that are current, among all that were kept.
ghost use Rattle.std.specs.Prelude.{◌≡◌, IfOk, OnOk, map};
ghost use Rattle.std.specs.FinMap.{empty, entries};
ghost use Rattle.std.specs.BTreeMap.{IsOrdered};
ghost use Rattle.std.specs.Cmp.Lexicographic.{slice_cmp};
ghost use Rattle.std.specs.Ordering.{nat_cmp};
ghost use Rattle.memory_devices.specs.CellLists.{between_of, cells_by_place, content_at};
ghost use Rattle.lei_values.specs.KeptTables.{cell_at, cell_content, cell_place, put_cell, put_cells};

use lei_values::{Bytes, KeptCell, NoMemory};
use std::alloc::Global;
use std::collections::BTreeMap;

// The last cell of each place.
type Places<'a> = BTreeMap<Bytes, &'a KeptCell>;

// The cells that were last touched by an entry with a number greater than `after` and at most `upto`, in the order of
// their places.
pub fn cells_between(
    alloc: Global,
    cells: &[KeptCell],
    after: u64,
    upto: u64,
) -> Result<Vec<KeptCell>, NoMemory>
    ensures { IfOk result (λ list. list.items ≡ between_of after upto (entries (put_cells empty cells.now))) }
{
    let places = by_place(alloc, cells)?;
    list_between(alloc, &places, after, upto)
}

fn by_place<'a>(alloc: Global, cells: &'a [KeptCell]) -> Result<Places<'a>, NoMemory>
    ensures { IfOk result (λ places. cells_by_place places.entries ≡ put_cells empty cells.now) }
{
    let mut places = BTreeMap::new(alloc);
    for cell in cells {
        put(alloc, &mut places, cell)?;
    }
    Ok(places)
}

fn put<'a>(alloc: Global, places: &mut Places<'a>, cell: &'a KeptCell) -> Result<(), NoMemory>
    ensures { OnOk result (cells_by_place places.new.entries
        ≡ put_cell (cells_by_place places.old.entries) cell.now) }
{
    match places.insert(place_of(alloc, cell)?, cell) {
        Ok(_) => Ok(()),
        Err(_) => Err(NoMemory),
    }
}

fn place_of(alloc: Global, cell: &KeptCell) -> Result<Bytes, NoMemory>
    ensures { IfOk result (λ place. place ≡ cell_place cell.now) }
{
    let mut place = Vec::new(alloc);
    place.push(cell.kind)?;
    place.extend_from_slice(cell.name.as_slice())?;
    Ok(Bytes::from(place))
}

fn list_between(
    alloc: Global,
    places: &Places<'_>,
    after: u64,
    upto: u64,
) -> Result<Vec<KeptCell>, NoMemory>
    ensures told { IfOk result
        (λ list. list.items ≡ between_of after upto (map content_at places.now.entries)) }
    ensures ordered { IsOrdered (slice_cmp nat_cmp) places.now }
{
    // Its keys rise.
    let _places = places.len();
    let mut list = Vec::new(alloc);
    for (place, cell) in places {
        if after < cell.touched && cell.touched <= upto {
            list.push(cell_in(alloc, place.as_slice(), cell)?)?;
        }
    }
    Ok(list)
}

// A copy of the cell in a place.
fn cell_in(alloc: Global, place: &[u8], cell: &KeptCell) -> Result<KeptCell, NoMemory>
    ensures { IfOk result (λ copy. copy ≡ cell_at (place.now, cell_content cell.now)) }
{
    let (kind, name) = match place {
        [kind, name @ ..] => (*kind, name),
        [] => (0, place),
    };
    Ok(KeptCell {
        kind,
        name: Bytes::copy_of(alloc, name)?,
        touched: cell.touched,
        row: cell.share_row()?,
    })
}
