//! How a range begins.
ghost use Rattle.std.specs.Prelude.{◌≡◌, ◌+◌, ◌<◌, ◌≤◌, ◌^◌, All, IfOk};
ghost use Rattle.std.specs.Vec.Iter.{into_iter_items};
ghost use Rattle.range_core.specs.Cells.{cell_of, cells_of, cold_cell, sectors_after};
ghost use Rattle.range_core.specs.Kinds.{HasNumbers, kinds_from};

use crate::cell::{Cell, is_placed, kind_of};
use io_model::{Extent, Kind};
use iob_base::Sector;
use std::alloc::{AllocError, Global};
use std::vec::IntoIter;

/// The blocks that the extents and their sectors make.
pub(crate) fn build_cells(
    alloc: Global,
    extents: &[Extent],
    first: u64,
    blocks: u64,
    sectors: Vec<Sector>,
) -> Result<Vec<Cell>, AllocError>
    requires numbers { All HasNumbers extents.now }
    requires few { first + blocks ≤ 65536 }
    ensures { IfOk result (λ cells. cells.items ≡ cells_of (kinds_from extents.now first blocks) sectors.items) }
{
    let mut cells = Vec::with_capacity(alloc, blocks as usize)?;
    let mut rest = sectors.into_iter();
    for i in 0..blocks {
        let cell = next_cell(kind_of(extents, first + i), &mut rest);
        cells.push(cell)?;
    }
    Ok(cells)
}

fn next_cell(kind: Kind, sectors: &mut IntoIter<Sector>) -> Cell
    ensures cell { result ≡ cell_of kind (into_iter_items sectors.old) }
    ensures rest { into_iter_items sectors.new ≡ sectors_after kind (into_iter_items sectors.old) }
{
    if !is_placed(kind) {
        return clean_cell(kind, None);
    }
    clean_cell(kind, sectors.next())
}

fn clean_cell(kind: Kind, sector: Option<Sector>) -> Cell
    ensures { result ≡ cold_cell kind sector }
{
    Cell {
        kind,
        sector,
        away: None,
        page: None,
        dirty: false,
    }
}
