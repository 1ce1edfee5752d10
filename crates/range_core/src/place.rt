//! Which blocks of a run an event picks, how many they are, and how they take sectors.
ghost use Rattle.std.specs.Prelude.{◌≡◌, ◌≤◌, ◌+◌, ◌^◌, slice_get, length, vec_len};
ghost use Rattle.std.specs.Vec.Iter.{into_iter_items};
ghost use Rattle.range_core.specs.OnRun.{count_on, on_each};
ghost use Rattle.range_core.specs.Placing.{left_by, picked_with, placed_at};

use crate::cell::{Cell, is_placed};
use io_model::Kind;
use iob_base::Sector;
use std::vec::IntoIter;

/// A test that picks blocks.
pub(crate) trait Picks {
    ghost use Rattle.std.specs.Prelude.{Bool};
    ghost use Rattle.range_core.specs.declared.cell.Cell.{Cell};

    ghost picks: { Self → Cell → Bool };

    fn is_picked(&self, cell: &Cell) -> bool
        ensures { result ≡ picks self.now cell.now };
}

/// Space is promised to the block, and there is nothing to write.
pub(crate) struct IsUnused {}

impl Picks for IsUnused {
    ghost use Rattle.range_core.specs.Placing.{is_unused};

    ghost picks = { λ _. is_unused };

    fn is_picked(&self, cell: &Cell) -> bool {
        matches!(cell.kind, Kind::Delalloc) && !cell.dirty
    }
}

/// Space is promised to the block, and there are bytes to be written to it.
pub(crate) struct AwaitsSector {}

impl Picks for AwaitsSector {
    ghost use Rattle.range_core.specs.Placing.{awaits_sector};

    ghost picks = { λ _. awaits_sector };

    fn is_picked(&self, cell: &Cell) -> bool {
        matches!(cell.kind, Kind::Delalloc) && cell.dirty
    }
}

/// Space is promised to the block.
pub(crate) struct IsPromised {}

impl Picks for IsPromised {
    ghost use Rattle.range_core.specs.Placing.{is_promised};

    ghost picks = { λ _. is_promised };

    fn is_picked(&self, cell: &Cell) -> bool {
        matches!(cell.kind, Kind::Delalloc)
    }
}

/// The block has no space, promised or not.
pub(crate) struct IsEmpty {}

impl Picks for IsEmpty {
    ghost use Rattle.range_core.specs.Placing.{is_empty};

    ghost picks = { λ _. is_empty };

    fn is_picked(&self, cell: &Cell) -> bool {
        matches!(cell.kind, Kind::Hole)
    }
}

/// The block has space, or a promise of it.
pub(crate) struct IsUsed {}

impl Picks for IsUsed {
    ghost use Rattle.range_core.specs.Placing.{is_used};

    ghost picks = { λ _. is_used };

    fn is_picked(&self, cell: &Cell) -> bool {
        !matches!(cell.kind, Kind::Hole)
    }
}

/// The block has no sector.
pub(crate) struct LacksSector {}

impl Picks for LacksSector {
    ghost use Rattle.range_core.specs.Placing.{lacks_sector};

    ghost picks = { λ _. lacks_sector };

    fn is_picked(&self, cell: &Cell) -> bool {
        !is_placed(cell.kind)
    }
}

/// How many blocks of a run are picked.
pub(crate) fn count_run<T: Picks>(test: &T, cells: &[Cell], low: usize, blocks: usize) -> u64
    requires { low + blocks ≤ length cells.now }
    ensures count { result ≡ count_on (T.picks test.now) low blocks cells.now }
    ensures few { result ≤ blocks }
{
    let mut picked = 0u64;
    for i in 0..blocks {
        if test.is_picked(&cells[low + i]) {
            picked += 1;
        }
    }
    picked
}

// A picked block takes the next sector.
fn place_next<T: Picks>(test: &T, cell: &mut Cell, sectors: &mut IntoIter<Sector>)
    ensures cell { cell.new ≡ picked_with (T.picks test.now cell.old) (slice_get (into_iter_items sectors.old) 0) cell.old }
    ensures left { into_iter_items sectors.new ≡ left_by (T.picks test.now cell.old) (into_iter_items sectors.old) }
{
    if !test.is_picked(cell) {
        return;
    }
    if let Some(sector) = sectors.next() {
        cell.kind = Kind::Unwritten(sector.number());
        cell.sector = Some(sector);
    }
}

/// The picked blocks of a run take these sectors, in order, and become unwritten.
pub(crate) fn place_run<T: Picks>(
    test: &T,
    cells: &mut Vec<Cell>,
    low: usize,
    blocks: usize,
    sectors: Vec<Sector>,
)
    requires { low + blocks ≤ vec_len cells.old }
    ensures { cells.new.items ≡ on_each (placed_at (T.picks test.now) low cells.old.items sectors.items) 0 low blocks cells.old.items }
{
    let mut rest = sectors.into_iter();
    for i in 0..blocks {
        place_next(test, &mut cells[low + i], &mut rest);
    }
}
