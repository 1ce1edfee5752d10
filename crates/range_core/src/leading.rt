//! How many blocks at the head of a run pass a test.
ghost use Rattle.std.specs.Prelude.{◌≡◌, ◌<◌, ◌≤◌, length};
ghost use Rattle.range_core.specs.Lends.{lend_most};
ghost use Rattle.range_core.specs.Runs.{leading};

use crate::cell::Cell;
use iob_base::Geometry;

/// A test of the blocks of a run, by their number in it.
pub(crate) trait Joins {
    ghost use Rattle.std.specs.Prelude.{ℕ, Bool};
    ghost use Rattle.range_core.specs.declared.cell.Cell.{Cell};

    ghost joins: { Self → ℕ → Cell → Bool };

    fn has(&self, i: u64, cell: &Cell) -> bool
        requires { i ≤ 65536 }
        ensures { result ≡ joins self.now i cell.now };
}

/// Of the first `most` blocks, how many pass the test before the first that does not.
pub(crate) fn leading_run<T: Joins>(test: &T, cells: &[Cell], most: usize) -> usize
    requires { length cells.now ≤ 65536 }
    ensures { result ≡ leading (T.joins test.now) 0 cells.now most }
{
    let end = most.min(cells.len());
    for i in 0..end {
        if !test.has(i as u64, &cells[i]) {
            return i;
        }
    }
    end
}

/// How many blocks from `block` on one loan may have: at most `most`, at most 16, and those of one folio.
pub(crate) fn most_lent(geometry: Geometry, block: u64, most: u64) -> usize
    ensures value { result ≡ lend_most geometry block most }
    ensures some { 0 < most → 0 < result }
    ensures few { result ≤ 16 }
{
    let folio = u64::from(geometry.folio_blocks());
    most.min(16).min(folio - block % folio) as usize
}
