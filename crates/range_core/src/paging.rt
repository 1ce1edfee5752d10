//! Blocks of the cache get pages of zeros before anything is read from them or written over them.
ghost use Rattle.std.specs.Prelude.{◌≡◌, ◌+◌, ◌≤◌, vec_len, OnOk, OnErr};
ghost use Rattle.range_core.specs.EntryCounts.{one_where};
ghost use Rattle.range_core.specs.OnRun.{count_on, on_run};
ghost use Rattle.range_core.specs.BlockStates.{is_zero_already, state_of};
ghost use Rattle.range_core.specs.Paging.{filled_where};

use crate::cell::{Cell, is_mapped_kind};
use crate::fresh::pages_of_zeros;
use crate::spare::Spare;
use io_model::Kind;
use std::alloc::{AllocError, Global};

/// Which blocks an event gives a page of zeros.
pub(crate) trait Needs {
    ghost use Rattle.std.specs.Prelude.{Bool};
    ghost use Rattle.range_core.specs.declared.cell.Cell.{Cell};

    ghost needs: { Self → Cell → Bool };

    fn needs(&self, cell: &Cell) -> bool
        ensures { result ≡ needs self.now cell.now };
}

/// A block without a page.
pub(crate) struct NeedsPage {}

impl Needs for NeedsPage {
    ghost use Rattle.range_core.specs.Paging.{lacks_page};

    ghost needs = { λ _. lacks_page };

    fn needs(&self, cell: &Cell) -> bool {
        cell.page.is_none()
    }
}

/// Whether a block reads as zeros, at home and clean, so that zeros over it change nothing.
pub(crate) fn is_zero(cell: &Cell) -> bool
    ensures { result ≡ is_zero_already (state_of cell.now) }
{
    if is_mapped_kind(cell.kind) {
        return false;
    }
    if cell.dirty {
        return false;
    }
    cell.away.is_none()
}

/// A block without a page that zeros would change.
pub(crate) struct NeedsPageForZeros {}

impl Needs for NeedsPageForZeros {
    ghost use Rattle.range_core.specs.Paging.{lacks_page_for_zeros};

    ghost needs = { λ _. lacks_page_for_zeros };

    fn needs(&self, cell: &Cell) -> bool {
        if cell.page.is_some() {
            return false;
        }
        !is_zero(cell)
    }
}

// 1 where a block needs a page, else 0.
fn one_needed<T: Needs>(test: &T, cell: &Cell) -> usize
    ensures count { result ≡ one_where (T.needs test.now cell.now) }
    ensures few { result ≤ 1 }
{
    if test.needs(cell) { 1 } else { 0 }
}

/// How many of these blocks need a page.
pub(crate) fn count_needs<T: Needs>(test: &T, cells: &Vec<Cell>, low: usize, blocks: usize) -> usize
    requires { low + blocks ≤ vec_len cells.now }
    ensures count { result ≡ count_on (T.needs test.now) low blocks cells.now.items }
{
    let mut count = 0;
    for i in 0..blocks {
        count += one_needed(test, &cells[low + i]);
    }
    count
}

/// Gives each of these blocks that needs one a page of zeros. Want of memory is the only error, and leaves all blocks as
/// they were.
pub(crate) fn give_pages<T: Needs>(
    alloc: Global,
    size: u32,
    test: &T,
    cells: &mut Vec<Cell>,
    low: usize,
    blocks: usize,
    spare: &mut Spare,
) -> Result<(), AllocError>
    requires { low + blocks ≤ vec_len cells.old }
    ensures filled { OnOk result (cells.new.items ≡ on_run (filled_where (T.needs test.now) size) low blocks cells.old.items) }
    ensures unchanged { OnErr result (cells.new ≡ cells.old) }
{
    let count = count_needs(test, cells, low, blocks);
    let mut stock = pages_of_zeros(alloc, size, count, spare)?;
    for i in 0..blocks {
        let cell = &mut cells[low + i];
        if test.needs(cell) {
            cell.page = stock.pop();
        }
    }
    Ok(())
}
