//! Clean pages are dropped.
ghost use Rattle.std.specs.Prelude.{◌≡◌, ◌<◌, ◌≤◌, ◌+◌, ◌^◌, vec_len};
ghost use Rattle.range_core.specs.DropCleans.{is_droppable, without_clean_page};
ghost use Rattle.range_core.specs.EntryCounts.{one_where};
ghost use Rattle.range_core.specs.OnRun.{count_on, on_run};

use super::Range;
use crate::cell::Cell;
use crate::claims::Claims;
use turn_cell::Change;

/// Whether a block is uptodate, clean and at home.
fn is_clean_page(cell: &Cell) -> bool
    ensures { result ≡ is_droppable cell.now }
{
    if cell.dirty {
        return false;
    }
    if cell.away.is_some() {
        return false;
    }
    cell.page.is_some()
}

// 1 where the block lost its page, else 0.
fn drop_page(cell: &mut Cell) -> u64
    ensures cell { cell.new ≡ without_clean_page cell.old }
    ensures dropped { result ≡ one_where (is_droppable cell.old) }
    ensures few { result ≤ 1 }
{
    if !is_clean_page(cell) {
        return 0;
    }
    cell.page = None;
    1
}

fn drop_run(cells: &mut Vec<Cell>, low: usize, blocks: usize) -> u64
    requires { low + blocks ≤ vec_len cells.old }
    ensures cells { cells.new.items ≡ on_run without_clean_page low blocks cells.old.items }
    ensures count { result ≡ count_on is_droppable low blocks cells.old.items }
{
    let mut dropped = 0u64;
    for i in 0..blocks {
        dropped += drop_page(&mut cells[low + i]);
    }
    dropped
}

impl Range {
    ghost use Rattle.range_core.specs.DropCleans.{dropped_count, dropped_run};
    ghost use Rattle.range_core.specs.RangeView.{LiesAt};

    /// Each of these blocks that is uptodate, clean and at home loses its page. It answers how many did. Their memory and
    /// that of pages kept for later is given up. It has no refusal and takes no memory.
    pub fn drop_clean(&mut self, block: u64, blocks: u64) -> u64
        requires { LiesAt self.old block blocks }
        ensures state { self.new ≡ dropped_run self.old block blocks }
        ensures count { result ≡ dropped_count self.old block blocks }
    {
        self.spare.clear();
        let low = (block - self.first) as usize;
        drop_run(&mut self.cells, low, blocks as usize)
    }
}

/// The turn of `Range::drop_clean`, which drops the clean pages of a run of blocks. It answers how many.
#[derive(Clone, Copy)]
pub struct DropCleanRun {
    pub block: u64,
    pub blocks: u64,
}

impl Change<Range> for DropCleanRun {
    ghost use Rattle.range_core.specs.ClaimsView.{MayTurn};
    ghost use Rattle.range_core.specs.DropCleans.{Dropped};
    ghost use Rattle.range_core.specs.RangeView.{LiesAt};

    type Out = u64;

    ghost ready = { λ change opening _ claims. MayTurn claims (LiesAt opening change.block change.blocks) };

    ghost does = { λ change _ _ before claims later after left out entry. Dropped change later before after claims left out entry };

    fn apply(&mut self, value: &mut Range, _claims: &mut Claims) -> u64 {
        value.drop_clean(self.block, self.blocks)
    }
}
