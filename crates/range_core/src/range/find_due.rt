//! The first block that a sync has still to do with.
ghost use Rattle.std.specs.Prelude.{◌≡◌, ◌≤◌, length};
ghost use Rattle.range_core.specs.FindDues.{due_in};

use super::Range;
use crate::cell::Cell;
use crate::claims::Claims;
use crate::leading::{Joins, leading_run};
use crate::sample::Sample;
use turn_cell::Change;

/// A block is at home and not dirty.
#[derive(Clone, Copy)]
struct IsCalm {}

impl Joins for IsCalm {
    ghost use Rattle.range_core.specs.FindDues.{is_calm};

    ghost joins = { λ _ _ cell. is_calm cell };

    fn has(&self, _i: u64, cell: &Cell) -> bool {
        if cell.dirty {
            return false;
        }
        cell.away.is_none()
    }
}

/// The first of these blocks, of at most `most`, that is not calm. The first block is `block`.
fn first_due(cells: &[Cell], block: u64, most: usize) -> Option<u64>
    requires few { length cells.now ≤ 65536 }
    requires place { block ≤ 65536 }
    ensures { result ≡ due_in cells.now block most }
{
    let calm = leading_run(&IsCalm {}, cells, most);
    if calm == cells.len().min(most) {
        return None;
    }
    Some(block + calm as u64)
}

/// What a look for work found: a sample, and the first block that is dirty or away, where there is one.
#[derive(Clone, Copy)]
pub struct Found {
    pub sample: Sample,
    pub due: Option<u64>,
}

impl Range {
    ghost use Rattle.range_core.specs.FindDues.{due_at};
    ghost use Rattle.range_core.specs.Lookups.{sample_at};
    ghost use Rattle.range_core.specs.RangeView.{LiesAt};

    /// A sample of `block`, and the first of the blocks from it on, at most `most`, that is dirty or lent out. All before
    /// it are at home and not dirty, and so are all of them where there is none. It takes no memory.
    pub fn find_due(&self, block: u64, most: u64) -> Found
        requires { LiesAt self.now block 1 }
        ensures sample { result.sample ≡ sample_at self.now block most }
        ensures due { result.due ≡ due_at self.now block most }
    {
        let at = (block - self.first) as usize;
        Found {
            sample: self.sample(block, most),
            due: first_due(&self.cells[at..], block, most as usize),
        }
    }
}

/// The turn of `Range::find_due`, which enters the history as a sample. It answers the same.
#[derive(Clone, Copy)]
pub struct FindDueRun {
    pub block: u64,
    pub most: u64,
}

impl Change<Range> for FindDueRun {
    ghost use Rattle.range_core.specs.ClaimsView.{MayTurn};
    ghost use Rattle.range_core.specs.FindDues.{FoundDue};
    ghost use Rattle.range_core.specs.Samples.{MaySample};

    type Out = Found;

    ghost ready = { λ change opening _ claims. MayTurn claims (MaySample opening change.block change.most) };

    ghost does = { λ change opening _ before claims later after left out entry. FoundDue opening change later before after claims left out entry };

    fn apply(&mut self, value: &mut Range, _claims: &mut Claims) -> Found {
        value.find_due(self.block, self.most)
    }
}
