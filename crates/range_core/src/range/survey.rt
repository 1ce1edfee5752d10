//! Which blocks of an extent are dirty.
ghost use Rattle.std.specs.Prelude.{◌≡◌, ◌≤◌, length};
ghost use Rattle.range_core.specs.Surveys.{dirty_word};

use super::Range;
use crate::cell::Cell;
use crate::claims::Claims;
use io_model::Extent;
use turn_cell::Change;

/// What a range looked like at a turn, with its dirty blocks: bit i of `dirty` tells whether the block with number i in
/// the extent is dirty.
#[derive(Clone, Copy)]
pub struct Survey {
    pub cookie: u64,
    pub extent: Extent,
    pub dirty: u64,
}

/// The dirty bits of the first `n` of these blocks, that of the first lowest.
fn dirty_bits(cells: &[Cell], n: usize) -> u64
    requires within { n ≤ length cells.now }
    requires few { n ≤ 64 }
    ensures { result ≡ dirty_word cells.now n }
{
    let mut word = 0;
    for i in 0..n {
        word = word * 2 + u64::from(cells[n - 1 - i].dirty);
    }
    word
}

impl Range {
    ghost use Rattle.range_core.specs.RangeView.{LiesAt};
    ghost use Rattle.range_core.specs.Surveys.{survey_at};

    /// The cookie, the extent of `Range::sample`, and which of its blocks are dirty. It takes no memory.
    pub fn survey(&self, block: u64, most: u64) -> Survey
        requires { LiesAt self.now block 1 }
        ensures { result ≡ survey_at self.now block most }
    {
        let sample = self.sample(block, most);
        let at = (block - self.first) as usize;
        Survey {
            cookie: sample.cookie,
            extent: sample.extent,
            dirty: dirty_bits(&self.cells[at..], sample.extent.length as usize),
        }
    }
}

/// The turn of `Range::survey`, which enters the history as a sample. It answers the same.
#[derive(Clone, Copy)]
pub struct SurveyRun {
    pub block: u64,
    pub most: u64,
}

impl Change<Range> for SurveyRun {
    ghost use Rattle.range_core.specs.ClaimsView.{MayTurn};
    ghost use Rattle.range_core.specs.Samples.{MaySample};
    ghost use Rattle.range_core.specs.Surveys.{Surveyed};

    type Out = Survey;

    ghost ready = { λ change opening _ claims. MayTurn claims (MaySample opening change.block change.most) };

    ghost does = { λ change opening _ before claims later after left out entry. Surveyed opening change later before after claims left out entry };

    fn apply(&mut self, value: &mut Range, _claims: &mut Claims) -> Survey {
        value.survey(self.block, self.most)
    }
}
