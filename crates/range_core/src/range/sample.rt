//! What a range looks like at a turn.
ghost use Rattle.std.specs.Prelude.{◌≡◌, ◌<◌, drop};

use super::Range;
use crate::claims::Claims;
use crate::run::run_at;
use crate::sample::Sample;
use io_model::Extent;
use iob_base::STRIPE;
use turn_cell::Change;

impl Range {
    ghost use Rattle.range_core.specs.Lookups.{sample_at};
    ghost use Rattle.range_core.specs.RangeView.{LiesAt};

    /// A sample: the cookie, the count of failed writebacks, and the longest extent from `block` on of at most `most`
    /// blocks that crosses no multiple of a stripe. It takes no memory.
    pub fn sample(&self, block: u64, most: u64) -> Sample
        requires { LiesAt self.now block 1 }
        ensures { result ≡ sample_at self.now block most }
    {
        let at = (block - self.first) as usize;
        let most = most.min(STRIPE - block % STRIPE);
        Sample {
            cookie: self.cookie,
            errors: self.errors,
            extent: Extent {
                block,
                length: run_at(&self.cells, at, most as usize) as u64,
                kind: self.cells[at].kind,
            },
        }
    }
}

/// The turn of `Range::sample`. It answers the sample, which has at least one block.
#[derive(Clone, Copy)]
pub struct SampleRun {
    pub block: u64,
    pub most: u64,
}

impl Change<Range> for SampleRun {
    ghost use Rattle.range_core.specs.ClaimsView.{MayTurn};
    ghost use Rattle.range_core.specs.Samples.{GaveSample, MaySample};

    type Out = Sample;

    ghost ready = { λ change opening _ claims. MayTurn claims (MaySample opening change.block change.most) };

    ghost does = { λ change opening _ before claims later after left out entry. GaveSample opening change later before after claims left out entry };

    fn apply(&mut self, value: &mut Range, _claims: &mut Claims) -> Sample {
        value.sample(self.block, self.most)
    }
}
