//! The run that has a block.
ghost use Rattle.std.specs.Prelude.{◌<◌, ◌≤◌, length};
ghost use Rattle.extent_map.specs.Expansion.{kinds_of};
ghost use Rattle.extent_map.specs.Keeping.{Apart, FollowOn, LiesIn};
ghost use Rattle.extent_map.specs.Longest.{IsLookup};

use crate::kind::nth_kind;
use io_model::Extent;

/// The index of the run that has block `b`, by binary search.
pub(crate) fn place_of(runs: &[Extent], b: u64) -> usize
    requires follow { FollowOn 0 runs.now }
    requires inside { b < length (kinds_of runs.now) }
    ensures { LiesIn runs.now b result }
{
    let mut low = 0;
    let mut high = runs.len();
    while high - low > 1 {
        let middle = low + (high - low) / 2;
        if runs[middle].block <= b {
            low = middle;
        } else {
            high = middle;
        }
    }
    low
}

/// The longest run from block `b` on, cut at `max` blocks.
pub(crate) fn longest_run(runs: &[Extent], b: u64, max: u64) -> Extent
    requires follow { FollowOn 0 runs.now }
    requires apart { Apart runs.now }
    requires inside { b < length (kinds_of runs.now) }
    requires some { 1 ≤ max }
    ensures { IsLookup (kinds_of runs.now) b max result }
{
    let run = runs[place_of(runs, b)];
    let skipped = b - run.block;
    Extent {
        block: b,
        length: max.min(run.length - skipped),
        kind: nth_kind(run.kind, skipped),
    }
}
