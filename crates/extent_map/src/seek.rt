//! The next block that is a hole, or is none.
ghost use Rattle.std.specs.Prelude.{◌≡◌, ◌<◌, ◌^◌, drop, length};
ghost use Rattle.std.specs.List.{position_from};
ghost use Rattle.extent_map.specs.Expansion.{kinds_of};
ghost use Rattle.extent_map.specs.Keeping.{FollowOn, LiesIn};
ghost use Rattle.extent_map.specs.Sorts as sorts;

use crate::kind::is_sort;
use crate::place::place_of;
use io_model::Extent;

/// The least block at or after `b` that is a hole, or for false the least that is none.
pub(crate) fn first_from(runs: &[Extent], hole: bool, b: u64) -> Option<u64>
    requires follow { FollowOn 0 runs.now }
    requires short { length (kinds_of runs.now) < 2 ^ 64 }
    ensures { result ≡ position_from (sorts.is_sort hole) b (drop b (kinds_of runs.now)) }
{
    if b >= blocks_of(runs) {
        return None;
    }
    let at = place_of(runs, b);
    if is_sort(hole, runs[at].kind) {
        return Some(b);
    }
    first_after(runs, hole, b, at)
}

/// The same, where the run at `at` has block `b` and is not of the sort.
fn first_after(runs: &[Extent], hole: bool, b: u64, at: usize) -> Option<u64>
    requires follow { FollowOn 0 runs.now }
    requires place { LiesIn runs.now b at }
    requires other { sorts.IsOther hole runs.now at }
    ensures { result ≡ position_from (sorts.is_sort hole) b (drop b (kinds_of runs.now)) }
{
    for next in at + 1..runs.len() {
        if is_sort(hole, runs[next].kind) {
            return Some(runs[next].block);
        }
    }
    None
}

/// How many blocks the runs have.
pub(crate) fn blocks_of(runs: &[Extent]) -> u64
    requires follow { FollowOn 0 runs.now }
    requires short { length (kinds_of runs.now) < 2 ^ 64 }
    ensures { result ≡ length (kinds_of runs.now) }
{
    let count = runs.len();
    if count == 0 {
        return 0;
    }
    let last = runs[count - 1];
    last.block + last.length
}
