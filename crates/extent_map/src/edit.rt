//! Changes of the runs of a map, in place.
ghost use Rattle.std.specs.Prelude.{◌≡◌, ◌+◌, ◌<◌, ◌≤◌, ◌^◌, ◌∷◌, ◌++◌, drop, insert, length, slice_index_or, take, vec_capacity, vec_len};
ghost use Rattle.std.specs.Option.{option_to_list};
ghost use Rattle.extent_map.specs.BlockKinds.{with_run};
ghost use Rattle.extent_map.specs.Edits.{attach, below_list, joined_at, rest_list};
ghost use Rattle.extent_map.specs.Expansion.{NumbersFit, kinds_of};
ghost use Rattle.extent_map.specs.Keeping.{IsKept};
ghost use Rattle.extent_map.specs.Splicing.{Between};

use crate::kind::{can_join, nth_kind};
use crate::place::place_of;
use io_model::{Extent, Kind};

/// Makes `n` blocks from `b` on a run of this kind. All others stay.
pub(crate) fn set_run(runs: &mut Vec<Extent>, b: u64, n: u64, kind: Kind)
    requires kept { IsKept runs.old.items }
    requires some { 1 ≤ n }
    requires inside { b + n ≤ length (kinds_of runs.old.items) }
    requires numbers { NumbersFit kind n }
    requires room { vec_len runs.old + 2 ≤ vec_capacity runs.old }
    ensures kinds { kinds_of runs.new.items ≡ with_run (kinds_of runs.old.items) b n kind }
    ensures length { length (kinds_of runs.new.items) ≡ length (kinds_of runs.old.items) }
    ensures kept { IsKept runs.new.items }
    ensures len { vec_len runs.new ≤ vec_len runs.old + 2 }
    ensures capacity { vec_capacity runs.new ≡ vec_capacity runs.old }
{
    let from = splice(runs, b, n, kind);
    join(runs, from);
    join_before(runs, from);
}

/// Puts the run between what is left of the runs before it and after it, and says where it stands.
fn splice(runs: &mut Vec<Extent>, b: u64, n: u64, kind: Kind) -> usize
    requires kept { IsKept runs.old.items }
    requires some { 1 ≤ n }
    requires inside { b + n ≤ length (kinds_of runs.old.items) }
    requires room { vec_len runs.old + 2 ≤ vec_capacity runs.old }
    ensures stands { Between runs.old.items b n kind result runs.new.items }
    ensures len { vec_len runs.new ≤ vec_len runs.old + 2 }
    ensures capacity { vec_capacity runs.new ≡ vec_capacity runs.old }
{
    let first = place_of(runs, b);
    let last = place_of(runs, b + n - 1);
    let rest = rest_above(runs[last], b + n);
    let from = cut_below(runs, first, b);
    let run = Extent {
        block: b,
        length: n,
        kind,
    };
    replace(runs, from, last + 1, run);
    put_rest(runs, from + 1, rest);
    from
}

/// The part of a run from block `b` on, if there is one.
fn rest_above(run: Extent, b: u64) -> Option<Extent>
    requires from { run.block ≤ b }
    requires fits { NumbersFit run.kind run.length }
    ensures { option_to_list result ≡ rest_list run b }
{
    let skipped = b - run.block;
    if run.length <= skipped {
        return None;
    }
    Some(Extent {
        block: b,
        length: run.length - skipped,
        kind: nth_kind(run.kind, skipped),
    })
}

/// Cuts the run at `at` to the blocks below `b`, and says where the next one goes: where it stood,
/// if nothing is left of it.
fn cut_below(runs: &mut Vec<Extent>, at: usize, b: u64) -> usize
    requires { at < vec_len runs.old }
    ensures front { (d : Extent) → take result runs.new.items
        ≡ take at runs.old.items ++ below_list (slice_index_or runs.old.items at d) b }
    ensures back { drop (at + 1) runs.new.items ≡ drop (at + 1) runs.old.items }
    ensures place { result ≤ at + 1 }
    ensures len { vec_len runs.new ≡ vec_len runs.old }
    ensures capacity { vec_capacity runs.new ≡ vec_capacity runs.old }
{
    let start = runs[at].block;
    if b <= start {
        return at;
    }
    runs[at].length = b - start;
    at + 1
}

/// Puts a run in place of those from `from` on, below `to`.
fn replace(runs: &mut Vec<Extent>, from: usize, to: usize, run: Extent)
    requires order { from ≤ to }
    requires within { to ≤ vec_len runs.old }
    requires room { vec_len runs.old < vec_capacity runs.old }
    ensures items { runs.new.items ≡ take from runs.old.items ++ run ∷ drop to runs.old.items }
    ensures len { vec_len runs.new ≤ vec_len runs.old + 1 }
    ensures capacity { vec_capacity runs.new ≡ vec_capacity runs.old }
{
    if from == to {
        insert_spare(runs, from, run);
        return;
    }
    runs[from] = run;
    let kept = from + 1 + (runs.len() - to);
    runs.copy_within(to.., from + 1);
    runs.truncate(kept);
}

/// Puts what is left of a run at `at`, if anything is.
fn put_rest(runs: &mut Vec<Extent>, at: usize, rest: Option<Extent>)
    requires within { at ≤ vec_len runs.old }
    requires room { vec_len runs.old < vec_capacity runs.old }
    ensures items { runs.new.items
        ≡ take at runs.old.items ++ (option_to_list rest ++ drop at runs.old.items) }
    ensures len { vec_len runs.new ≤ vec_len runs.old + 1 }
    ensures capacity { vec_capacity runs.new ≡ vec_capacity runs.old }
{
    if let Some(rest) = rest {
        insert_spare(runs, at, rest);
    }
}

/// Inserts a run in spare room.
fn insert_spare(runs: &mut Vec<Extent>, at: usize, run: Extent)
    requires within { at ≤ vec_len runs.old }
    requires room { vec_len runs.old < vec_capacity runs.old }
    ensures items { runs.new.items ≡ insert runs.old.items at run }
    ensures len { vec_len runs.new ≡ vec_len runs.old + 1 }
    ensures capacity { vec_capacity runs.new ≡ vec_capacity runs.old }
{
    let Ok(()) = runs.insert(at, run) else {
        unreachable!();
    };
}

/// Joins the run at `at` with the next one where they could be one.
fn join(runs: &mut Vec<Extent>, at: usize)
    requires within { at < vec_len runs.old }
    requires short { length (kinds_of runs.old.items) < 2 ^ 64 }
    ensures items { runs.new.items ≡ joined_at at runs.old.items }
    ensures place { at < vec_len runs.new }
    ensures len { vec_len runs.new ≤ vec_len runs.old }
    ensures capacity { vec_capacity runs.new ≡ vec_capacity runs.old }
{
    if runs.len() - at < 2 {
        return;
    }
    let run = runs[at];
    let next = runs[at + 1];
    if !can_join(&run, &next) {
        return;
    }
    runs[at] = Extent {
        length: run.length + next.length,
        ..run
    };
    runs.remove(at + 1);
}

/// Joins the run at `at` with the one before it where they could be one.
fn join_before(runs: &mut Vec<Extent>, at: usize)
    requires within { at < vec_len runs.old }
    requires short { length (kinds_of runs.old.items) < 2 ^ 64 }
    ensures items { runs.new.items ≡ attach (take at runs.old.items) (drop at runs.old.items) }
    ensures len { vec_len runs.new ≤ vec_len runs.old }
    ensures capacity { vec_capacity runs.new ≡ vec_capacity runs.old }
{
    if at == 0 {
        return;
    }
    join(runs, at - 1);
}
