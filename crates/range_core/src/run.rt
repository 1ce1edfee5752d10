//! How far a run of blocks goes.
ghost use Rattle.std.specs.Prelude.{◌≡◌, ◌<◌, ◌≤◌, drop, length};
ghost use Rattle.range_core.specs.Runs.{run_from, run_length};

use crate::cell::{Cell, continues};
use io_model::Kind;

/// The length of the longest run of one extent from the place `at` on, of at most `most`.
pub(crate) fn run_at(cells: &[Cell], at: usize, most: usize) -> usize
    requires few { length cells.now ≤ 65536 }
    requires within { at ≤ length cells.now }
    ensures { result ≡ run_length (drop at cells.now) most }
{
    extent_run(&cells[at..], most)
}

fn extent_run(cells: &[Cell], most: usize) -> usize
    requires { length cells.now ≤ 65536 }
    ensures { result ≡ run_length cells.now most }
{
    match cells {
        [] => 0,
        [head, ..] => run_of(head.kind, cells, most),
    }
}

fn run_of(kind: Kind, cells: &[Cell], most: usize) -> usize
    requires { length cells.now ≤ 65536 }
    ensures { result ≡ run_from kind 0 cells.now most }
{
    let end = most.min(cells.len());
    for i in 0..end {
        if !continues(kind, i as u64, cells[i].kind) {
            return i;
        }
    }
    end
}
