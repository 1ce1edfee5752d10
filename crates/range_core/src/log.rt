//! The stamps of a range, kept as runs.
ghost use Rattle.std.specs.Prelude.{◌≡◌, ◌+◌, ◌*◌, ◌<◌, ◌≤◌, ◌==◌, ◌++◌, ◌^◌, ◌&&◌, [], true, All, OnOk, vec_capacity, vec_len};
ghost use Rattle.range_core.specs.StampRuns.{HasBlocks, equal_marks, equal_stamps, expanded, goes_on, runs_more};
ghost use Rattle.range_core.specs.Stamps.{stamps_from};

use crate::stamp_run::StampRun;
use iob_base::{Mark, Stamp};
use std::alloc::{AllocError, Global};
use std::marker::Model;

/// The stamps of a range, in the order of the events that left them, kept as runs: one stamp on blocks that follow each
/// other. Contracts see it as a `LogView`, which lists one stamp a block.
///
/// # Invariants
///
/// Each run has a block.
#[derive(Drop)]
pub(crate) struct StampLog {
    runs: Vec<StampRun>,
}

impl Model for StampLog {
    ghost use Rattle.std.specs.Prelude.{All, vec_capacity, vec_len};
    ghost use Rattle.range_core.specs.StampRuns.{HasBlocks, LogView, expanded};

    ghost Value = { LogView };

    ghost view = { λ l. record { items = expanded l.runs.items; used = vec_len l.runs; capacity = vec_capacity l.runs } };

    ghost invariant = { λ l. All HasBlocks l.runs.items };
}

impl StampLog {
    /// No stamps. It takes no memory.
    pub(crate) fn new(alloc: Global) -> StampLog
        ensures items { result.items ≡ [] }
        ensures used { result.used ≡ 0 }
    {
        StampLog {
            runs: Vec::new(alloc),
        }
    }

    /// What the runs are allocated with.
    pub(crate) fn allocator(&self) -> Global {
        *self.runs.allocator()
    }

    /// The runs, in order.
    pub(crate) fn runs(&self) -> &[StampRun]
        ensures { expanded result.now ≡ self.now.items }
    {
        self.runs.as_slice()
    }

    /// Makes room for one run, and for what may come back of so many blocks that are away. A write that fails has landed
    /// on some blocks and missed the others, so a return leaves at most two runs.
    ///
    /// # Errors
    ///
    /// Want of memory, which leaves the stamps as they were.
    pub(crate) fn reserve(&mut self, blocks: usize) -> Result<(), AllocError>
        requires few { blocks < 2 ^ 63 }
        ensures items { self.new.items ≡ self.old.items }
        ensures used { self.new.used ≡ self.old.used }
        ensures ok { OnOk result (self.new.used + (1 + 2 * blocks) ≤ self.new.capacity) }
        ensures capacity { self.old.capacity ≤ self.new.capacity }
    {
        self.runs.reserve(1 + 2 * blocks)
    }

    /// Adds one stamp for each of `n` blocks from `block` on. There is room for a run. Where the last stamp is the same,
    /// on the block before, its run is lengthened, which takes no room.
    pub(crate) fn add(&mut self, block: u64, n: usize, stamp: Stamp)
        requires room { self.old.used < self.old.capacity }
        requires fits { block + n < 2 ^ 64 }
        ensures items { self.new.items ≡ self.old.items ++ stamps_from block n stamp }
        ensures used { self.new.used ≡ self.old.used + runs_more block n stamp self.old.items }
        ensures few { self.new.used ≤ self.old.used + 1 }
        ensures kept { self.new.capacity ≡ self.old.capacity }
    {
        if n == 0 {
            return;
        }
        if can_lengthen(self.runs.as_slice(), block, stamp) {
            return lengthen(&mut self.runs, block, n as u64, stamp);
        }
        self.runs.push_reserved(StampRun {
            first: block,
            count: n as u64,
            stamp,
        });
    }
}

fn is_same_mark(a: Mark, b: Mark) -> bool
    ensures { result ≡ equal_marks a b }
{
    match a {
        Mark::Done => matches!(b, Mark::Done),
        Mark::Landed => matches!(b, Mark::Landed),
        Mark::Missed => matches!(b, Mark::Missed),
    }
}

fn is_same(a: Stamp, b: Stamp) -> bool
    ensures { result ≡ equal_stamps a b }
{
    if a.caller != b.caller {
        return false;
    }
    if a.call != b.call {
        return false;
    }
    is_same_mark(a.mark, b.mark)
}

/// Whether a run ends right before a block, with the same stamp.
fn ends_before(run: StampRun, block: u64, stamp: Stamp) -> bool
    ensures { result ≡ ((run.first + run.count == block) && equal_stamps run.stamp stamp) }
{
    if block < run.first {
        return false;
    }
    if block - run.first != run.count {
        return false;
    }
    is_same(run.stamp, stamp)
}

/// Whether stamps of blocks from `block` on lengthen the last run.
fn can_lengthen(runs: &[StampRun], block: u64, stamp: Stamp) -> bool
    requires { All HasBlocks runs.now }
    ensures { result ≡ goes_on block stamp (expanded runs.now) }
{
    let Some(last) = runs.last() else {
        return false;
    };
    ends_before(*last, block, stamp)
}

/// Lengthens the last run by `n` blocks.
fn lengthen(runs: &mut Vec<StampRun>, block: u64, n: u64, stamp: Stamp)
    requires blocks { All HasBlocks runs.old.items }
    requires goes_on { goes_on block stamp (expanded runs.old.items) ≡ true }
    requires fits { block + n < 2 ^ 64 }
    ensures items { expanded runs.new.items ≡ expanded runs.old.items ++ stamps_from block n stamp }
    ensures blocks { All HasBlocks runs.new.items }
    ensures len { vec_len runs.new ≡ vec_len runs.old }
    ensures kept { vec_capacity runs.new ≡ vec_capacity runs.old }
{
    let last = runs.len() - 1;
    let run = &mut runs[last];
    run.count += n;
}
