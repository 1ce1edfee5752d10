//! Which blocks of a folio are uptodate, and which are dirty.
ghost use Rattle.std.specs.Prelude.{◌≡◌, ◌+◌, ◌<◌, ◌≤◌, true, false, length, MatchOption};

use crate::mask::{contains, next_run, with, without};
use std::marker::Model;

/// The blocks of a folio that are uptodate, and those that are dirty. A folio's blocks are counted from 0.
///
/// iomap keeps such bits for the blocks of each folio, as its guide to operations says. To a contract it is two sets of
/// blocks, each a list that tells of each block whether it is in the set. No call takes memory.
#[derive(Drop)]
pub struct FolioBits {
    blocks: u32,
    // The bit of a block's number is set where the block is in the set. Bits past the folio tell nothing.
    uptodate: u32,
    dirty: u32,
}

impl Model for FolioBits {
    ghost use Rattle.std.specs.Prelude.{◌≤◌};
    ghost use Rattle.folio_bits.specs.BlockSets.{BlockSets, set_of};

    ghost Value = { BlockSets };

    ghost view = { λ f. record { uptodate = set_of f.blocks f.uptodate; dirty = set_of f.blocks f.dirty } };

    ghost invariant = { λ f. f.blocks ≤ 32 };
}

impl FolioBits {
    ghost use Rattle.folio_bits.specs.BlockSets.{has, no_blocks, with_run, HasNoneFrom, IsNextRun};

    /// A folio of 1 to 32 blocks, none of them uptodate or dirty.
    pub fn new(blocks: u32) -> FolioBits
        requires some { 1 ≤ blocks }
        requires few { blocks ≤ 32 }
        ensures { result ≡ no_blocks blocks }
    {
        FolioBits {
            blocks,
            uptodate: 0,
            dirty: 0,
        }
    }

    /// The `n` blocks from `from` on become uptodate.
    pub fn set_uptodate(&mut self, from: u32, n: u32)
        requires { from + n ≤ length self.old.uptodate }
        ensures { self.new ≡ record self.old { uptodate = with_run self.old.uptodate from n true } }
    {
        self.uptodate = with(self.uptodate, from, n);
    }

    /// The `n` blocks from `from` on are not uptodate any more.
    pub fn clear_uptodate(&mut self, from: u32, n: u32)
        requires { from + n ≤ length self.old.uptodate }
        ensures { self.new ≡ record self.old { uptodate = with_run self.old.uptodate from n false } }
    {
        self.uptodate = without(self.uptodate, from, n);
    }

    /// The `n` blocks from `from` on become dirty.
    pub fn set_dirty(&mut self, from: u32, n: u32)
        requires { from + n ≤ length self.old.dirty }
        ensures { self.new ≡ record self.old { dirty = with_run self.old.dirty from n true } }
    {
        self.dirty = with(self.dirty, from, n);
    }

    /// The `n` blocks from `from` on are not dirty any more.
    pub fn clear_dirty(&mut self, from: u32, n: u32)
        requires { from + n ≤ length self.old.dirty }
        ensures { self.new ≡ record self.old { dirty = with_run self.old.dirty from n false } }
    {
        self.dirty = without(self.dirty, from, n);
    }

    /// Whether this block is uptodate.
    pub fn is_uptodate(&self, block: u32) -> bool
        requires { block < length self.now.uptodate }
        ensures { result ≡ has self.now.uptodate block }
    {
        contains(self.uptodate, self.blocks, block)
    }

    /// Whether this block is dirty.
    pub fn is_dirty(&self, block: u32) -> bool
        requires { block < length self.now.dirty }
        ensures { result ≡ has self.now.dirty block }
    {
        contains(self.dirty, self.blocks, block)
    }

    /// The first dirty block at or after `from`, and how many blocks on from it are dirty without a gap.
    /// `None` where no block at or after `from` is dirty.
    pub fn next_dirty_run(&self, from: u32) -> Option<(u32, u32)>
        ensures { MatchOption result (HasNoneFrom self.now.dirty from) (λ run. IsNextRun self.now.dirty from run.0 run.1) }
    {
        next_run(self.dirty, self.blocks, from)
    }
}
