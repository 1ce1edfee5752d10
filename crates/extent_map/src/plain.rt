//! The map as it is defined: one kind a block. It is slow, and shows what the calls mean.
ghost use Rattle.std.specs.Prelude.{◌≡◌, ◌+◌, ◌<◌, ◌≤◌, IfOk, IfSome, IfNone, OnOk, OnErr, length, replicate};
ghost use Rattle.extent_map.specs.BlockKinds.{with_run};
ghost use Rattle.extent_map.specs.Expansion.{NumbersFit};
ghost use Rattle.extent_map.specs.Longest.{IsLookup};
ghost use Rattle.extent_map.specs.Merged.{IsMergedList};
ghost use Rattle.extent_map.specs.Sorts.{IsLeastFrom, NoneFrom, is_data, is_hole};
ghost use Rattle.io_model.specs.declared.file.Kind.TheVariants.{Hole};

use crate::walk::{fill, holes, merge, next_of_sort, run_from};
use io_model::{Extent, Kind};
use std::alloc::{AllocError, Global};
use std::marker::Model;

/// What an `ExtentMap` is seen as, kept as it is seen: one kind a block, and a count of spare cuts,
/// of which each `set` uses two. Its calls have the contracts of that map's calls.
#[derive(Drop)]
pub struct PlainMap {
    kinds: Vec<Kind>,
    spare: u64,
}

impl Model for PlainMap {
    ghost use Rattle.extent_map.specs.BlockKinds.{BlockKinds};

    ghost Value = { BlockKinds };

    ghost view = { λ m. record { kinds = m.kinds.items; spare = m.spare } };
}

impl PlainMap {
    /// A map of so many blocks, all holes. Want of memory is its only error.
    pub fn new(alloc: Global, blocks: u64) -> Result<PlainMap, AllocError>
        ensures { IfOk result (λ map. map.kinds ≡ replicate blocks Hole) }
    {
        let kinds = holes(alloc, blocks)?;
        Ok(PlainMap { kinds, spare: 0 })
    }

    /// The longest run from block `b` on of one kind with consecutive device numbers, cut at `max`
    /// blocks.
    pub fn lookup(&self, b: u64, max: u64) -> Extent
        requires inside { b < length self.now.kinds }
        requires some { 1 ≤ max }
        ensures { IsLookup self.now.kinds b max result }
    {
        run_from(&self.kinds, b, max)
    }

    /// Makes the spare cuts at least `n`. It takes no memory.
    pub fn reserve_cuts(&mut self, n: u64) -> Result<(), AllocError>
        ensures kinds { self.new.kinds ≡ self.old.kinds }
        ensures kept { self.old.spare ≤ self.new.spare }
        ensures ok { OnOk result (n ≤ self.new.spare) }
        ensures err { OnErr result (self.new ≡ self.old) }
    {
        self.spare = self.spare.max(n);
        Ok(())
    }

    /// Makes `n` blocks from `b` on a run of this kind, whose device numbers go on by one. All
    /// others stay. It uses two cuts.
    pub fn set(&mut self, b: u64, n: u64, kind: Kind)
        requires some { 1 ≤ n }
        requires inside { b + n ≤ length self.old.kinds }
        requires numbers { NumbersFit kind n }
        requires cuts { 2 ≤ self.old.spare }
        ensures kinds { self.new.kinds ≡ with_run self.old.kinds b n kind }
        ensures length { length self.new.kinds ≡ length self.old.kinds }
        ensures cuts { self.old.spare ≤ self.new.spare + 2 }
    {
        fill(&mut self.kinds, b, n, kind);
        self.spare -= 2;
    }

    /// The merged list of extents, holes among them. Want of memory is its only error.
    pub fn extents(&self, alloc: Global) -> Result<Vec<Extent>, AllocError>
        ensures { IfOk result (λ extents. IsMergedList self.now.kinds extents.items) }
    {
        merge(alloc, &self.kinds)
    }

    /// The least block at or after `b` that is no hole.
    pub fn next_data(&self, b: u64) -> Option<u64>
        ensures least { IfSome result (λ x. IsLeastFrom is_data self.now.kinds b x) }
        ensures none { IfNone result (NoneFrom is_data self.now.kinds b) }
    {
        next_of_sort(&self.kinds, false, b)
    }

    /// The least block at or after `b` that is a hole.
    pub fn next_hole(&self, b: u64) -> Option<u64>
        ensures least { IfSome result (λ x. IsLeastFrom is_hole self.now.kinds b x) }
        ensures none { IfNone result (NoneFrom is_hole self.now.kinds b) }
    {
        next_of_sort(&self.kinds, true, b)
    }
}
