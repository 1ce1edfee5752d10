//! The map and its calls.
ghost use Rattle.std.specs.Prelude.{◌≡◌, ◌+◌, ◌<◌, ◌≤◌, IfOk, IfSome, IfNone, OnOk, OnErr, length, replicate};
ghost use Rattle.extent_map.specs.BlockKinds.{with_run};
ghost use Rattle.extent_map.specs.Expansion.{NumbersFit};
ghost use Rattle.extent_map.specs.Longest.{IsLookup};
ghost use Rattle.extent_map.specs.Merged.{IsMergedList};
ghost use Rattle.extent_map.specs.Sorts.{IsLeastFrom, NoneFrom, is_data, is_hole};
ghost use Rattle.io_model.specs.declared.file.Kind.TheVariants.{Hole};

use crate::edit::set_run;
use crate::place::longest_run;
use crate::seek::first_from;
use io_model::{Extent, Kind};
use std::alloc::{AllocError, Global};
use std::marker::Model;

/// A kind for each block of a file, and a number of spare cuts.
///
/// Invariants: the runs cover the blocks in order, each has a block at least, no two neighbours
/// could be joined, and the device numbers of each are numbers of a device.
#[derive(Drop)]
pub struct ExtentMap {
    runs: Vec<Extent>,
}

impl Model for ExtentMap {
    ghost use Rattle.std.specs.Prelude.{◌-◌, vec_capacity, vec_len};
    ghost use Rattle.extent_map.specs.BlockKinds.{BlockKinds};
    ghost use Rattle.extent_map.specs.Expansion.{kinds_of};
    ghost use Rattle.extent_map.specs.Keeping.{IsKept};

    ghost Value = { BlockKinds };

    ghost view = { λ m. record {
      kinds = kinds_of m.runs.items;
      spare = vec_capacity m.runs - vec_len m.runs;
    } };

    ghost invariant = { λ m. IsKept m.runs.items };
}

impl ExtentMap {
    /// A map of so many blocks, all holes. Want of memory is its only error.
    pub fn new(alloc: Global, blocks: u64) -> Result<ExtentMap, AllocError>
        ensures { IfOk result (λ map. map.kinds ≡ replicate blocks Hole) }
    {
        let mut runs = Vec::new(alloc);
        if blocks == 0 {
            return Ok(ExtentMap { runs });
        }
        runs.push(Extent {
            block: 0,
            length: blocks,
            kind: Kind::Hole,
        })?;
        Ok(ExtentMap { runs })
    }

    /// The longest run from block `b` on of one kind with consecutive device numbers, cut at `max`
    /// blocks.
    pub fn lookup(&self, b: u64, max: u64) -> Extent
        requires inside { b < length self.now.kinds }
        requires some { 1 ≤ max }
        ensures { IsLookup self.now.kinds b max result }
    {
        longest_run(&self.runs, b, max)
    }

    /// Makes the spare cuts at least `n`. Want of memory leaves all as it was.
    pub fn reserve_cuts(&mut self, n: u64) -> Result<(), AllocError>
        ensures kinds { self.new.kinds ≡ self.old.kinds }
        ensures kept { self.old.spare ≤ self.new.spare }
        ensures ok { OnOk result (n ≤ self.new.spare) }
        ensures err { OnErr result (self.new ≡ self.old) }
    {
        self.runs.reserve(n as usize)
    }

    /// Makes `n` blocks from `b` on a run of this kind, whose device numbers go on by one. All
    /// others stay. It uses two cuts at most and takes no memory.
    pub fn set(&mut self, b: u64, n: u64, kind: Kind)
        requires some { 1 ≤ n }
        requires inside { b + n ≤ length self.old.kinds }
        requires numbers { NumbersFit kind n }
        requires cuts { 2 ≤ self.old.spare }
        ensures kinds { self.new.kinds ≡ with_run self.old.kinds b n kind }
        ensures length { length self.new.kinds ≡ length self.old.kinds }
        ensures cuts { self.old.spare ≤ self.new.spare + 2 }
    {
        set_run(&mut self.runs, b, n, kind);
    }

    /// The merged list of extents, holes among them. Want of memory is its only error.
    pub fn extents(&self, alloc: Global) -> Result<Vec<Extent>, AllocError>
        ensures { IfOk result (λ extents. IsMergedList self.now.kinds extents.items) }
    {
        let extents = Vec::from_slice(alloc, &self.runs)?;
        Ok(extents)
    }

    /// The least block at or after `b` that is no hole.
    pub fn next_data(&self, b: u64) -> Option<u64>
        ensures least { IfSome result (λ x. IsLeastFrom is_data self.now.kinds b x) }
        ensures none { IfNone result (NoneFrom is_data self.now.kinds b) }
    {
        first_from(&self.runs, false, b)
    }

    /// The least block at or after `b` that is a hole.
    pub fn next_hole(&self, b: u64) -> Option<u64>
        ensures least { IfSome result (λ x. IsLeastFrom is_hole self.now.kinds b x) }
        ensures none { IfNone result (NoneFrom is_hole self.now.kinds b) }
    {
        first_from(&self.runs, true, b)
    }
}
