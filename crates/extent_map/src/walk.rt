//! Walks over kinds, block by block.
ghost use Rattle.std.specs.Prelude.{◌≡◌, ◌+◌, ◌<◌, ◌≤◌, ◌^◌, [], ◌∷◌, IfNone, IfOk, IfSome, OnOk, drop, length, replicate, vec_len};
ghost use Rattle.std.specs.Bool.{OnTrue};
ghost use Rattle.extent_map.specs.BlockKinds.{kind_of_block, with_run};
ghost use Rattle.extent_map.specs.Edits.{attach};
ghost use Rattle.extent_map.specs.Expansion.{NumbersFit, kinds_of};
ghost use Rattle.extent_map.specs.Longest.{IsLookup, begins};
ghost use Rattle.extent_map.specs.Merged.{IsMergedList};
ghost use Rattle.extent_map.specs.Sorts as sorts;
ghost use Rattle.extent_map.specs.Sorts.{IsLeastFrom, NoneFrom};
ghost use Rattle.extent_map.specs.Splicing.{run_at};
ghost use Rattle.io_model.specs.Kinds.{kind_after};
ghost use Rattle.io_model.specs.declared.file.Kind.TheVariants.{Hole};

use crate::kind::{can_join, is_next, is_sort, nth_kind};
use io_model::{Extent, Kind};
use std::alloc::{AllocError, Global};

/// So many holes.
pub(crate) fn holes(alloc: Global, blocks: u64) -> Result<Vec<Kind>, AllocError>
    ensures { IfOk result (λ kinds. kinds.items ≡ replicate blocks Hole) }
{
    let mut kinds = Vec::new(alloc);
    for _ in 0..blocks {
        kinds.push(Kind::Hole)?;
    }
    Ok(kinds)
}

/// The longest run from block `b` on, cut at `max` blocks.
pub(crate) fn run_from(kinds: &[Kind], b: u64, max: u64) -> Extent
    requires inside { b < length kinds.now }
    requires some { 1 ≤ max }
    ensures { IsLookup kinds.now b max result }
{
    let kind = kind_at(kinds, b as usize);
    for n in 1..max {
        if !goes_on(kinds, b, n, kind) {
            return Extent {
                block: b,
                length: n,
                kind,
            };
        }
    }
    Extent {
        block: b,
        length: max,
        kind,
    }
}

/// The kind of the block at `at`, whose number is one of a device.
fn kind_at(kinds: &[Kind], at: usize) -> Kind
    requires { at < length kinds.now }
    ensures kind { result ≡ kind_of_block kinds.now at }
    ensures fits { NumbersFit result 1 }
{
    match kinds[at] {
        Kind::Hole => Kind::Hole,
        Kind::Delalloc => Kind::Delalloc,
        Kind::Unwritten(d) => Kind::Unwritten(number(d)),
        Kind::Mapped(d) => Kind::Mapped(number(d)),
    }
}

/// The number of a device block, which has 32 bits.
fn number(d: u32) -> u32
    ensures same { result ≡ d }
    ensures fits { result < 2 ^ 32 }
{
    d
}

/// Whether the block after `n` blocks from `b` on goes on with them, if they begin with this kind.
fn goes_on(kinds: &[Kind], b: u64, n: u64, kind: Kind) -> bool
    requires { b + n ≤ length kinds.now }
    ensures test { result ≡ begins (kind_after kind n) (drop (b + n) kinds.now) }
    ensures fits { OnTrue result (NumbersFit kind (n + 1)) }
{
    let at = (b + n) as usize;
    if at == kinds.len() {
        return false;
    }
    is_next(kind, n, kinds[at])
}

/// Makes `n` blocks from `b` on a run of this kind.
pub(crate) fn fill(kinds: &mut Vec<Kind>, b: u64, n: u64, kind: Kind)
    requires inside { b + n ≤ vec_len kinds.old }
    requires numbers { NumbersFit kind n }
    ensures kinds { kinds.new.items ≡ with_run kinds.old.items b n kind }
    ensures length { length kinds.new.items ≡ length kinds.old.items }
{
    for i in 0..n {
        kinds[(b + i) as usize] = nth_kind(kind, i);
    }
}

/// The merged list of extents of these kinds.
pub(crate) fn merge(alloc: Global, kinds: &[Kind]) -> Result<Vec<Extent>, AllocError>
    ensures { IfOk result (λ extents. IsMergedList kinds.now extents.items) }
{
    let mut extents = Vec::new(alloc);
    for i in 0..kinds.len() {
        add_block(&mut extents, i as u64, kind_at(kinds, i))?;
    }
    Ok(extents)
}

/// Adds the next block: to the last extent, where it goes on with it.
fn add_block(extents: &mut Vec<Extent>, block: u64, kind: Kind) -> Result<(), AllocError>
    requires all { length (kinds_of extents.old.items) ≤ block }
    requires bound { block + 1 < 2 ^ 64 }
    ensures { OnOk result
        (extents.new.items ≡ attach extents.old.items (run_at block 1 kind ∷ [])) }
{
    let one = Extent {
        block,
        length: 1,
        kind,
    };
    let Some(last) = extents.pop() else {
        extents.push(one)?;
        return Ok(());
    };
    if can_join(&last, &one) {
        let length = last.length + 1;
        extents.push(Extent { length, ..last })?;
        return Ok(());
    }
    extents.push(last)?;
    extents.push(one)?;
    Ok(())
}

/// The least block at or after `b` that is a hole, or for false the least that is none.
pub(crate) fn next_of_sort(kinds: &[Kind], hole: bool, b: u64) -> Option<u64>
    ensures least { IfSome result (λ x. IsLeastFrom (sorts.is_sort hole) kinds.now b x) }
    ensures none { IfNone result (NoneFrom (sorts.is_sort hole) kinds.now b) }
{
    for x in b..kinds.len() as u64 {
        if is_sort(hole, kinds[x as usize]) {
            return Some(x);
        }
    }
    None
}
