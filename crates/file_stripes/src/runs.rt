//! Extents one after another, joined where one could say both.
ghost use Rattle.std.specs.Prelude.{◌≡◌, ◌==◌, ◌+◌, ◌≤◌, [], ◌∷◌, ◌++◌, All, IfOk, OnOk, IsTrue, length};
ghost use Rattle.file_stripes.specs.Kinds.{IsFirstKind, kinds_from, has_space};
ghost use Rattle.file_stripes.specs.Runs.{FollowsOn, IsFirstExtent, IsShort, placed, with_run, with_runs};
ghost use Rattle.io_model.specs.Fitting.{could_be_joined, is_merged_from};

use crate::kinds::number_of;
use io_model::{Extent, Kind};
use std::alloc::{AllocError, Global};

/// The merged list of extents that gives the blocks from `first` on these kinds, holes among them.
pub(crate) fn merge_kinds(
    alloc: Global,
    first: u64,
    kinds: &[Kind],
) -> Result<Vec<Extent>, AllocError>
    requires few { first + length kinds.now ≤ 65536 }
    requires given { All IsFirstKind kinds.now }
    ensures merged { IfOk result (λ extents. IsTrue (is_merged_from first (first + length kinds.now) extents.items)) }
    ensures kinds { IfOk result (λ extents. kinds_from extents.items first (length kinds.now) ≡ kinds.now) }
    ensures given { IfOk result (λ extents. All IsFirstExtent extents.items) }
{
    let mut extents = Vec::new(alloc);
    for i in 0..kinds.len() {
        let run = Extent {
            block: first + i as u64,
            length: 1,
            kind: kinds[i],
        };
        add_run(&mut extents, run)?;
    }
    Ok(extents)
}

/// Adds runs at the end, one after another.
pub(crate) fn add_runs(extents: &mut Vec<Extent>, runs: &[Extent]) -> Result<(), AllocError>
    requires { FollowsOn extents.old.items runs.now }
    ensures { OnOk result (extents.new.items ≡ with_runs extents.old.items runs.now) }
{
    for i in 0..runs.len() {
        add_run(extents, runs[i])?;
    }
    Ok(())
}

/// Adds a run at the end: to the last extent, where it goes on with it.
fn add_run(extents: &mut Vec<Extent>, run: Extent) -> Result<(), AllocError>
    requires short { All IsShort extents.old.items }
    requires more { IsShort run }
    ensures { OnOk result (extents.new.items ≡ with_run extents.old.items run) }
{
    let Some(last) = extents.pop() else {
        extents.push(run)?;
        return Ok(());
    };
    if goes_on(&last, &run) {
        let length = last.length + run.length;
        extents.push(Extent { length, ..last })?;
        return Ok(());
    }
    extents.push(last)?;
    extents.push(run)?;
    Ok(())
}

/// Whether `next`, right after `run`, could be joined with it.
fn goes_on(run: &Extent, next: &Extent) -> bool
    ensures { result ≡ could_be_joined run.now next.now }
{
    match (run.kind, next.kind) {
        (Kind::Hole, Kind::Hole) => true,
        (Kind::Delalloc, Kind::Delalloc) => true,
        (Kind::Unwritten(d), Kind::Unwritten(e)) => is_after(d, run.length, e),
        (Kind::Mapped(d), Kind::Mapped(e)) => is_after(d, run.length, e),
        _ => false,
    }
}

/// Whether `e` is the device number `n` after `d`.
fn is_after(d: u32, n: u64, e: u32) -> bool
    ensures { result ≡ (d + n == e) }
{
    if e < d {
        return false;
    }
    u64::from(e - d) == n
}

/// The extents that have space, in order.
pub(crate) fn keep_placed(alloc: Global, extents: &[Extent]) -> Result<Vec<Extent>, AllocError>
    ensures { IfOk result (λ kept. kept.items ≡ placed extents.now) }
{
    let mut kept = Vec::new(alloc);
    for i in 0..extents.len() {
        keep_run(&mut kept, extents[i])?;
    }
    Ok(kept)
}

/// Adds an extent at the end, where it has space.
fn keep_run(kept: &mut Vec<Extent>, extent: Extent) -> Result<(), AllocError>
    ensures { OnOk result (kept.new.items ≡ kept.old.items ++ placed (extent ∷ [])) }
{
    if number_of(extent.kind).is_some() {
        kept.push(extent)?;
    }
    Ok(())
}
