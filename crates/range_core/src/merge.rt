//! Blocks as a merged list of extents.
ghost use Rattle.std.specs.Prelude.{◌≡◌, ◌+◌, ◌<◌, ◌≤◌, All, IfOk, OnOk, IsTrue, length, map};
ghost use Rattle.io_model.specs.Fitting.{is_merged_from};
ghost use Rattle.range_core.specs.Kinds.{kinds_from};
ghost use Rattle.range_core.specs.Merging.{IsShort, with_block};

use crate::cell::{Cell, continues};
use io_model::{Extent, Kind};
use std::alloc::{AllocError, Global};

/// The merged list of extents that gives these blocks their kinds, holes among them.
pub(crate) fn merge_kinds(
    alloc: Global,
    first: u64,
    cells: &[Cell],
) -> Result<Vec<Extent>, AllocError>
    requires { first + length cells.now ≤ 65536 }
    ensures merged { IfOk result (λ extents. IsTrue (is_merged_from first (first + length cells.now) extents.items)) }
    ensures kinds { IfOk result (λ extents. kinds_from extents.items first (length cells.now) ≡ map (λ c. c.kind) cells.now) }
{
    let mut extents = Vec::new(alloc);
    for i in 0..cells.len() {
        join_block(&mut extents, first + i as u64, cells[i].kind)?;
    }
    Ok(extents)
}

/// Adds the next block: to the last extent, where it goes on with it.
fn join_block(extents: &mut Vec<Extent>, block: u64, kind: Kind) -> Result<(), AllocError>
    requires { All IsShort extents.old.items }
    ensures { OnOk result (extents.new.items ≡ with_block extents.old.items block kind) }
{
    let one = Extent {
        block,
        length: 1,
        kind,
    };
    let Some(last) = extents.pop() else {
        extents.push(one)?;
        return Ok(());
    };
    if continues(last.kind, last.length, kind) {
        let length = last.length + 1;
        extents.push(Extent { length, ..last })?;
        return Ok(());
    }
    extents.push(last)?;
    extents.push(one)?;
    Ok(())
}
