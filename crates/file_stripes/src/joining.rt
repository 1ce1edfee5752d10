//! The ends of stripes joined into the end of their file.
ghost use Rattle.std.specs.Prelude.{◌≡◌, ◌++◌, ◌≤◌, IfOk, OnOk, IsTrue, length};
ghost use Rattle.file_stripes.specs.Ends.{FollowOn, blocks_in, kinds_of_ends};
ghost use Rattle.file_stripes.specs.Kinds.{kinds_from};
ghost use Rattle.file_stripes.specs.Runs.{FollowsOn, with_runs};
ghost use Rattle.io_model.specs.Fitting.{is_merged_from};

use crate::run_end::RunEnd;
use crate::runs::add_runs;
use io_model::{BlockEnd, Extent};
use iob_base::Items;
use std::alloc::{AllocError, Global};

/// The end of a file from the ends of its stripes, which follow one another from block 0 on: its extents, merged over the
/// borders of the stripes too, as the extents that iomap's operations guide reports for FIEMAP, and all its blocks, in
/// order. It walks each extent and block once.
///
/// # Errors
///
/// Want of memory, which drops the ends.
pub fn join_ends(alloc: Global, ends: Vec<RunEnd>) -> Result<RunEnd, AllocError>
    requires follow { FollowOn 0 ends.items }
    requires few { length (blocks_in ends.items) ≤ 65536 }
    ensures merged { IfOk result (λ end. IsTrue (is_merged_from 0 (length end.blocks) end.extents)) }
    ensures kinds { IfOk result (λ end. kinds_from end.extents 0 (length end.blocks) ≡ kinds_of_ends 0 ends.items) }
    ensures blocks { IfOk result (λ end. end.blocks ≡ blocks_in ends.items) }
{
    let mut extents = Vec::new(alloc);
    let mut blocks = Vec::new(alloc);
    let count = ends.len();
    let mut rest = ends.into_iter();
    for _ in 0..count {
        let Some(end) = rest.next() else {
            unreachable!();
        };
        join_end(&mut extents, &mut blocks, end)?;
    }
    Ok(RunEnd {
        extents: Items::from_vec(extents),
        blocks: Items::from_vec(blocks),
    })
}

/// Adds what is left of the next stripe.
fn join_end(
    extents: &mut Vec<Extent>,
    blocks: &mut Vec<BlockEnd>,
    end: RunEnd,
) -> Result<(), AllocError>
    requires { FollowsOn extents.old.items end.extents }
    ensures extents { OnOk result (extents.new.items ≡ with_runs extents.old.items end.extents) }
    ensures blocks { OnOk result (blocks.new.items ≡ blocks.old.items ++ end.blocks) }
{
    add_runs(extents, end.extents.as_slice())?;
    add_blocks(blocks, end.blocks.into_vec())
}

/// Adds the ends of blocks, in order.
fn add_blocks(blocks: &mut Vec<BlockEnd>, more: Vec<BlockEnd>) -> Result<(), AllocError>
    ensures { OnOk result (blocks.new.items ≡ blocks.old.items ++ more.items) }
{
    for block in more {
        blocks.push(block)?;
    }
    Ok(())
}
