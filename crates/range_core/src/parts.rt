//! Bytes from one place of a file up to another, block by block.
ghost use Rattle.std.specs.Prelude.{◌≡◌, ◌+◌, ◌-◌, ◌<◌, ◌≤◌};
ghost use Rattle.range_core.specs.ByteRuns.{IsByteRun, part_at, run_between};
ghost use Rattle.range_core.specs.Refusals.{covers_in_part};

use iob_base::Geometry;

/// The bytes from one place of a file up to another, and the blocks that have some of them.
#[derive(Clone, Copy)]
pub(crate) struct ByteRun {
    /// How many bytes a block has.
    pub(crate) size: u32,
    pub(crate) from: u64,
    pub(crate) to: u64,
    pub(crate) first: u64,
    pub(crate) blocks: usize,
}

/// What of a run of bytes lies in one block: where it begins in the block, and how many bytes it has.
#[derive(Clone, Copy)]
pub(crate) struct BlockPart {
    pub(crate) at: usize,
    pub(crate) length: usize,
}

/// The bytes from one place up to another, with the blocks that have some of them.
pub(crate) fn byte_run(geometry: &Geometry, from: u64, to: u64) -> ByteRun
    requires { from < to }
    ensures run { result ≡ run_between geometry.now.block_size from to }
    ensures met { IsByteRun result }
{
    let size = geometry.block_size();
    let bytes = u64::from(size);
    let first = from / bytes;
    let last = (to - 1) / bytes;
    ByteRun {
        size,
        from,
        to,
        first,
        blocks: (last + 1 - first) as usize,
    }
}

/// What of a run lies in its k-th block, from 0.
pub(crate) fn block_part(run: ByteRun, k: usize) -> BlockPart
    requires met { IsByteRun run }
    requires inside { k < run.blocks }
    ensures part { result ≡ part_at run (run.first + k) }
    ensures some { 0 < result.length }
    ensures within { result.at + result.length ≤ run.size }
{
    let size = u64::from(run.size);
    let begin = (run.first + k as u64) * size;
    let at = run.from.saturating_sub(begin);
    let length = (run.to - run.from.max(begin)).min(size - at);
    BlockPart {
        at: at as usize,
        length: length as usize,
    }
}

/// Whether a run covers a block only in part, or not at all.
pub(crate) fn is_in_part(run: ByteRun, block: u64) -> bool
    ensures { result ≡ covers_in_part run.size run.from run.to block }
{
    let size = u128::from(run.size);
    let begin = u128::from(block) * size;
    if begin < u128::from(run.from) {
        return true;
    }
    u128::from(run.to) < begin + size
}
