//! The blocks that a range of bytes meets.
ghost use Rattle.std.specs.Prelude.{◌≡◌, ◌+◌, ◌<◌, ◌≤◌, true, IsTrue};
ghost use Rattle.iob_base.specs.Geometry.{is_block_size, is_folio_blocks};
ghost use Rattle.iomap_replay.specs.Facts.{LiesInFolio, first_block, last_block, blocks_met};
ghost use Rattle.iomap_replay.specs.Form.{is_in_one_folio};

use crate::job::Asked;
use io_model::Extent;

/// The most blocks that one transfer moves.
const MOST: u128 = 16;

/// The block in which the range begins.
pub fn begin_of(block_size: u32, asked: &Asked) -> u64
    requires { 0 < block_size }
    ensures { result ≡ first_block block_size asked.now }
{
    asked.off / u64::from(block_size)
}

/// The block of the range's last byte.
fn end_of(block_size: u32, asked: &Asked) -> u128
    requires size { 0 < block_size }
    requires some { 1 ≤ asked.now.length }
    ensures { result ≡ last_block block_size asked.now }
{
    (u128::from(asked.off) + u128::from(asked.length) - 1) / u128::from(block_size)
}

/// How many blocks the range meets, of which there are few.
pub fn count_of(block_size: u32, asked: &Asked) -> usize
    requires size { 0 < block_size }
    requires some { 1 ≤ asked.now.length }
    requires few { last_block block_size asked.now < first_block block_size asked.now + 16 }
    ensures { result ≡ blocks_met block_size asked.now }
{
    let first = u128::from(begin_of(block_size, asked));
    (end_of(block_size, asked) + 1 - first) as usize
}

/// Whether the range lies in the extent and in one folio, and meets few enough blocks for one transfer.
pub fn lies_in_one_folio(block_size: u32, folio: u32, extent: &Extent, asked: &Asked) -> bool
    requires size { IsTrue (is_block_size block_size) }
    requires folio { IsTrue (is_folio_blocks folio) }
    requires some { 1 ≤ asked.now.length }
    ensures value { result ≡ is_in_one_folio block_size folio extent.now asked.now }
    ensures facts { result ≡ true → LiesInFolio block_size folio extent.now asked.now }
{
    let first = u128::from(begin_of(block_size, asked));
    let last = end_of(block_size, asked);
    if first < u128::from(extent.block) {
        return false;
    }
    if last >= u128::from(extent.block) + u128::from(extent.length) {
        return false;
    }
    if last >= first + MOST {
        return false;
    }
    first / u128::from(folio) == last / u128::from(folio)
}
