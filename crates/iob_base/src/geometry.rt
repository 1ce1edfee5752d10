//! The sizes of a block and of a folio, and the grain of direct calls.
ghost use Rattle.std.specs.Prelude.{◌≡◌, IsTrue};
ghost use Rattle.iob_base.specs.Geometry.{is_block_size, is_folio_blocks, is_grain, shift_of};

use std::marker::Model;
use thiserror::Error;

/// How many bytes a block has, how many blocks a folio, and which number of bytes the offsets and the
/// segments of direct calls are multiples of.
///
/// # Invariants
///
/// The block size is a power of two from 16 to 4096, a folio has 1, 2, 4, 8, 16 or 32 blocks, and the
/// grain is a power of two from 16 to the block size. The shift is the power of the block size.
#[derive(Clone, Copy, Debug)]
pub struct Geometry {
    block_size: u32,
    folio_blocks: u32,
    grain: u32,
    shift: u32,
}

impl Model for Geometry {
    ghost use Rattle.iob_base.specs.Layout.{Layout};

    ghost Value = { Layout };

    ghost use Rattle.iob_base.specs.Geometry.{is_block_size, is_folio_blocks, IsGrain, shift_of};
    ghost use Rattle.std.specs.Prelude.{IsTrue, ◌≡◌};

    ghost view = { λ g. record { block_size = g.block_size; folio_blocks = g.folio_blocks; grain = g.grain } };

    ghost invariant = { λ g. IsTrue (is_block_size g.block_size) × IsTrue (is_folio_blocks g.folio_blocks) × IsGrain g.block_size g.grain × (g.shift ≡ shift_of g.block_size) };

    ghost inverse = { λ v. record { block_size = v.block_size; folio_blocks = v.folio_blocks; grain = v.grain; shift = shift_of v.block_size } };
}

/// Why numbers are no geometry.
#[derive(Debug, Drop, Error)]
pub enum BadGeometry {
    /// This block size is no power of two from 16 to 4096.
    #[error("a block has no {0} bytes")]
    BlockSize(u32),
    /// The block size is good, and a folio has no such number of blocks.
    #[error("a folio has no {0} blocks")]
    FolioBlocks(u32),
    /// Both sizes are good, and this grain is no power of two from 16 to the block size.
    #[error("direct calls have no grain of {0} bytes")]
    Grain(u32),
}

impl Geometry {
    ghost use Rattle.iob_base.specs.Checked.{checked_geometry, checked_grain};

    /// The geometry of these two sizes. Its grain is the block size.
    ///
    /// `BlockSize` comes exactly where the block size is no power of two from 16 to 4096, and
    /// `FolioBlocks` exactly where only the number of blocks in a folio is none of 1, 2, 4, 8, 16, 32.
    #[tactic(auto, unfolding(crate::specs::Geometry::IsGrain))]
    pub fn new(block_size: u32, folio_blocks: u32) -> Result<Geometry, BadGeometry>
        ensures { result ≡ checked_geometry block_size folio_blocks }
    {
        if !has_block_size(block_size) {
            return Err(BadGeometry::BlockSize(block_size));
        }
        if !has_folio_blocks(folio_blocks) {
            return Err(BadGeometry::FolioBlocks(folio_blocks));
        }
        Ok(Geometry {
            block_size,
            folio_blocks,
            grain: block_size,
            shift: shift(block_size),
        })
    }

    /// The geometry of these two sizes and this grain.
    ///
    /// `BlockSize` and `FolioBlocks` come as from `new`, and `Grain` exactly where both sizes are good
    /// and the grain is no power of two from 16 to the block size.
    #[tactic(auto, unfolding(crate::specs::Geometry::IsGrain))]
    pub fn with_grain(
        block_size: u32,
        folio_blocks: u32,
        grain: u32,
    ) -> Result<Geometry, BadGeometry>
        ensures { result ≡ checked_grain block_size folio_blocks grain }
    {
        if !has_block_size(block_size) {
            return Err(BadGeometry::BlockSize(block_size));
        }
        if !has_folio_blocks(folio_blocks) {
            return Err(BadGeometry::FolioBlocks(folio_blocks));
        }
        if !has_block_size(grain) || grain > block_size {
            return Err(BadGeometry::Grain(grain));
        }
        Ok(Geometry {
            block_size,
            folio_blocks,
            grain,
            shift: shift(block_size),
        })
    }

    /// The number of bytes in a block.
    pub fn block_size(&self) -> u32
        ensures value { result ≡ self.now.block_size }
        ensures valid { IsTrue (is_block_size result) }
    {
        self.block_size
    }

    /// The number of blocks in a folio.
    pub fn folio_blocks(&self) -> u32
        ensures value { result ≡ self.now.folio_blocks }
        ensures valid { IsTrue (is_folio_blocks result) }
    {
        self.folio_blocks
    }

    /// The number of bytes that offsets and segment lengths of direct calls are multiples of.
    #[tactic(auto, unfolding(crate::specs::Geometry::IsGrain))]
    pub fn grain(&self) -> u32
        ensures value { result ≡ self.now.grain }
        ensures valid { IsTrue (is_grain self.now.block_size result) }
    {
        self.grain
    }

    /// The power that the block size is of two.
    pub fn shift(&self) -> u32
        ensures { result ≡ shift_of self.now.block_size }
    {
        self.shift
    }
}

fn has_block_size(n: u32) -> bool
    ensures { result ≡ is_block_size n }
{
    matches!(n, 16 | 32 | 64 | 128 | 256 | 512 | 1024 | 2048 | 4096)
}

fn has_folio_blocks(n: u32) -> bool
    ensures { result ≡ is_folio_blocks n }
{
    matches!(n, 1 | 2 | 4 | 8 | 16 | 32)
}

/// The power that a block size is of two.
#[tactic(auto, unfolding(crate::specs::Geometry::shift_of))]
fn shift(size: u32) -> u32
    requires { IsTrue (is_block_size size) }
    ensures { result ≡ shift_of size }
{
    match size {
        16 => 4,
        32 => 5,
        64 => 6,
        128 => 7,
        256 => 8,
        512 => 9,
        1024 => 10,
        2048 => 11,
        _ => 12,
    }
}
