//! Blocks of the device and pages of memory, each with an owner.
ghost use Rattle.std.specs.Prelude.{◌≡◌, IfOk};
ghost use Rattle.iob_base.specs.DeviceBlock.{fresh_blocks};

use crate::geometry::Geometry;
use crate::items::Items;
use std::alloc::{AllocError, Global};
use std::default::MadeWith;
use std::marker::Model;

/// A block of the device, which whoever has this value owns. It can't be cloned: bytes reach it only
/// through its owner.
#[derive(Debug, Drop)]
pub struct Sector {
    number: u32,
    bytes: Vec<u8>,
}

impl Model for Sector {
    ghost use Rattle.iob_base.specs.DeviceBlock.{DeviceBlock};

    ghost Value = { DeviceBlock };

    ghost view = { λ s. record { number = s.number; bytes = s.bytes.items } };
}

/// A page of memory: its number, and 1 to a block's size of bytes. Pages of the cache have the
/// number 2^64 - 1.
#[derive(Debug, Drop)]
pub struct Page {
    pub number: u64,
    pub bytes: Items<u8>,
}

/// A block without bytes, with the number 0, for the unused places of a list of fixed room. It takes no
/// memory, and it is a block of no device, since these have at least 16 bytes each.
impl MadeWith<Global> for Sector {
    ghost use Rattle.iob_base.specs.DeviceBlock.{BLANK};

    ghost is_made_with = { λ s. s ≡ BLANK };

    fn made_with(alloc: Global) -> Sector {
        Sector {
            number: 0,
            bytes: Vec::new(alloc),
        }
    }
}

/// A page without bytes, with the number 0. It takes no memory.
impl MadeWith<Global> for Page {
    ghost use Rattle.std.specs.Prelude.{[]};

    ghost is_made_with = { λ p. (p.number ≡ 0) × (p.bytes ≡ []) };

    fn made_with(alloc: Global) -> Page {
        Page {
            number: 0,
            bytes: Items::new(alloc),
        }
    }
}

impl Sector {
    ghost use Rattle.iob_base.specs.Lending.{LendsBytes};
    ghost use Rattle.std.specs.Borrow.{sem};

    /// The number of the block on its device.
    pub fn number(&self) -> u32
        ensures { result ≡ self.now.number }
    {
        self.number
    }

    /// What its bytes are allocated with.
    pub(crate) fn allocator(&self) -> Global {
        *self.bytes.allocator()
    }

    /// The block's bytes.
    pub fn bytes(&self) -> &[u8]
        ensures { result.now ≡ self.now.bytes }
    {
        self.bytes.as_slice()
    }

    /// The block's bytes, to be written.
    pub fn bytes_mut(&mut self) -> &mut [u8]
        ensures* writes_back { sem 𝓛 (LendsBytes self.entry result) }
        ensures value { result.now ≡ self.old.bytes }
    {
        self.bytes.as_mut_slice()
    }
}

/// A device of so many blocks, each byte `fill`: the blocks with the numbers from 0 on, in order.
pub fn sectors(
    alloc: Global,
    geometry: Geometry,
    blocks: u32,
    fill: u8,
) -> Result<Vec<Sector>, AllocError>
    ensures { IfOk result (λ all. all.items ≡ fresh_blocks geometry.block_size fill blocks) }
{
    let size = geometry.block_size() as usize;
    let mut all = Vec::with_capacity(alloc, blocks as usize)?;
    for number in 0..blocks {
        let bytes = vec![in alloc; fill; size]?;
        all.push(Sector { number, bytes })?;
    }
    Ok(all)
}
