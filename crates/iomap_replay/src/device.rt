//! The device of a script.
ghost use Rattle.std.specs.Prelude.{◌≡◌, true, IfOk, length, replicate};
ghost use Rattle.std.specs.List.{list_all};
ghost use Rattle.iob_base.specs.DeviceBlock.{device_block};
ghost use Rattle.iomap_replay.specs.Devices.{blocks_with, content_given};
ghost use Rattle.iomap_replay.specs.Facts.{is_whole};

use crate::job::Device;
use iob_base::{Geometry, Items, Sector, sectors};
use std::alloc::{AllocError, Global};

/// Gives a block these bytes.
fn write_block(sector: &mut Sector, bytes: &[u8])
    requires { length bytes.now ≡ length sector.old.bytes }
    ensures { sector.new ≡ device_block sector.old.number bytes.now }
{
    sector.bytes_mut().copy_from_slice(bytes);
}

/// The blocks of a device, each with the bytes that a data line gives for it, or else filled. Want of
/// memory is the only error.
pub fn device_blocks(
    alloc: Global,
    geometry: &Geometry,
    device: Device,
    given: &[(u32, Items<u8>)],
) -> Result<Vec<Sector>, AllocError>
    requires size { geometry.now.block_size ≡ device.block_size }
    requires whole { list_all (is_whole device) given.now ≡ true }
    ensures { IfOk result (λ all. all.items ≡ blocks_with (content_given given.now (replicate device.block_size device.fill)) 0 device.blocks) }
{
    let mut all = sectors(alloc, *geometry, device.blocks, device.fill)?;
    let mut left = given.len();
    while left > 0 {
        left -= 1;
        let block = &given[left];
        let sector = &mut all[block.0 as usize];
        write_block(sector, block.1.as_slice());
    }
    Ok(all)
}
