//! The mount over a device whose blocks can be told from each other.
ghost use Rattle.std.specs.Prelude.{◌≡◌, ◌^◌, [], None, IfOk, length};
ghost use Rattle.worked_mounts.specs.Alone.{IsAlone, share_of};
ghost use Rattle.worked_mounts.specs.Begins.{IsDevice, MayBegin};

use crate::single::{Begin, started_on};
use io_model::Extent;
use iob_base::{Geometry, Sector, sectors};
use mini_fs::{Mount, Pass};
use std::alloc::{AllocError, Global};

/// The first byte of a block of the device: a letter by its number.
pub(crate) fn letter(number: u32) -> u8 {
    b'a' + (number % 26) as u8
}

// Gives a block its letter as its first byte.
fn mark(sector: &mut Sector)
    requires { length sector.old.bytes ≡ 16 }
    ensures number { sector.new.number ≡ sector.old.number }
    ensures whole { length sector.new.bytes ≡ 16 }
{
    let mut bytes = [0xeeu8; 16];
    bytes[0] = letter(sector.number());
    sector.bytes_mut().copy_from_slice(&bytes);
}

/// The sectors of a device, whose bytes are ee but for the first of each.
pub(crate) fn device(
    alloc: Global,
    geometry: Geometry,
    blocks: u32,
) -> Result<Vec<Sector>, AllocError>
    requires { geometry.block_size ≡ 16 }
    ensures { IfOk result (λ all. IsDevice blocks all.items) }
{
    let mut all = sectors(alloc, geometry, blocks, 0xee)?;
    for i in 0..all.len() {
        mark(&mut all[i]);
    }
    Ok(all)
}

/// The mount over a device of lettered blocks, and its first pass, which has the whole share. Want of memory is the only
/// error.
pub(crate) fn started(
    alloc: Global,
    begin: Begin,
    extents: &[Extent],
) -> Result<(Mount, Pass), AllocError>
    requires { MayBegin begin.device begin.blocks begin.size begin.cookie extents.now }
    ensures alone { IfOk result (λ r. IsAlone r.0 r.1) }
    ensures whole { IfOk result (λ r. share_of r.1 ≡ 2 ^ 63) }
    ensures spare { IfOk result (λ r. r.1.spare ≡ 4294967295) }
    ensures sizes { IfOk result (λ r. begin.size ≡ None → r.0.sizes ≡ []) }
{
    let Ok(geometry) = Geometry::new(16, 4) else {
        unreachable!()
    };
    let device = device(alloc, geometry, begin.device)?;
    started_on(alloc, geometry, device, begin, extents)
}
