//! A mount of one file on a device whose bytes are ee.
ghost use Rattle.std.specs.Prelude.{◌≡◌, ◌^◌, [], None, IfOk};
ghost use Rattle.worked_mounts.specs.Alone.{share_of};
ghost use Rattle.worked_mounts.specs.Begins.{MayBegin};
ghost use Rattle.worked_calls.specs.Stands.{IsReady};

use fault_device::{Lane, Listed};
use io_model::Extent;
use iob_base::{Geometry, sectors};
use mini_fs::{Mount, Pass};
use std::alloc::{AllocError, Global};
use worked_mounts::{Begin, started_on};

/// The mount, and its first pass, which has the whole share. Want of memory is the only error.
pub(crate) fn started(
    alloc: Global,
    begin: Begin,
    extents: &[Extent],
) -> Result<(Mount, Pass), AllocError>
    requires { MayBegin begin.device begin.blocks begin.size begin.cookie extents.now }
    ensures ready { IfOk result (λ r. IsReady r.0 r.1) }
    ensures whole { IfOk result (λ r. share_of r.1 ≡ 2 ^ 63) }
    ensures sizes { IfOk result (λ r. begin.size ≡ None → r.0.sizes ≡ []) }
{
    let Ok(geometry) = Geometry::new(16, 4) else {
        unreachable!()
    };
    let device = sectors(alloc, geometry, begin.device, 0xee)?;
    started_on(alloc, geometry, device, begin, extents)
}

/// Lets the transfers of a lane fail that are listed with it: each fault is a lane's number and that of a transfer there,
/// from 1. Want of memory is the only error.
pub(crate) fn arm_all(lane: &mut Lane, faults: &[(u32, u64)]) -> Result<(), AllocError> {
    for (at, op) in faults {
        if *at == lane.number() {
            lane.arm(*op)?;
        }
    }
    Ok(())
}

/// A lane of this number, whose transfers fail that are listed with it. Want of memory is the only error.
pub(crate) fn lane(alloc: Global, number: u32, faults: &[(u32, u64)]) -> Result<Lane, AllocError> {
    let mut lane = Lane::new(number, Box::new(alloc, Listed::new(alloc))?);
    arm_all(&mut lane, faults)?;
    Ok(lane)
}
