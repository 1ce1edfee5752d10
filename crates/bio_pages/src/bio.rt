//! The bio, and its run on a lane.
ghost use Rattle.std.specs.Prelude.{◌≡◌, length};
ghost use Rattle.fault_device.specs.LaneView.{lane_seen};
ghost use Rattle.fault_device.specs.Opening.{Opening, IsServed, Serves};
ghost use Rattle.fault_device.specs.Transfer.{CanTransfer, Tells, parts_after};
ghost use Rattle.bio_pages.specs.Running.{IsRun};

use fault_device::{Done, Lane};
use iob_base::{Op, Parts};

/// One transfer of up to 16 blocks, with all that it moves. Whoever has the bio owns its sectors and pages.
///
/// `op` is the direction, `slot` the place to which the bio returns, `block` the number in the file of its first block,
/// and `ticket` what its sender wants back with it.
#[derive(Drop)]
pub struct Bio<T> {
    pub op: Op,
    pub slot: u32,
    pub block: u64,
    pub parts: Parts,
    pub ticket: T,
}

/// Makes the one transfer of the bio, by its direction, on this lane. A bio is run with 1 to 16 parts, whose pages have
/// the block's length. It takes no memory.
///
/// The first `landed` parts are moved. All other bytes, all numbers, and the rest of the bio stay.
pub fn run_bio<T>(lane: &mut Lane, bio: &mut Bio<T>) -> Done
    requires { CanTransfer bio.old.parts }
    ensures bio { bio.new ≡ record bio.old { parts = bio.new.parts } }
    ensures parts { bio.new.parts ≡ parts_after bio.old.op result.landed bio.old.parts }
    ensures run { IsRun bio.old bio.new result }
    ensures tells { Tells (length bio.old.parts) (lane_seen count tells lane.old) result (lane_seen count tells lane.new) }
    ensures serves { (o : Opening) → Serves o (lane_seen count tells lane.old) → IsServed o result (lane_seen count tells lane.new) }
{
    match bio.op {
        Op::Read => lane.read(bio.parts.as_mut_slice()),
        Op::Write => lane.write(bio.parts.as_mut_slice()),
    }
}
