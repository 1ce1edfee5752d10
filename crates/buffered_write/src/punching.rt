//! A hole is punched: bytes of a file are made zeros, and the blocks that they cover whole become holes.
ghost use Rattle.std.specs.Prelude.{◌≡◌, ◌-◌, ◌<◌, ◌≤◌, false, replicate, IfSome};
ghost use Rattle.fault_device.specs.LaneView.{lane_seen};
ghost use Rattle.mount_parts.specs.MountView.{file_at};
ghost use Rattle.mini_fs.specs.Calls.{LeavesPass, MayCall};
ghost use Rattle.mini_fs.specs.Holds.{HoldsNone};
ghost use Rattle.mini_fs.specs.Mappings.{file_end};
ghost use Rattle.buffered_write.specs.Clears.{StopsClear, may_clear};
ghost use Rattle.buffered_write.specs.Lays.{EndsAt, GoesAt};
ghost use Rattle.buffered_write.specs.LaysLocked.{LaidWith};
ghost use Rattle.buffered_write.specs.Punches.{IsPunched, Punches};

use crate::clearing::clear_range;
use call_parts::{Progress, file_end, read_reply, read_to};
use fault_device::Lane;
use iob_base::{Answer, FileId, Tag};
use mini_fs::{Mount, Pass};
use std::sync::Wait;

// Makes zeros of the bytes of a file from one place up to another, under the exclusive class of the file.
fn punch_locked<R: Wait>(
    rt: &R,
    mount: &Mount,
    pass: &mut Pass,
    lane: &mut Lane,
    file: FileId,
    by: Tag,
    from: u64,
    to: u64,
) -> Progress
    requires goes { GoesAt mount.now file by pass.old }
    requires free { HoldsNone pass.old file }
    requires some { from < to }
    requires within { to ≤ file_end mount.now file }
    ensures free { HoldsNone pass.new file }
    ensures punched { LaidWith (IsPunched mount.now file from to) mount.now (may_clear (file_at mount.now file).mode by) file by from to (replicate (to - from) 0) (lane_seen count tells lane.old) (lane_seen count tells lane.new) pass.old pass.new result }
    ensures fault { IfSome result.fault StopsClear }
    ensures ends { EndsAt mount.now.geometry.block_size from to result.at result.fault false }
{
    let hold = mount.exclusive(rt, pass, file);
    let came = clear_range(rt, mount, pass, lane, file, by, from, to);
    mount.leave_exclusive(pass, hold);
    came
}

/// Makes zeros of `length` bytes of a file from an offset on, whatever its mode. The blocks that it covers whole become
/// holes, and their space goes back. The range is cut at the end of the file.
///
/// It takes the exclusive class of the file and leaves it, and goes in order of position. Whole blocks are wiped in one turn
/// a stripe, again for as long as one of them is away. A first or last block that is covered in part is read first where it
/// has to be, and keeps its other bytes and its space. Each block of the bytes answered is stamped once.
///
/// Without a byte in the file it answers that none were done, takes no class and makes no turn.
///
/// # Errors
///
/// - `Eio` where the read of a block that is covered in part failed, or the device under it where the file has no cache.
/// - `Worn` where the cookie of a stripe is used up of which a whole block has space.
/// - `NoMemory`.
///
/// After bytes were done the fault is how the `Ok` stops.
pub fn punch<R: Wait>(
    rt: &R,
    mount: &Mount,
    pass: &mut Pass,
    lane: &mut Lane,
    call: u32,
    file: FileId,
    off: u64,
    length: u64,
) -> Answer
    requires may { MayCall mount.now file call pass.old }
    ensures pass { LeavesPass mount.now file call pass.old pass.new }
    ensures punched { Punches mount.now file call off length (lane_seen count tells lane.old) (lane_seen count tells lane.new) pass.old pass.new result }
{
    let by = pass.start_call(call);
    let to = read_to(file_end(mount, file), off, length);
    if to <= off {
        return Answer {
            reply: read_reply(length, 0, 0, None),
            bios: 0,
        };
    }
    let came = punch_locked(rt, mount, pass, lane, file, by, off, to);
    Answer {
        reply: read_reply(length, to - off, came.at - off, came.fault),
        bios: came.bios,
    }
}
