//! The dirty blocks of a run of a file are written to the device inside another call.
ghost use Rattle.std.specs.Prelude.{◌≡◌};
ghost use Rattle.fault_device.specs.LaneView.{lane_seen};
ghost use Rattle.mount_parts.specs.MountView.{HasFile};
ghost use Rattle.mini_fs.specs.Calls.{HasShares};
ghost use Rattle.mini_fs.specs.PassView.{IsPassOf};
ghost use Rattle.writeback_ioend.specs.Flushes.{Flushes, LeavesCall, flush_fault};

use crate::writing_back::write_run;
use fault_device::{Done, Lane};
use iob_base::{Fault, FileId};
use mini_fs::{Mount, Pass};
use std::sync::Wait;

/// What came of a flush.
#[derive(Clone, Copy, Debug)]
pub struct Flushed {
    /// Why blocks may be dirty still.
    pub fault: Option<Fault>,
    /// How many bios were sent.
    pub bios: u64,
}

// Why a flush came to nothing: the first transfer that failed comes before what stopped it.
fn flush_fault(failed: Option<Done>, stopped: Option<Fault>) -> Option<Fault>
    ensures { result ≡ flush_fault failed stopped }
{
    match failed {
        Some(done) => Some(Fault::Eio {
            lane: done.lane,
            before: done.before,
            after: done.after,
        }),
        None => stopped,
    }
}

/// Writes the dirty blocks of a run of a file to the device, as a part of another call, which may hold a class of the file.
///
/// The run is cut at the end of the file. It waits for a block that is lent out, and writes it where it is dirty then. A
/// transfer that fails stops nothing, and its blocks are not tried again. It takes and leaves no class, leaves no stamp,
/// and has no number of its own. Where the file has no block of the run, it makes no turn.
///
/// # Errors
///
/// They stand in the answer's `fault`.
///
/// - `Eio` where a transfer failed: the first one in order of blocks.
/// - `Worn` where no transfer failed, the cookie of a stripe is used up, and a block there would change its kind.
/// - `NoMemory` where no transfer failed.
pub fn flush<R: Wait>(
    rt: &R,
    mount: &Mount,
    pass: &mut Pass,
    lane: &mut Lane,
    file: FileId,
    from: u64,
    blocks: u64,
) -> Flushed
    requires of { IsPassOf mount.now pass.old }
    requires exists { HasFile mount.now file }
    requires shares { HasShares mount.now file 64 pass.old }
    ensures pass { LeavesCall mount.now pass.old pass.new }
    ensures flushed { Flushes mount.now file from blocks (lane_seen count tells lane.old) (lane_seen count tells lane.new) pass.old pass.new result }
{
    let written = write_run(rt, mount, pass, lane, file, true, from, blocks);
    Flushed {
        fault: flush_fault(written.failed, written.fault),
        bios: written.bios,
    }
}
