//! The dirty blocks of a run of a file are written to the device.
ghost use Rattle.std.specs.Prelude.{◌≡◌, false};
ghost use Rattle.fault_device.specs.LaneView.{lane_seen};
ghost use Rattle.mount_parts.specs.MountView.{HasFile, file_at};
ghost use Rattle.mini_fs.specs.Calls.{HasShares, LeavesPass, MayCall};
ghost use Rattle.mini_fs.specs.PassView.{IsPassOf};
ghost use Rattle.writeback_ioend.specs.AnswersWriteBack.{AnswersWriteBack};
ghost use Rattle.writeback_ioend.specs.WriteRuns.{WritesRun, run_end, written_reply};

use crate::walk::{Written, write_range};
use fault_device::Lane;
use iob_base::{Answer, Fault, FileId, Reply, Stop};
use mini_fs::{Mount, Pass};
use std::sync::Wait;

// Where a run of blocks of a file ends that begins with a block: with the run, or with the file.
fn run_end(mount: &Mount, file: FileId, from: u64, blocks: u64) -> u64
    requires { HasFile mount.now file }
    ensures { result ≡ run_end (file_at mount.now file).blocks from blocks }
{
    from.saturating_add(blocks).min(mount.blocks(file))
}

// Writes the dirty blocks to the device that a file has of a run.
pub(crate) fn write_run<R: Wait>(
    rt: &R,
    mount: &Mount,
    pass: &mut Pass,
    lane: &mut Lane,
    file: FileId,
    waits: bool,
    from: u64,
    blocks: u64,
) -> Written
    requires of { IsPassOf mount.now pass.old }
    requires exists { HasFile mount.now file }
    requires shares { HasShares mount.now file 64 pass.old }
    ensures { WritesRun mount.now file waits from blocks (lane_seen count tells lane.old) (lane_seen count tells lane.new) pass.old pass.new result }
{
    let to = run_end(mount, file, from, blocks);
    if to <= from {
        return Written {
            blocks: 0,
            bios: 0,
            failed: None,
            fault: None,
        };
    }
    write_range(rt, mount, pass, lane, file, waits, from, to)
}

// What a call replies that wrote so many blocks and then was stopped by a fault, or by none.
fn written_reply(count: u64, fault: Option<Fault>) -> Reply
    ensures { result ≡ written_reply count fault }
{
    match fault {
        None => Reply::Ok {
            count,
            stop: Stop::Whole,
        },
        Some(fault) => Reply::Err { fault, sent: 0 },
    }
}

/// Writes the dirty blocks of a run of a file to the device, whatever the mode of the file, folio by folio, in order.
///
/// The run is cut at the end of the file. A block that is lent out is passed by. A transfer that fails stops nothing: its
/// blocks are dirty again, and the file's count of failed writebacks tells of it. The answer counts the blocks that were
/// written. It takes no class and leaves no stamp. Where the file has no block of the run, it makes no turn and answers 0.
///
/// # Errors
///
/// What was written before stays written.
///
/// - `Worn` where the cookie of a stripe is used up and a block there would change its kind.
/// - `NoMemory`.
pub fn write_back<R: Wait>(
    rt: &R,
    mount: &Mount,
    pass: &mut Pass,
    lane: &mut Lane,
    call: u32,
    file: FileId,
    from: u64,
    blocks: u64,
) -> Answer
    requires { MayCall mount.now file call pass.old }
    ensures pass { LeavesPass mount.now file call pass.old pass.new }
    ensures written { AnswersWriteBack mount.now file from blocks (lane_seen count tells lane.old) (lane_seen count tells lane.new) pass.old pass.new result }
{
    pass.start_call(call);
    let written = write_run(rt, mount, pass, lane, file, false, from, blocks);
    Answer {
        reply: written_reply(written.blocks, written.fault),
        bios: written.bios,
    }
}
