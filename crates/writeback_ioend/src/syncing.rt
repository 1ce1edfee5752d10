//! A file is synced: its dirty blocks are written to the device, and its caller is told of failed writebacks.
ghost use Rattle.std.specs.Prelude.{◌≡◌, ◌<◌, length};
ghost use Rattle.fault_device.specs.LaneView.{lane_seen};
ghost use Rattle.mount_parts.specs.MountView.{HasFile, file_at, stripes_of};
ghost use Rattle.mini_fs.specs.Calls.{LeavesPass, MayCall};
ghost use Rattle.mini_fs.specs.PassView.{IsPassOf};
ghost use Rattle.writeback_ioend.specs.Syncs.{CountsErrors, LooksOnce, Syncs, compared};

use crate::clean_pages::blocks_from;
use crate::error_seen::ErrorSeen;
use crate::walk::write_range;
use fault_device::Lane;
use iob_base::{Answer, Fault, FileId, Reply, STRIPE, Stop};
use mini_fs::{Mount, Pass};
use std::sync::Wait;

// How many failed writebacks a stripe of a file counts.
fn stripe_errors<R: Wait>(rt: &R, mount: &Mount, pass: &mut Pass, file: FileId, stripe: u64) -> u64
    requires of { IsPassOf mount.now pass.old }
    requires file { HasFile mount.now file }
    requires stripe { stripe < stripes_of (file_at mount.now file).blocks }
    ensures of { IsPassOf mount.now pass.new }
    ensures looked { LooksOnce mount.now file stripe pass.old pass.new result }
{
    mount.is_laid_out();
    let from = stripe * STRIPE;
    let blocks = blocks_from(mount, file, from);
    mount.sample(rt, pass, file, from, blocks).errors
}

// How many failed writebacks the stripes of a file count together, as far as a number goes. Each is looked at in one turn.
fn count_errors<R: Wait>(rt: &R, mount: &Mount, pass: &mut Pass, file: FileId) -> u64
    requires of { IsPassOf mount.now pass.old }
    requires file { HasFile mount.now file }
    ensures of { IsPassOf mount.now pass.new }
    ensures counted { CountsErrors mount.now file (stripes_of (file_at mount.now file).blocks) pass.old pass.new result }
{
    mount.is_laid_out();
    let mut errors = 0u64;
    for stripe in 0..mount.blocks(file).div_ceil(STRIPE) {
        errors = errors.saturating_add(stripe_errors(rt, mount, pass, file, stripe));
    }
    errors
}

// What a sync replies that wrote so many blocks and found so many failed writebacks, to a caller that was told of so many.
fn compared(count: u64, told: u64, found: u64) -> Reply
    ensures { result ≡ compared count told found }
{
    if told < found {
        return Reply::Err {
            fault: Fault::SyncEio {
                seen: told,
                count: found,
            },
            sent: 0,
        };
    }
    Reply::Ok {
        count,
        stop: Stop::Whole,
    }
}

/// Writes all dirty blocks of a file to the device, whatever its mode, folio by folio, in order, and tells its caller of
/// writebacks that failed since its last sync of the file, of whatever caller they were.
///
/// It waits for a block that is lent out, and writes it where it is dirty then. A transfer that fails stops nothing: its
/// blocks are dirty again, and are not tried again. Then it looks at each stripe of the file once. The count of failed
/// writebacks that it finds there is the one that the caller was told of from now on, also where it is an error. The answer
/// counts the blocks that were written. It takes no class and leaves no stamp.
///
/// # Errors
///
/// - `SyncEio` where the count of failed writebacks is above the one that the caller was told of.
/// - `Worn` where the cookie of a stripe is used up and a block there would change its kind.
/// - `NoMemory`.
///
/// Of the last two, what was written before stays written, and the caller is told of nothing.
pub fn sync<R: Wait>(
    rt: &R,
    mount: &Mount,
    pass: &mut Pass,
    seen: &mut ErrorSeen,
    lane: &mut Lane,
    call: u32,
    file: FileId,
) -> Answer
    requires may { MayCall mount.now file call pass.old }
    requires counted { file.0 < length seen.old }
    ensures pass { LeavesPass mount.now file call pass.old pass.new }
    ensures synced { Syncs mount.now file seen.old seen.new (lane_seen count tells lane.old) (lane_seen count tells lane.new) pass.old pass.new result }
{
    pass.start_call(call);
    let blocks = mount.blocks(file);
    let written = write_range(rt, mount, pass, lane, file, true, 0, blocks);
    if let Some(fault) = written.fault {
        return Answer {
            reply: Reply::Err { fault, sent: 0 },
            bios: written.bios,
        };
    }
    let found = count_errors(rt, mount, pass, file);
    let told = seen.tell(file, found);
    Answer {
        reply: compared(written.blocks, told, found),
        bios: written.bios,
    }
}
