//! The read that waits.
ghost use Rattle.std.specs.Prelude.{◌≡◌, ◌<◌, ◌≤◌, IfOk, length};
ghost use Rattle.iob_base.specs.declared.stamp.Mode.TheVariants.{Cached};
ghost use Rattle.fault_device.specs.LaneView.{lane_seen};
ghost use Rattle.iov_iter.specs.Home.{AllHome};
ghost use Rattle.mount_parts.specs.MountView.{HasFile, file_at};
ghost use Rattle.mini_fs.specs.Calls.{HasShares, LeavesPass, MayCall};
ghost use Rattle.mini_fs.specs.Mappings.{file_end};
ghost use Rattle.mini_fs.specs.PassView.{IsPassOf};
ghost use Rattle.mini_fs.specs.Tickets.{KeepsTickets};
ghost use Rattle.buffered_read.specs.ReadCalls.{FoundEnd, Preads, ReadsCut, ReadsHeld};

use crate::waits::read_range;
use call_parts::{file_end, read_reply, read_to, sizes};
use fault_device::Lane;
use iob_base::{Answer, Fault, FileId, Reply, Tag};
use iov_iter::IovIter;
use mini_fs::{Mount, Pass};
use size_core::SeeSize;
use std::alloc::AllocError;
use std::sync::Wait;

// Where the bytes of a file end for a call that asks for so many: at its size, or where its blocks end.
fn find_end<R: Wait>(
    rt: &R,
    mount: &Mount,
    pass: &mut Pass,
    file: FileId,
    by: Tag,
    asked: u64,
) -> Result<u64, AllocError>
    requires of { IsPassOf mount.now pass.old }
    requires exists { HasFile mount.now file }
    ensures of { IsPassOf mount.now pass.new }
    ensures tickets { KeepsTickets pass.old pass.new }
    ensures found { FoundEnd mount.now file by asked pass.old pass.new result }
{
    mount.is_laid_out();
    if asked == 0 {
        return Ok(file_end(mount, file));
    }
    if !mount.sized(file) {
        return Ok(file_end(mount, file));
    }
    mount.size_turn(rt, pass, file, &mut SeeSize { by })
}

// Reads bytes of a file from an offset on, up to where its bytes end.
fn read_cut<R: Wait>(
    rt: &R,
    mount: &Mount,
    pass: &mut Pass,
    lane: &mut Lane,
    file: FileId,
    by: Tag,
    off: u64,
    end: u64,
    iov: &mut IovIter,
) -> Answer
    requires of { IsPassOf mount.now pass.old }
    requires caller { by.caller ≡ pass.old.caller }
    requires exists { HasFile mount.now file }
    requires mode { (file_at mount.now file).mode ≡ Cached }
    requires end { end ≤ file_end mount.now file }
    requires start { iov.old.place ≡ 0 }
    requires home { AllHome iov.old }
    requires shares { HasShares mount.now file 2 pass.old }
    ensures of { IsPassOf mount.now pass.new }
    ensures read { ReadsCut mount.now file by off end (lane_seen count tells lane.old) (lane_seen count tells lane.new) pass.old pass.new iov.old iov.new result }
{
    let _ = sizes(mount);
    let asked = iov.count();
    let to = read_to(end, off, asked);
    let came = read_range(rt, mount, pass, lane, file, by, off, to, iov);
    Answer {
        reply: read_reply(asked, to - off, came.at - off, came.fault),
        bios: came.bios,
    }
}

// Reads bytes of a file of which the pass holds the cached class.
fn read_held<R: Wait>(
    rt: &R,
    mount: &Mount,
    pass: &mut Pass,
    lane: &mut Lane,
    file: FileId,
    by: Tag,
    off: u64,
    iov: &mut IovIter,
) -> Answer
    requires of { IsPassOf mount.now pass.old }
    requires caller { by.caller ≡ pass.old.caller }
    requires exists { HasFile mount.now file }
    requires mode { (file_at mount.now file).mode ≡ Cached }
    requires start { iov.old.place ≡ 0 }
    requires home { AllHome iov.old }
    requires shares { HasShares mount.now file 2 pass.old }
    ensures of { IsPassOf mount.now pass.new }
    ensures tickets { KeepsTickets pass.old pass.new }
    ensures read { ReadsHeld mount.now file by off (lane_seen count tells lane.old) (lane_seen count tells lane.new) pass.old pass.new iov.old iov.new result }
{
    let asked = iov.count();
    match find_end(rt, mount, pass, file, by, asked) {
        Ok(end) => read_cut(rt, mount, pass, lane, file, by, off, end, iov),
        Err(_) => Answer {
            reply: Reply::Err {
                fault: Fault::NoMemory,
                sent: 0,
            },
            bios: 0,
        },
    }
}

/// Reads bytes of a cached file from an offset on into the iov, through the page cache. The iov's place is at its first byte,
/// and its pages are at home. The place moves on by the bytes read.
///
/// It takes the cached class of the file and leaves it. Of a file with a size it looks at the size first, and is cut there.
/// Blocks that are away it waits for, and those that are cold it reads into the cache, one bio for each run of them. `bios`
/// counts the bios.
///
/// # Errors
///
/// After bytes were read the fault is how the `Ok` stops.
///
/// - `Eio` where a bio of this call failed. The bytes before its first block are read.
/// - `NoMemory`.
pub fn pread<R: Wait>(
    rt: &R,
    mount: &Mount,
    pass: &mut Pass,
    lane: &mut Lane,
    call: u32,
    file: FileId,
    off: u64,
    iov: &mut IovIter,
) -> Answer
    requires may { MayCall mount.now file call pass.old }
    requires mode { (file_at mount.now file).mode ≡ Cached }
    requires start { iov.old.place ≡ 0 }
    requires home { AllHome iov.old }
    ensures pass { LeavesPass mount.now file call pass.old pass.new }
    ensures read { Preads mount.now file call off (lane_seen count tells lane.old) (lane_seen count tells lane.new) pass.old pass.new iov.old iov.new result }
{
    let by = pass.start_call(call);
    let hold = mount.cached(rt, pass, file);
    let answer = read_held(rt, mount, pass, lane, file, by, off, iov);
    mount.leave_cached(pass, hold);
    answer
}
