//! A file is cut to a size.
ghost use Rattle.std.specs.Prelude.{◌≡◌, ◌-◌, ◌≤◌, [], ◌∷◌, IfSome, Some, false};
ghost use Rattle.iob_base.specs.declared.answer.Fault.TheVariants.{NoMemory};
ghost use Rattle.call_parts.specs.Replies.{read_reply};
ghost use Rattle.fault_device.specs.LaneView.{lane_seen};
ghost use Rattle.mount_parts.specs.MountView.{HasFile};
ghost use Rattle.mini_fs.specs.Calls.{LeavesPass, MayCall};
ghost use Rattle.mini_fs.specs.Holds.{HoldsNone};
ghost use Rattle.mini_fs.specs.Mappings.{file_end};
ghost use Rattle.mini_fs.specs.SizeTurns.{HasSize};
ghost use Rattle.buffered_write.specs.Clears.{Clears, StopsClear};
ghost use Rattle.buffered_write.specs.Cuts.{settled};
ghost use Rattle.buffered_write.specs.Grows.{HasRoom};
ghost use Rattle.buffered_write.specs.Lays.{EndsAt, GoesAt};
ghost use Rattle.buffered_write.specs.Pwrites.{progress};
ghost use Rattle.buffered_write.specs.Truncates.{ClearedWith, CutsInRoom, CutsLocked, CutsUnlocked, MeetsOnly, StopsCut, Truncates, cut_end};

use crate::clearing::clear_range;
use crate::size_room::{make_room, see_size, settle_room};
use call_parts::{Progress, file_end, read_reply, sizes};
use fault_device::Lane;
use iob_base::{Answer, Fault, FileId, Reply, Tag};
use mini_fs::{Mount, Pass};
use std::sync::Wait;

// A cut that had no memory for what goes before, and cleared nothing from a place on.
fn wanting(at: u64) -> Progress
    ensures { result ≡ progress at 0 (Some NoMemory) }
{
    Progress {
        at,
        bios: 0,
        fault: Some(Fault::NoMemory),
    }
}

// Clears the bytes of a file from one place up to another, where there are any.
fn clear_any<R: Wait>(
    rt: &R,
    mount: &Mount,
    pass: &mut Pass,
    lane: &mut Lane,
    file: FileId,
    by: Tag,
    from: u64,
    to: u64,
) -> Progress
    requires goes { GoesAt mount.now file by pass.old }
    requires order { from ≤ to }
    requires within { to ≤ file_end mount.now file }
    ensures goes { GoesAt mount.now file by pass.new }
    ensures cleared { Clears mount.now file by from to (lane_seen count tells lane.old) (lane_seen count tells lane.new) pass.old pass.new result }
    ensures fault { IfSome result.fault StopsClear }
    ensures ends { EndsAt mount.now.geometry.block_size from to result.at result.fault false }
{
    if from == to {
        return Progress {
            at: from,
            bios: 0,
            fault: None,
        };
    }
    clear_range(rt, mount, pass, lane, file, by, from, to)
}

// Clears what a cut clears that ends where a place says, and then sets the size, or gives up the room that the pass has at
// the size of the file.
fn cut_in_room<R: Wait>(
    rt: &R,
    mount: &Mount,
    pass: &mut Pass,
    lane: &mut Lane,
    file: FileId,
    by: Tag,
    size: u64,
    to: u64,
) -> Progress
    requires goes { GoesAt mount.now file by pass.old }
    requires sized { HasSize mount.now file }
    requires room { HasRoom mount.now file pass.old }
    requires order { size ≤ to }
    requires within { to ≤ file_end mount.now file }
    ensures cut { ClearedWith (MeetsOnly mount.now file pass.old.caller (settled by size result.fault ∷ [])) mount.now file by size to (lane_seen count tells lane.old) (lane_seen count tells lane.new) pass.old pass.new result }
    ensures fault { IfSome result.fault StopsClear }
    ensures stops { StopsCut mount.now.geometry.block_size size to result.at result.fault }
{
    let came = clear_any(rt, mount, pass, lane, file, by, size, to);
    settle_room(rt, mount, pass, file, by, size, came.fault);
    came
}

// The same of a file whose pass makes room at its size first. Without memory for it nothing is cleared.
fn cut_up_to<R: Wait>(
    rt: &R,
    mount: &Mount,
    pass: &mut Pass,
    lane: &mut Lane,
    file: FileId,
    by: Tag,
    size: u64,
    to: u64,
) -> Progress
    requires goes { GoesAt mount.now file by pass.old }
    requires sized { HasSize mount.now file }
    requires order { size ≤ to }
    requires within { to ≤ file_end mount.now file }
    ensures cut { CutsInRoom mount.now file by size to (lane_seen count tells lane.old) (lane_seen count tells lane.new) pass.old pass.new result }
    ensures fault { IfSome result.fault StopsClear }
    ensures stops { StopsCut mount.now.geometry.block_size size to result.at result.fault }
{
    match make_room(rt, mount, pass, file) {
        Ok(()) => cut_in_room(rt, mount, pass, lane, file, by, size, to),
        Err(_) => wanting(size),
    }
}

// Where what a cut clears ends that found a size, or the place where it begins if that is more.
fn cut_end(mount: &Mount, file: FileId, size: u64, found: u64) -> u64
    requires exists { HasFile mount.now file }
    requires size { size ≤ file_end mount.now file }
    requires found { found ≤ file_end mount.now file }
    ensures is { result ≡ cut_end mount.now file size (Some found) }
    ensures order { size ≤ result }
    ensures within { result ≤ file_end mount.now file }
{
    mount.is_laid_out();
    let block = u64::from(sizes(mount).block_size());
    let blocks = (found + (block - 1)) / block;
    size.max(blocks * block)
}

// Cuts a file that has a size to another. It looks at the size first; without memory to enter that nothing is cleared.
fn cut_unlocked<R: Wait>(
    rt: &R,
    mount: &Mount,
    pass: &mut Pass,
    lane: &mut Lane,
    file: FileId,
    by: Tag,
    size: u64,
) -> Progress
    requires goes { GoesAt mount.now file by pass.old }
    requires sized { HasSize mount.now file }
    requires within { size ≤ file_end mount.now file }
    ensures { CutsUnlocked mount.now file by size (lane_seen count tells lane.old) (lane_seen count tells lane.new) pass.old pass.new result }
{
    match see_size(rt, mount, pass, file, by) {
        Ok(found) => {
            let to = cut_end(mount, file, size, found);
            cut_up_to(rt, mount, pass, lane, file, by, size, to)
        }
        Err(_) => wanting(size),
    }
}

// The same under the exclusive class of the file.
fn cut_locked<R: Wait>(
    rt: &R,
    mount: &Mount,
    pass: &mut Pass,
    lane: &mut Lane,
    file: FileId,
    by: Tag,
    size: u64,
) -> Progress
    requires goes { GoesAt mount.now file by pass.old }
    requires sized { HasSize mount.now file }
    requires free { HoldsNone pass.old file }
    requires within { size ≤ file_end mount.now file }
    ensures free { HoldsNone pass.new file }
    ensures cut { CutsLocked mount.now file by size (lane_seen count tells lane.old) (lane_seen count tells lane.new) pass.old pass.new result }
{
    let hold = mount.exclusive(rt, pass, file);
    let came = cut_unlocked(rt, mount, pass, lane, file, by, size);
    mount.leave_exclusive(pass, hold);
    came
}

// The answer of a cut that cleared the bytes from its size up to a place.
fn cleared(size: u64, came: Progress) -> Answer
    requires { size ≤ came.at }
    ensures reply { result.reply ≡ read_reply (came.at - size) (came.at - size) (came.at - size) came.fault }
    ensures bios { result.bios ≡ came.bios }
{
    let count = came.at - size;
    Answer {
        reply: read_reply(count, count, count, came.fault),
        bios: came.bios,
    }
}

/// Cuts a file that has a size to another one, which may be more too, under the exclusive class of the file.
///
/// It looks at the size and makes zeros of the bytes from the new size on up to the one found, in whole blocks. Blocks that
/// these cover whole become holes; the bytes of a block that they cover in part are zeroed, and where the block has to be
/// read from the device for it, it is read. Only when all of them are cleared it sets the size, and answers how many they
/// are: none where these blocks do not reach past the new size. Room for the entry at the size is made before.
///
/// # Errors
///
/// The size stays. After bytes were cleared the fault is how the `Ok` stops.
///
/// - `TooFar` where the new size is past the file's declared end. It then takes no class and makes no turn.
/// - `Eio` where the read of a block failed.
/// - `Worn` where the cookie of a stripe is used up whose blocks are to become holes.
/// - `NoMemory`.
pub fn truncate<R: Wait>(
    rt: &R,
    mount: &Mount,
    pass: &mut Pass,
    lane: &mut Lane,
    call: u32,
    file: FileId,
    size: u64,
) -> Answer
    requires may { MayCall mount.now file call pass.old }
    requires sized { HasSize mount.now file }
    ensures pass { LeavesPass mount.now file call pass.old pass.new }
    ensures truncated { Truncates mount.now file call size (lane_seen count tells lane.old) (lane_seen count tells lane.new) pass.old pass.new result }
{
    let by = pass.start_call(call);
    let end = file_end(mount, file);
    if end < size {
        return Answer {
            reply: Reply::Err {
                fault: Fault::TooFar { offset: size, end },
                sent: 0,
            },
            bios: 0,
        };
    }
    let came = cut_locked(rt, mount, pass, lane, file, by, size);
    cleared(size, came)
}
