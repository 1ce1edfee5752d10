//! Zeros are laid over a range of a file.
ghost use Rattle.std.specs.Prelude.{◌≡◌, ◌+◌, ◌-◌, ◌^◌, ◌<◌, ◌≤◌, IfSome, None, Some, false, replicate};
ghost use Rattle.fault_device.specs.LaneView.{lane_seen};
ghost use Rattle.mount_parts.specs.MountView.{file_at};
ghost use Rattle.mini_fs.specs.Calls.{LeavesPass, MayCall};
ghost use Rattle.mini_fs.specs.Holds.{HoldsNone};
ghost use Rattle.mini_fs.specs.Mappings.{file_end};
ghost use Rattle.buffered_write.specs.Lays.{EndsAt, GoesAt, GoesTo, IsDeviceOrMemory, LieUnder};
ghost use Rattle.buffered_write.specs.LaysLocked.{HeldOnly, LaidWith};
ghost use Rattle.buffered_write.specs.Pwrites.{CameOn};
ghost use Rattle.buffered_write.specs.Zeroes.{HasBegun, IsToZero, Zeroes, ZeroesRange, may_zero};

use crate::store_part::{Written, followed};
use crate::writing::{answer, goes_on, mapped_end, marked};
use crate::zero_part::zero_part;
use call_parts::{
    Progress, file_end, finish_mapping, next_mapping, part_end, read_reply, read_to, sizes,
};
use fault_device::Lane;
use iob_base::{Answer, Fault, FileId, Reply, Stop, Tag};
use iomap_core::{Flags, Iomap, IomapIter};
use mini_fs::{Mount, Pass};
use range_core::Sample;
use std::sync::Wait;

// What the mappings of zeros are wanted for.
const ZERO: Flags = Flags {
    write: false,
    zero: true,
    report: false,
    direct: false,
    overwrite_only: false,
    dax: false,
};

// Lays zeros over the bytes of a file from one place up to another, all in the extent of the sample, part by part, each in
// one folio.
fn zero_mapping<R: Wait>(
    rt: &R,
    mount: &Mount,
    pass: &mut Pass,
    lane: &mut Lane,
    file: FileId,
    by: Tag,
    seen: Sample,
    from: u64,
    to: u64,
) -> Written
    requires goes { GoesAt mount.now file by pass.old }
    requires under { LieUnder mount.now file seen from to pass.old }
    ensures goes { GoesAt mount.now file by pass.new }
    ensures begun { pass.new.begun ≡ pass.old.begun }
    ensures zeroed { Zeroes mount.now file by from to (lane_seen count tells lane.old) (lane_seen count tells lane.new) pass.old pass.new result.came }
    ensures ends { EndsAt mount.now.geometry.block_size from to result.came.at result.came.fault result.stale }
{
    let geometry = sizes(mount);
    let mut came = Progress {
        at: from,
        bios: 0,
        fault: None,
    };
    while came.at < to {
        let next = part_end(geometry, to, came.at);
        let part = zero_part(rt, mount, pass, lane, file, by, seen, came.at, next);
        came = followed(came, part.came);
        if !goes_on(&part) {
            return Written {
                came,
                stale: part.stale,
            };
        }
    }
    Written { came, stale: false }
}

// Lays zeros over what is left of a range as far as its mapping reaches, and ends the mapping.
fn zero_mapped<R: Wait>(
    rt: &R,
    mount: &Mount,
    pass: &mut Pass,
    lane: &mut Lane,
    file: FileId,
    by: Tag,
    iter: &mut IomapIter,
    iomap: Iomap,
) -> Progress
    requires goes { GoesAt mount.now file by pass.old }
    requires file { iter.old.file ≡ file }
    requires mapped { HasBegun mount.now file iter.old.pos pass.old iomap }
    requires promised { iomap.flags.new ≡ false }
    requires unfinished { iter.old.unfinished ≡ Some iomap }
    requires some { 0 < iter.old.left }
    requires range { IsToZero mount.now iter.old }
    ensures goes { GoesAt mount.now file by pass.new }
    ensures zeroed { Zeroes mount.now file by iter.old.pos (iter.old.pos + iter.old.left) (lane_seen count tells lane.old) (lane_seen count tells lane.new) pass.old pass.new result }
    ensures came { CameOn iter.old iter.new result.at }
    ensures ends { GoesTo mount.now.geometry.block_size iter.old.pos (iter.old.pos + iter.old.left) result.at result.fault }
{
    let from = iter.pos();
    let to = mapped_end(iter, &iomap);
    let seen = mount.seen(pass, &iomap);
    let zeroed = zero_mapping(rt, mount, pass, lane, file, by, seen, from, to);
    iter.advance(zeroed.came.at - from);
    finish_mapping(rt, mount, pass, iter, marked(iomap, zeroed.stale));
    zeroed.came
}

// Lays zeros over what is left of a range, of which there is some, as far as the next mapping of it reaches.
fn zero_next<R: Wait>(
    rt: &R,
    mount: &Mount,
    pass: &mut Pass,
    lane: &mut Lane,
    file: FileId,
    by: Tag,
    iter: &mut IomapIter,
) -> Progress
    requires goes { GoesAt mount.now file by pass.old }
    requires file { iter.old.file ≡ file }
    requires ended { iter.old.unfinished ≡ None }
    requires some { 0 < iter.old.left }
    requires range { IsToZero mount.now iter.old }
    ensures goes { GoesAt mount.now file by pass.new }
    ensures zeroed { Zeroes mount.now file by iter.old.pos (iter.old.pos + iter.old.left) (lane_seen count tells lane.old) (lane_seen count tells lane.new) pass.old pass.new result }
    ensures came { CameOn iter.old iter.new result.at }
    ensures ends { GoesTo mount.now.geometry.block_size iter.old.pos (iter.old.pos + iter.old.left) result.at result.fault }
{
    // Only a mapping that is to be written is refused.
    let Ok(Some(iomap)) = next_mapping(rt, mount, pass, iter, ZERO) else {
        unreachable!()
    };
    zero_mapped(rt, mount, pass, lane, file, by, iter, iomap)
}

/// Lays zeros over the bytes of a file from one place up to another, mapping by mapping and in each part by part, each in one
/// folio. A mapping that was found out of date is begun anew at the place reached.
///
/// It ends before the last byte where the device failed, and for want of memory.
pub(crate) fn zero_span<R: Wait>(
    rt: &R,
    mount: &Mount,
    pass: &mut Pass,
    lane: &mut Lane,
    file: FileId,
    by: Tag,
    from: u64,
    to: u64,
) -> Progress
    requires goes { GoesAt mount.now file by pass.old }
    requires some { from < to }
    requires within { to ≤ file_end mount.now file }
    ensures goes { GoesAt mount.now file by pass.new }
    ensures zeroed { Zeroes mount.now file by from to (lane_seen count tells lane.old) (lane_seen count tells lane.new) pass.old pass.new result }
    ensures fault { IfSome result.fault IsDeviceOrMemory }
    ensures ends { EndsAt mount.now.geometry.block_size from to result.at result.fault false }
{
    let mut iter = IomapIter::new(file, from, to - from);
    let mut came = Progress {
        at: from,
        bios: 0,
        fault: None,
    };
    for _ in rt.forever() {
        if iter.left() == 0 {
            return came;
        }
        let next = zero_next(rt, mount, pass, lane, file, by, &mut iter);
        came = followed(came, next);
        if came.fault.is_some() {
            return came;
        }
    }
    unreachable!()
}

// Lays zeros over the bytes of a file from one place up to another, under the exclusive class of the file.
fn zero_locked<R: Wait>(
    rt: &R,
    mount: &Mount,
    pass: &mut Pass,
    lane: &mut Lane,
    file: FileId,
    by: Tag,
    from: u64,
    to: u64,
) -> Progress
    requires goes { GoesAt mount.now file by pass.old }
    requires free { HoldsNone pass.old file }
    requires some { from < to }
    requires within { to ≤ file_end mount.now file }
    ensures free { HoldsNone pass.new file }
    ensures zeroed { LaidWith (HeldOnly file) mount.now (may_zero (file_at mount.now file).mode by) file by from to (replicate (to - from) 0) (lane_seen count tells lane.old) (lane_seen count tells lane.new) pass.old pass.new result }
    ensures fault { IfSome result.fault IsDeviceOrMemory }
    ensures ends { EndsAt mount.now.geometry.block_size from to result.at result.fault false }
{
    let hold = mount.exclusive(rt, pass, file);
    let came = zero_span(rt, mount, pass, lane, file, by, from, to);
    mount.leave_exclusive(pass, hold);
    came
}

/// Lays zeros over `length` bytes of a file from an offset on, in the page cache or, where the file has none, in its sectors.
///
/// It takes the exclusive class of the file and leaves it. It goes by mappings, and in each by the parts that lie in one
/// folio, in order. A block that is covered in part, and has to be read from the device first, is read. A block that reads
/// as zeros already, at home and clean, is only stamped. Bytes past the file's declared end are not zeroed.
///
/// Without a byte to zero it answers that none were zeroed, takes no class and makes no turn.
///
/// # Errors
///
/// - `TooFar` where the offset is at or past the file's declared end. It then takes no class and makes no turn.
/// - `Eio` where the read of a block failed, or the judgement of a part without a page cache. Nothing of that part is zeroed.
/// - `NoMemory`.
///
/// After bytes were zeroed the fault is how the `Ok` stops.
pub fn zero_range<R: Wait>(
    rt: &R,
    mount: &Mount,
    pass: &mut Pass,
    lane: &mut Lane,
    call: u32,
    file: FileId,
    off: u64,
    length: u64,
) -> Answer
    requires may { MayCall mount.now file call pass.old }
    ensures pass { LeavesPass mount.now file call pass.old pass.new }
    ensures zeroed { ZeroesRange mount.now file call off length (lane_seen count tells lane.old) (lane_seen count tells lane.new) pass.old pass.new result }
{
    let by = pass.start_call(call);
    let end = file_end(mount, file);
    if length == 0 {
        return answer(
            Reply::Ok {
                count: 0,
                stop: Stop::Whole,
            },
            0,
        );
    }
    if end <= off {
        return answer(
            Reply::Err {
                fault: Fault::TooFar { offset: off, end },
                sent: 0,
            },
            0,
        );
    }
    let to = read_to(end, off, length);
    let came = zero_locked(rt, mount, pass, lane, file, by, off, to);
    answer(
        read_reply(length, to - off, came.at - off, came.fault),
        came.bios,
    )
}
