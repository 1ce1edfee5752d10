//! The write through the page cache.
ghost use Rattle.std.specs.Prelude.{◌≡◌, ◌+◌, ◌-◌, ◌^◌, ◌<◌, ◌≤◌, None, Some, false, min};
ghost use Rattle.iob_base.specs.declared.stamp.Mode.TheVariants.{Cached};
ghost use Rattle.fault_device.specs.LaneView.{lane_seen};
ghost use Rattle.iomap_core.specs.Mappings.{IsBegun, IsSameMapping};
ghost use Rattle.iov_iter.specs.Home.{AllHome};
ghost use Rattle.range_core.specs.ByteRuns.{HasNext};
ghost use Rattle.mount_parts.specs.MountView.{HasFile, file_at};
ghost use Rattle.mini_fs.specs.Calls.{LeavesPass, MayCall};
ghost use Rattle.mini_fs.specs.Holds.{HoldsNone};
ghost use Rattle.mini_fs.specs.Mappings.{file_end};
ghost use Rattle.mini_fs.specs.SizeTurns.{HasSize};
ghost use Rattle.buffered_write.specs.Grows.{HasRoom};
ghost use Rattle.buffered_write.specs.Lays.{CanLay, EndsAt, GoesOn, GoesTo};
ghost use Rattle.buffered_write.specs.Pwrites.{CameOn, HasMapped, IsLocked, IsToWrite, IsUnlocked, Pwrites, UsesRoom, Writes, WroteWith, is_whole, marked};

use crate::size_room::{make_room, use_room};
use crate::store_part::{Written, followed, store_part};
use call_parts::{
    Progress, file_end, finish_mapping, next_mapping, part_end, read_reply, read_to, sizes,
};
use fault_device::Lane;
use iob_base::{Answer, Fault, FileId, Reply, Stop, Tag};
use iomap_core::{Flags, Iomap, IomapIter};
use iov_iter::IovIter;
use mini_fs::{Mount, Pass};
use range_core::Sample;
use std::sync::Wait;

// What the mappings of a write are wanted for.
const WRITE: Flags = Flags {
    write: true,
    zero: false,
    report: false,
    direct: false,
    overwrite_only: false,
    dax: false,
};

// A reply with a number of bios.
pub(crate) fn answer(reply: Reply, bios: u64) -> Answer
    ensures reply { result.reply ≡ reply }
    ensures bios { result.bios ≡ bios }
{
    Answer { reply, bios }
}

// Whether a call goes on behind a part.
pub(crate) fn goes_on(part: &Written) -> bool
    ensures { result ≡ is_whole part.now }
{
    if part.stale {
        return false;
    }
    part.came.fault.is_none()
}

// Stores the iov's next bytes over the bytes of a file from one place up to another, all in the extent of the sample, part
// by part, each in one folio.
fn write_mapping<R: Wait>(
    rt: &R,
    mount: &Mount,
    pass: &mut Pass,
    lane: &mut Lane,
    file: FileId,
    by: Tag,
    seen: Sample,
    from: u64,
    to: u64,
    iov: &mut IovIter,
) -> Written
    requires goes { GoesOn mount.now file by pass.old }
    requires can { CanLay mount.now file seen from to pass.old }
    requires room { HasNext iov.old (to - from) }
    ensures goes { GoesOn mount.now file by pass.new }
    ensures begun { pass.new.begun ≡ pass.old.begun }
    ensures written { Writes mount.now file by from to (lane_seen count tells lane.old) (lane_seen count tells lane.new) pass.old pass.new iov.old iov.new result.came }
    ensures ends { EndsAt mount.now.geometry.block_size from to result.came.at result.came.fault result.stale }
{
    let geometry = sizes(mount);
    let mut came = Progress {
        at: from,
        bios: 0,
        fault: None,
    };
    while came.at < to {
        let next = part_end(geometry, to, came.at);
        let part = store_part(rt, mount, pass, lane, file, by, seen, came.at, next, iov);
        came = followed(came, part.came);
        if !goes_on(&part) {
            return Written {
                came,
                stale: part.stale,
            };
        }
    }
    Written { came, stale: false }
}

// Where what is done of a range in a mapping ends: with the mapping, or with the range.
pub(crate) fn mapped_end(iter: &IomapIter, iomap: &Iomap) -> u64
    requires mapping { iomap.now.offset + iomap.now.length < 2 ^ 64 }
    requires range { iter.now.pos + iter.now.left < 2 ^ 64 }
    ensures { result ≡ min (iomap.now.offset + iomap.now.length) (iter.now.pos + iter.now.left) }
{
    (iomap.offset + iomap.length).min(iter.pos() + iter.left())
}

// The mapping, as one that was found out of date or not.
pub(crate) fn marked(iomap: Iomap, stale: bool) -> Iomap
    ensures { result ≡ marked iomap stale }
{
    let mut marked = iomap;
    marked.flags.stale = stale;
    marked
}

// Writes what is left of a range as far as its mapping reaches, and ends the mapping.
fn write_mapped<R: Wait>(
    rt: &R,
    mount: &Mount,
    pass: &mut Pass,
    lane: &mut Lane,
    file: FileId,
    by: Tag,
    iter: &mut IomapIter,
    iomap: Iomap,
    iov: &mut IovIter,
) -> Progress
    requires goes { GoesOn mount.now file by pass.old }
    requires file { iter.old.file ≡ file }
    requires mapped { HasMapped mount.now file iter.old.pos pass.old iomap }
    requires unfinished { iter.old.unfinished ≡ Some iomap }
    requires some { 0 < iter.old.left }
    requires range { IsToWrite mount.now iter.old iov.old }
    ensures goes { GoesOn mount.now file by pass.new }
    ensures written { Writes mount.now file by iter.old.pos (iter.old.pos + iter.old.left) (lane_seen count tells lane.old) (lane_seen count tells lane.new) pass.old pass.new iov.old iov.new result }
    ensures came { CameOn iter.old iter.new result.at }
    ensures ends { GoesTo mount.now.geometry.block_size iter.old.pos (iter.old.pos + iter.old.left) result.at result.fault }
{
    let from = iter.pos();
    let to = mapped_end(iter, &iomap);
    let seen = mount.seen(pass, &iomap);
    let written = write_mapping(rt, mount, pass, lane, file, by, seen, from, to, iov);
    iter.advance(written.came.at - from);
    finish_mapping(rt, mount, pass, iter, marked(iomap, written.stale));
    written.came
}

// Writes what is left of a range, of which there is some, as far as the next mapping of it reaches.
fn write_next<R: Wait>(
    rt: &R,
    mount: &Mount,
    pass: &mut Pass,
    lane: &mut Lane,
    file: FileId,
    by: Tag,
    iter: &mut IomapIter,
    iov: &mut IovIter,
) -> Progress
    requires goes { GoesOn mount.now file by pass.old }
    requires file { iter.old.file ≡ file }
    requires ended { iter.old.unfinished ≡ None }
    requires some { 0 < iter.old.left }
    requires range { IsToWrite mount.now iter.old iov.old }
    ensures goes { GoesOn mount.now file by pass.new }
    ensures written { Writes mount.now file by iter.old.pos (iter.old.pos + iter.old.left) (lane_seen count tells lane.old) (lane_seen count tells lane.new) pass.old pass.new iov.old iov.new result }
    ensures came { CameOn iter.old iter.new result.at }
    ensures ends { GoesTo mount.now.geometry.block_size iter.old.pos (iter.old.pos + iter.old.left) result.at result.fault }
{
    let at = iter.pos();
    match next_mapping(rt, mount, pass, iter, WRITE) {
        Ok(Some(iomap)) => write_mapped(rt, mount, pass, lane, file, by, iter, iomap, iov),
        Ok(None) => unreachable!(),
        Err(fault) => Progress {
            at,
            bios: 0,
            fault: Some(fault),
        },
    }
}

// Writes the iov's next bytes over the bytes of a file from one place up to another, mapping by mapping. A mapping that was
// found out of date is begun anew at the place reached.
fn write_range<R: Wait>(
    rt: &R,
    mount: &Mount,
    pass: &mut Pass,
    lane: &mut Lane,
    file: FileId,
    by: Tag,
    from: u64,
    to: u64,
    iov: &mut IovIter,
) -> Progress
    requires goes { GoesOn mount.now file by pass.old }
    requires some { from < to }
    requires within { to ≤ file_end mount.now file }
    requires room { HasNext iov.old (to - from) }
    ensures goes { GoesOn mount.now file by pass.new }
    ensures written { Writes mount.now file by from to (lane_seen count tells lane.old) (lane_seen count tells lane.new) pass.old pass.new iov.old iov.new result }
    ensures ends { EndsAt mount.now.geometry.block_size from to result.at result.fault false }
{
    let mut iter = IomapIter::new(file, from, to - from);
    let mut came = Progress {
        at: from,
        bios: 0,
        fault: None,
    };
    for _ in rt.forever() {
        if iter.left() == 0 {
            return came;
        }
        let next = write_next(rt, mount, pass, lane, file, by, &mut iter, iov);
        came = followed(came, next);
        if came.fault.is_some() {
            return came;
        }
    }
    unreachable!()
}

// Writes the iov's next bytes over the bytes of a file from one place up to another, and then uses the room that the pass
// has at the size of the file.
fn write_in_room<R: Wait>(
    rt: &R,
    mount: &Mount,
    pass: &mut Pass,
    lane: &mut Lane,
    file: FileId,
    by: Tag,
    from: u64,
    to: u64,
    iov: &mut IovIter,
) -> Progress
    requires goes { GoesOn mount.now file by pass.old }
    requires sized { HasSize mount.now file }
    requires room { HasRoom mount.now file pass.old }
    requires some { from < to }
    requires within { to ≤ file_end mount.now file }
    requires next { HasNext iov.old (to - from) }
    ensures written { WroteWith (UsesRoom mount.now file pass.old.caller by from (result.at - from)) mount.now file by from to (lane_seen count tells lane.old) (lane_seen count tells lane.new) pass.old pass.new iov.old iov.new result }
    ensures ends { EndsAt mount.now.geometry.block_size from to result.at result.fault false }
{
    let came = write_range(rt, mount, pass, lane, file, by, from, to, iov);
    use_room(rt, mount, pass, file, by, from, came.at);
    came
}

// The same at the size of a file that has one, where it makes room first. Without memory for it nothing is written.
fn write_sized<R: Wait>(
    rt: &R,
    mount: &Mount,
    pass: &mut Pass,
    lane: &mut Lane,
    file: FileId,
    by: Tag,
    from: u64,
    to: u64,
    iov: &mut IovIter,
) -> Progress
    requires goes { GoesOn mount.now file by pass.old }
    requires sized { HasSize mount.now file }
    requires some { from < to }
    requires within { to ≤ file_end mount.now file }
    requires room { HasNext iov.old (to - from) }
    ensures written { WroteWith (IsUnlocked mount.now file pass.old.caller by from result) mount.now file by from to (lane_seen count tells lane.old) (lane_seen count tells lane.new) pass.old pass.new iov.old iov.new result }
    ensures ends { EndsAt mount.now.geometry.block_size from to result.at result.fault false }
{
    match make_room(rt, mount, pass, file) {
        Ok(()) => write_in_room(rt, mount, pass, lane, file, by, from, to, iov),
        Err(_) => Progress {
            at: from,
            bios: 0,
            fault: Some(Fault::NoMemory),
        },
    }
}

// The same at any file.
fn write_any<R: Wait>(
    rt: &R,
    mount: &Mount,
    pass: &mut Pass,
    lane: &mut Lane,
    file: FileId,
    by: Tag,
    from: u64,
    to: u64,
    iov: &mut IovIter,
) -> Progress
    requires goes { GoesOn mount.now file by pass.old }
    requires some { from < to }
    requires within { to ≤ file_end mount.now file }
    requires room { HasNext iov.old (to - from) }
    ensures written { WroteWith (IsUnlocked mount.now file pass.old.caller by from result) mount.now file by from to (lane_seen count tells lane.old) (lane_seen count tells lane.new) pass.old pass.new iov.old iov.new result }
    ensures ends { EndsAt mount.now.geometry.block_size from to result.at result.fault false }
{
    if mount.sized(file) {
        return write_sized(rt, mount, pass, lane, file, by, from, to, iov);
    }
    write_range(rt, mount, pass, lane, file, by, from, to, iov)
}

// Writes the iov's next bytes over the bytes of a file from one place up to another, under the exclusive class of the file.
fn write_locked<R: Wait>(
    rt: &R,
    mount: &Mount,
    pass: &mut Pass,
    lane: &mut Lane,
    file: FileId,
    by: Tag,
    from: u64,
    to: u64,
    iov: &mut IovIter,
) -> Progress
    requires goes { GoesOn mount.now file by pass.old }
    requires free { HoldsNone pass.old file }
    requires some { from < to }
    requires within { to ≤ file_end mount.now file }
    requires room { HasNext iov.old (to - from) }
    ensures free { HoldsNone pass.new file }
    ensures written { WroteWith (IsLocked mount.now file pass.old.caller by from result) mount.now file by from to (lane_seen count tells lane.old) (lane_seen count tells lane.new) pass.old pass.new iov.old iov.new result }
    ensures ends { EndsAt mount.now.geometry.block_size from to result.at result.fault false }
{
    let hold = mount.exclusive(rt, pass, file);
    let came = write_any(rt, mount, pass, lane, file, by, from, to, iov);
    mount.leave_exclusive(pass, hold);
    came
}

/// Writes the iov's bytes over the bytes of a cached file, from an offset on, through the page cache.
///
/// It takes the exclusive class of the file and leaves it. It goes by mappings, and in each by the parts that lie in one
/// folio, in order. A block that is covered in part, and has to be read from the device first, is read. Bytes past the
/// file's declared end are not written. The iov's place is at its first byte, and its pages are at home. The place moves on
/// by the bytes written. At the size of a file that has one it makes room for its entry first, and raises the size to where
/// the bytes end that it wrote.
///
/// Without a byte to write it answers that none were written, takes no class and makes no turn.
///
/// # Errors
///
/// - `TooFar` where the offset is at or past the file's declared end. It then takes no class and makes no turn.
/// - `Eio` where the read of a block failed. Nothing of the part that has the block is written.
/// - `Worn`, `NoSpace` and `NoMemory`.
///
/// After bytes were written the fault is how the `Ok` stops.
pub fn pwrite<R: Wait>(
    rt: &R,
    mount: &Mount,
    pass: &mut Pass,
    lane: &mut Lane,
    call: u32,
    file: FileId,
    off: u64,
    iov: &mut IovIter,
) -> Answer
    requires may { MayCall mount.now file call pass.old }
    requires mode { (file_at mount.now file).mode ≡ Cached }
    requires start { iov.old.place ≡ 0 }
    requires home { AllHome iov.old }
    ensures pass { LeavesPass mount.now file call pass.old pass.new }
    ensures written { Pwrites mount.now file call off (lane_seen count tells lane.old) (lane_seen count tells lane.new) pass.old pass.new iov.old iov.new result }
{
    let by = pass.start_call(call);
    let asked = iov.count();
    let end = file_end(mount, file);
    if asked == 0 {
        return answer(
            Reply::Ok {
                count: 0,
                stop: Stop::Whole,
            },
            0,
        );
    }
    if end <= off {
        return answer(
            Reply::Err {
                fault: Fault::TooFar { offset: off, end },
                sent: 0,
            },
            0,
        );
    }
    let to = read_to(end, off, asked);
    let came = write_locked(rt, mount, pass, lane, file, by, off, to, iov);
    answer(
        read_reply(asked, to - off, came.at - off, came.fault),
        came.bios,
    )
}
