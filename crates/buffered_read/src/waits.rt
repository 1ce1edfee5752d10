//! The bytes of a range of a file are read, mapping by mapping.
ghost use Rattle.std.specs.Prelude.{◌≡◌, ◌+◌, ◌-◌, ◌^◌, ◌<◌, ◌≤◌, None, Some, min};
ghost use Rattle.iob_base.specs.declared.stamp.Mode.TheVariants.{Cached};
ghost use Rattle.fault_device.specs.LaneView.{lane_seen};
ghost use Rattle.range_core.specs.ByteRuns.{HasNext};
ghost use Rattle.mount_parts.specs.MountView.{HasFile, file_at};
ghost use Rattle.mini_fs.specs.Calls.{HasShares};
ghost use Rattle.mini_fs.specs.Mappings.{IsOpen, file_end, no_flags};
ghost use Rattle.mini_fs.specs.PassView.{IsPassOf};
ghost use Rattle.buffered_read.specs.Preads.{HasReadUpTo, IsDoneTo, IsMappedAt, ReadsMapping};

use crate::warm::read_part;
use call_parts::{Progress, finish_mapping, next_mapping, part_end, sizes};
use fault_device::Lane;
use iob_base::{FileId, Tag};
use iomap_core::{Flags, Iomap, IomapIter};
use iov_iter::IovIter;
use mini_fs::{Mount, Pass};
use std::sync::Wait;

// What a mapping is begun for that is to be read.
fn no_flags() -> Flags
    ensures { result ≡ no_flags }
{
    Flags {
        write: false,
        zero: false,
        report: false,
        direct: false,
        overwrite_only: false,
        dax: false,
    }
}

// Reads bytes of one mapping, part by part.
fn read_mapping<R: Wait>(
    rt: &R,
    mount: &Mount,
    pass: &mut Pass,
    lane: &mut Lane,
    file: FileId,
    by: Tag,
    from: u64,
    to: u64,
    iov: &mut IovIter,
) -> Progress
    requires of { IsPassOf mount.now pass.old }
    requires caller { by.caller ≡ pass.old.caller }
    requires mode { (file_at mount.now file).mode ≡ Cached }
    requires some { from < to }
    requires within { to ≤ file_end mount.now file }
    requires room { HasNext iov.old (to - from) }
    requires shares { HasShares mount.now file 2 pass.old }
    ensures of { IsPassOf mount.now pass.new }
    ensures begun { pass.new.begun ≡ pass.old.begun }
    ensures read { HasReadUpTo mount.now file by from to (lane_seen count tells lane.old) (lane_seen count tells lane.new) pass.old pass.new iov.old iov.new result }
{
    let mut at = from;
    let mut bios = 0u64;
    while at < to {
        let next = part_end(sizes(mount), to, at);
        let came = read_part(rt, mount, pass, lane, file, by, at, next, iov);
        bios = bios.saturating_add(came.bios);
        match came.fault {
            Some(fault) => {
                return Progress {
                    at: came.at,
                    bios,
                    fault: Some(fault),
                };
            }
            None => at = next,
        }
    }
    Progress {
        at,
        bios,
        fault: None,
    }
}

// Where what of a range lies in a mapping ends that covers the place reached.
fn mapped_to(iter: &IomapIter, iomap: Iomap) -> u64
    requires covers { iter.now.pos < iomap.offset + iomap.length }
    requires fits { iomap.offset + iomap.length < 2 ^ 64 }
    ensures { result ≡ min (iomap.offset + iomap.length) (iter.now.pos + iter.now.left) }
{
    let rest = iomap.offset + iomap.length - iter.pos();
    iter.pos() + rest.min(iter.left())
}

// Reads what of a range lies in a mapping that was begun at the place reached, and ends the mapping.
fn read_mapped<R: Wait>(
    rt: &R,
    mount: &Mount,
    pass: &mut Pass,
    lane: &mut Lane,
    iter: &mut IomapIter,
    iomap: Iomap,
    by: Tag,
    iov: &mut IovIter,
) -> Progress
    requires open { IsOpen mount.now pass.old iomap }
    requires caller { by.caller ≡ pass.old.caller }
    requires mode { (file_at mount.now iter.old.file).mode ≡ Cached }
    requires unfinished { iter.old.unfinished ≡ Some iomap }
    requires mapped { IsMappedAt mount.now iter.old.file iter.old.pos iomap }
    requires some { 0 < iter.old.left }
    requires room { HasNext iov.old iter.old.left }
    requires shares { HasShares mount.now iter.old.file 2 pass.old }
    ensures of { IsPassOf mount.now pass.new }
    ensures done { IsDoneTo iter.old iter.new result.at }
    ensures read { ReadsMapping mount.now iter.old.file by iter.old.pos (iter.old.pos + iter.old.left) (lane_seen count tells lane.old) (lane_seen count tells lane.new) pass.old pass.new iov.old iov.new result }
{
    let from = iter.pos();
    let to = mapped_to(iter, iomap);
    let came = read_mapping(rt, mount, pass, lane, iomap.file, by, from, to, iov);
    iter.advance(came.at - from);
    finish_mapping(rt, mount, pass, iter, iomap);
    came
}

// Maps the next part of a range, of which bytes are left, and reads its bytes. A mapping that is only looked at is never
// refused.
fn read_next<R: Wait>(
    rt: &R,
    mount: &Mount,
    pass: &mut Pass,
    lane: &mut Lane,
    iter: &mut IomapIter,
    by: Tag,
    iov: &mut IovIter,
) -> Progress
    requires of { IsPassOf mount.now pass.old }
    requires caller { by.caller ≡ pass.old.caller }
    requires exists { HasFile mount.now iter.old.file }
    requires mode { (file_at mount.now iter.old.file).mode ≡ Cached }
    requires finished { iter.old.unfinished ≡ None }
    requires some { 0 < iter.old.left }
    requires within { iter.old.pos + iter.old.left ≤ file_end mount.now iter.old.file }
    requires room { HasNext iov.old iter.old.left }
    requires shares { HasShares mount.now iter.old.file 2 pass.old }
    ensures of { IsPassOf mount.now pass.new }
    ensures done { IsDoneTo iter.old iter.new result.at }
    ensures read { ReadsMapping mount.now iter.old.file by iter.old.pos (iter.old.pos + iter.old.left) (lane_seen count tells lane.old) (lane_seen count tells lane.new) pass.old pass.new iov.old iov.new result }
{
    match next_mapping(rt, mount, pass, iter, no_flags()) {
        Ok(Some(iomap)) => read_mapped(rt, mount, pass, lane, iter, iomap, by, iov),
        Ok(None) => unreachable!(),
        Err(_) => unreachable!(),
    }
}

// Reads bytes of a file, mapping by mapping.
pub(crate) fn read_range<R: Wait>(
    rt: &R,
    mount: &Mount,
    pass: &mut Pass,
    lane: &mut Lane,
    file: FileId,
    by: Tag,
    from: u64,
    to: u64,
    iov: &mut IovIter,
) -> Progress
    requires of { IsPassOf mount.now pass.old }
    requires caller { by.caller ≡ pass.old.caller }
    requires exists { HasFile mount.now file }
    requires mode { (file_at mount.now file).mode ≡ Cached }
    requires order { from ≤ to }
    requires within { from < to → to ≤ file_end mount.now file }
    requires room { HasNext iov.old (to - from) }
    requires shares { HasShares mount.now file 2 pass.old }
    ensures of { IsPassOf mount.now pass.new }
    ensures read { HasReadUpTo mount.now file by from to (lane_seen count tells lane.old) (lane_seen count tells lane.new) pass.old pass.new iov.old iov.new result }
{
    let mut iter = IomapIter::new(file, from, to - from);
    let mut bios = 0u64;
    while iter.left() > 0 {
        let came = read_next(rt, mount, pass, lane, &mut iter, by, iov);
        bios = bios.saturating_add(came.bios);
        if let Some(fault) = came.fault {
            return Progress {
                at: came.at,
                bios,
                fault: Some(fault),
            };
        }
    }
    Progress {
        at: iter.pos(),
        bios,
        fault: None,
    }
}
