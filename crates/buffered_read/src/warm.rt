//! One part of a file's bytes is read, its cold blocks first.
ghost use Rattle.std.specs.Prelude.{◌≡◌, ◌-◌, ◌*◌, ◌/◌, ◌<◌, ◌≤◌};
ghost use Rattle.iob_base.specs.declared.stamp.Mode.TheVariants.{Cached};
ghost use Rattle.iob_base.specs.declared.stamp.Tag.{Tag};
ghost use Rattle.fault_device.specs.LaneView.{lane_seen};
ghost use Rattle.iov_iter.specs.IovView.{IovView};
ghost use Rattle.range_core.specs.ByteRuns.{HasNext};
ghost use Rattle.mount_parts.specs.MountView.{file_at};
ghost use Rattle.mini_fs.specs.Calls.{HasShares};
ghost use Rattle.mini_fs.specs.Mappings.{file_end};
ghost use Rattle.mini_fs.specs.PassView.{IsPassOf};
ghost use Rattle.call_parts.specs.Parts.{part_end};
ghost use Rattle.buffered_read.specs.Preads.{HasReadUpTo};
ghost use Rattle.buffered_read.specs.Warms.{TriesPart, after_try, ends_or_goes_on, told_fill};

use call_parts::{Fill, Progress, fill_cold, sizes};
use fault_device::Lane;
use iob_base::{Fault, FileId, Tag};
use iov_iter::IovIter;
use mini_fs::{Mount, Pass};
use range_core::EventFault;
use std::sync::Wait;

/// What came of one try at a part of a file's bytes.
#[derive(Clone, Copy, Debug)]
pub(crate) enum Tried {
    /// All were read.
    Read,
    /// None was, and the part is to be tried again: a block was away, or it was cold, and so many bios were sent for it.
    Again { bios: u64 },
    /// None was, and those from this place on cannot be, for this fault.
    Stopped { at: u64, bios: u64, fault: Fault },
}

/// What a part comes to after a try.
#[derive(Clone, Copy, Debug)]
pub(crate) enum Round {
    /// It came so far.
    Came(Progress),
    /// It is to be tried again, to come so far.
    Again(Progress),
}

// How a try is told whose first cold block begins at `start` and was to be read into the cache.
fn told_fill(from: u64, start: u64, fill: Fill) -> Tried
    ensures { result ≡ told_fill from start fill }
{
    match fill {
        Fill::Filled => Tried::Again { bios: 1 },
        Fill::Again => Tried::Again { bios: 0 },
        Fill::Failed { done, .. } => Tried::Stopped {
            at: start,
            bios: 1,
            fault: Fault::Eio {
                lane: done.lane,
                before: done.before,
                after: done.after,
            },
        },
        Fill::NoMemory => Tried::Stopped {
            at: from,
            bios: 0,
            fault: Fault::NoMemory,
        },
    }
}

// Reads cold blocks of a part into the cache, from one of its blocks on.
fn fill_part<R: Wait>(
    rt: &R,
    mount: &Mount,
    pass: &mut Pass,
    lane: &mut Lane,
    file: FileId,
    block: u64,
    from: u64,
    to: u64,
) -> Tried
    requires of { IsPassOf mount.now pass.old }
    requires mode { (file_at mount.now file).mode ≡ Cached }
    requires some { from < to }
    requires within { to ≤ file_end mount.now file }
    requires part { part_end mount.now.geometry to from ≡ to }
    requires first { from / mount.now.geometry.block_size ≤ block }
    requires last { block ≤ (to - 1) / mount.now.geometry.block_size }
    requires shares { HasShares mount.now file 2 pass.old }
    ensures of { IsPassOf mount.now pass.new }
    ensures begun { pass.new.begun ≡ pass.old.begun }
    ensures tried { (by : Tag) (iov : IovView) → TriesPart mount.now file by from to (lane_seen count tells lane.old) (lane_seen count tells lane.new) pass.old pass.new iov iov result }
{
    mount.is_laid_out();
    let size = u64::from(sizes(mount).block_size());
    let most = (to - 1) / size + 1 - block;
    let start = from.max(block * size);
    told_fill(
        from,
        start,
        fill_cold(rt, mount, pass, lane, file, block, most),
    )
}

// One try at the bytes of a part. Where its first cold block is found, blocks from it on are read into the cache instead.
fn try_part<R: Wait>(
    rt: &R,
    mount: &Mount,
    pass: &mut Pass,
    lane: &mut Lane,
    file: FileId,
    by: Tag,
    from: u64,
    to: u64,
    iov: &mut IovIter,
) -> Tried
    requires of { IsPassOf mount.now pass.old }
    requires caller { by.caller ≡ pass.old.caller }
    requires mode { (file_at mount.now file).mode ≡ Cached }
    requires some { from < to }
    requires within { to ≤ file_end mount.now file }
    requires part { part_end mount.now.geometry to from ≡ to }
    requires room { HasNext iov.old (to - from) }
    requires shares { HasShares mount.now file 2 pass.old }
    ensures of { IsPassOf mount.now pass.new }
    ensures begun { pass.new.begun ≡ pass.old.begun }
    ensures tried { TriesPart mount.now file by from to (lane_seen count tells lane.old) (lane_seen count tells lane.new) pass.old pass.new iov.old iov.new result }
{
    mount.is_laid_out();
    let _ = sizes(mount);
    match mount.fetch(rt, pass, file, by, from, to, iov) {
        Ok(()) => Tried::Read,
        Err(EventFault::Away { .. }) => Tried::Again { bios: 0 },
        Err(EventFault::Cold { block }) => fill_part(rt, mount, pass, lane, file, block, from, to),
        Err(_) => Tried::Stopped {
            at: from,
            bios: 0,
            fault: Fault::NoMemory,
        },
    }
}

// Where nothing is left to be read before the place that is to be come to, the part came so far.
fn ends_or_goes_on(from: u64, aim: Progress) -> Round
    ensures { result ≡ ends_or_goes_on from aim }
{
    if aim.at == from {
        Round::Came(aim)
    } else {
        Round::Again(aim)
    }
}

// What a part comes to after a try, where it was to come so far.
fn after_try(from: u64, aim: Progress, tried: Tried) -> Round
    ensures { result ≡ after_try from aim tried }
{
    match tried {
        Tried::Read => Round::Came(aim),
        Tried::Again { bios } => Round::Again(Progress {
            bios: aim.bios.saturating_add(bios),
            ..aim
        }),
        Tried::Stopped { at, bios, fault } => ends_or_goes_on(
            from,
            Progress {
                at,
                bios: aim.bios.saturating_add(bios),
                fault: Some(fault),
            },
        ),
    }
}

// Reads the bytes of a part. Blocks that are away are waited for, and cold ones are read into the cache first. Where a bio
// for them failed, the bytes before its first block are read, and the fault stops the read there.
pub(crate) fn read_part<R: Wait>(
    rt: &R,
    mount: &Mount,
    pass: &mut Pass,
    lane: &mut Lane,
    file: FileId,
    by: Tag,
    from: u64,
    to: u64,
    iov: &mut IovIter,
) -> Progress
    requires of { IsPassOf mount.now pass.old }
    requires caller { by.caller ≡ pass.old.caller }
    requires mode { (file_at mount.now file).mode ≡ Cached }
    requires some { from < to }
    requires within { to ≤ file_end mount.now file }
    requires part { part_end mount.now.geometry to from ≡ to }
    requires room { HasNext iov.old (to - from) }
    requires shares { HasShares mount.now file 2 pass.old }
    ensures of { IsPassOf mount.now pass.new }
    ensures begun { pass.new.begun ≡ pass.old.begun }
    ensures read { HasReadUpTo mount.now file by from to (lane_seen count tells lane.old) (lane_seen count tells lane.new) pass.old pass.new iov.old iov.new result }
{
    let mut aim = Progress {
        at: to,
        bios: 0,
        fault: None,
    };
    for _ in rt.forever() {
        let tried = try_part(rt, mount, pass, lane, file, by, from, aim.at, iov);
        match after_try(from, aim, tried) {
            Round::Came(came) => return came,
            Round::Again(next) => aim = next,
        }
    }
    unreachable!()
}
