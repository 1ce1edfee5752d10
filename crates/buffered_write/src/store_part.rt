//! A part of a write, all in one folio and in one mapping, is stored in the page cache.
ghost use Rattle.std.specs.Prelude.{◌≡◌, ◌-◌, ◌/◌, ◌<◌, ◌≤◌};
ghost use Rattle.iob_base.specs.declared.stamp.Mode.TheVariants.{Cached};
ghost use Rattle.fault_device.specs.LaneView.{lane_seen};
ghost use Rattle.range_core.specs.ByteRuns.{HasNext};
ghost use Rattle.mount_parts.specs.MountView.{HasBlock, file_at};
ghost use Rattle.buffered_write.specs.Lays.{CanLay, EndsAt, GoesAt, GoesOn};
ghost use Rattle.buffered_write.specs.Pwrites.{StoredOnce, Warmed, Writes, after_fill, came_of, followed};

use call_parts::{Fill, Progress, bios_of, fill_cold};
use fault_device::Lane;
use iob_base::{Fault, FileId, Tag};
use iov_iter::IovIter;
use mini_fs::{Mount, Pass};
use range_core::{EventFault, Sample};
use std::sync::Wait;

/// What came of a try to store a part.
#[derive(Clone, Copy, Debug)]
pub enum Try {
    /// Its bytes were stored.
    Stored,
    /// A block of it was away, or cold and read: it is to be stored again.
    Again,
    /// Its mapping is out of date.
    Stale,
    /// This stopped it.
    Stopped(Fault),
}

/// How far a write came in a mapping, and whether the mapping was found out of date there.
#[derive(Clone, Copy, Debug)]
pub struct Written {
    pub came: Progress,
    pub stale: bool,
}

// How a part goes on whose cold block was to be read.
fn after_fill(fill: Fill) -> Try
    ensures { result ≡ after_fill fill }
{
    match fill {
        Fill::Filled | Fill::Again => Try::Again,
        Fill::Failed { done, .. } => Try::Stopped(Fault::Eio {
            lane: done.lane,
            before: done.before,
            after: done.after,
        }),
        Fill::NoMemory => Try::Stopped(Fault::NoMemory),
    }
}

// How far a call came that had come some way without a fault, and then went on.
pub(crate) fn followed(came: Progress, next: Progress) -> Progress
    ensures { result ≡ followed came next }
{
    Progress {
        at: next.at,
        bios: came.bios.saturating_add(next.bios),
        fault: next.fault,
    }
}

// How far a try came that was to store the bytes from one place up to another, and sent so many bios.
pub(crate) fn came_of(from: u64, to: u64, bios: u64, tried: Try) -> Progress
    ensures { result ≡ came_of from to bios tried }
{
    let (at, fault) = match tried {
        Try::Stored => (to, None),
        Try::Again | Try::Stale => (from, None),
        Try::Stopped(fault) => (from, Some(fault)),
    };
    Progress { at, bios, fault }
}

// One store of a part.
fn store_once<R: Wait>(
    rt: &R,
    mount: &Mount,
    pass: &mut Pass,
    file: FileId,
    by: Tag,
    seen: Sample,
    from: u64,
    to: u64,
    iov: &mut IovIter,
) -> Result<(), EventFault>
    requires goes { GoesOn mount.now file by pass.old }
    requires can { CanLay mount.now file seen from to pass.old }
    requires folio { from / mount.now.geometry.block_size / mount.now.geometry.folio_blocks ≡ (to - 1) / mount.now.geometry.block_size / mount.now.geometry.folio_blocks }
    requires room { HasNext iov.old (to - from) }
    ensures goes { GoesOn mount.now file by pass.new }
    ensures begun { pass.new.begun ≡ pass.old.begun }
    ensures came { StoredOnce mount.now file by from to pass.old pass.new iov.old iov.new result }
{
    mount.is_laid_out();
    mount.store(rt, pass, file, by, seen, from, to, iov)
}

// A cold block of a cached file is read for the caller of a tag.
pub(crate) fn warm<R: Wait>(
    rt: &R,
    mount: &Mount,
    pass: &mut Pass,
    lane: &mut Lane,
    file: FileId,
    by: Tag,
    block: u64,
) -> (Try, u64)
    requires goes { GoesAt mount.now file by pass.old }
    requires cached { (file_at mount.now file).mode ≡ Cached }
    requires block { HasBlock mount.now file block }
    ensures goes { GoesAt mount.now file by pass.new }
    ensures begun { pass.new.begun ≡ pass.old.begun }
    ensures warmed { Warmed mount.now file block (lane_seen count tells lane.old) (lane_seen count tells lane.new) pass.old pass.new result.1 result.0 }
{
    let fill = fill_cold(rt, mount, pass, lane, file, block, 1);
    (after_fill(fill), bios_of(fill))
}

// One try to store a part, and how many bios it sent.
fn try_store<R: Wait>(
    rt: &R,
    mount: &Mount,
    pass: &mut Pass,
    lane: &mut Lane,
    file: FileId,
    by: Tag,
    seen: Sample,
    from: u64,
    to: u64,
    iov: &mut IovIter,
) -> (Try, u64)
    requires goes { GoesOn mount.now file by pass.old }
    requires can { CanLay mount.now file seen from to pass.old }
    requires folio { from / mount.now.geometry.block_size / mount.now.geometry.folio_blocks ≡ (to - 1) / mount.now.geometry.block_size / mount.now.geometry.folio_blocks }
    requires room { HasNext iov.old (to - from) }
    ensures goes { GoesOn mount.now file by pass.new }
    ensures begun { pass.new.begun ≡ pass.old.begun }
    ensures tried { Writes mount.now file by from to (lane_seen count tells lane.old) (lane_seen count tells lane.new) pass.old pass.new iov.old iov.new (came_of from to result.1 result.0) }
{
    match store_once(rt, mount, pass, file, by, seen, from, to, iov) {
        Ok(()) => (Try::Stored, 0),
        Err(EventFault::Cold { block }) => warm(rt, mount, pass, lane, file, by, block),
        Err(EventFault::Away { .. }) => (Try::Again, 0),
        Err(EventFault::Stale { .. }) => (Try::Stale, 0),
        Err(_) => (Try::Stopped(Fault::NoMemory), 0),
    }
}

/// Stores the iov's next bytes over the bytes of a file from one place up to another, all in one folio and in the extent
/// of the sample. It tries again while a block of them is away, and reads a block that is cold first.
///
/// It ends before its bytes are stored where the sample is out of date, where the read of a cold block failed, and for want
/// of memory. Nothing of them is stored then.
pub(crate) fn store_part<R: Wait>(
    rt: &R,
    mount: &Mount,
    pass: &mut Pass,
    lane: &mut Lane,
    file: FileId,
    by: Tag,
    seen: Sample,
    from: u64,
    to: u64,
    iov: &mut IovIter,
) -> Written
    requires goes { GoesOn mount.now file by pass.old }
    requires can { CanLay mount.now file seen from to pass.old }
    requires folio { from / mount.now.geometry.block_size / mount.now.geometry.folio_blocks ≡ (to - 1) / mount.now.geometry.block_size / mount.now.geometry.folio_blocks }
    requires room { HasNext iov.old (to - from) }
    ensures goes { GoesOn mount.now file by pass.new }
    ensures begun { pass.new.begun ≡ pass.old.begun }
    ensures written { Writes mount.now file by from to (lane_seen count tells lane.old) (lane_seen count tells lane.new) pass.old pass.new iov.old iov.new result.came }
    ensures ends { EndsAt mount.now.geometry.block_size from to result.came.at result.came.fault result.stale }
{
    let mut bios = 0;
    for _ in rt.forever() {
        let (tried, sent) = try_store(rt, mount, pass, lane, file, by, seen, from, to, iov);
        let so_far = Progress {
            at: from,
            bios,
            fault: None,
        };
        let came = followed(so_far, came_of(from, to, sent, tried));
        match tried {
            Try::Again => bios = came.bios,
            Try::Stored => return Written { came, stale: false },
            Try::Stale => return Written { came, stale: true },
            Try::Stopped(_) => return Written { came, stale: false },
        }
    }
    unreachable!()
}
