//! A part of a range, all in one folio and in one mapping, becomes zeros.
ghost use Rattle.std.specs.Prelude.{◌≡◌, ◌-◌, ◌/◌, ◌<◌, ◌≤◌};
ghost use Rattle.iob_base.specs.declared.stamp.Mode.TheVariants.{Cached, Dax};
ghost use Rattle.fault_device.specs.LaneView.{lane_seen};
ghost use Rattle.mount_parts.specs.MountView.{file_at};
ghost use Rattle.buffered_write.specs.Lays.{EndsAt, GoesAt, LieUnder};
ghost use Rattle.buffered_write.specs.Pwrites.{came_of, followed};
ghost use Rattle.buffered_write.specs.Zeroes.{ZeroedOnce, ZeroedThrough, Zeroes, after_refusal};

use crate::store_part::{Try, Written, came_of, followed, warm};
use call_parts::Progress;
use fault_device::Lane;
use iob_base::{Fault, FileId, Mode, Tag};
use mini_fs::{Mount, Pass};
use range_core::{EventFault, Sample};
use std::sync::Wait;

// One turn that lays zeros over a part in the page cache.
fn zero_once<R: Wait>(
    rt: &R,
    mount: &Mount,
    pass: &mut Pass,
    file: FileId,
    by: Tag,
    seen: Sample,
    from: u64,
    to: u64,
) -> Result<(), EventFault>
    requires goes { GoesAt mount.now file by pass.old }
    requires mode { (file_at mount.now file).mode ≡ Cached }
    requires under { LieUnder mount.now file seen from to pass.old }
    requires folio { from / mount.now.geometry.block_size / mount.now.geometry.folio_blocks ≡ (to - 1) / mount.now.geometry.block_size / mount.now.geometry.folio_blocks }
    ensures goes { GoesAt mount.now file by pass.new }
    ensures begun { pass.new.begun ≡ pass.old.begun }
    ensures came { ZeroedOnce mount.now file by from to pass.old pass.new result }
{
    mount.is_laid_out();
    mount.store_zeros(rt, pass, file, by, seen, from, to)
}

// One try to lay zeros over a part in the page cache, and how many bios it sent.
fn try_cached<R: Wait>(
    rt: &R,
    mount: &Mount,
    pass: &mut Pass,
    lane: &mut Lane,
    file: FileId,
    by: Tag,
    seen: Sample,
    from: u64,
    to: u64,
) -> (Try, u64)
    requires goes { GoesAt mount.now file by pass.old }
    requires mode { (file_at mount.now file).mode ≡ Cached }
    requires under { LieUnder mount.now file seen from to pass.old }
    requires folio { from / mount.now.geometry.block_size / mount.now.geometry.folio_blocks ≡ (to - 1) / mount.now.geometry.block_size / mount.now.geometry.folio_blocks }
    ensures goes { GoesAt mount.now file by pass.new }
    ensures begun { pass.new.begun ≡ pass.old.begun }
    ensures tried { Zeroes mount.now file by from to (lane_seen count tells lane.old) (lane_seen count tells lane.new) pass.old pass.new (came_of from to result.1 result.0) }
{
    match zero_once(rt, mount, pass, file, by, seen, from, to) {
        Ok(()) => (Try::Stored, 0),
        Err(EventFault::Cold { block }) => warm(rt, mount, pass, lane, file, by, block),
        Err(EventFault::Away { .. }) => (Try::Again, 0),
        Err(EventFault::Stale { .. }) => (Try::Stale, 0),
        Err(_) => (Try::Stopped(Fault::NoMemory), 0),
    }
}

// How a part goes on that was to be zeroed in the sectors and was refused.
fn after_refusal(refused: EventFault) -> Try
    ensures { result ≡ after_refusal refused }
{
    match refused {
        EventFault::Stale { .. } => Try::Stale,
        EventFault::Poison { done } => Try::Stopped(Fault::Eio {
            lane: done.lane,
            before: done.before,
            after: done.after,
        }),
        _ => Try::Stopped(Fault::NoMemory),
    }
}

// One turn that lays zeros over a part in the sectors of a file without a page cache.
fn through_once<R: Wait>(
    rt: &R,
    mount: &Mount,
    pass: &mut Pass,
    lane: &mut Lane,
    file: FileId,
    by: Tag,
    seen: Sample,
    from: u64,
    to: u64,
) -> Result<(), EventFault>
    requires goes { GoesAt mount.now file by pass.old }
    requires mode { (file_at mount.now file).mode ≡ Dax }
    requires under { LieUnder mount.now file seen from to pass.old }
    ensures goes { GoesAt mount.now file by pass.new }
    ensures begun { pass.new.begun ≡ pass.old.begun }
    ensures came { ZeroedThrough mount.now file by from to (lane_seen count tells lane.old) (lane_seen count tells lane.new) pass.old pass.new result }
{
    mount.is_laid_out();
    mount.dax_zero(rt, pass, file, by, lane, seen, from, to)
}

// One try to lay zeros over a part in the sectors of a file without a page cache.
fn try_through<R: Wait>(
    rt: &R,
    mount: &Mount,
    pass: &mut Pass,
    lane: &mut Lane,
    file: FileId,
    by: Tag,
    seen: Sample,
    from: u64,
    to: u64,
) -> (Try, u64)
    requires goes { GoesAt mount.now file by pass.old }
    requires mode { (file_at mount.now file).mode ≡ Dax }
    requires under { LieUnder mount.now file seen from to pass.old }
    ensures goes { GoesAt mount.now file by pass.new }
    ensures begun { pass.new.begun ≡ pass.old.begun }
    ensures tried { Zeroes mount.now file by from to (lane_seen count tells lane.old) (lane_seen count tells lane.new) pass.old pass.new (came_of from to result.1 result.0) }
{
    match through_once(rt, mount, pass, lane, file, by, seen, from, to) {
        Ok(()) => (Try::Stored, 0),
        Err(refused) => (after_refusal(refused), 0),
    }
}

// One try to lay zeros over a part, and how many bios it sent.
fn try_zero<R: Wait>(
    rt: &R,
    mount: &Mount,
    pass: &mut Pass,
    lane: &mut Lane,
    file: FileId,
    by: Tag,
    seen: Sample,
    from: u64,
    to: u64,
) -> (Try, u64)
    requires goes { GoesAt mount.now file by pass.old }
    requires under { LieUnder mount.now file seen from to pass.old }
    requires folio { from / mount.now.geometry.block_size / mount.now.geometry.folio_blocks ≡ (to - 1) / mount.now.geometry.block_size / mount.now.geometry.folio_blocks }
    ensures goes { GoesAt mount.now file by pass.new }
    ensures begun { pass.new.begun ≡ pass.old.begun }
    ensures tried { Zeroes mount.now file by from to (lane_seen count tells lane.old) (lane_seen count tells lane.new) pass.old pass.new (came_of from to result.1 result.0) }
{
    match mount.mode(file) {
        Mode::Cached => try_cached(rt, mount, pass, lane, file, by, seen, from, to),
        Mode::Dax => try_through(rt, mount, pass, lane, file, by, seen, from, to),
    }
}

/// Lays zeros over the bytes of a file from one place up to another, all in one folio and in the extent of the sample, which
/// may be a hole. It tries again while a block of them is away, and reads a block that is cold first.
///
/// It ends before its zeros are laid where the sample is out of date, where the device failed, and for want of memory.
/// Nothing of them is laid then.
pub(crate) fn zero_part<R: Wait>(
    rt: &R,
    mount: &Mount,
    pass: &mut Pass,
    lane: &mut Lane,
    file: FileId,
    by: Tag,
    seen: Sample,
    from: u64,
    to: u64,
) -> Written
    requires goes { GoesAt mount.now file by pass.old }
    requires under { LieUnder mount.now file seen from to pass.old }
    requires folio { from / mount.now.geometry.block_size / mount.now.geometry.folio_blocks ≡ (to - 1) / mount.now.geometry.block_size / mount.now.geometry.folio_blocks }
    ensures goes { GoesAt mount.now file by pass.new }
    ensures begun { pass.new.begun ≡ pass.old.begun }
    ensures zeroed { Zeroes mount.now file by from to (lane_seen count tells lane.old) (lane_seen count tells lane.new) pass.old pass.new result.came }
    ensures ends { EndsAt mount.now.geometry.block_size from to result.came.at result.came.fault result.stale }
{
    let mut bios = 0;
    for _ in rt.forever() {
        let (tried, sent) = try_zero(rt, mount, pass, lane, file, by, seen, from, to);
        let so_far = Progress {
            at: from,
            bios,
            fault: None,
        };
        let came = followed(so_far, came_of(from, to, sent, tried));
        match tried {
            Try::Again => bios = came.bios,
            Try::Stored => return Written { came, stale: false },
            Try::Stale => return Written { came, stale: true },
            Try::Stopped(_) => return Written { came, stale: false },
        }
    }
    unreachable!()
}
