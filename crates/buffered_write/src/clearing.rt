//! A range of a file is made zeros: the blocks that it covers whole become holes.
ghost use Rattle.std.specs.Prelude.{◌≡◌, ◌*◌, ◌+◌, ◌/◌, ◌<◌, ◌≤◌, Some, false, true, IfSome};
ghost use Rattle.fault_device.specs.LaneView.{LaneView, lane_seen};
ghost use Rattle.mini_fs.specs.Mappings.{file_end};
ghost use Rattle.buffered_write.specs.Clears.{Clears, IsRunOf, StopsClear, WipedOnce, WipesTo, block_end, clear_end, covers_block, whole_blocks, wipe_fault, wiped_to};
ghost use Rattle.buffered_write.specs.Lays.{EndsAt, GoesAt};

use crate::store_part::followed;
use crate::zeroing::zero_span;
use call_parts::{Progress, sizes};
use fault_device::Lane;
use iob_base::{Fault, FileId, STRIPE, Tag};
use mini_fs::{Mount, Pass};
use range_core::EventFault;
use std::sync::Wait;

// How many bytes a block has.
fn block_size(mount: &Mount) -> u64
    ensures is { result ≡ mount.now.geometry.block_size }
    ensures some { 0 < result }
{
    u64::from(sizes(mount).block_size())
}

// Whether a block begins at a place, and a range that ends at `to` covers it whole from there on.
fn covers_block(size: u64, to: u64, at: u64) -> bool
    requires some { 0 < size }
    requires order { at ≤ to }
    ensures { result ≡ covers_block size to at }
{
    if at % size != 0 {
        return false;
    }
    size <= to - at
}

// How many blocks of one stripe the range covers whole from a place on.
fn whole_blocks(size: u64, to: u64, at: u64) -> u64
    requires some { 0 < size }
    requires order { at ≤ to }
    ensures { result ≡ whole_blocks size to at }
{
    ((to - at) / size).min(STRIPE - at / size % STRIPE)
}

// Where the block of a place ends, or the range in it.
fn block_end(size: u64, to: u64, at: u64) -> u64
    requires some { 0 < size }
    requires order { at < to }
    ensures { result ≡ block_end size to at }
{
    at + (size - at % size).min(to - at)
}

// How a clearing tells why a turn wiped nothing.
fn wipe_fault(refused: EventFault) -> Fault
    ensures { result ≡ wipe_fault refused }
{
    match refused {
        EventFault::Worn { cookie } => Fault::Worn { cookie },
        _ => Fault::NoMemory,
    }
}

// One turn that is to wipe a run of blocks.
fn wipe_once<R: Wait>(
    rt: &R,
    mount: &Mount,
    pass: &mut Pass,
    file: FileId,
    by: Tag,
    block: u64,
    blocks: u64,
) -> Result<u64, EventFault>
    requires goes { GoesAt mount.now file by pass.old }
    requires sized { 0 < mount.now.geometry.block_size }
    requires run { IsRunOf mount.now file block blocks }
    ensures goes { GoesAt mount.now file by pass.new }
    ensures wiped { WipedOnce mount.now file by block blocks pass.old pass.new result }
{
    mount.is_laid_out();
    mount.wipe(rt, pass, file, by, block, blocks)
}

// Wipes a run of blocks of one stripe, again for as long as one of them is away. It answers what stopped it.
fn wipe_run<R: Wait>(
    rt: &R,
    mount: &Mount,
    pass: &mut Pass,
    file: FileId,
    by: Tag,
    block: u64,
    blocks: u64,
) -> Option<Fault>
    requires goes { GoesAt mount.now file by pass.old }
    requires sized { 0 < mount.now.geometry.block_size }
    requires run { IsRunOf mount.now file block blocks }
    ensures goes { GoesAt mount.now file by pass.new }
    ensures wiped { WipesTo mount.now file by block blocks pass.old pass.new (wiped_to mount.now.geometry.block_size block blocks result) }
    ensures fault { IfSome result StopsClear }
{
    for _ in rt.forever() {
        match wipe_once(rt, mount, pass, file, by, block, blocks) {
            Ok(_) => return None,
            Err(EventFault::Away { .. }) => {}
            Err(refused) => return Some(wipe_fault(refused)),
        }
    }
    unreachable!()
}

// Wipes the blocks of one stripe that a range covers whole from a place on, where it covers one.
fn wipe_part<R: Wait>(
    rt: &R,
    mount: &Mount,
    pass: &mut Pass,
    file: FileId,
    by: Tag,
    to: u64,
    at: u64,
) -> Progress
    requires goes { GoesAt mount.now file by pass.old }
    requires some { at < to }
    requires covers { covers_block mount.now.geometry.block_size to at ≡ true }
    requires within { to ≤ file_end mount.now file }
    ensures goes { GoesAt mount.now file by pass.new }
    ensures cleared { (lane : LaneView) → Clears mount.now file by at to lane lane pass.old pass.new result }
    ensures fault { IfSome result.fault StopsClear }
    ensures ends { EndsAt mount.now.geometry.block_size at (clear_end mount.now.geometry.block_size to at) result.at result.fault false }
{
    let size = block_size(mount);
    let blocks = whole_blocks(size, to, at);
    match wipe_run(rt, mount, pass, file, by, at / size, blocks) {
        None => Progress {
            at: at + blocks * size,
            bios: 0,
            fault: None,
        },
        Some(fault) => Progress {
            at,
            bios: 0,
            fault: Some(fault),
        },
    }
}

// Clears the part of a range that begins at a place: its whole blocks in one stripe, or the bytes of a block that the range
// covers in part.
fn clear_part<R: Wait>(
    rt: &R,
    mount: &Mount,
    pass: &mut Pass,
    lane: &mut Lane,
    file: FileId,
    by: Tag,
    to: u64,
    at: u64,
) -> Progress
    requires goes { GoesAt mount.now file by pass.old }
    requires some { at < to }
    requires within { to ≤ file_end mount.now file }
    ensures goes { GoesAt mount.now file by pass.new }
    ensures cleared { Clears mount.now file by at to (lane_seen count tells lane.old) (lane_seen count tells lane.new) pass.old pass.new result }
    ensures fault { IfSome result.fault StopsClear }
    ensures ends { EndsAt mount.now.geometry.block_size at (clear_end mount.now.geometry.block_size to at) result.at result.fault false }
{
    let size = block_size(mount);
    if covers_block(size, to, at) {
        return wipe_part(rt, mount, pass, file, by, to, at);
    }
    zero_span(rt, mount, pass, lane, file, by, at, block_end(size, to, at))
}

// Makes zeros of the bytes of a file from one place up to another, in order. Blocks that are covered whole are wiped, one
// turn a stripe, and the bytes of a block that is covered in part are a part of their own.
pub(crate) fn clear_range<R: Wait>(
    rt: &R,
    mount: &Mount,
    pass: &mut Pass,
    lane: &mut Lane,
    file: FileId,
    by: Tag,
    from: u64,
    to: u64,
) -> Progress
    requires goes { GoesAt mount.now file by pass.old }
    requires some { from < to }
    requires within { to ≤ file_end mount.now file }
    ensures goes { GoesAt mount.now file by pass.new }
    ensures cleared { Clears mount.now file by from to (lane_seen count tells lane.old) (lane_seen count tells lane.new) pass.old pass.new result }
    ensures fault { IfSome result.fault StopsClear }
    ensures ends { EndsAt mount.now.geometry.block_size from to result.at result.fault false }
{
    let mut came = Progress {
        at: from,
        bios: 0,
        fault: None,
    };
    while came.at < to {
        let part = clear_part(rt, mount, pass, lane, file, by, to, came.at);
        came = followed(came, part);
        if came.fault.is_some() {
            return came;
        }
    }
    came
}
