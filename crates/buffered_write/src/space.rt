//! The blocks of a range get space.
ghost use Rattle.std.specs.Prelude.{◌≡◌, ◌<◌, ◌≤◌};
ghost use Rattle.fault_device.specs.LaneView.{lane_seen};
ghost use Rattle.mount_parts.specs.MountView.{HasFile, file_at};
ghost use Rattle.mini_fs.specs.Calls.{LeavesPass, MayCall};
ghost use Rattle.mini_fs.specs.Holds.{HoldsNone};
ghost use Rattle.mini_fs.specs.Mappings.{file_end};
ghost use Rattle.mini_fs.specs.PassView.{IsPassOf};
ghost use Rattle.mini_fs.specs.Tickets.{KeepsTickets};
ghost use Rattle.buffered_write.specs.Allocates.{Allocates, AllocatesLocked, AllocatesPart, AllocatesRun, blocks_end, count_reply, first_block, space_fault, stripe_end};

use call_parts::{file_end, read_to};
use fault_device::Lane;
use iob_base::{Answer, Fault, FileId, Reply, STRIPE, Stop};
use mini_fs::{Mount, Pass};
use range_core::EventFault;
use std::sync::Wait;

// How an allocation tells why a turn gave no space.
fn space_fault(refused: EventFault) -> Fault
    ensures { result ≡ space_fault refused }
{
    match refused {
        EventFault::Worn { cookie } => Fault::Worn { cookie },
        EventFault::NoSpace { wanted, found } => Fault::NoSpace { wanted, found },
        _ => Fault::NoMemory,
    }
}

// Where the part of a run of blocks ends that begins with a block: with its stripe, or with the run.
fn stripe_end(to: u64, at: u64) -> u64
    requires { at < to }
    ensures { result ≡ stripe_end to at }
{
    at + (STRIPE - at % STRIPE).min(to - at)
}

// Gives space to the part of a run of blocks that begins with a block: how many took some.
fn allocate_part<R: Wait>(
    rt: &R,
    mount: &Mount,
    pass: &mut Pass,
    file: FileId,
    to: u64,
    at: u64,
) -> Result<u64, Fault>
    requires of { IsPassOf mount.now pass.old }
    requires some { at < to }
    requires within { to ≤ (file_at mount.now file).blocks }
    ensures of { IsPassOf mount.now pass.new }
    ensures allocated { AllocatesPart mount.now file to at pass.old pass.new result }
{
    mount.is_laid_out();
    let blocks = stripe_end(to, at) - at;
    match mount.preallocate(rt, pass, file, at, blocks) {
        Ok(count) => Ok(count),
        Err(refused) => Err(space_fault(refused)),
    }
}

// Gives space to the blocks from one up to another, one turn a stripe, up to the first refusal: how many took some.
fn allocate_run<R: Wait>(
    rt: &R,
    mount: &Mount,
    pass: &mut Pass,
    file: FileId,
    from: u64,
    to: u64,
) -> Result<u64, Fault>
    requires of { IsPassOf mount.now pass.old }
    requires order { from ≤ to }
    requires within { to ≤ (file_at mount.now file).blocks }
    ensures of { IsPassOf mount.now pass.new }
    ensures allocated { AllocatesRun mount.now file from to pass.old pass.new result }
{
    let mut at = from;
    let mut count = 0;
    while at < to {
        match allocate_part(rt, mount, pass, file, to, at) {
            Err(fault) => return Err(fault),
            Ok(more) => {
                count += more;
                at = stripe_end(to, at);
            }
        }
    }
    Ok(count)
}

// The same under the exclusive class of the file.
fn allocate_locked<R: Wait>(
    rt: &R,
    mount: &Mount,
    pass: &mut Pass,
    file: FileId,
    from: u64,
    to: u64,
) -> Result<u64, Fault>
    requires of { IsPassOf mount.now pass.old }
    requires exists { HasFile mount.now file }
    requires free { HoldsNone pass.old file }
    requires order { from ≤ to }
    requires within { to ≤ (file_at mount.now file).blocks }
    ensures of { IsPassOf mount.now pass.new }
    ensures allocated { AllocatesLocked mount.now file from to pass.old pass.new result }
    ensures tickets { KeepsTickets pass.old pass.new }
{
    let hold = mount.exclusive(rt, pass, file);
    let came = allocate_run(rt, mount, pass, file, from, to);
    mount.leave_exclusive(pass, hold);
    came
}

// The first block with bytes of a range that begins before the end of its file, and the one after the last.
fn blocks_of(mount: &Mount, file: FileId, off: u64, length: u64) -> (u64, u64)
    requires exists { HasFile mount.now file }
    requires some { 0 < length }
    requires before { off < file_end mount.now file }
    ensures first { result.0 ≡ first_block mount.now off }
    ensures end { result.1 ≡ blocks_end mount.now file off length }
    ensures order { result.0 ≤ result.1 }
    ensures within { result.1 ≤ (file_at mount.now file).blocks }
{
    mount.is_laid_out();
    let to = read_to(file_end(mount, file), off, length);
    let size = u64::from(mount.geometry().block_size());
    (off / size, (to - 1) / size + 1)
}

// What an allocation replies whose turns came to this.
fn count_reply(came: Result<u64, Fault>) -> Reply
    ensures { result ≡ count_reply came }
{
    match came {
        Ok(count) => Reply::Ok {
            count,
            stop: Stop::Whole,
        },
        Err(fault) => Reply::Err { fault, sent: 0 },
    }
}

// The answer of a call that sent no bio.
fn unsent(reply: Reply) -> Answer
    ensures reply { result.reply ≡ reply }
    ensures bios { result.bios ≡ 0 }
{
    Answer { reply, bios: 0 }
}

/// Gives space to all blocks with bytes of a range of a file, whatever its mode. Those of one stripe get it in one turn, in
/// order of stripes, under the exclusive class of the file. The range is cut at the end of the file.
///
/// It answers how many blocks took space, also where the range was cut. Pages and their bytes stay. It sends no bio, and
/// the lane stays as it was. Of no bytes it takes nothing, wherever they begin.
///
/// # Errors
///
/// A refusal ends the call. What was given before stays.
///
/// - `TooFar` where the range begins at or past the end of the file.
/// - `Worn` where the cookie of a stripe is used up whose blocks need space.
/// - `NoSpace` where fewer blocks are free than a stripe's holes need.
/// - `NoMemory`.
pub fn allocate<R: Wait>(
    rt: &R,
    mount: &Mount,
    pass: &mut Pass,
    lane: &mut Lane,
    call: u32,
    file: FileId,
    off: u64,
    length: u64,
) -> Answer
    requires { MayCall mount.now file call pass.old }
    ensures allocated { Allocates mount.now file call off length pass.old pass.new result }
    ensures pass { LeavesPass mount.now file call pass.old pass.new }
    ensures lane { lane_seen count tells lane.new ≡ lane_seen count tells lane.old }
{
    let _ = lane;
    pass.start_call(call);
    if length == 0 {
        return unsent(count_reply(Ok(0)));
    }
    let end = file_end(mount, file);
    if off >= end {
        return unsent(count_reply(Err(Fault::TooFar { offset: off, end })));
    }
    let (first, to) = blocks_of(mount, file, off, length);
    unsent(count_reply(allocate_locked(rt, mount, pass, file, first, to)))
}
