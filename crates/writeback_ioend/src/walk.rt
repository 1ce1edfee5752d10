//! The dirty blocks of a part of a file are written to the device.
ghost use Rattle.std.specs.Prelude.{◌≡◌, ◌≤◌, ◌<◌, ◌^◌, ◌+◌, None};
ghost use Rattle.fault_device.specs.LaneView.{lane_seen};
ghost use Rattle.mount_parts.specs.MountView.{HasFile, file_at};
ghost use Rattle.mini_fs.specs.Calls.{HasShares};
ghost use Rattle.mini_fs.specs.PassView.{IsPassOf};
ghost use Rattle.writeback_ioend.specs.Walks.{WalksOn, both_written, nothing_written};
ghost use Rattle.writeback_ioend.specs.Writebacks.{WritesBack, or_else};

use crate::folio::{folio_end, write_folio};
use fault_device::{Done, Lane};
use iob_base::{Fault, FileId, STRIPE};
use mini_fs::{Mount, Pass};
use std::sync::Wait;

/// What came of a walk over blocks that writes the dirty ones.
#[derive(Clone, Copy, Debug)]
pub struct Written {
    /// How many blocks were written.
    pub blocks: u64,
    /// How many bios were sent.
    pub bios: u64,
    /// What the first transfer did, in order of blocks, that failed.
    pub failed: Option<Done>,
    /// What stopped the walk.
    pub fault: Option<Fault>,
}

// Nothing was written, and this stopped the walk.
pub(crate) fn nothing_written(fault: Option<Fault>) -> Written
    ensures { result ≡ nothing_written fault }
{
    Written {
        blocks: 0,
        bios: 0,
        failed: None,
        fault,
    }
}

// The first of two transfers that failed.
pub(crate) fn or_else(first: Option<Done>, later: Option<Done>) -> Option<Done>
    ensures { result ≡ or_else first later }
{
    match first {
        Some(done) => Some(done),
        None => later,
    }
}

// What came of a walk that nothing stopped, and of another behind it.
fn both_written(first: Written, later: Written) -> Written
    requires blocks { first.blocks + later.blocks < 2 ^ 64 }
    requires bios { first.bios + later.bios < 2 ^ 64 }
    ensures { result ≡ both_written first later }
{
    Written {
        blocks: first.blocks + later.blocks,
        bios: first.bios + later.bios,
        failed: or_else(first.failed, later.failed),
        fault: later.fault,
    }
}

// Goes on from a block: where there is nothing to be written up to the end of its stripe or of the walk, to there; else
// behind the dirty blocks of the first folio that has some. It tells to which block, and what was written.
fn write_next<R: Wait>(
    rt: &R,
    mount: &Mount,
    pass: &mut Pass,
    lane: &mut Lane,
    file: FileId,
    waits: bool,
    at: u64,
    to: u64,
) -> (u64, Written)
    requires of { IsPassOf mount.now pass.old }
    requires exists { HasFile mount.now file }
    requires shares { HasShares mount.now file 64 pass.old }
    requires order { at < to }
    requires within { to ≤ (file_at mount.now file).blocks }
    ensures within { result.0 ≤ to }
    ensures walks { WalksOn mount.now file waits to at result.0 (lane_seen count tells lane.old) (lane_seen count tells lane.new) pass.old pass.new result.1 }
{
    mount.is_laid_out();
    let most = (STRIPE - at % STRIPE).min(to - at);
    let found = mount.find_due(rt, pass, file, at, most);
    match found.due {
        None => (at + most, nothing_written(None)),
        Some(due) => {
            let end = folio_end(mount, due, to);
            write_folio(rt, mount, pass, lane, file, waits, due, end)
        }
    }
}

// Writes the dirty blocks of a file from one up to another to the device, folio by folio. A block that is lent out is passed
// by, or, where the call waits, tried again once it is back.
pub(crate) fn write_range<R: Wait>(
    rt: &R,
    mount: &Mount,
    pass: &mut Pass,
    lane: &mut Lane,
    file: FileId,
    waits: bool,
    from: u64,
    to: u64,
) -> Written
    requires of { IsPassOf mount.now pass.old }
    requires exists { HasFile mount.now file }
    requires shares { HasShares mount.now file 64 pass.old }
    requires order { from ≤ to }
    requires within { to ≤ (file_at mount.now file).blocks }
    ensures written { WritesBack mount.now file waits from to (lane_seen count tells lane.old) (lane_seen count tells lane.new) pass.old pass.new result }
{
    let mut at = from;
    let mut written = nothing_written(None);
    for _ in rt.forever() {
        if at == to {
            return written;
        }
        let (next, more) = write_next(rt, mount, pass, lane, file, waits, at, to);
        written = both_written(written, more);
        if written.fault.is_some() {
            return written;
        }
        at = next;
    }
    unreachable!()
}
