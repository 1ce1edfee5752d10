//! The dirty blocks of one folio are written to the device, all bios of it together.
ghost use Rattle.std.specs.Prelude.{◌≡◌, ◌+◌, ◌-◌, ◌%◌, ◌<◌, ◌≤◌, [], IfOk, vec_capacity};
ghost use Rattle.fault_device.specs.LaneView.{lane_seen};
ghost use Rattle.mount_parts.specs.MountView.{HasFile, file_at};
ghost use Rattle.mini_fs.specs.Calls.{HasShares};
ghost use Rattle.mini_fs.specs.PassView.{IsPassOf};
ghost use Rattle.writeback_ioend.specs.Walks.{WalksFolio, folio_end};

use crate::back::send;
use crate::lend::{attach, lend_runs};
use crate::walk::{Written, nothing_written};
use bio_pages::Bio;
use call_parts::sizes;
use fault_device::{Done, Lane};
use iob_base::{Fault, FileId};
use mini_fs::{Mount, Pass, Ticket};
use std::alloc::{AllocError, Global};
use std::sync::Wait;

// How many blocks a folio has at most, and so how many bios it can have out.
const FOLIO: usize = 32;

// Where the folio of a block ends, or the walk, which goes beyond the block.
pub(crate) fn folio_end(mount: &Mount, at: u64, to: u64) -> u64
    requires { at < to }
    ensures is { result ≡ folio_end mount.now.geometry.folio_blocks at to }
    ensures some { at < result }
    ensures within { result ≤ to }
    ensures few { result ≤ at + 32 }
    ensures stripe { at % 64 + (result - at) ≤ 64 }
{
    let folio = u64::from(sizes(mount).folio_blocks());
    let left = folio - at % folio;
    at + left.min(to - at)
}

// The lists that a folio needs: for its bios, for the numbers of their loans, and for what their transfers did.
#[derive(Drop)]
struct Room {
    bios: Vec<Bio<Ticket>>,
    numbers: Vec<u64>,
    dones: Vec<Done>,
}

// Empty lists, with room for all bios of a folio.
fn make_room(alloc: Global) -> Result<Room, AllocError>
    ensures bios { IfOk result (λ room. (room.bios.items ≡ []) × (32 ≤ vec_capacity room.bios)) }
    ensures numbers { IfOk result (λ room. (room.numbers.items ≡ []) × (32 ≤ vec_capacity room.numbers)) }
    ensures dones { IfOk result (λ room. (room.dones.items ≡ []) × (32 ≤ vec_capacity room.dones)) }
{
    let bios = Vec::with_capacity(alloc, FOLIO)?;
    let numbers = Vec::with_capacity(alloc, FOLIO)?;
    let dones = Vec::with_capacity(alloc, FOLIO)?;
    Ok(Room {
        bios,
        numbers,
        dones,
    })
}

// Writes the dirty blocks of a folio from one on, up to another. It tells to which block it came, and what was written.
pub(crate) fn write_folio<R: Wait>(
    rt: &R,
    mount: &Mount,
    pass: &mut Pass,
    lane: &mut Lane,
    file: FileId,
    waits: bool,
    at: u64,
    end: u64,
) -> (u64, Written)
    requires of { IsPassOf mount.now pass.old }
    requires exists { HasFile mount.now file }
    requires shares { HasShares mount.now file 64 pass.old }
    requires some { at < end }
    requires within { end ≤ (file_at mount.now file).blocks }
    requires few { end ≤ at + 32 }
    requires stripe { at % 64 + (end - at) ≤ 64 }
    ensures within { result.0 ≤ end }
    ensures walked { WalksFolio mount.now file waits at result.0 (lane_seen count tells lane.old) (lane_seen count tells lane.new) pass.old pass.new result.1 }
{
    let Ok(
        Room {
            mut bios,
            mut numbers,
            dones,
        },
    ) = make_room(mount.allocator())
    else {
        return (at, nothing_written(Some(Fault::NoMemory)));
    };
    if let Some(fault) = attach(rt, mount, pass, file, at, end) {
        return (at, nothing_written(Some(fault)));
    }
    let (next, fault) = lend_runs(
        rt,
        mount,
        pass,
        file,
        waits,
        at,
        end,
        &mut bios,
        &mut numbers,
    );
    let count = bios.len() as u64;
    let (blocks, failed) = send(rt, mount, pass, lane, file, numbers, bios, dones);
    (
        next,
        Written {
            blocks,
            bios: count,
            failed,
            fault,
        },
    )
}
