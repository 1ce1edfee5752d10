//! Lists of bios that carry tickets of a pass, and their run by way of a mount's queue.
ghost use Rattle.std.specs.Prelude.{◌≡◌, ◌+◌, ◌<◌, ◌≤◌, [], IfOk, OnOk, vec_capacity, vec_len};
ghost use Rattle.bio_pages.specs.Lists.{CanSend};
ghost use Rattle.fault_device.specs.Transfer.{CanTransfer};
ghost use Rattle.mini_fs.specs.PassView.{IsPassOf};
ghost use Rattle.mount_parts.specs.MountView.{HasBlock};
ghost use Rattle.worked_mounts.specs.Alone.{IsAlone, only_file, share_of};
ghost use Rattle.worked_mounts.specs.Shares.{first_share};

use crate::mount_turns::expect_run;
use crate::single::FILE;
use bio_pages::Bio;
use fault_device::{Done, Lane, can_transfer};
use iob_base::{Geometry, Items, Op, Page, Part, Parts, sectors};
use mini_fs::{Mount, Pass, Ticket};
use std::alloc::{AllocError, Global};
use std::process::Abort;
use std::sync::Wait;

// How many bios a caller has.
const BIOS: u32 = 32;

/// A caller with bios that are ready to be run, and room for what their transfers do.
#[derive(Drop)]
pub(crate) struct Ready {
    pub(crate) pass: Pass,
    lane: Lane,
    bios: Vec<Bio<Ticket>>,
    dones: Vec<Done>,
    ghost few: { vec_len bios ≤ 32 },
    ghost can_send: { CanSend bios.items },
    ghost none_told: { dones.items ≡ [] },
    ghost room: { vec_len bios ≤ vec_capacity dones },
}

/// What has become of them: how many transfers the caller's lane made, and what became of each bio.
#[derive(Drop)]
pub(crate) struct Ran {
    pub(crate) ops: u64,
    pub(crate) dones: Vec<Done>,
}

// A block of no file, and a page to write to it.
fn one_part(rt: &impl Abort, alloc: Global) -> Result<Parts, AllocError>
    ensures { IfOk result CanTransfer }
{
    let Ok(geometry) = Geometry::new(16, 4) else {
        unreachable!()
    };
    let Some(sector) = sectors(alloc, geometry, 1, 0xee)?.pop() else {
        panic!(rt; "a block")
    };
    let page = Page {
        number: 0,
        bytes: Items::from_vec(vec![in alloc; 0x41; 16]?),
    };
    let mut parts = Parts::new(alloc)?;
    parts.push(Part { sector, page });
    assert!(rt; can_transfer(parts.as_slice()), "a block and its page");
    Ok(parts)
}

// A write of one block that returns to this slot, with a ticket of the pass.
fn bio(
    rt: &impl Abort,
    mount: &Mount,
    pass: &mut Pass,
    slot: u32,
) -> Result<Bio<Ticket>, AllocError>
    requires of { IsPassOf mount.now pass.old }
    requires block { HasBlock mount.now only_file 0 }
    requires share { 1 < first_share mount.now pass.old }
    ensures of { OnOk result (IsPassOf mount.now pass.new) }
    ensures share { OnOk result (first_share mount.now pass.new + 1 ≡ first_share mount.now pass.old) }
    ensures bio { IfOk result (λ b. (b.slot ≡ slot) × CanTransfer b.parts) }
{
    let parts = one_part(rt, mount.allocator())?;
    let ticket = mount.ticket(pass, FILE, 0);
    Ok(Bio {
        op: Op::Write,
        slot,
        block: 0,
        parts,
        ticket,
    })
}

// The bios of a caller.
fn bios(rt: &impl Abort, mount: &Mount, pass: &mut Pass) -> Result<Vec<Bio<Ticket>>, AllocError>
    requires of { IsPassOf mount.now pass.old }
    requires block { HasBlock mount.now only_file 0 }
    requires share { 32 < first_share mount.now pass.old }
    ensures of { OnOk result (IsPassOf mount.now pass.new) }
    ensures count { IfOk result (λ all. vec_len all ≡ 32) }
    ensures can_send { IfOk result (λ all. CanSend all.items) }
{
    let mut all = Vec::with_capacity(mount.allocator(), BIOS as usize)?;
    for slot in 0..BIOS {
        let bio = bio(rt, mount, pass, slot)?;
        all.push_reserved(bio);
    }
    Ok(all)
}

/// A caller with 32 bios of one block each, of which each has the slot of its place. Want of memory is the only error.
pub(crate) fn prepared(
    rt: &impl Abort,
    mount: &Mount,
    mut pass: Pass,
    lane: Lane,
) -> Result<Ready, AllocError>
    requires alone { IsAlone mount.now pass }
    requires share { 32 < share_of pass }
    ensures { IfOk result (λ r. IsPassOf mount.now r.pass) }
{
    expect_run(rt, mount, FILE, 0, 1);
    mount.is_laid_out();
    let bios = bios(rt, mount, &mut pass)?;
    let dones = Vec::with_capacity(mount.allocator(), BIOS as usize)?;
    Ok(Ready {
        pass,
        lane,
        bios,
        dones,
    })
}

/// Runs the bios by way of the mount's queue. It takes no memory.
pub(crate) fn run<R: Wait>(rt: &R, mount: &Mount, caller: Ready) -> Ran
    requires { IsPassOf mount.now caller.pass }
{
    let Ready {
        mut pass,
        mut lane,
        mut bios,
        mut dones,
    } = caller;
    mount.run_all(rt, &mut pass, &mut lane, &mut bios, &mut dones);
    Ran {
        ops: lane.ops(),
        dones,
    }
}
