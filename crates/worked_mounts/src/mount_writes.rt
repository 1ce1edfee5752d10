//! Bytes are laid over a block of a file, and written to its sector by a bio of their own.
ghost use Rattle.std.specs.Prelude.{◌≡◌, ◌<◌, IfOk, Ok, OnOk};
ghost use Rattle.bio_pages.specs.Running.{IsRun};
ghost use Rattle.fault_device.specs.Transfer.{CanTransfer};
ghost use Rattle.iob_base.specs.declared.stamp.Mode.TheVariants.{Cached};
ghost use Rattle.mount_parts.specs.MountView.{HasFile, file_at};
ghost use Rattle.mini_fs.specs.PassView.{IsPassOf, with_bios};
ghost use Rattle.mini_fs.specs.Tickets.{KeepsTickets};
ghost use Rattle.worked_mounts.specs.Alone.{IsAlone, share_of};

use crate::mount_maps::{begin, end};
use crate::mount_stores::store;
use crate::mount_turns::expect_run;
use bio_pages::Bio;
use fault_device::{Done, Lane};
use iob_base::{FileId, Op, Parts};
use iomap_core::{BeginFault, Iomap};
use mini_fs::{Mount, Pass, Ticket};
use range_core::{LendRefused, Lent};
use std::alloc::AllocError;
use std::process::Abort;
use std::sync::Wait;

// What was lent of a dirty block.
fn expect_lent(rt: &impl Abort, answer: Result<Lent, LendRefused>) -> Lent
    ensures { answer ≡ Ok result }
{
    match answer {
        Ok(lent) => lent,
        Err(_) => panic!(rt; "a dirty block that is at home"),
    }
}

// The mapping that was begun.
fn expect_mapping(rt: &impl Abort, answer: Result<Iomap, BeginFault>) -> Iomap
    ensures { answer ≡ Ok result }
{
    match answer {
        Ok(iomap) => iomap,
        Err(_) => panic!(rt; "a mapping"),
    }
}

// Runs one bio.
fn run_one<R: Wait>(
    rt: &R,
    mount: &Mount,
    pass: &mut Pass,
    lane: &mut Lane,
    bio: Bio<Ticket>,
) -> Result<(Bio<Ticket>, Done), AllocError>
    requires of { IsPassOf mount.now pass.old }
    requires slot { bio.slot ≡ 0 }
    requires ready { CanTransfer bio.parts }
    ensures of { OnOk result (IsPassOf mount.now pass.new) }
    ensures run { IfOk result (λ r. IsRun bio r.0 r.1) }
    ensures pass { OnOk result (pass.new ≡ with_bios pass.old pass.new.bios) }
    ensures tickets { OnOk result (KeepsTickets pass.old pass.new) }
{
    let alloc = mount.allocator();
    let mut dones = Vec::with_capacity(alloc, 1)?;
    let mut bios = Vec::with_capacity(alloc, 1)?;
    bios.push_reserved(bio);
    mount.run_all(rt, pass, lane, &mut bios, &mut dones);
    let bio = bios.remove(0);
    let done = dones.remove(0);
    Ok((bio, done))
}

/// Writes a dirty block to its sector: it is lent on a ticket, goes out with a bio, and comes back. Want of memory is the only
/// error.
pub(crate) fn write_back<R: Abort + Wait>(
    rt: &R,
    mount: &Mount,
    pass: &mut Pass,
    lane: &mut Lane,
    file: FileId,
    block: u64,
) -> Result<Done, AllocError>
    requires alone { IsAlone mount.now pass.old }
    requires exists { HasFile mount.now file }
    requires share { 1 < share_of pass.old }
    ensures alone { OnOk result (IsAlone mount.now pass.new) }
    ensures share { OnOk result (share_of pass.new ≡ share_of pass.old) }
{
    let parts = Parts::new(mount.allocator())?;
    expect_run(rt, mount, file, block, 1);
    mount.is_laid_out();
    let ticket = mount.ticket(pass, file, block);
    let (ticket, answer) = mount.lend_writeback(rt, pass, file, ticket, block, 1, parts);
    let Lent {
        ticket: number,
        block,
        parts,
    } = expect_lent(rt, answer);
    let bio = Bio {
        op: Op::Write,
        slot: 0,
        block,
        parts,
        ticket,
    };
    let (bio, done) = run_one(rt, mount, pass, lane, bio)?;
    let Bio {
        block,
        parts,
        ticket,
        ..
    } = bio;
    let back = Lent {
        ticket: number,
        block,
        parts,
    };
    let (ticket, _) = mount.written_back(rt, pass, file, ticket, back, done);
    mount.close_ticket(pass, ticket);
    Ok(done)
}

/// Lays bytes over a block of a cached file for the call of this number, and writes it to its sector. Want of memory is the only
/// error.
pub(crate) fn write_through<R: Abort + Wait>(
    rt: &R,
    mount: &Mount,
    pass: &mut Pass,
    lane: &mut Lane,
    file: FileId,
    call: u32,
    block: u64,
    bytes: &[u8],
) -> Result<Done, AllocError>
    requires alone { IsAlone mount.now pass.old }
    requires exists { HasFile mount.now file }
    requires cached { (file_at mount.now file).mode ≡ Cached }
    requires share { 1 < share_of pass.old }
    ensures alone { OnOk result (IsAlone mount.now pass.new) }
    ensures share { OnOk result (share_of pass.new ≡ share_of pass.old) }
{
    assert!(rt; block < 1 << 16, "a block of the file");
    let from = block * 16;
    let iomap = expect_mapping(rt, begin(rt, mount, pass, file, from, 16));
    let stored = store(rt, mount, pass, call, &iomap, from, bytes)?;
    assert!(rt; stored.is_ok(), "the bytes are laid over the block");
    end(rt, mount, pass, iomap, 16);
    write_back(rt, mount, pass, lane, file, block)
}
