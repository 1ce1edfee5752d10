//! Cold blocks of a file are read into the cache.
ghost use Rattle.std.specs.Prelude.{◌≡◌, ◌+◌, ◌%◌, ◌<◌, ◌≤◌, ◌∷◌, [], IfOk, vec_capacity};
ghost use Rattle.iob_base.specs.declared.stamp.Mode.TheVariants.{Cached};
ghost use Rattle.fault_device.specs.LaneView.{lane_seen};
ghost use Rattle.fault_device.specs.Transfer.{CanTransfer};
ghost use Rattle.bio_pages.specs.Running.{IsRun};
ghost use Rattle.range_core.specs.declared.lending.Lender.TheVariants.{Reading};
ghost use Rattle.mount_parts.specs.MountView.{HasFile, file_at, stripe_at};
ghost use Rattle.mini_fs.specs.Acts.{HasRun};
ghost use Rattle.mini_fs.specs.Loans.{IsLoaned};
ghost use Rattle.mini_fs.specs.PassView.{IsPassOf, share_at};
ghost use Rattle.mini_fs.specs.Tickets.{IsTicketOf, KeepsTickets};
ghost use Rattle.call_parts.specs.Fills.{CarriedBack, Fills, bios_of, fill_after, fill_refused};
ghost use Rattle.call_parts.specs.Steps.{ServedBy};

use bio_pages::Bio;
use fault_device::{Done, Lane};
use iob_base::{FileId, Op, Parts};
use mini_fs::{Mount, Pass, Ticket};
use range_core::{EventFault, Lent};
use std::alloc::{AllocError, Global};
use std::sync::Wait;

/// What came of a try to read cold blocks into the cache.
#[derive(Clone, Copy, Debug)]
pub enum Fill {
    /// A run of blocks from the first one on was read.
    Filled,
    /// The first block is lent out, or needs no read: what found it cold is to be tried again.
    Again,
    /// The read of a run from this block on failed, and its transfer did this.
    Failed { block: u64, done: Done },
    /// No memory could be had.
    NoMemory,
}

/// How many bios a try sent.
pub fn bios_of(fill: Fill) -> u64
    ensures { result ≡ bios_of fill }
{
    match fill {
        Fill::Filled | Fill::Failed { .. } => 1,
        Fill::Again | Fill::NoMemory => 0,
    }
}

// The lists that a try needs: for the parts of its loan, for the one bio, and for what its transfer did.
#[derive(Drop)]
struct Room {
    parts: Parts,
    bios: Vec<Bio<Ticket>>,
    dones: Vec<Done>,
}

// Empty lists, with room for one bio.
fn make_room(alloc: Global) -> Result<Room, AllocError>
    ensures parts { IfOk result (λ room. room.parts ≡ []) }
    ensures bios { IfOk result (λ room. (room.bios.items ≡ []) × (0 < vec_capacity room.bios)) }
    ensures dones { IfOk result (λ room. (room.dones.items ≡ []) × (0 < vec_capacity room.dones)) }
{
    let parts = Parts::new(alloc)?;
    let bios = Vec::with_capacity(alloc, 1)?;
    let dones = Vec::with_capacity(alloc, 1)?;
    Ok(Room { parts, bios, dones })
}

// How a try is told whose loan was refused for this.
fn fill_refused(fault: EventFault) -> Fill
    ensures { result ≡ fill_refused fault }
{
    match fault {
        EventFault::Away { .. } | EventFault::Settled { .. } => Fill::Again,
        _ => Fill::NoMemory,
    }
}

// How a try is told whose transfer did this.
fn fill_after(block: u64, done: Done) -> Fill
    ensures { result ≡ fill_after block done }
{
    if done.failed {
        Fill::Failed { block, done }
    } else {
        Fill::Filled
    }
}

// Runs one bio: it comes back after the transfer that its `Done` tells.
fn run_one<R: Wait>(
    rt: &R,
    mount: &Mount,
    pass: &mut Pass,
    lane: &mut Lane,
    bio: Bio<Ticket>,
    mut bios: Vec<Bio<Ticket>>,
    mut dones: Vec<Done>,
) -> (Bio<Ticket>, Done)
    requires of { IsPassOf mount.now pass.old }
    requires slot { bio.slot ≡ 0 }
    requires can { CanTransfer bio.parts }
    requires bios { (bios.items ≡ []) × (0 < vec_capacity bios) }
    requires dones { (dones.items ≡ []) × (0 < vec_capacity dones) }
    ensures of { IsPassOf mount.now pass.new }
    ensures run { IsRun bio result.0 result.1 }
    ensures act { HasRun 1 pass.old pass.new }
    ensures lane { ServedBy (lane_seen count tells lane.old) (lane_seen count tells lane.new) (result.1 ∷ []) }
    ensures tickets { KeepsTickets pass.old pass.new }
{
    bios.push_reserved(bio);
    mount.run_all(rt, pass, lane, &mut bios, &mut dones);
    let Some(bio) = bios.pop() else {
        unreachable!()
    };
    let Some(done) = dones.pop() else {
        unreachable!()
    };
    (bio, done)
}

// Reads what a ticket carries with one bio, takes it back and closes the ticket: what the transfer did.
fn carry<R: Wait>(
    rt: &R,
    mount: &Mount,
    pass: &mut Pass,
    lane: &mut Lane,
    file: FileId,
    ticket: Ticket,
    lent: Lent,
    bios: Vec<Bio<Ticket>>,
    dones: Vec<Done>,
) -> Done
    requires of { IsPassOf mount.now pass.old }
    requires ticket { IsTicketOf pass.old ticket }
    requires loan { IsLoaned mount.now file ticket lent Reading }
    requires bios { (bios.items ≡ []) × (0 < vec_capacity bios) }
    requires dones { (dones.items ≡ []) × (0 < vec_capacity dones) }
    ensures of { IsPassOf mount.now pass.new }
    ensures carried { CarriedBack ticket.stripe lent (lane_seen count tells lane.old) (lane_seen count tells lane.new) pass.old pass.new result }
    ensures tickets { KeepsTickets pass.old pass.new }
{
    let Lent {
        ticket: number,
        block,
        parts,
    } = lent;
    let bio = Bio {
        op: Op::Read,
        slot: 0,
        block,
        parts,
        ticket,
    };
    let (bio, done) = run_one(rt, mount, pass, lane, bio, bios, dones);
    let back = Lent {
        ticket: number,
        block: bio.block,
        parts: bio.parts,
    };
    let (ticket, _) = mount.fill_back(rt, pass, file, bio.ticket, back, done);
    mount.close_ticket(pass, ticket);
    done
}

/// One try to read cold blocks of a cached file from `block` on, at most `most`, all in one stripe: a ticket, a loan of a run
/// of them, one bio, and its return. The pass has a share above 1 at the stripe.
///
/// It refuses nothing: what it came to is told by `Fill`.
pub fn fill_cold<R: Wait>(
    rt: &R,
    mount: &Mount,
    pass: &mut Pass,
    lane: &mut Lane,
    file: FileId,
    block: u64,
    most: u64,
) -> Fill
    requires of { IsPassOf mount.now pass.old }
    requires exists { HasFile mount.now file }
    requires mode { (file_at mount.now file).mode ≡ Cached }
    requires some { 0 < most }
    requires within { block + most ≤ (file_at mount.now file).blocks }
    requires stripe { block % 64 + most ≤ 64 }
    requires share { 1 < share_at pass.old (stripe_at mount.now file block) }
    ensures filled { Fills mount.now file block most (lane_seen count tells lane.old) (lane_seen count tells lane.new) pass.old pass.new result }
    ensures begun { pass.new.begun ≡ pass.old.begun }
{
    mount.is_laid_out();
    let Ok(Room { parts, bios, dones }) = make_room(mount.allocator()) else {
        return Fill::NoMemory;
    };
    let ticket = mount.ticket(pass, file, block);
    let (ticket, answer) = mount.lend_read(rt, pass, file, ticket, block, most, parts);
    match answer {
        Ok(lent) => {
            let done = carry(rt, mount, pass, lane, file, ticket, lent, bios, dones);
            fill_after(block, done)
        }
        Err(refused) => {
            mount.close_ticket(pass, ticket);
            fill_refused(refused.fault)
        }
    }
}
