//! Dirty blocks of a folio get space and are lent for a write of them, run by run.
ghost use Rattle.std.specs.Prelude.{◌≡◌, ◌+◌, ◌-◌, ◌%◌, ◌<◌, ◌≤◌, ◌^◌, [], Bool, vec_capacity};
ghost use Rattle.mount_parts.specs.MountView.{HasFile, file_at, stripe_at};
ghost use Rattle.mini_fs.specs.Calls.{HasShares};
ghost use Rattle.mini_fs.specs.PassView.{IsPassOf, share_at};
ghost use Rattle.mini_fs.specs.Tickets.{KeepsTickets};
ghost use Rattle.writeback_ioend.specs.Folios.{Came, HaveTickets, LooksOn, OneTurn, Sought, passed_at, stopped_by};

use bio_pages::Bio;
use iob_base::{Fault, FileId, Op, Parts};
use mini_fs::{Mount, Pass, Ticket};
use range_core::{EventFault, Lent};
use std::sync::Wait;

// What stops a walk of which a turn was refused for this.
fn stopped_by(fault: EventFault) -> Option<Fault>
    ensures { result ≡ stopped_by fault }
{
    match fault {
        EventFault::Away { .. } | EventFault::Settled { .. } | EventFault::Unattached { .. } => {
            None
        }
        EventFault::Worn { cookie } => Some(Fault::Worn { cookie }),
        _ => Some(Fault::NoMemory),
    }
}

// Dirty blocks from one on up to another, all in one stripe, that were promised space get it. It tells what stopped the walk.
pub(crate) fn attach<R: Wait>(
    rt: &R,
    mount: &Mount,
    pass: &mut Pass,
    file: FileId,
    at: u64,
    end: u64,
) -> Option<Fault>
    requires of { IsPassOf mount.now pass.old }
    requires some { at < end }
    requires within { end ≤ (file_at mount.now file).blocks }
    requires stripe { at % 64 + (end - at) ≤ 64 }
    ensures of { IsPassOf mount.now pass.new }
    ensures turned { (waits : Bool) → OneTurn mount.now file waits at at pass.old pass.new result }
    ensures tickets { KeepsTickets pass.old pass.new }
{
    mount.is_laid_out();
    match mount.attach(rt, pass, file, at, end - at) {
        Ok(_) => None,
        Err(fault) => stopped_by(fault),
    }
}

/// What came of a try to lend the dirty blocks from one on.
#[derive(Drop)]
pub(crate) enum Piece {
    /// A run of them is to go with this bio, by the loan of this number.
    Lent { number: u64, bio: Bio<Ticket> },
    /// The block is passed by, and the walk goes on at this one.
    On(u64),
    /// None was lent, and the folio ends here, for this or to be looked at again.
    Ended(Option<Fault>),
}

// How a walk goes on at a block that was refused for this: it passes by what has nothing to be written, and what is lent out
// where the call does not wait.
fn passed_at(waits: bool, at: u64, fault: EventFault) -> Piece
    requires { at + 1 < 2 ^ 64 }
    ensures { result ≡ passed_at waits at fault }
{
    match fault {
        EventFault::Settled { .. } => Piece::On(at + 1),
        EventFault::Away { .. } => {
            if waits {
                Piece::Ended(None)
            } else {
                Piece::On(at + 1)
            }
        }
        _ => Piece::Ended(stopped_by(fault)),
    }
}

// Lends the longest run of dirty blocks from one on that one bio can write, below another block of its folio.
fn lend_run<R: Wait>(
    rt: &R,
    mount: &Mount,
    pass: &mut Pass,
    file: FileId,
    waits: bool,
    slot: u32,
    at: u64,
    end: u64,
) -> Piece
    requires of { IsPassOf mount.now pass.old }
    requires share { 1 < share_at pass.old (stripe_at mount.now file at) }
    requires some { at < end }
    requires within { end ≤ (file_at mount.now file).blocks }
    requires stripe { at % 64 + (end - at) ≤ 64 }
    ensures of { IsPassOf mount.now pass.new }
    ensures came { Came mount.now file waits slot at end pass.old pass.new result }
    ensures tickets { KeepsTickets pass.old pass.new }
{
    mount.is_laid_out();
    let Ok(parts) = Parts::new(mount.allocator()) else {
        return Piece::Ended(Some(Fault::NoMemory));
    };
    let ticket = mount.ticket(pass, file, at);
    let (ticket, answer) = mount.lend_writeback(rt, pass, file, ticket, at, end - at, parts);
    match answer {
        Ok(
            Lent {
                ticket: number,
                block,
                parts,
            },
        ) => Piece::Lent {
            number,
            bio: Bio {
                op: Op::Write,
                slot,
                block,
                parts,
                ticket,
            },
        },
        Err(refused) => {
            mount.close_ticket(pass, ticket);
            passed_at(waits, at, refused.fault)
        }
    }
}

// The first block of a folio from one on that is dirty or lent out, or else where the folio ends.
fn next_due<R: Wait>(rt: &R, mount: &Mount, pass: &mut Pass, file: FileId, at: u64, end: u64) -> u64
    requires of { IsPassOf mount.now pass.old }
    requires order { at ≤ end }
    requires within { end ≤ (file_at mount.now file).blocks }
    requires stripe { at % 64 + (end - at) ≤ 64 }
    ensures of { IsPassOf mount.now pass.new }
    ensures within { result ≤ end }
    ensures looked { (waits : Bool) → LooksOn mount.now file waits at result end pass.old pass.new }
    ensures tickets { KeepsTickets pass.old pass.new }
{
    if at == end {
        return end;
    }
    mount.is_laid_out();
    let found = mount.find_due(rt, pass, file, at, end - at);
    match found.due {
        None => end,
        Some(due) => due,
    }
}

// Lends the dirty blocks of a folio from one on, up to another, run by run, and passes by what is clean without a try. It
// tells to which block it came, and what stopped it.
pub(crate) fn lend_runs<R: Wait>(
    rt: &R,
    mount: &Mount,
    pass: &mut Pass,
    file: FileId,
    waits: bool,
    from: u64,
    end: u64,
    bios: &mut Vec<Bio<Ticket>>,
    numbers: &mut Vec<u64>,
) -> (u64, Option<Fault>)
    requires of { IsPassOf mount.now pass.old }
    requires shares { HasShares mount.now file 64 pass.old }
    requires some { from < end }
    requires within { end ≤ (file_at mount.now file).blocks }
    requires few { end ≤ from + 32 }
    requires stripe { from % 64 + (end - from) ≤ 64 }
    requires bios { (bios.old.items ≡ []) × (32 ≤ vec_capacity bios.old) }
    requires numbers { (numbers.old.items ≡ []) × (32 ≤ vec_capacity numbers.old) }
    ensures of { IsPassOf mount.now pass.new }
    ensures within { result.0 ≤ end }
    ensures sought { Sought mount.now file waits from result.0 pass.old pass.new numbers.new.items bios.new.items result.1 }
    ensures have { HaveTickets pass.new bios.new.items }
    ensures tickets { KeepsTickets pass.old pass.new }
{
    let mut at = from;
    for _ in rt.forever() {
        if at == end {
            return (at, None);
        }
        match lend_run(rt, mount, pass, file, waits, bios.len() as u32, at, end) {
            Piece::Lent { number, bio } => {
                let next = at + bio.parts.len() as u64;
                numbers.push_reserved(number);
                bios.push_reserved(bio);
                at = next_due(rt, mount, pass, file, next, end);
            }
            Piece::On(next) => at = next_due(rt, mount, pass, file, next, end),
            Piece::Ended(fault) => return (at, fault),
        }
    }
    unreachable!()
}
