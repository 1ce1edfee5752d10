//! The bios of a folio are run, and what went with them comes back.
ghost use Rattle.std.specs.Prelude.{◌≡◌, ◌<◌, ◌≤◌, ◌^◌, ◌∷◌, [], length, vec_capacity};
ghost use Rattle.fault_device.specs.LaneView.{lane_seen};
ghost use Rattle.mini_fs.specs.PassView.{IsPassOf};
ghost use Rattle.mini_fs.specs.Tickets.{IsTicketOf, KeepsTickets};
ghost use Rattle.writeback_ioend.specs.Folios.{AreLent, CameBack, HaveComeBack, HaveTickets, Returns, Sends, carried_by, failed_now};

use crate::walk::or_else;
use bio_pages::Bio;
use fault_device::{Done, Lane};
use iob_base::FileId;
use mini_fs::{Mount, Pass, Ticket};
use mount_parts::next_of;
use range_core::Lent;
use std::sync::Wait;

// A transfer, where it failed.
fn failed_now(done: Done) -> Option<Done>
    ensures { result ≡ failed_now done }
{
    if done.failed { Some(done) } else { None }
}

// Takes back what went with a bio that was run, and closes its ticket. It tells how many blocks were written.
fn take_one<R: Wait>(
    rt: &R,
    mount: &Mount,
    pass: &mut Pass,
    file: FileId,
    number: u64,
    bio: Bio<Ticket>,
    done: Done,
) -> u64
    requires of { IsPassOf mount.now pass.old }
    requires ticket { IsTicketOf pass.old bio.ticket }
    requires back { CameBack mount.now file number bio done }
    ensures of { IsPassOf mount.now pass.new }
    ensures returns { Returns mount.now file pass.old pass.new (bio ∷ []) (done ∷ []) result (failed_now done) }
    ensures tickets { KeepsTickets pass.old pass.new }
{
    let Bio {
        op: _,
        slot: _,
        block,
        parts,
        ticket,
    } = bio;
    let back = Lent {
        ticket: number,
        block,
        parts,
    };
    let (ticket, written) = mount.written_back(rt, pass, file, ticket, back, done);
    mount.close_ticket(pass, ticket);
    written.blocks
}

// Takes back what went with bios that were run, in order. It tells how many blocks were written, and the first transfer that
// failed.
fn take_back<R: Wait>(
    rt: &R,
    mount: &Mount,
    pass: &mut Pass,
    file: FileId,
    numbers: Vec<u64>,
    bios: Vec<Bio<Ticket>>,
    dones: Vec<Done>,
) -> (u64, Option<Done>)
    requires of { IsPassOf mount.now pass.old }
    requires few { carried_by bios.items < 2 ^ 64 }
    requires have { HaveTickets pass.old bios.items }
    requires back { HaveComeBack mount.now file numbers.items bios.items dones.items }
    ensures of { IsPassOf mount.now pass.new }
    ensures returns { Returns mount.now file pass.old pass.new bios.items dones.items result.0 result.1 }
    ensures tickets { KeepsTickets pass.old pass.new }
{
    let count = bios.len();
    let mut numbers = numbers.into_iter();
    let mut bios = bios.into_iter();
    let mut dones = dones.into_iter();
    let mut blocks = 0;
    let mut failed = None;
    for _ in 0..count {
        let number = next_of(&mut numbers);
        let bio = next_of(&mut bios);
        let done = next_of(&mut dones);
        blocks += take_one(rt, mount, pass, file, number, bio, done);
        failed = or_else(failed, failed_now(done));
    }
    (blocks, failed)
}

// Runs the bios of a folio, all together, and takes back what went with them. It tells how many blocks were written, and the
// first transfer that failed.
pub(crate) fn send<R: Wait>(
    rt: &R,
    mount: &Mount,
    pass: &mut Pass,
    lane: &mut Lane,
    file: FileId,
    numbers: Vec<u64>,
    mut bios: Vec<Bio<Ticket>>,
    mut dones: Vec<Done>,
) -> (u64, Option<Done>)
    requires of { IsPassOf mount.now pass.old }
    requires few { length bios.items ≤ 32 }
    requires carried { carried_by bios.items < 2 ^ 64 }
    requires have { HaveTickets pass.old bios.items }
    requires lent { AreLent mount.now file 0 numbers.items bios.items }
    requires dones { (dones.items ≡ []) × (32 ≤ vec_capacity dones) }
    ensures of { IsPassOf mount.now pass.new }
    ensures sent { Sends mount.now file (lane_seen count tells lane.old) (lane_seen count tells lane.new) pass.old pass.new bios.items result.0 result.1 }
    ensures tickets { KeepsTickets pass.old pass.new }
{
    mount.run_all(rt, pass, lane, &mut bios, &mut dones);
    take_back(rt, mount, pass, file, numbers, bios, dones)
}
