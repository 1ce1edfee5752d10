//! A list of bios is run by way of a queue and a shelf.
ghost use Rattle.std.specs.Prelude.{◌≡◌, ℕ, ◌+◌, ◌<◌, ◌≤◌, [], true, List, take, drop, vec_len, vec_capacity};
ghost use Rattle.std.specs.Arc.{arc_value};
ghost use Rattle.fault_device.specs.LaneView.{lane_seen};
ghost use Rattle.bio_pages.specs.declared.bio.Bio.{Bio};
ghost use Rattle.bio_pages.specs.Lists.{AreFree, AreOut, AreRun, CanRun, CanSend, Emptied, Lent, OwnFailures, SentOut, Turned};
ghost use Rattle.bio_pages.specs.Queue.{Grew};
ghost use Rattle.bio_pages.specs.Running.{HasRun};
ghost use Rattle.bio_pages.specs.Shelf.{seen_last, with_amount};

use crate::bio::{Bio, run_bio};
use crate::queue::{BioQueue, QueuePass};
use crate::running::{await_last, send_out};
use crate::settle::settle;
use crate::shelf::BioShelf;
use crate::shelf_seat::ShelfSeat;
use fault_device::{Done, Lane};
use std::alloc::Global;
use std::sync::{Arc, Wait};

// What the owner of a shelf keeps of its amount.
const KEPT: u64 = 32;

// Sends out the bios at the front of the list, while the owner has an amount to give, and tells how many.
fn send_each<T: Drop, R: Wait>(
    rt: &R,
    queue: &BioQueue<T>,
    pass: &mut QueuePass<T>,
    shelf: &Arc<BioShelf<T>, Global>,
    owner: &mut ShelfSeat<T>,
    lane: &mut Lane,
    bios: &mut Vec<Bio<T>>,
) -> u32
    requires queue { pass.old.queue ≡ queue.now.queue }
    requires shelf { owner.old.shelf ≡ arc_value shelf.now }
    requires owner { owner.old.seat ≡ 0 }
    requires few { vec_len bios.old ≤ 32 }
    requires can_send { CanSend bios.old.items }
    requires free { AreFree (vec_len bios.old) owner.old }
    ensures most { result ≤ vec_len bios.old }
    ensures bios { bios.new.items ≡ drop result bios.old.items }
    ensures len { vec_len bios.new + result ≡ vec_len bios.old }
    ensures capacity { vec_capacity bios.new ≡ vec_capacity bios.old }
    ensures noted { Lent result bios.old.items owner.old owner.new }
    ensures whole { 32 < owner.new.amount → result ≡ vec_len bios.old }
    ensures pass { pass.new.queue ≡ pass.old.queue }
    ensures pushed { Grew result pass.old pass.new }
    ensures lane { HasRun (lane_seen count tells lane.old) (lane_seen count tells lane.new) }
{
    let all = bios.len() as u32;
    for sent in 0..all {
        if owner.amount() <= KEPT {
            return sent;
        }
        let bio = bios.remove(0);
        send_out(rt, queue, pass, shelf, owner, lane, bio);
    }
    all
}

// Gathers the bios that were sent out behind those that were not. One that failed elsewhere is run once more.
fn gather_each<T: Drop>(
    shelf: &BioShelf<T>,
    owner: &mut ShelfSeat<T>,
    lane: &mut Lane,
    then: u64,
    sent: u32,
    bios: &mut Vec<Bio<T>>,
    dones: &mut Vec<Done>,
)
    requires shelf { owner.old.shelf ≡ shelf.now }
    requires owner { owner.old.seat ≡ 0 }
    requires last { owner.old.last ≡ true }
    requires noted { (all : List (Bio T)) × AreOut sent all owner.old }
    requires space { vec_len bios.old + sent ≤ vec_capacity bios.old }
    requires room { vec_len dones.old + sent ≤ vec_capacity dones.old }
    requires then { then ≤ (lane_seen count tells lane.old).count }
    requires own { OwnFailures (lane_seen count tells lane.old).number then (lane_seen count tells lane.old).count dones.old.items }
    ensures run { (all : List (Bio T)) → AreOut sent all owner.old → Turned all bios.old.items bios.new.items dones.old.items dones.new.items }
    ensures len { vec_len bios.new ≡ vec_len bios.old + sent }
    ensures told { (vec_len dones.new ≡ vec_len dones.old + sent) × (vec_capacity dones.new ≡ vec_capacity dones.old) }
    ensures kept { vec_capacity bios.new ≡ vec_capacity bios.old }
    ensures notes { Emptied sent owner.old owner.new }
    ensures own { OwnFailures (lane_seen count tells lane.new).number then (lane_seen count tells lane.new).count dones.new.items }
    ensures lane { HasRun (lane_seen count tells lane.old) (lane_seen count tells lane.new) }
{
    for slot in 0..sent {
        let (mut bio, done) = shelf.gather(owner, slot);
        let done = settle(lane, then, dones.as_slice(), &mut bio, done);
        bios.push_reserved(bio);
        dones.push_reserved(done);
    }
}

/// Runs so many bios of the front of the list on this lane, and puts them behind the others. It takes no memory.
pub fn run_here<T: Drop>(
    lane: &mut Lane,
    then: u64,
    left: usize,
    bios: &mut Vec<Bio<T>>,
    dones: &mut Vec<Done>,
)
    requires left { left ≤ vec_len bios.old }
    requires can_run { CanRun (take left bios.old.items) }
    requires room { vec_len dones.old + left ≤ vec_capacity dones.old }
    requires then { then ≤ (lane_seen count tells lane.old).count }
    requires own { OwnFailures (lane_seen count tells lane.old).number then (lane_seen count tells lane.old).count dones.old.items }
    ensures run { Turned (take left bios.old.items) (drop left bios.old.items) bios.new.items dones.old.items dones.new.items }
    ensures kept { (vec_capacity bios.new ≡ vec_capacity bios.old) × (vec_capacity dones.new ≡ vec_capacity dones.old) }
    ensures own { OwnFailures (lane_seen count tells lane.new).number then (lane_seen count tells lane.new).count dones.new.items }
    ensures lane { HasRun (lane_seen count tells lane.old) (lane_seen count tells lane.new) }
{
    for _ in 0..left {
        let mut bio = bios.remove(0);
        let done = run_bio(lane, &mut bio);
        bios.push_reserved(bio);
        dones.push_reserved(done);
    }
}

/// Runs the bios of a list, each by one transfer in the end: sends them out, runs what comes until all errands of the owner
/// are done, gathers them, and runs once more on this lane what failed on another. Where the owner has no more than 32 of its
/// amount left, the rest is run here. The list keeps its order. It takes no memory, and refuses nothing.
///
/// The owner notes what it noted before, and has seen `Last`. The bios come back as `AreRun` tells, and what failed is of this
/// lane, within its counts, and no two share a rise.
pub fn run_list<T: Drop, R: Wait>(
    rt: &R,
    queue: &BioQueue<T>,
    pass: &mut QueuePass<T>,
    shelf: &Arc<BioShelf<T>, Global>,
    owner: &mut ShelfSeat<T>,
    lane: &mut Lane,
    bios: &mut Vec<Bio<T>>,
    dones: &mut Vec<Done>,
)
    requires queue { pass.old.queue ≡ queue.now.queue }
    requires shelf { owner.old.shelf ≡ arc_value shelf.now }
    requires owner { owner.old.seat ≡ 0 }
    requires few { vec_len bios.old ≤ 32 }
    requires can_send { CanSend bios.old.items }
    requires free { AreFree (vec_len bios.old) owner.old }
    requires none_told { dones.old.items ≡ [] }
    requires room { vec_len dones.old + vec_len bios.old ≤ vec_capacity dones.old }
    ensures run { AreRun bios.old.items bios.new.items dones.new.items }
    ensures kept { (vec_capacity bios.new ≡ vec_capacity bios.old) × (vec_capacity dones.new ≡ vec_capacity dones.old) }
    ensures own { OwnFailures (lane_seen count tells lane.old).number (lane_seen count tells lane.old).count (lane_seen count tells lane.new).count dones.new.items }
    ensures owner { owner.new ≡ seen_last (with_amount owner.old owner.new.amount) }
    ensures sent { SentOut (vec_len bios.old) owner.old owner.new pass.old pass.new }
    ensures pass { pass.new.queue ≡ pass.old.queue }
    ensures lane { HasRun (lane_seen count tells lane.old) (lane_seen count tells lane.new) }
{
    let then = lane.faults();
    let all = bios.len();
    let sent = send_each(rt, queue, pass, shelf, owner, lane, bios);
    await_last(rt, queue, pass, shelf, owner, lane);
    gather_each(shelf, owner, lane, then, sent, bios, dones);
    run_here(lane, then, all - sent as usize, bios, dones);
}
