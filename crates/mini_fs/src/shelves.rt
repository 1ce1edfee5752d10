//! The shelves of a pass, and its pass at the queue of bios.
ghost use Rattle.std.specs.Prelude.{◌≡◌, ◌<◌, ◌≤◌, ◌+◌, ◌++◌, [], IfOk, take, vec_len, vec_capacity};
ghost use Rattle.fault_device.specs.LaneView.{lane_seen};
ghost use Rattle.bio_pages.specs.Lists.{AreRun, CanSend, OwnFailures, SentOut};
ghost use Rattle.bio_pages.specs.Queue.{Grew};
ghost use Rattle.bio_pages.specs.Running.{HasRun};
ghost use Rattle.bio_pages.specs.Shelf.{seen_last, with_amount};
ghost use Rattle.mini_fs.specs.BioSeats.{HavePlenty, KeepsShelves, given_bios, given_shelves, joined_bios, kept_bios, kept_shelves};

use crate::ticket::Ticket;
use bio_pages::{Bio, BioQueue, BioShelf, QueuePass, ShelfSeat, run_here, run_list};
use fault_device::{Done, Lane};
use std::alloc::Global;
use std::marker::Model;
use std::sync::{Arc, Wait};

// How many shelves there are.
pub(crate) const SHELVES: usize = 32;

/// A shelf of 32 slots, and the seat of its owner.
///
/// # Invariants
///
/// The seat is the owner's at this shelf, and notes nothing.
#[derive(Drop)]
pub struct OwnShelf {
    pub(crate) shelf: Arc<BioShelf<Ticket>, Global>,
    pub(crate) owner: ShelfSeat<Ticket>,
}

impl Model for OwnShelf {
    ghost use Rattle.std.specs.Arc.{arc_value};
    ghost use Rattle.bio_pages.specs.Shelf.{SeatView};
    ghost use Rattle.mini_fs.specs.BioSeats.{IsOwner};
    ghost use Rattle.mini_fs.specs.TicketView.{TicketView};

    ghost Value = { SeatView TicketView };

    ghost view = { λ s. s.owner };

    ghost invariant = { λ s. IsOwner (arc_value s.shelf) s.owner };
}

/// The shelves of a pass with their owners' seats, and its pass at the queue. Contracts see it as a `BioSeatsView`.
///
/// # Invariants
///
/// There are at most 32 shelves, and the list has room for as many.
#[derive(Drop)]
pub struct BioSeats {
    pub(crate) queue: QueuePass<Ticket>,
    pub(crate) shelves: Vec<OwnShelf>,
}

impl Model for BioSeats {
    ghost use Rattle.std.specs.Prelude.{◌≤◌, vec_len, vec_capacity};
    ghost use Rattle.mini_fs.specs.BioSeats.{BioSeatsView, bio_seats_view};

    ghost Value = { BioSeatsView };

    ghost view = { λ b. bio_seats_view b.queue b.shelves.items };

    ghost invariant = { λ b. (vec_len b.shelves ≤ 32) × (32 ≤ vec_capacity b.shelves) };
}

// Gives one shelf away where there is more than one, to an empty list that has room.
fn give_shelf(shelves: &mut Vec<OwnShelf>, mut made: Vec<OwnShelf>) -> Vec<OwnShelf>
    requires empty { made.items ≡ [] }
    requires room { 32 ≤ vec_capacity made }
    ensures kept { shelves.new.items ≡ kept_shelves shelves.old.items }
    ensures most { vec_len shelves.new ≤ vec_len shelves.old }
    ensures same { vec_capacity shelves.new ≡ vec_capacity shelves.old }
    ensures given { result.items ≡ given_shelves shelves.old.items }
    ensures few { vec_len result ≤ 32 }
    ensures room { 32 ≤ vec_capacity result }
{
    if shelves.len() <= 1 {
        return made;
    }
    let shelf = shelves.remove(0);
    made.push_reserved(shelf);
    made
}

// Puts the shelves of another list behind those of a list, up to as many as there are.
fn add_shelves(shelves: &mut Vec<OwnShelf>, mut from: Vec<OwnShelf>)
    requires few { vec_len shelves.old ≤ 32 }
    requires room { 32 ≤ vec_capacity shelves.old }
    ensures both { shelves.new.items ≡ take 32 (shelves.old.items ++ from.items) }
    ensures few { vec_len shelves.new ≤ 32 }
    ensures room { 32 ≤ vec_capacity shelves.new }
{
    for _ in 0..from.len() {
        if shelves.len() >= SHELVES {
            return;
        }
        let shelf = from.remove(0);
        shelves.push_reserved(shelf);
    }
}

// Runs all bios of a list on this lane, in their order.
fn run_each(lane: &mut Lane, bios: &mut Vec<Bio<Ticket>>, dones: &mut Vec<Done>)
    requires can_send { CanSend bios.old.items }
    requires none_told { dones.old.items ≡ [] }
    requires room { vec_len bios.old ≤ vec_capacity dones.old }
    ensures run { AreRun bios.old.items bios.new.items dones.new.items }
    ensures kept { (vec_capacity bios.new ≡ vec_capacity bios.old) × (vec_capacity dones.new ≡ vec_capacity dones.old) }
    ensures own { OwnFailures (lane_seen count tells lane.old).number (lane_seen count tells lane.old).count (lane_seen count tells lane.new).count dones.new.items }
    ensures lane { HasRun (lane_seen count tells lane.old) (lane_seen count tells lane.new) }
{
    let then = lane.faults();
    let all = bios.len();
    run_here(lane, then, all, bios, dones);
}

impl OwnShelf {
    // Runs the bios of a list by way of the queue and this shelf.
    fn run<R: Wait>(
        &mut self,
        rt: &R,
        queue: &BioQueue<Ticket>,
        pass: &mut QueuePass<Ticket>,
        lane: &mut Lane,
        bios: &mut Vec<Bio<Ticket>>,
        dones: &mut Vec<Done>,
    )
        requires queue { pass.old.queue ≡ queue.now.queue }
        requires few { vec_len bios.old ≤ 32 }
        requires can_send { CanSend bios.old.items }
        requires none_told { dones.old.items ≡ [] }
        requires room { vec_len bios.old ≤ vec_capacity dones.old }
        ensures run { AreRun bios.old.items bios.new.items dones.new.items }
        ensures kept { (vec_capacity bios.new ≡ vec_capacity bios.old) × (vec_capacity dones.new ≡ vec_capacity dones.old) }
        ensures own { OwnFailures (lane_seen count tells lane.old).number (lane_seen count tells lane.old).count (lane_seen count tells lane.new).count dones.new.items }
        ensures owner { self.new ≡ seen_last (with_amount self.old self.new.amount) }
        ensures sent { SentOut (vec_len bios.old) self.old self.new pass.old pass.new }
        ensures pass { pass.new.queue ≡ pass.old.queue }
        ensures lane { HasRun (lane_seen count tells lane.old) (lane_seen count tells lane.new) }
    {
        run_list(
            rt,
            queue,
            pass,
            &self.shelf,
            &mut self.owner,
            lane,
            bios,
            dones,
        );
    }
}

impl BioSeats {
    // What another pass gets, with an empty list that has room for its shelves.
    pub(crate) fn split(&mut self, queue: &BioQueue<Ticket>, shelves: Vec<OwnShelf>) -> BioSeats
        requires queue { self.old.queue.queue ≡ queue.now.queue }
        requires empty { shelves.items ≡ [] }
        requires room { 32 ≤ vec_capacity shelves }
        ensures kept { self.new ≡ kept_bios self.old }
        ensures given { result ≡ given_bios self.old }
    {
        let shelves = give_shelf(&mut self.shelves, shelves);
        let Ok(queue) = queue.split(&mut self.queue) else {
            unreachable!()
        };
        BioSeats { queue, shelves }
    }

    // Takes the shelves of another pass.
    pub(crate) fn join(&mut self, from: BioSeats)
        ensures { self.new ≡ joined_bios self.old from }
    {
        let BioSeats { queue, shelves } = from;
        drop(queue);
        add_shelves(&mut self.shelves, shelves);
    }

    // Runs the bios of a list by way of the queue and one of the shelves, or here where there is none.
    pub(crate) fn run_all<R: Wait>(
        &mut self,
        rt: &R,
        queue: &BioQueue<Ticket>,
        lane: &mut Lane,
        bios: &mut Vec<Bio<Ticket>>,
        dones: &mut Vec<Done>,
    )
        requires queue { self.old.queue.queue ≡ queue.now.queue }
        requires few { vec_len bios.old ≤ 32 }
        requires can_send { CanSend bios.old.items }
        requires none_told { dones.old.items ≡ [] }
        requires room { vec_len bios.old ≤ vec_capacity dones.old }
        ensures run { AreRun bios.old.items bios.new.items dones.new.items }
        ensures kept { (vec_capacity bios.new ≡ vec_capacity bios.old) × (vec_capacity dones.new ≡ vec_capacity dones.old) }
        ensures own { OwnFailures (lane_seen count tells lane.old).number (lane_seen count tells lane.old).count (lane_seen count tells lane.new).count dones.new.items }
        ensures queue { self.new.queue.queue ≡ self.old.queue.queue }
        ensures shelves { KeepsShelves (vec_len bios.old) self.old self.new }
        ensures pushed { HavePlenty self.new.shelves → Grew (vec_len bios.old) self.old.queue self.new.queue }
        ensures lane { HasRun (lane_seen count tells lane.old) (lane_seen count tells lane.new) }
    {
        if self.shelves.is_empty() {
            run_each(lane, bios, dones);
            return;
        }
        self.shelves[0].run(rt, queue, &mut self.queue, lane, bios, dones);
    }
}
