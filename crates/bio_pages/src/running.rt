//! Bios are sent out, run for their senders, and awaited.
ghost use Rattle.std.specs.Prelude.{◌≡◌, ◌<◌, None};
ghost use Rattle.std.specs.Arc.{arc_value};
ghost use Rattle.fault_device.specs.LaneView.{lane_seen};
ghost use Rattle.fault_device.specs.Ran.{Ran};
ghost use Rattle.fault_device.specs.Transfer.{CanTransfer};
ghost use Rattle.bio_pages.specs.Queue.{Grew, RanPopped};
ghost use Rattle.bio_pages.specs.Running.{HasRun};
ghost use Rattle.bio_pages.specs.Shelf.{IsFree, outcome_at, seen_last, spent, with_errand};

use crate::bio::{Bio, run_bio};
use crate::queue::{BioQueue, QueuePass};
use crate::sent::Sent;
use crate::shelf::{BioShelf, PutEnd};
use crate::shelf_seat::ShelfSeat;
use fault_device::Lane;
use folio_bits::Outcome;
use std::alloc::Global;
use std::sync::{Arc, Wait};
use std::thread;

/// Runs a bio for its sender on this lane, by one transfer, and puts it on the shelf to which it returns. It takes no memory,
/// and waits for nobody.
pub fn serve<T: Drop>(lane: &mut Lane, sent: Sent<T>) -> PutEnd<T>
    ensures seat { result.seat ≡ spent sent.seat result.seat.found }
    ensures outcome { result.outcome ≡ outcome_at sent.seat.amount result.seat.found }
    ensures ran { Ran 1 (lane_seen count tells lane.old) (lane_seen count tells lane.new) }
{
    let Sent {
        mut bio,
        seat,
        shelf,
    } = sent;
    let slot = bio.slot;
    let done = run_bio(lane, &mut bio);
    shelf.put(seat, slot, bio, done)
}

// One more owner of the shelf. Their count is full only where nearly 2^63 bios are on their way.
fn another<T, R: Wait>(rt: &R, shelf: &Arc<BioShelf<T>, Global>) -> Arc<BioShelf<T>, Global>
    ensures { arc_value result ≡ arc_value shelf.now }
{
    for _ in rt.forever() {
        if let Ok(handle) = Arc::try_clone(shelf) {
            return handle;
        }
        thread::yield_now();
    }
    unreachable!()
}

/// Sends a bio out: gives its errand to a new seat, and pushes it. A bio that the queue hands back is run here, and put on
/// the shelf.
pub fn send_out<T: Drop, R: Wait>(
    rt: &R,
    queue: &BioQueue<T>,
    pass: &mut QueuePass<T>,
    shelf: &Arc<BioShelf<T>, Global>,
    owner: &mut ShelfSeat<T>,
    lane: &mut Lane,
    bio: Bio<T>,
)
    requires queue { pass.old.queue ≡ queue.now.queue }
    requires shelf { owner.old.shelf ≡ arc_value shelf.now }
    requires owner { owner.old.seat ≡ 0 }
    requires amount { 32 < owner.old.amount }
    requires free { IsFree owner.old bio.slot }
    requires can_run { CanTransfer bio.parts }
    ensures noted { owner.new ≡ with_errand owner.old bio.slot bio }
    ensures pass { pass.new.queue ≡ pass.old.queue }
    ensures pushed { Grew 1 pass.old pass.new }
    ensures lane { HasRun (lane_seen count tells lane.old) (lane_seen count tells lane.new) }
{
    let seat = shelf.split(owner, bio.slot, &bio);
    let shelf = another(rt, shelf);
    let sent = Sent { bio, seat, shelf };
    if let Err(back) = queue.push(rt, pass, sent) {
        serve(lane, back);
    }
}

/// Runs what comes through the queue, of this caller and of others, until all errands of the owner are done. The owner has
/// then seen `Last`.
pub fn await_last<T: Drop, R: Wait>(
    rt: &R,
    queue: &BioQueue<T>,
    pass: &mut QueuePass<T>,
    shelf: &BioShelf<T>,
    owner: &mut ShelfSeat<T>,
    lane: &mut Lane,
)
    requires queue { pass.old.queue ≡ queue.now.queue }
    requires shelf { owner.old.shelf ≡ shelf.now }
    ensures last { owner.new ≡ seen_last owner.old }
    ensures pass { pass.new.queue ≡ pass.old.queue }
    ensures pushed { Grew 0 pass.old pass.new }
    ensures ran { RanPopped pass.old pass.new (lane_seen count tells lane.old) (lane_seen count tells lane.new) }
{
    for _ in rt.forever() {
        if let Outcome::Last = shelf.look(owner) {
            return;
        }
        match queue.pop(rt, pass) {
            Some(sent) => {
                serve(lane, sent);
            }
            None => thread::yield_now(),
        }
    }
    unreachable!()
}
