//! Threads share a mount and its queues, and what a caller has goes from thread to thread. Each law is a function that does
//! nothing.
ghost use denote.Param.Send.{IsSend, IsSync};

use crate::mount::Mount;
use crate::pass::Pass;
use crate::ticket::Ticket;
use bio_pages::{Bio, BioQueue, BioShelf, QueuePass, Sent, ShelfSeat};
use std::alloc::Global;
use std::sync::Arc;

// A type whose values threads can share.
fn is_shared<T: Sync>()
    ensures { IsSync T.row }
{}

// A type whose values can go to another thread.
fn crosses<T: Send>()
    ensures { IsSend T.row }
{}

/// Threads share a mount.
pub fn mounts_are_shared() {
    is_shared::<Mount>();
}

/// Threads share a queue of bios that carry tickets.
pub fn queues_are_shared() {
    is_shared::<BioQueue<Ticket>>();
}

/// A pass can go to another thread.
pub fn passes_cross() {
    crosses::<Pass>();
}

/// A ticket can go to another thread.
pub fn tickets_cross() {
    crosses::<Ticket>();
}

/// A bio that carries a ticket can go to another thread.
pub fn bios_cross() {
    crosses::<Bio<Ticket>>();
}

/// A bio that is sent can go to another thread, with its seat and the shelf that it comes back to.
pub fn sent_bios_cross() {
    crosses::<Sent<Ticket>>();
}

/// A pass at a queue can go to another thread.
pub fn queue_passes_cross() {
    crosses::<QueuePass<Ticket>>();
}

/// A seat of a shelf can go to another thread.
pub fn shelf_seats_cross() {
    crosses::<ShelfSeat<Ticket>>();
}

/// A shelf that several callers own can go to another thread.
pub fn shelves_cross() {
    crosses::<Arc<BioShelf<Ticket>, Global>>();
}
