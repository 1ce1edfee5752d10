//! The queue and the shelves that a mount begins with.
ghost use Rattle.std.specs.Prelude.{◌≡◌, IfOk};
ghost use Rattle.bio_pages.specs.Shelf.{owner_of};
ghost use Rattle.mini_fs.specs.BioSeats.{AreFirst};

use crate::shelves::{BioSeats, OwnShelf, SHELVES};
use crate::ticket::Ticket;
use bio_pages::{BioQueue, BioShelf};
use std::alloc::{AllocError, Global};
use std::sync::Arc;

// How many bios the queue has room for.
const CAPACITY: u32 = 64;

// How many slots a shelf has.
const SLOTS: u32 = 32;

// An empty shelf, with the seat of its owner.
fn open_shelf(alloc: Global) -> Result<OwnShelf, AllocError>
    ensures { IfOk result (λ own. own ≡ owner_of own.shelf 32) }
{
    let (shelf, owner) = BioShelf::start(alloc, SLOTS)?;
    let shelf = Arc::new(alloc, shelf)?;
    Ok(OwnShelf { shelf, owner })
}

/// An empty queue with room for 64 bios, and what the first pass has: a pass at the queue, and all 32 shelves.
///
/// # Errors
///
/// Want of memory.
pub(crate) fn open_bios(alloc: Global) -> Result<(BioQueue<Ticket>, BioSeats), AllocError>
    ensures capacity { IfOk result (λ made. made.0.capacity ≡ 64) }
    ensures seats { IfOk result (λ made. AreFirst made.0.queue made.1) }
{
    let (queue, pass) = BioQueue::start(alloc, CAPACITY)?;
    let mut shelves = Vec::with_capacity(alloc, SHELVES)?;
    for _ in 0..SHELVES {
        let shelf = open_shelf(alloc)?;
        shelves.push_reserved(shelf);
    }
    Ok((
        queue,
        BioSeats {
            queue: pass,
            shelves,
        },
    ))
}
