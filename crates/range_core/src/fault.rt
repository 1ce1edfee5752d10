//! Why an event of a range did not come about.
use fault_device::Done;

/// Why an event of a range did not come about.
#[derive(Clone, Copy, Debug)]
pub enum EventFault {
    /// The cookie of the sample differs from the range's.
    Stale { sample: u64, now: u64 },
    /// The sector of this block is lent out on this ticket.
    Away { block: u64, ticket: u64 },
    /// This block would have to be read from the device first.
    Cold { block: u64 },
    /// There is nothing to do at this block.
    Settled { block: u64 },
    /// This block is dirty and has no space yet.
    Unattached { block: u64 },
    /// This block has bytes in memory that the device lacks.
    Dirty { block: u64 },
    /// The range's cookie is used up.
    Worn { cookie: u64 },
    /// No memory could be had.
    NoMemory,
    /// Fewer blocks were free than the event asked for.
    NoSpace { wanted: u64, found: u64 },
    /// A transfer or judgement of the lane failed inside the event.
    Poison { done: Done },
}
