//! What one turn at a size is, in its history. No value of these types is made: contracts alone speak of them.
use iob_base::Tag;
use std::alloc::AllocError;

/// An event with its arguments and its answer.
pub enum SizeEvent {
    /// The size was to be seen.
    See {
        by: Tag,
        answer: Result<u64, AllocError>,
    },
    /// Room for one entry was to be made.
    Ready {
        answer: Result<(), AllocError>,
    },
    /// The size was raised to at least `to`.
    Grow {
        by: Tag,
        to: u64,
    },
    /// The size was set to `to`.
    Cut {
        by: Tag,
        to: u64,
    },
    /// A room was given up.
    Forget,
}

/// One turn at a size: the caller number of the seat that made it, and the event.
pub struct SizeEntry {
    pub caller: u32,
    pub event: SizeEvent,
}
