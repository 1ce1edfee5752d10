//! One turn of a pool's history.
use crate::answer::{Counts, NoSpace};
use iob_base::Sector;
use std::collections::LinkedList;

/// A turn at a pool: the call, its number of sectors, and its answer. Contracts alone speak of entries, and no value is made.
pub enum PoolEntry {
    /// n sectors were wanted, all or none.
    Reserve {
        n: u64,
        answer: Result<(), NoSpace>,
    },
    /// n sectors were wanted, or as many as there were.
    ReserveSome {
        n: u64,
        answer: Result<u64, NoSpace>,
    },
    /// The reservation of n sectors was given up.
    Unreserve {
        n: u64,
    },
    /// n reserved sectors were taken: these, in order.
    Take {
        n: u64,
        taken: LinkedList<Sector>,
    },
    /// n sectors came back: these.
    Give {
        n: u64,
        given: LinkedList<Sector>,
    },
    /// The sectors were counted.
    Count {
        answer: Counts,
    },
}
