//! What the calls of a pool answer.
use iob_base::Sector;

/// Fewer sectors were unreserved than were asked for.
#[derive(Clone, Copy, Debug)]
pub struct NoSpace {
    /// How many were asked for.
    pub wanted: u64,
    /// How many were unreserved.
    pub found: u64,
}

/// There was no memory for a pool. The free sectors come back.
#[derive(Debug, Drop)]
pub struct NoPool {
    /// All of them; no sector is lost.
    pub free: Vec<Sector>,
}

/// How many sectors of a pool are free, and how many of these are reserved.
#[derive(Clone, Copy, Debug)]
pub struct Counts {
    /// How many sectors are free, the reserved ones among them.
    pub free: u64,
    /// How many of the free sectors are reserved, by any seat.
    pub reserved: u64,
}
