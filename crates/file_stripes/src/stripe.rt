//! What a stripe of a file is.
use io_model::Extent;
use iob_base::{Items, Sector};

/// How many blocks a stripe has. The last one of a file has those that are left.
pub const STRIPE_BLOCKS: usize = 64;

/// A run of blocks of a file that is to be a range of its own: its first block and how many it has, its extents that have
/// space, by the block numbers of the file, and the sectors of its blocks, in order.
#[derive(Drop)]
pub struct Stripe {
    pub first: u64,
    pub blocks: u64,
    pub extents: Items<Extent>,
    pub sectors: Items<Sector>,
}
