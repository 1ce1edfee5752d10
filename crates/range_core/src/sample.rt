//! What a range looked like at a turn.
use io_model::Extent;

/// What a range looked like at a turn: its cookie, its count of failed writebacks, and one extent of it. While the
/// cookie is still the range's, the blocks of the extent have the kinds that it says.
#[derive(Clone, Copy)]
pub struct Sample {
    pub cookie: u64,
    pub errors: u64,
    pub extent: Extent,
}
