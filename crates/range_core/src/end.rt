//! What is left of a range.
use io_model::{BlockEnd, Extent};
use iob_base::Items;
use space_pool::PoolSeat;

/// A range taken apart: its extents, merged, holes among them, the end of each block, and its seat at the pool.
#[derive(Drop)]
pub struct RangeEnd {
    pub extents: Items<Extent>,
    pub blocks: Items<BlockEnd>,
    pub seat: PoolSeat,
}
