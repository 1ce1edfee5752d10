//! What is left of a run of blocks of a file.
use io_model::{BlockEnd, Extent};
use iob_base::Items;

/// What is left of a run of blocks, of a stripe or of a whole file: its extents, merged, holes among them, and the end of each
/// block, in order.
#[derive(Drop)]
pub struct RunEnd {
    pub extents: Items<Extent>,
    pub blocks: Items<BlockEnd>,
}
