//! What is left of the size of a file.
use io_model::SizeStamp;
use iob_base::Items;

/// A size taken apart: its bytes, and the entries of its journal in order.
#[derive(Drop)]
pub struct SizeEnd {
    pub size: u64,
    pub stamps: Items<SizeStamp>,
}
