//! What came of lending blocks with pages of the cache, and of a write of them.
use crate::fault::EventFault;
use iob_base::Parts;

/// Why no block was lent with pages of the cache, and the list that was handed in for them, empty as it was.
#[derive(Drop)]
pub struct LendRefused {
    pub fault: EventFault,
    pub parts: Parts,
}

/// How many blocks were written, and the list that they came back in, empty.
#[derive(Drop)]
pub struct Written {
    pub blocks: u64,
    pub parts: Parts,
}
