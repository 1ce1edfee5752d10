//! A stamp on several blocks that follow each other.
use iob_base::Stamp;

/// The same stamp on each of `count` blocks from `first` on.
#[derive(Clone, Copy)]
pub(crate) struct StampRun {
    pub(crate) first: u64,
    pub(crate) count: u64,
    pub(crate) stamp: Stamp,
}
