//! What a run of a script gave.
use crate::file::Unmounted;
use iob_base::{Answer, Items};

/// How a call ended: its answer, the bytes that it read, and the numbers of the user pages that came
/// back from it, in order.
#[derive(Drop)]
pub struct CallEnd {
    pub answer: Answer,
    pub got: Items<u8>,
    pub pages: Items<u64>,
}

/// How many transfers a lane made, and how many of them failed.
#[derive(Clone, Copy)]
pub struct LaneEnd {
    pub ops: u64,
    pub faults: u64,
}

/// A run: an end of each call and a close of each file in the order of the script, what is left of
/// the files, and the lanes.
#[derive(Drop)]
pub struct Run {
    pub calls: Items<CallEnd>,
    pub closes: Items<Answer>,
    pub ends: Unmounted,
    pub lanes: Items<LaneEnd>,
}
