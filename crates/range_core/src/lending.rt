//! What a range lends, and what a seat's claim tells of it.
use io_model::Kind;
use iob_base::{Op, Parts, Tag};
use std::snapshot::Snapshot;

/// The event that lent a block: a read of it into the page cache, a write of its dirty page, a transfer of a caller's own
/// pages, or a write of a caller's own page of which the bytes from one place of the file up to another are the call's.
#[derive(Clone, Copy)]
pub enum Lender {
    Reading,
    Writeback,
    Direct { by: Tag, op: Op },
    Part { by: Tag, from: u64, to: u64 },
}

/// Which ticket has a block's sector, and what for.
#[derive(Clone, Copy)]
pub struct Away {
    pub ticket: u64,
    pub lender: Lender,
}

/// 1 to 16 blocks that follow each other in a file, lent on one ticket: each with its sector and a page of a block's
/// length.
#[derive(Drop)]
pub struct Lent {
    pub ticket: u64,
    pub block: u64,
    pub parts: Parts,
}

/// A claim on blocks that are lent: what was lent, as contracts see it, what for, and the kind of the first block.
/// The program keeps no copy of the bytes.
#[derive(Drop)]
pub struct Held {
    pub lent: Snapshot<Lent>,
    pub lender: Lender,
    pub kind: Kind,
}
