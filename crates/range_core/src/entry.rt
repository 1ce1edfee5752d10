//! What one turn at a range is, in its history. No value of these types is made: contracts alone speak of them.
use crate::fault::EventFault;
use crate::sample::Sample;
use fault_device::Done;
use io_model::Kind;
use iob_base::{Items, Op, Tag};

/// An event with its arguments. Blocks are those of the file, and bytes are places in it. What comes back from a write of
/// the cache's pages, or from a transfer of a caller's own, is told with its ticket and the kind of its first block. A
/// write of a part of a block is told with the block.
pub enum Event {
    /// A look at the extent from a block on, of at most `most` blocks.
    Sample {
        block: u64,
        most: u64,
    },
    /// Space was to be promised to the first `blocks` blocks of a sample.
    Reserve {
        seen: Sample,
        blocks: u64,
    },
    /// Promises of space were taken back in a run of blocks.
    Unreserve {
        block: u64,
        blocks: u64,
    },
    /// Dirty blocks of a run were to take the sectors that were promised to them.
    Attach {
        block: u64,
        blocks: u64,
    },
    /// All blocks of a run were to have space.
    Preallocate {
        block: u64,
        blocks: u64,
    },
    /// Bytes were to be copied out of the cache.
    Fetch {
        by: Tag,
        from: u64,
        to: u64,
    },
    /// Cold blocks from one on, at most `most`, were to be lent for a read into the cache.
    LendRead {
        block: u64,
        most: u64,
    },
    /// A read into the cache came back.
    FillBack {
        ticket: u64,
        block: u64,
        blocks: u64,
        done: Done,
    },
    /// Bytes were to be laid over the cache.
    Store {
        by: Tag,
        seen: Sample,
        from: u64,
        to: u64,
        bytes: Items<u8>,
    },
    /// Zeros were to be laid over the cache.
    StoreZeros {
        by: Tag,
        seen: Sample,
        from: u64,
        to: u64,
    },
    /// Dirty blocks from one on, at most `most`, were to be lent for a write of their pages.
    LendWriteback {
        block: u64,
        most: u64,
    },
    /// A write of the cache's pages came back.
    WrittenBack {
        ticket: u64,
        block: u64,
        kind: Kind,
        blocks: u64,
        done: Done,
    },
    /// Clean pages of a run of blocks were dropped.
    DropClean {
        block: u64,
        blocks: u64,
    },
    /// Blocks were to be lent with as many pages of a caller's own.
    LendDirect {
        by: Tag,
        seen: Sample,
        op: Op,
        block: u64,
        blocks: u64,
    },
    /// A block was to be lent for a write from one place in it up to another.
    LendPart {
        by: Tag,
        seen: Sample,
        block: u64,
        from: u64,
        to: u64,
    },
    /// A transfer of a caller's own pages came back, with the bytes of the pages.
    DirectBack {
        by: Tag,
        op: Op,
        ticket: u64,
        block: u64,
        kind: Kind,
        pages: Items<Items<u8>>,
        done: Done,
    },
    /// A write of a part of a block came back, with the bytes of that part alone.
    PartBack {
        by: Tag,
        ticket: u64,
        block: u64,
        kind: Kind,
        from: u64,
        to: u64,
        bytes: Items<u8>,
        done: Done,
    },
    /// Blocks from one on were to be read at once into as many pages of a caller's own, or fewer.
    DirectNow {
        by: Tag,
        block: u64,
        blocks: u64,
    },
    /// All blocks of a run were to become holes.
    Wipe {
        by: Tag,
        block: u64,
        blocks: u64,
    },
    /// Bytes were to be copied straight from sectors.
    DaxGet {
        by: Tag,
        seen: Sample,
        from: u64,
        to: u64,
    },
    /// Bytes were to be laid straight over sectors.
    DaxPut {
        by: Tag,
        seen: Sample,
        from: u64,
        to: u64,
        bytes: Items<u8>,
    },
    /// Zeros were to be laid straight over sectors.
    DaxZero {
        by: Tag,
        seen: Sample,
        from: u64,
        to: u64,
    },
}

/// What came of an event, with what depends on the range as it was at that turn.
pub enum Outcome {
    /// The event did not come about.
    Refused { fault: EventFault },
    /// It gave a sample.
    Sampled { sample: Sample },
    /// It changed or met so many blocks.
    Counted { blocks: u64 },
    /// Blocks took sectors: the number of each block, and that of the sector that it took.
    Took { sectors: Items<(u64, u32)> },
    /// It lent so many blocks on this ticket.
    Lending { ticket: u64, blocks: u64 },
    /// It came about.
    Finished,
}

/// One turn at a range: the caller number of the seat that made it, the event, and what came of it.
pub struct Entry {
    pub caller: u32,
    pub event: Event,
    pub outcome: Outcome,
}
