//! A script: a device, files on it, and the calls of callers in phases.
use crate::file::FileSpec;
use iob_base::{FileId, Geometry, Items};

/// What a call does. Offsets, lengths and sizes are in bytes, but those of `Wb`, which are in blocks.
#[derive(Drop)]
pub enum Verb {
    Pread {
        off: u64,
        lengths: Items<u64>,
    },
    Pwrite {
        off: u64,
        segments: Items<Items<u8>>,
    },
    Dread {
        off: u64,
        lengths: Items<u64>,
    },
    Dwrite {
        off: u64,
        segments: Items<Items<u8>>,
    },
    Xread {
        off: u64,
        lengths: Items<u64>,
    },
    Xwrite {
        off: u64,
        segments: Items<Items<u8>>,
    },
    Zero {
        off: u64,
        length: u64,
    },
    Punch {
        off: u64,
        length: u64,
    },
    Alloc {
        off: u64,
        length: u64,
    },
    Wb {
        from: u64,
        blocks: u64,
    },
    Sync,
    Drop,
    Trunc {
        size: u64,
    },
}

/// One call line. Phases are counted from 1, and `first_page` is the number of the first user page
/// of a direct call.
#[derive(Drop)]
pub struct Call {
    pub phase: u32,
    pub caller: u32,
    pub file: FileId,
    pub first_page: u64,
    pub verb: Verb,
}

/// A whole script. `blocks` are the device blocks whose bytes it gives, and all others have `fill`
/// throughout. `faults` are a lane and the number of the transfer that is to fail there.
#[derive(Drop)]
pub struct Script {
    pub geometry: Geometry,
    pub device_blocks: u32,
    pub fill: u8,
    pub blocks: Items<(u32, Items<u8>)>,
    pub names: Items<Items<u8>>,
    pub files: Items<FileSpec>,
    pub faults: Items<(u32, u64)>,
    pub calls: Items<Call>,
}
