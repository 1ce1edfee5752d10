//! Files as lists of blocks: what a script says of them, and what is left of them at the end.
use iob_base::{Items, Mode, Page, Sector, Stamp};

/// What a block of a file is: it has no space, space is promised to it, it has space that was never
/// written, or space whose bytes are its own. The number is that of the block on the device.
#[derive(Clone, Copy)]
pub enum Kind {
    Hole,
    Delalloc,
    Unwritten(u32),
    Mapped(u32),
}

/// A run of blocks of a file, of one kind. The device number is that of its first block, and the
/// numbers go on by one.
#[derive(Clone, Copy)]
pub struct Extent {
    pub block: u64,
    pub length: u64,
    pub kind: Kind,
}

/// A file before the first call: its blocks, its size in bytes where it has one, and the extents that
/// are mapped or unwritten. All other blocks are holes.
#[derive(Drop)]
pub struct FileSpec {
    pub mode: Mode,
    pub blocks: u64,
    pub size: Option<u64>,
    pub extents: Items<Extent>,
}

/// A block after the last call: its sector where it has one, its page where that is dirty, and the
/// stamps that calls left on it, in order.
#[derive(Drop)]
pub struct BlockEnd {
    pub sector: Option<Sector>,
    pub dirty: Option<Page>,
    pub journal: Items<Stamp>,
}

/// What a call did at the size of its file: it saw it, raised it, or cut it. Sizes are in bytes.
#[derive(Clone, Copy)]
pub enum SizeMark {
    See { found: u64 },
    Grow { to: u64 },
    Cut { to: u64 },
}

/// One turn of a call at the size of its file: who made the call, its number, and what it did.
#[derive(Clone, Copy)]
pub struct SizeStamp {
    pub caller: u32,
    pub call: u32,
    pub mark: SizeMark,
}

/// A file after the last call. The extents are merged, holes among them, and cover all its blocks. The
/// size and its stamps, in order, are those of a file that has one.
#[derive(Drop)]
pub struct FileEnd {
    pub extents: Items<Extent>,
    pub blocks: Items<BlockEnd>,
    pub size: Option<u64>,
    pub sizes: Items<SizeStamp>,
}

/// All files after the last call, and the sectors that no file has.
#[derive(Drop)]
pub struct Unmounted {
    pub files: Items<FileEnd>,
    pub free: Items<Sector>,
}
