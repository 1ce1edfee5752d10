//! Who left a mark on a block, and the small words of the calls.

/// A file by its place in the list of files, from 0.
#[derive(Clone, Copy, Debug)]
pub struct FileId(pub u32);

/// The caller and the call for which an event runs.
#[derive(Clone, Copy, Debug)]
pub struct Tag {
    pub caller: u32,
    pub call: u32,
}

/// What a call did in a block: it was done, it failed after its bytes had reached the block's
/// sector, or it failed and left the block as it was.
#[derive(Clone, Copy, Debug)]
pub enum Mark {
    Done,
    Landed,
    Missed,
}

/// One line of a block's journal. `caller` is the number of the pass that made the call, and `call`
/// the call's number.
#[derive(Clone, Copy, Debug)]
pub struct Stamp {
    pub caller: u32,
    pub call: u32,
    pub mark: Mark,
}

/// The direction of a transfer between memory and the device.
#[derive(Clone, Copy, Debug)]
pub enum Op {
    Read,
    Write,
}

/// Whether a file's bytes go through the page cache, or straight between the caller and the device.
#[derive(Clone, Copy, Debug)]
pub enum Mode {
    Cached,
    Dax,
}
