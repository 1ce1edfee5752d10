//! What a mapping says of a range of a file.
use iob_base::FileId;

/// What the bytes of a range of a file are.
#[derive(Clone, Copy, Debug)]
pub enum IomapType {
    /// They have no space on the device, and read as zeros.
    Hole,
    /// Space is promised to them, and they lie in the page cache alone.
    Delalloc,
    /// They lie on the device.
    Mapped,
    /// They have space that was never written, and read as zeros.
    Unwritten,
}

/// What became of a mapping.
#[derive(Clone, Copy, Debug)]
pub struct MapFlags {
    /// The begin promised or gave space that was not there before.
    pub new: bool,
    /// The mapping was found out of date after its begin.
    pub stale: bool,
}

/// A range of bytes of a file that are all of one type. Offsets and lengths are in bytes.
#[derive(Clone, Copy, Debug)]
pub struct Iomap {
    pub file: FileId,
    /// Where the range begins on the device. None for a hole and a delalloc mapping.
    pub addr: Option<u64>,
    /// Where the range begins in the file.
    pub offset: u64,
    pub length: u64,
    pub kind: IomapType,
    pub flags: MapFlags,
    /// Tells whether the mapping is still good: the file system compares it with its own.
    pub validity_cookie: u64,
}

/// What a mapping is wanted for.
#[derive(Clone, Copy, Debug)]
pub struct Flags {
    /// Bytes of the range are to be written.
    pub write: bool,
    /// Bytes of the range are to be set to zeros.
    pub zero: bool,
    /// The mapping is only to be told.
    pub report: bool,
    /// The bytes go between the caller's pages and the device, past the page cache.
    pub direct: bool,
    /// Only space that is already mapped is to be written.
    pub overwrite_only: bool,
    /// The file has no page cache, and the bytes go straight to the device's memory.
    pub dax: bool,
}
