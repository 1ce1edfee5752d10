//! Where a file lies in a mount.
use iob_base::Mode;

/// A file of a mount: its mode, its number of blocks, the first of its stripes among those of all files, and its size cell
/// among those of all files, where it has a size. A stripe has 64 blocks, and the last one of a file those that are left.
#[derive(Clone, Copy)]
pub struct FilePlace {
    pub mode: Mode,
    pub blocks: u64,
    pub stripe: usize,
    pub size: Option<usize>,
}
