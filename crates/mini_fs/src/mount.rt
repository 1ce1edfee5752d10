//! The mount: the cells and locks of its files.
ghost use Rattle.std.specs.Prelude.{◌≡◌, ◌<◌, ◌≤◌, ◌+◌, ◌/◌, IsTrue, Some, is_some, length, slice_get};
ghost use Rattle.turn_cell.specs.Seats.{cell_view};

use crate::ticket::Ticket;
use bio_pages::BioQueue;
use crossbeam_utils::CachePadded;
use inode_lock::InodeLock;
use iob_base::{FileId, Geometry, Mode, STRIPE, Sector};
use mount_parts::FilePlace;
use range_core::Range;
use size_core::Sizes;
use space_pool::SpacePool;
use std::alloc::Global;
use std::marker::Model;
use turn_cell::TurnCell;

/// A file system whose files callers on any threads share. Contracts see it as a `MountView`.
///
/// A call that names a file asks that it exists, and one that names a block that it is one of the file.
///
/// # Invariants
///
/// The stripes of the files lie in the order of the files, and so do the size cells of those that have a size. Each stripe
/// was opened with 64 blocks of its file, or with those that are left at its end, and each size with its file's end. Each
/// file has a lock. A mount has no seat; those of the stripes at the pool have its whole share. Where there is a file, no
/// sector is idle.
#[derive(Drop)]
pub struct Mount {
    pub(crate) alloc: Global,
    pub(crate) geometry: Geometry,
    pub(crate) files: Vec<FilePlace>,
    pub(crate) stripes: Vec<CachePadded<TurnCell<Range>>>,
    pub(crate) sizes: Vec<CachePadded<TurnCell<Sizes>>>,
    pub(crate) locks: Vec<InodeLock>,
    pub(crate) pool: SpacePool,
    // The sectors of a device without files.
    pub(crate) idle: Vec<Sector>,
    pub(crate) queue: BioQueue<Ticket>,
}

impl Model for Mount {
    ghost use Rattle.std.specs.Prelude.{map};
    ghost use Rattle.crossbeam_utils.specs.Padded.{padded_value};
    ghost use Rattle.space_pool.specs.Seats.{pool_cell};
    ghost use Rattle.turn_cell.specs.Seats.{cell_view};
    ghost use Rattle.mount_parts.specs.MountView.{MountView, IsLaidOut, mount_view};

    ghost Value = { MountView };

    ghost view = { λ m. mount_view m.geometry m.files.items (map (λ c. cell_view (padded_value c)) m.stripes.items) (map (λ c. cell_view (padded_value c)) m.sizes.items) m.locks.items (pool_cell m.pool) m.idle.items m.queue };

    ghost invariant = { λ m. IsLaidOut (mount_view m.geometry m.files.items (map (λ c. cell_view (padded_value c)) m.stripes.items) (map (λ c. cell_view (padded_value c)) m.sizes.items) m.locks.items (pool_cell m.pool) m.idle.items m.queue) };
}

impl Mount {
    ghost use Rattle.iob_base.specs.Geometry.{is_block_size};
    ghost use Rattle.mount_parts.specs.MountView.{HasBlock, HasFile, IsLaidOut, file_at, stripe_at};
    ghost use Rattle.space_pool.specs.Seats.{pool_cell};
    ghost use Rattle.mini_fs.specs.Turns.{block_at};
    ghost use Rattle.mini_fs.specs.SizeTurns.{HasSize, size_at};

    /// Where the parts of every mount lie. It does nothing.
    pub fn is_laid_out(&self)
        ensures { IsLaidOut self.now }
    {
        let _ = &self.geometry;
    }

    /// The mode of a file.
    pub fn mode(&self, file: FileId) -> Mode
        requires { HasFile self.now file }
        ensures { result ≡ (file_at self.now file).mode }
    {
        self.files[file.0 as usize].mode
    }

    /// How many blocks a file has.
    pub fn blocks(&self, file: FileId) -> u64
        requires { HasFile self.now file }
        ensures { result ≡ (file_at self.now file).blocks }
    {
        self.files[file.0 as usize].blocks
    }

    /// Whether a file has a size.
    pub fn sized(&self, file: FileId) -> bool
        requires { HasFile self.now file }
        ensures { result ≡ is_some (file_at self.now file).size }
    {
        self.files[file.0 as usize].size.is_some()
    }

    /// The sizes of blocks and folios, and the grain of direct calls.
    pub fn geometry(&self) -> Geometry
        ensures { result ≡ self.now.geometry }
    {
        self.geometry
    }

    /// What the calls above make their lists with.
    pub fn allocator(&self) -> Global {
        self.alloc
    }

    // The block of a file that has the byte in this place.
    pub(crate) fn block_at(&self, place: u64) -> u64
        ensures is { result ≡ block_at self.now place }
        ensures sized { IsTrue (is_block_size self.now.geometry.block_size) }
    {
        place / u64::from(self.geometry.block_size())
    }

    // The pool that all stripes have their seats at.
    pub(crate) fn pool(&self) -> &SpacePool
        ensures { pool_cell result.now ≡ self.now.pool }
    {
        &self.pool
    }

    // The stripe of a block, among all stripes.
    pub(crate) fn stripe(&self, file: FileId, b: u64) -> usize
        requires { HasBlock self.now file b }
        ensures is { result ≡ stripe_at self.now file b }
        ensures within { result < length self.now.stripes }
    {
        self.files[file.0 as usize].stripe + (b / STRIPE) as usize
    }

    // The cell of a stripe.
    pub(crate) fn range_cell(&self, stripe: usize) -> &TurnCell<Range>
        requires { stripe < length self.now.stripes }
        ensures { slice_get self.now.stripes stripe ≡ Some (cell_view result.now) }
    {
        &self.stripes[stripe]
    }

    // The size cell of a file that has a size.
    pub(crate) fn size(&self, file: FileId) -> usize
        requires { HasSize self.now file }
        ensures is { result ≡ size_at self.now file }
        ensures within { result < length self.now.sizes }
    {
        let Some(at) = self.files[file.0 as usize].size else {
            unreachable!()
        };
        at
    }

    // The cell of a size.
    pub(crate) fn size_cell(&self, at: usize) -> &TurnCell<Sizes>
        requires { at < length self.now.sizes }
        ensures { slice_get self.now.sizes at ≡ Some (cell_view result.now) }
    {
        &self.sizes[at]
    }

    // The lock in this place.
    pub(crate) fn lock_at(&self, place: usize) -> &InodeLock
        requires { place < length self.now.locks }
        ensures { slice_get self.now.locks place ≡ Some result.now }
    {
        &self.locks[place]
    }

    // The lock of a file.
    pub(crate) fn lock(&self, file: FileId) -> &InodeLock
        requires { HasFile self.now file }
        ensures { slice_get self.now.locks file.0 ≡ Some result.now }
    {
        &self.locks[file.0 as usize]
    }
}
