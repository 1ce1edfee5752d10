//! Everything that a mount is made of at its start.
ghost use Rattle.std.specs.Prelude.{◌≡◌, ◌<◌, ◌≤◌, ◌^◌, All, IfOk, length, map};
ghost use Rattle.iob_base.specs.declared.TheConstants.{WORN};
ghost use Rattle.crossbeam_utils.specs.Padded.{padded_value};
ghost use Rattle.file_stripes.specs.Files.{IsFile, numbers_of_files};
ghost use Rattle.file_stripes.specs.Taking.{AreInOrder, AreNamedOnce, IsWhole};
ghost use Rattle.turn_cell.specs.Seats.{cell_view, seat_claims, seat_view};
ghost use Rattle.space_pool.specs.Seats.{pool_cell};
ghost use Rattle.range_core.specs.ClaimsView.{first_claims};
ghost use Rattle.size_core.specs.ClaimsView as size;
ghost use Rattle.bio_pages.specs.Queue.{QueueView};
ghost use Rattle.mount_parts.specs.FilePlaces.{places_from};
ghost use Rattle.mount_parts.specs.FirstSizes.{MayHaveSize, first_sizes};
ghost use Rattle.mount_parts.specs.Locks.{AreFresh};
ghost use Rattle.mount_parts.specs.MountView.{IsLaidOut, mount_view};
ghost use Rattle.mount_parts.specs.OpeningContents.{HaveContents};
ghost use Rattle.mount_parts.specs.Pieces.{LaidStripes, is_first_at};

use crate::file::FilePlace;
use crate::first_locks::open_locks;
use crate::first_sizes::{OpenedSizes, open_sizes};
use crate::laying::{Ground, lay_stripes};
use crate::placing::place_files;
use crossbeam_utils::CachePadded;
use inode_lock::{InodeLock, LockSeat};
use io_model::FileSpec;
use iob_base::{Geometry, Sector, WORN};
use range_core::Range;
use size_core::Sizes;
use space_pool::SpacePool;
use std::alloc::{AllocError, Global};
use turn_cell::{TurnCell, TurnSeat};

/// Where files lie, the cells of their stripes and sizes, their locks, the first seat at each of these, the pool, and the
/// sectors of a device without files.
#[derive(Drop)]
pub struct LaidFiles {
    pub files: Vec<FilePlace>,
    pub stripes: Vec<CachePadded<TurnCell<Range>>>,
    pub stripe_seats: Vec<TurnSeat<Range>>,
    pub sizes: Vec<CachePadded<TurnCell<Sizes>>>,
    pub size_seats: Vec<TurnSeat<Sizes>>,
    pub locks: Vec<InodeLock>,
    pub lock_seats: Vec<Option<LockSeat>>,
    pub pool: SpacePool,
    pub idle: Vec<Sector>,
}

/// Lays files over a device, whose sectors are all there, in the order of their numbers.
///
/// The bytes of a mapped block at or past the size of its file become zeros.
///
/// # Errors
///
/// Want of memory, which drops the sectors.
pub fn lay_files(
    alloc: Global,
    geometry: Geometry,
    sectors: Vec<Sector>,
    files: &[FileSpec],
    cookie: u64,
) -> Result<LaidFiles, AllocError>
    requires device { AreInOrder 0 sectors.items }
    requires whole { All (IsWhole geometry.block_size) sectors.items }
    requires files { All IsFile files.now }
    requires few { length files.now < 2 ^ 32 }
    requires named { AreNamedOnce (length sectors.items) (numbers_of_files files.now) }
    requires sized { All (MayHaveSize geometry.block_size) files.now }
    requires cookie { cookie ≤ WORN }
    ensures laid { IfOk result (λ l. (queue : QueueView) → IsLaidOut (mount_view geometry l.files.items (map (λ c. cell_view (padded_value c)) l.stripes.items) (map (λ c. cell_view (padded_value c)) l.sizes.items) l.locks.items (pool_cell l.pool) l.idle.items queue)) }
    ensures files { IfOk result (λ l. l.files.items ≡ places_from 0 0 files.now) }
    ensures stripes { IfOk result (λ l. LaidStripes geometry cookie sectors.items files.now (map (λ c. (cell_view (padded_value c)).opening) l.stripes.items) (pool_cell l.pool) l.idle.items) }
    ensures contents { IfOk result (λ l. HaveContents geometry.block_size sectors.items files.now (map (λ c. (cell_view (padded_value c)).opening) l.stripes.items)) }
    ensures sizes { IfOk result (λ l. map (λ c. (cell_view (padded_value c)).opening) l.sizes.items ≡ first_sizes geometry.block_size files.now) }

    // the first seat at each
    ensures stripe_seats { IfOk result (λ l. map seat_view l.stripe_seats.items ≡ map (λ c. is_first_at (cell_view (padded_value c))) l.stripes.items) }
    ensures stripe_claims { IfOk result (λ l. All (λ s. seat_claims s ≡ first_claims) l.stripe_seats.items) }
    ensures size_seats { IfOk result (λ l. map seat_view l.size_seats.items ≡ map (λ c. is_first_at (cell_view (padded_value c))) l.sizes.items) }
    ensures size_claims { IfOk result (λ l. All (λ s. seat_claims s ≡ size.first_claims) l.size_seats.items) }
    ensures lock_seats { IfOk result (λ l. AreFresh l.locks.items l.lock_seats.items) }
{
    let places = place_files(alloc, files)?;
    let ground = lay_stripes(alloc, geometry, sectors, files, cookie)?;
    let Ground {
        cells: stripes,
        seats: stripe_seats,
        pool,
        idle,
    } = ground;
    let opened = open_sizes(alloc, geometry, files)?;
    let OpenedSizes {
        cells: sizes,
        seats: size_seats,
    } = opened;
    let (locks, lock_seats) = open_locks(alloc, files.len())?;
    Ok(LaidFiles {
        files: places,
        stripes,
        stripe_seats,
        sizes,
        size_seats,
        locks,
        lock_seats,
        pool,
        idle,
    })
}
