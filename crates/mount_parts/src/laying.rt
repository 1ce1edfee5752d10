//! The pool of a device's free sectors, and the stripes of files over the others.
ghost use Rattle.std.specs.Prelude.{◌≡◌, ◌<◌, ◌≤◌, ◌^◌, ◌++◌, All, IfOk, length, map};
ghost use Rattle.iob_base.specs.declared.TheConstants.{WORN};
ghost use Rattle.crossbeam_utils.specs.Padded.{padded_value};
ghost use Rattle.file_stripes.specs.Files.{IsFile, blocks_of_files, numbers_of_files};
ghost use Rattle.file_stripes.specs.Taking.{AreInOrder, AreNamedOnce, IsWhole};
ghost use Rattle.turn_cell.specs.Seats.{cell_view, seat_claims, seat_view};
ghost use Rattle.turn_cell.specs.Views.{first_seat};
ghost use Rattle.space_pool.specs.Claims.{claims_with, numbers_of};
ghost use Rattle.space_pool.specs.Pool.{AreDistinct, HasSize, fresh_pool};
ghost use Rattle.space_pool.specs.Sectors.{SameSectors};
ghost use Rattle.space_pool.specs.Seats.{pool_cell};
ghost use Rattle.range_core.specs.ClaimsView.{first_claims};
ghost use Rattle.mount_parts.specs.Pieces.{LaidStripes, is_first_at};

use crate::cutting::cut_files;
use crate::opening::{Opened, open_pieces};
use crossbeam_utils::CachePadded;
use file_stripes::{Taken, hand_out};
use io_model::FileSpec;
use iob_base::{Geometry, Sector, WORN};
use range_core::Range;
use space_pool::{NoPool, PoolSeat, SpacePool};
use std::alloc::{AllocError, Global};
use turn_cell::{TurnCell, TurnSeat};

/// The cells of the stripes of all files, the first seat at each, their pool, and the sectors of a device without files.
#[derive(Drop)]
pub(crate) struct Ground {
    pub cells: Vec<CachePadded<TurnCell<Range>>>,
    pub seats: Vec<TurnSeat<Range>>,
    pub pool: SpacePool,
    pub idle: Vec<Sector>,
}

// How many blocks files have.
fn count_blocks(files: &[FileSpec]) -> u64
    requires files { All IsFile files.now }
    requires few { length files.now < 2 ^ 32 }
    ensures { result ≡ blocks_of_files files.now }
{
    let mut blocks = 0;
    for i in 0..files.len() {
        blocks += files[i].blocks;
    }
    blocks
}

// The pool of these free sectors, and a seat that claims those that are held. Want of memory is the only error.
fn open_pool(
    alloc: Global,
    geometry: Geometry,
    free: Vec<Sector>,
    held: &[Sector],
    cap: u64,
) -> Result<(SpacePool, PoolSeat), AllocError>
    requires free_sized { All (HasSize geometry.block_size) free.items }
    requires held_sized { All (HasSize geometry.block_size) held.now }
    requires distinct { AreDistinct (numbers_of held.now ++ numbers_of free.items) }
    requires few { length held.now ≤ cap }
    ensures free { IfOk result (λ r. SameSectors free.items (pool_cell r.0).opening.free) }
    ensures opening { IfOk result (λ r. (pool_cell r.0).opening ≡ fresh_pool (pool_cell r.0).opening.free (numbers_of held.now ++ numbers_of free.items) cap geometry.block_size) }
    ensures seat { IfOk result (λ r. seat_view r.1 ≡ first_seat (pool_cell r.0).cell (2 ^ 63)) }
    ensures claims { IfOk result (λ r. (seat_claims r.1).facts ≡ claims_with held.now cap geometry.block_size) }
{
    match SpacePool::start(alloc, geometry, free, held, cap) {
        Ok(both) => Ok(both),
        Err(NoPool { free }) => {
            drop(free);
            Err(AllocError)
        }
    }
}

// A device without files: its pool has no sectors and no seat, since no stripe is there to have it.
fn leave_idle(
    alloc: Global,
    geometry: Geometry,
    sectors: Vec<Sector>,
    files: &[FileSpec],
    cookie: u64,
) -> Result<Ground, AllocError>
    requires { length files.now ≡ 0 }
    ensures stripes { IfOk result (λ g. LaidStripes geometry cookie sectors.items files.now (map (λ c. (cell_view (padded_value c)).opening) g.cells.items) (pool_cell g.pool) g.idle.items) }
    ensures seats { IfOk result (λ g. map seat_view g.seats.items ≡ map (λ c. is_first_at (cell_view (padded_value c))) g.cells.items) }
    ensures own { IfOk result (λ g. All (λ s. seat_claims s ≡ first_claims) g.seats.items) }
{
    let none = Vec::new(alloc);
    let (pool, seat) = open_pool(alloc, geometry, Vec::new(alloc), none.as_slice(), 0)?;
    drop(seat);
    Ok(Ground {
        cells: Vec::new(alloc),
        seats: Vec::new(alloc),
        pool,
        idle: sectors,
    })
}

// The stripes of files, of which there is one.
fn lay_some(
    alloc: Global,
    geometry: Geometry,
    sectors: Vec<Sector>,
    files: &[FileSpec],
    cookie: u64,
) -> Result<Ground, AllocError>
    requires device { AreInOrder 0 sectors.items }
    requires whole { All (IsWhole geometry.block_size) sectors.items }
    requires files { All IsFile files.now }
    requires some { 0 < length files.now }
    requires few { length files.now < 2 ^ 32 }
    requires named { AreNamedOnce (length sectors.items) (numbers_of_files files.now) }
    requires cookie { cookie ≤ WORN }
    ensures stripes { IfOk result (λ g. LaidStripes geometry cookie sectors.items files.now (map (λ c. (cell_view (padded_value c)).opening) g.cells.items) (pool_cell g.pool) g.idle.items) }
    ensures seats { IfOk result (λ g. map seat_view g.seats.items ≡ map (λ c. is_first_at (cell_view (padded_value c))) g.cells.items) }
    ensures own { IfOk result (λ g. All (λ s. seat_claims s ≡ first_claims) g.seats.items) }
{
    let Taken { held, free } = hand_out(alloc, sectors, files)?;
    let blocks = count_blocks(files);
    let (pool, keeper) = open_pool(alloc, geometry, free, held.as_slice(), blocks)?;
    let pieces = cut_files(alloc, files, held)?;
    let opened = open_pieces(alloc, geometry, cookie, &pool, keeper, pieces)?;
    let Opened { cells, seats } = opened;
    Ok(Ground {
        cells,
        seats,
        pool,
        idle: Vec::new(alloc),
    })
}

/// The stripes of all files as ranges, over the sectors that the files name, and the pool of the others. Where there are no
/// files, all sectors stay as they are. Want of memory is the only error.
pub(crate) fn lay_stripes(
    alloc: Global,
    geometry: Geometry,
    sectors: Vec<Sector>,
    files: &[FileSpec],
    cookie: u64,
) -> Result<Ground, AllocError>
    requires device { AreInOrder 0 sectors.items }
    requires whole { All (IsWhole geometry.block_size) sectors.items }
    requires files { All IsFile files.now }
    requires few { length files.now < 2 ^ 32 }
    requires named { AreNamedOnce (length sectors.items) (numbers_of_files files.now) }
    requires cookie { cookie ≤ WORN }
    ensures stripes { IfOk result (λ g. LaidStripes geometry cookie sectors.items files.now (map (λ c. (cell_view (padded_value c)).opening) g.cells.items) (pool_cell g.pool) g.idle.items) }
    ensures seats { IfOk result (λ g. map seat_view g.seats.items ≡ map (λ c. is_first_at (cell_view (padded_value c))) g.cells.items) }
    ensures own { IfOk result (λ g. All (λ s. seat_claims s ≡ first_claims) g.seats.items) }
{
    if files.is_empty() {
        return leave_idle(alloc, geometry, sectors, files, cookie);
    }
    lay_some(alloc, geometry, sectors, files, cookie)
}
