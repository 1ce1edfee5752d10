//! A mount is taken apart.
ghost use Rattle.std.specs.Prelude.{◌≡◌, ◌^◌, All, IfOk, map};
ghost use Rattle.crossbeam_utils.specs.Padded.{padded_value};
ghost use Rattle.turn_cell.specs.Seats.{cell_view, seat_claims, seat_view};
ghost use Rattle.space_pool.specs.Seats.{pool_cell};
ghost use Rattle.bio_pages.specs.Queue.{QueueView};
ghost use Rattle.mount_parts.specs.Ends.{ClaimsNoBlocks};
ghost use Rattle.mount_parts.specs.FileEnds.{run_end};
ghost use Rattle.mount_parts.specs.MountView.{IsLaidOut, mount_view};
ghost use Rattle.mount_parts.specs.Unmounts.{Unmounts};

use crate::file_ending::end_files;
use crate::parts::Parts;
use crate::pool_ending::end_pool;
use crate::size_ending::close_sizes;
use crate::stripes::close_ranges;
use file_stripes::RunEnd;
use io_model::Unmounted;
use iob_base::Items;
use range_core::{Range, RangeEnd};
use size_core::Sizes;
use space_pool::PoolSeat;
use std::alloc::{AllocError, Global};
use turn_cell::TurnSeat;

// What is left of the blocks of ranges, and their seats at the pool.
#[derive(Drop)]
struct Parted {
    runs: Vec<RunEnd>,
    seats: Vec<PoolSeat>,
}

// Parts the seats at the pool from the blocks. Want of memory is the only error.
fn part_ends(alloc: Global, ends: Vec<RangeEnd>) -> Result<Parted, AllocError>
    ensures runs { IfOk result (λ p. p.runs.items ≡ map (λ e. run_end e.extents e.blocks) ends.items) }
    ensures seats { IfOk result (λ p. p.seats.items ≡ map (λ e. e.seat) ends.items) }
{
    let mut runs = Vec::new(alloc);
    let mut seats = Vec::new(alloc);
    for end in ends {
        let RangeEnd {
            extents,
            blocks,
            seat,
        } = end;
        runs.push(RunEnd { extents, blocks })?;
        seats.push(seat)?;
    }
    Ok(Parted { runs, seats })
}

/// Takes the parts of a mount apart by the seats of one pass, which have the whole share at each stripe and size and claim no
/// blocks: what is left of each file, in order, and the free sectors, in the order of their numbers.
///
/// # Errors
///
/// Want of memory, which drops the parts and the seats.
pub fn take_apart(
    alloc: Global,
    parts: Parts,
    seats: Vec<TurnSeat<Range>>,
    size_seats: Vec<TurnSeat<Sizes>>,
) -> Result<Unmounted, AllocError>
    requires laid { (queue : QueueView) × IsLaidOut (mount_view parts.geometry parts.files.items (map (λ c. cell_view (padded_value c)) parts.stripes.items) (map (λ c. cell_view (padded_value c)) parts.sizes.items) parts.locks.items (pool_cell parts.pool) parts.idle.items queue) }
    requires cells { map (λ s. (seat_view s).cell) seats.items ≡ map (λ c. (cell_view (padded_value c)).cell) parts.stripes.items }
    requires whole { All (λ s. (seat_view s).share ≡ 2 ^ 63) seats.items }
    requires free { All (λ s. ClaimsNoBlocks (seat_claims s)) seats.items }
    requires size_cells { map (λ s. (seat_view s).cell) size_seats.items ≡ map (λ c. (cell_view (padded_value c)).cell) parts.sizes.items }
    requires sizes_whole { All (λ s. (seat_view s).share ≡ 2 ^ 63) size_seats.items }
    ensures { IfOk result (λ u. (queue : QueueView) → Unmounts (mount_view parts.geometry parts.files.items (map (λ c. cell_view (padded_value c)) parts.stripes.items) (map (λ c. cell_view (padded_value c)) parts.sizes.items) parts.locks.items (pool_cell parts.pool) parts.idle.items queue) (map seat_view seats.items) (map seat_view size_seats.items) u) }
{
    let Parts {
        geometry: _,
        files,
        stripes,
        sizes,
        locks,
        pool,
        idle,
    } = parts;
    drop(locks);
    let ranges = close_ranges(alloc, stripes, seats)?;
    let sizes = close_sizes(alloc, sizes, size_seats)?;
    let Parted { runs, seats } = part_ends(alloc, ranges)?;
    let ends = end_files(alloc, files.as_slice(), runs, sizes)?;
    let free = end_pool(pool, seats, idle);
    Ok(Unmounted {
        files: Items::from_vec(ends),
        free: Items::from_vec(free),
    })
}
