//! The range of the one file, and the pool of the sectors that no file has.
ghost use Rattle.std.specs.Prelude.{◌≡◌, ◌^◌, ◌++◌, IfOk};
ghost use Rattle.io_model.specs.Contents.{device_bytes};
ghost use Rattle.iomap_replay.specs.Devices.{blocks_beside, blocks_with, first_number};
ghost use Rattle.iomap_replay.specs.Jobs.{IsJobOf};
ghost use Rattle.iomap_replay.specs.OneRead.{IsOpened};
ghost use Rattle.space_pool.specs.Claims.{claims_with, numbers_of};
ghost use Rattle.space_pool.specs.Seats.{pool_cell};
ghost use Rattle.turn_cell.specs.Seats.{seat_claims, seat_view};
ghost use Rattle.turn_cell.specs.Views.{first_seat};

use crate::device::device_blocks;
use crate::job::Job;
use io_model::{Extent, Kind, Script};
use iob_base::{Mode, Sector};
use range_core::Range;
use space_pool::{PoolSeat, SpacePool};
use std::alloc::{AllocError, Global};

/// The device number with which an extent begins, and 0 where it has none.
fn first_sector(kind: Kind) -> u32
    ensures { result ≡ first_number kind }
{
    match kind {
        Kind::Hole | Kind::Delalloc => 0,
        Kind::Unwritten(d) | Kind::Mapped(d) => d,
    }
}

/// The sectors of the extent, in order, and those that no file has. Want of memory is the only error.
pub fn sectors_of(
    alloc: Global,
    script: &Script,
    job: &Job,
) -> Result<(Vec<Sector>, Vec<Sector>), AllocError>
    requires { IsJobOf script.now job.now }
    ensures own { IfOk result (λ s. s.0.items ≡ blocks_with (device_bytes script.now) (first_number job.now.extent.kind) job.now.extent.length) }
    ensures free { IfOk result (λ s. s.1.items ≡ blocks_beside (device_bytes script.now) (first_number job.now.extent.kind) job.now.extent.length job.now.device.blocks) }
{
    let mut free = device_blocks(alloc, &job.geometry, job.device, script.blocks.as_slice())?;
    let first = first_sector(job.extent.kind) as usize;
    let mut own = free.split_off(first)?;
    let mut rest = own.split_off(job.extent.length as usize)?;
    free.append(&mut rest)?;
    Ok((own, free))
}

/// The pool of the sectors that no file has, and its first seat, which claims those of the extent and may claim one for
/// each block of the file. Want of memory is the only error.
pub fn start_pool(
    alloc: Global,
    script: &Script,
    job: &Job,
    own: &[Sector],
    free: Vec<Sector>,
) -> Result<(SpacePool, PoolSeat), AllocError>
    requires job { IsJobOf script.now job.now }
    requires own { own.now ≡ blocks_with (device_bytes script.now) (first_number job.now.extent.kind) job.now.extent.length }
    requires free { free.items ≡ blocks_beside (device_bytes script.now) (first_number job.now.extent.kind) job.now.extent.length job.now.device.blocks }
    ensures seat { IfOk result (λ p. seat_view p.1 ≡ first_seat (pool_cell p.0).cell (2 ^ 63)) }
    ensures claims { IfOk result (λ p. (seat_claims p.1).facts ≡ claims_with own.now job.now.blocks job.now.geometry.block_size) }
    ensures numbers { IfOk result (λ p. (pool_cell p.0).opening.numbers ≡ numbers_of own.now ++ numbers_of free.items) }
{
    let _ = script;
    match SpacePool::start(alloc, job.geometry, free, own, job.blocks) {
        Ok(pool) => Ok(pool),
        Err(_) => Err(AllocError),
    }
}

/// The range of the one file, with its extent's sectors, which the seat at the pool claims. Want of memory is the only
/// error.
pub fn open_range(
    alloc: Global,
    script: &Script,
    job: &Job,
    own: Vec<Sector>,
    seat: PoolSeat,
) -> Result<Range, AllocError>
    requires job { IsJobOf script.now job.now }
    requires own { own.items ≡ blocks_with (device_bytes script.now) (first_number job.now.extent.kind) job.now.extent.length }
    requires claims { (seat_claims seat).facts ≡ claims_with own.items job.now.blocks job.now.geometry.block_size }
    ensures opened { IfOk result (λ r. IsOpened script.now job.now r) }
    ensures seat { IfOk result (λ r. r.seat ≡ seat_view seat) }
    ensures space { IfOk result (λ r. r.space ≡ (seat_claims seat).facts) }
{
    let extents: Vec<Extent> = vec![in alloc; job.extent]?;
    Range::new(
        alloc,
        job.geometry,
        Mode::Cached,
        0,
        job.blocks,
        extents,
        own,
        seat,
        0,
    )
}
