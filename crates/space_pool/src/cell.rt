//! The pool that seats in any threads share: how it is made and how it ends.
ghost use Rattle.std.specs.Prelude.{◌≡◌, ◌^◌, ◌≤◌, ◌++◌, length, All, IfOk, IfErr};
ghost use Rattle.turn_cell.specs.Seats.{seat_view, seat_claims};
ghost use Rattle.turn_cell.specs.Views.{first_seat};
ghost use Rattle.space_pool.specs.Sectors.{SameSectors};
ghost use Rattle.space_pool.specs.Claims.{numbers_of, claims_with};
ghost use Rattle.space_pool.specs.Pool.{HasSize, AreDistinct, fresh_pool};
ghost use Rattle.space_pool.specs.Turns.{ClosesPool};

use crate::answer::NoPool;
use crate::state::PoolState;
use iob_base::{Geometry, Sector};
use std::alloc::Global;
use turn_cell::{NoCell, TurnCell, TurnSeat};

/// A caller's place at a pool.
///
/// Contracts see what it claims as `seat_claims`, and the rest by `seat_view`: which pool it is, the beginning of the pool's
/// history that it has seen, the entries that it made, and its share. A seat that is dropped keeps its share and its claims for
/// good.
pub type PoolSeat = TurnSeat<PoolState>;

/// A pool of sectors that seats in any threads share. Each call is one turn, and makes one entry of the pool's history.
///
/// Contracts see by `pool_cell` which pool it is and what it was opened with.
///
/// # Invariants
///
/// Between any two turns each number of the pool is free or claimed by one seat. What is reserved is what the seats have
/// reserved, and no more than is free. Each seat is within its cap, and the caps add up to that of the start.
pub struct SpacePool {
    pub(crate) cell: TurnCell<PoolState>,
}

impl SpacePool {
    ghost use Rattle.space_pool.specs.Seats.{pool_cell};

    /// A pool of these free sectors, and of those that are held, which stay with the caller. The first seat has this cap, the
    /// whole share of 2^63, and claims the numbers of the held sectors.
    ///
    /// # Errors
    ///
    /// `NoPool` where there is no memory. The free sectors come back in it, in some order. No other call of the pool takes memory.
    pub fn start(
        alloc: Global,
        geometry: Geometry,
        free: Vec<Sector>,
        held: &[Sector],
        cap: u64,
    ) -> Result<(SpacePool, PoolSeat), NoPool>
        requires free_sized { All (HasSize geometry.block_size) free.items }
        requires held_sized { All (HasSize geometry.block_size) held.now }
        requires distinct { AreDistinct (numbers_of held.now ++ numbers_of free.items) }
        requires few { length held.now ≤ cap }
        ensures free { IfOk result (λ r. SameSectors free.items (pool_cell r.0).opening.free) }
        ensures opening { IfOk result (λ r. (pool_cell r.0).opening ≡ fresh_pool (pool_cell r.0).opening.free (numbers_of held.now ++ numbers_of free.items) cap geometry.block_size) }
        ensures seat { IfOk result (λ r. seat_view r.1 ≡ first_seat (pool_cell r.0).cell (2 ^ 63)) }
        ensures claims { IfOk result (λ r. (seat_claims r.1).facts ≡ claims_with held.now cap geometry.block_size) }
        ensures err { IfErr result (λ e. SameSectors free.items e.free.items) }
    {
        let (state, claims) = PoolState::new(alloc, geometry, free, held, cap)?;
        match TurnCell::start(alloc, state, claims) {
            Ok((cell, seat)) => Ok((SpacePool { cell }, seat)),
            Err(NoCell { value, claims: _ }) => Err(NoPool {
                free: value.into_free(),
            }),
        }
    }

    /// Ends the pool and gives its free sectors, in the order of their numbers. The seat has the whole share, so there is no
    /// other seat.
    pub fn close(self, seat: PoolSeat) -> Vec<Sector>
        requires cell { (seat_view seat).cell ≡ (pool_cell self).cell }
        requires whole { (seat_view seat).share ≡ 2 ^ 63 }
        ensures { ClosesPool (pool_cell self).opening (seat_view seat) (seat_claims seat) result.items }
    {
        let SpacePool { cell } = self;
        cell.close(seat).into_free()
    }
}

/// Drops the free sectors.
impl Drop for SpacePool {
    fn drop(self) {
        let SpacePool { cell } = self;
        drop(cell);
    }
}
