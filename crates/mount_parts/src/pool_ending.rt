//! The pool of a mount is closed once all its seats are one.
ghost use Rattle.std.specs.Prelude.{◌≡◌, ℕ, ◌+◌, ◌<◌, ◌^◌, [], All, length, map};
ghost use Rattle.turn_cell.specs.Seats.{seat_claims, seat_view};
ghost use Rattle.turn_cell.specs.Stakes.{total};
ghost use Rattle.space_pool.specs.Seats.{pool_cell};
ghost use Rattle.mount_parts.specs.PoolEnds.{EndsPool, claimed, number_weight, shares};

use crate::rest::next_of;
use iob_base::Sector;
use space_pool::{PoolSeat, SpacePool};

// Joins seats into another one.
fn join_seats(pool: &SpacePool, keeper: &mut PoolSeat, seats: Vec<PoolSeat>)
    requires keeper { (seat_view keeper.old).cell ≡ (pool_cell pool.now).cell }
    requires seats { All (λ s. (seat_view s).cell ≡ (pool_cell pool.now).cell) seats.items }
    ensures cell { (seat_view keeper.new).cell ≡ (pool_cell pool.now).cell }
    ensures share { (seat_view keeper.new).share ≡ (seat_view keeper.old).share + shares (map seat_view seats.items) }
    ensures numbers { (f : ℕ → ℕ) → number_weight f (seat_claims keeper.new) ≡ number_weight f (seat_claims keeper.old) + claimed f (map seat_claims seats.items) }
{
    let count = seats.len();
    let mut rest = seats.into_iter();
    for _ in 0..count {
        let seat = next_of(&mut rest);
        pool.join(keeper, seat);
    }
}

// The free sectors of a pool, in the order of their numbers. `keeper` and the other seats have the whole share together.
//
// The numbers of these sectors and those that the seats claim are the numbers that the pool began with, each once.
fn close_pool(pool: SpacePool, mut keeper: PoolSeat, seats: Vec<PoolSeat>) -> Vec<Sector>
    requires keeper { (seat_view keeper).cell ≡ (pool_cell pool).cell }
    requires seats { All (λ s. (seat_view s).cell ≡ (pool_cell pool).cell) seats.items }
    requires whole { (seat_view keeper).share + shares (map seat_view seats.items) ≡ 2 ^ 63 }
    ensures { EndsPool (pool_cell pool).opening (λ f. number_weight f (seat_claims keeper) + claimed f (map seat_claims seats.items)) result.items }
{
    join_seats(&pool, &mut keeper, seats);
    pool.close(keeper)
}

// The free sectors of a pool whose seats, one of each stripe, have the whole share together. Without a stripe the pool has no
// sectors, and the idle ones are free.
pub(crate) fn end_pool(pool: SpacePool, mut seats: Vec<PoolSeat>, idle: Vec<Sector>) -> Vec<Sector>
    requires seats { All (λ s. (seat_view s).cell ≡ (pool_cell pool).cell) seats.items }
    requires whole { 0 < length seats.items → shares (map seat_view seats.items) ≡ 2 ^ 63 }
    requires idle { 0 < length seats.items → idle.items ≡ [] }
    ensures pool { 0 < length seats.items → EndsPool (pool_cell pool).opening (λ f. claimed f (map seat_claims seats.items)) result.items }
    ensures idle { length seats.items ≡ 0 → result.items ≡ idle.items }
{
    let Some(keeper) = seats.pop() else {
        return idle;
    };
    close_pool(pool, keeper, seats)
}
