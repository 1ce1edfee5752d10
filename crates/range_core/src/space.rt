//! The turns of a range's seat at the pool. A turn for no sector is not made.
ghost use Rattle.std.specs.Prelude.{◌≡◌, ◌≤◌, ◌+◌, [], All, OnOk, IfErr, length, vec_len, vec_capacity};
ghost use Rattle.space_pool.specs.Claims.{Fits, with_fewer, with_given, with_more, with_taken};
ghost use Rattle.space_pool.specs.Pool.{AreDistinct, CanGive, HasSize, no_space};
ghost use Rattle.space_pool.specs.Seats.{pool_cell};
ghost use Rattle.turn_cell.specs.Seats.{seat_claims, seat_view};
ghost use Rattle.range_core.specs.PoolTurns.{GivesAt, GivesBack, ReservesAt, TakesAt, TurnsFor, UnreservesAt, place_at};

use iob_base::Sector;
use space_pool::{NoSpace, PoolSeat, SpacePool};
use std::sync::Wait;

/// Reserves `n` sectors, or none where there are too few.
pub(crate) fn reserve_at<R: Wait>(
    rt: &R,
    space: &SpacePool,
    seat: &mut PoolSeat,
    n: u64,
) -> Result<(), NoSpace>
    requires pool { (seat_view seat.old).cell ≡ (pool_cell space.now).cell }
    requires fits { Fits (seat_claims seat.old).facts n }
    ensures claims { OnOk result ((seat_claims seat.new).facts ≡ with_more (seat_claims seat.old).facts n) }
    ensures turn { OnOk result (TurnsFor n (ReservesAt (pool_cell space.now).opening n (Ok tt)) (place_at (seat_view seat.old) (seat_claims seat.old).facts) (place_at (seat_view seat.new) (seat_claims seat.new).facts)) }
    ensures same { IfErr result (λ e. (seat_claims seat.new).facts ≡ (seat_claims seat.old).facts) }
    ensures nospace { IfErr result (λ e. ReservesAt (pool_cell space.now).opening n (Err e) (place_at (seat_view seat.old) (seat_claims seat.old).facts) (place_at (seat_view seat.new) (seat_claims seat.new).facts)) }
{
    if n == 0 {
        return Ok(());
    }
    space.reserve(rt, seat, n)
}

/// Gives up the reservation of `n` sectors.
pub(crate) fn unreserve_at<R: Wait>(rt: &R, space: &SpacePool, seat: &mut PoolSeat, n: u64)
    requires pool { (seat_view seat.old).cell ≡ (pool_cell space.now).cell }
    requires reserved { n ≤ (seat_claims seat.old).facts.reserved }
    ensures claims { (seat_claims seat.new).facts ≡ with_fewer (seat_claims seat.old).facts n }
    ensures turn { TurnsFor n (UnreservesAt (pool_cell space.now).opening n) (place_at (seat_view seat.old) (seat_claims seat.old).facts) (place_at (seat_view seat.new) (seat_claims seat.new).facts) }
{
    if n == 0 {
        return;
    }
    space.unreserve(rt, seat, n);
}

/// Moves `n` reserved sectors into an empty list that has room for them.
pub(crate) fn take_at<R: Wait>(
    rt: &R,
    space: &SpacePool,
    seat: &mut PoolSeat,
    n: u64,
    into: &mut Vec<Sector>,
)
    requires pool { (seat_view seat.old).cell ≡ (pool_cell space.now).cell }
    requires reserved { n ≤ (seat_claims seat.old).facts.reserved }
    requires empty { into.old.items ≡ [] }
    requires room { n ≤ vec_capacity into.old }
    requires distinct { AreDistinct (seat_claims seat.old).facts.numbers }
    ensures claims { (seat_claims seat.new).facts ≡ with_taken (seat_claims seat.old).facts into.new.items }
    ensures count { length into.new.items ≡ n }
    ensures sized { All (HasSize (seat_claims seat.old).facts.size) into.new.items }
    ensures distinct { AreDistinct (seat_claims seat.new).facts.numbers }
    ensures turn { TurnsFor n (TakesAt (pool_cell space.now).opening n into.new.items) (place_at (seat_view seat.old) (seat_claims seat.old).facts) (place_at (seat_view seat.new) (seat_claims seat.new).facts) }
{
    if n == 0 {
        return;
    }
    space.take(rt, seat, n, into);
}

/// Gives these sectors back, and leaves the list empty.
pub(crate) fn give_at<R: Wait>(
    rt: &R,
    space: &SpacePool,
    seat: &mut PoolSeat,
    sectors: &mut Vec<Sector>,
)
    requires pool { (seat_view seat.old).cell ≡ (pool_cell space.now).cell }
    requires can { CanGive sectors.old.items (seat_claims seat.old).facts }
    ensures claims { (seat_claims seat.new).facts ≡ with_given (seat_claims seat.old).facts sectors.old.items }
    ensures turn { TurnsFor (vec_len sectors.old) (GivesAt (pool_cell space.now).opening sectors.old.items) (place_at (seat_view seat.old) (seat_claims seat.old).facts) (place_at (seat_view seat.new) (seat_claims seat.new).facts) }
{
    if sectors.is_empty() {
        return;
    }
    space.give(rt, seat, sectors);
}

/// Gives these sectors back, which empties the list, and then the reservation of `promised` more.
pub(crate) fn give_back<R: Wait>(
    rt: &R,
    space: &SpacePool,
    seat: &mut PoolSeat,
    sectors: &mut Vec<Sector>,
    promised: u64,
)
    requires pool { (seat_view seat.old).cell ≡ (pool_cell space.now).cell }
    requires can { CanGive sectors.old.items (seat_claims seat.old).facts }
    requires reserved { promised ≤ (seat_claims seat.old).facts.reserved }
    ensures claims { (seat_claims seat.new).facts ≡ with_fewer (with_given (seat_claims seat.old).facts sectors.old.items) promised }
    ensures turns { GivesBack (pool_cell space.now).opening sectors.old.items promised (place_at (seat_view seat.old) (seat_claims seat.old).facts) (place_at (seat_view seat.new) (seat_claims seat.new).facts) }
{
    give_at(rt, space, seat, sectors);
    unreserve_at(rt, space, seat, promised);
}
