//! The space pool: a pool of three sectors by hand, and two threads that take and give, in a small pool and in a large one.
ghost use Rattle.std.specs.Prelude.{◌≡◌, ℕ, ◌^◌, ◌<◌, ◌≤◌, [], length, All, IfSome, vec_len, vec_capacity};
ghost use Rattle.iob_base.specs.DeviceBlock.{fresh_blocks};
ghost use Rattle.turn_cell.specs.Seats.{seat_view, seat_claims};
ghost use Rattle.turn_cell.specs.Views.{first_seat};
ghost use Rattle.space_pool.specs.Claims.{numbers_of, times, claims_with};
ghost use Rattle.space_pool.specs.Pool.{HasSize, AreDistinct, IsClaimOn};
ghost use Rattle.worked_cells.specs.Claiming.{ClaimsNothing, Holds};
ghost use Rattle.space_pool.specs.Seats.{pool_cell};

use iob_base::{Geometry, Sector, sectors};
use space_pool::{Counts, NoPool, NoSpace, PoolClaims, PoolSeat, PoolState, SpacePool};
use std::alloc::Global;
use std::process::Abort;
use std::sync::Wait;
use std::test::*;
use std::thread;
use std::thread::Threads;

// The sectors of a new device of so many blocks of 16 bytes. `None` where there is no memory.
fn device(alloc: Global, blocks: u32) -> Option<(Geometry, Vec<Sector>)>
    ensures geometry { IfSome result (λ r. r.0.block_size ≡ 16) }
    ensures sized { IfSome result (λ r. All (HasSize 16) r.1.items) }
    ensures distinct { IfSome result (λ r. AreDistinct (numbers_of r.1.items)) }
    ensures count { IfSome result (λ r. length r.1.items ≡ blocks) }
    ensures numbers { IfSome result (λ r. r.1.items ≡ fresh_blocks 16 0 blocks) }
{
    let Ok(geometry) = Geometry::new(16, 1) else {
        return None;
    };
    let Ok(free) = sectors(alloc, geometry, blocks, 0) else {
        return None;
    };
    Some((geometry, free))
}

// A plain pool of so many sectors, none of them held.
fn plain(alloc: Global, blocks: u32, cap: u64) -> Option<(PoolState, PoolClaims)>
    ensures free { IfSome result (λ r. length r.0.free ≡ blocks) }
    ensures pool { IfSome result (λ r. (r.0.reserved ≡ 0) × (length r.0.numbers ≡ blocks) × (r.0.size ≡ 16)) }
    ensures claims { IfSome result (λ r. r.1.facts ≡ claims_with [] cap 16) }
    ensures claim { IfSome result (λ r. IsClaimOn r.0 r.1.facts) }
{
    let (geometry, free) = device(alloc, blocks)?;
    match PoolState::new(alloc, geometry, free, &[], cap) {
        Ok(both) => Some(both),
        Err(NoPool { free: _ }) => None,
    }
}

// The same, shared among seats.
fn started(alloc: Global, blocks: u32, cap: u64) -> Option<(SpacePool, PoolSeat)>
    ensures numbers { IfSome result (λ r. (pool_cell r.0).opening.numbers ≡ numbers_of (fresh_blocks 16 0 blocks)) }
    ensures size { IfSome result (λ r. (pool_cell r.0).opening.size ≡ 16) }
    ensures seat { IfSome result (λ r. seat_view r.1 ≡ first_seat (pool_cell r.0).cell (2 ^ 63)) }
    ensures claims { IfSome result (λ r. (seat_claims r.1).facts ≡ claims_with [] cap 16) }
{
    let (geometry, free) = device(alloc, blocks)?;
    match SpacePool::start(alloc, geometry, free, &[], cap) {
        Ok(both) => Some(both),
        Err(NoPool { free: _ }) => None,
    }
}

// Takes a sector where one is unreserved, and gives it back.
fn take_and_give<R: Wait>(rt: &R, pool: &SpacePool, seat: &mut PoolSeat, held: &mut Vec<Sector>)
    requires cell { (seat_view seat.old).cell ≡ (pool_cell pool.now).cell }
    requires claims { ClaimsNothing (seat_claims seat.old).facts × (1 ≤ (seat_claims seat.old).facts.cap) }
    requires held { (held.old.items ≡ []) × (1 ≤ vec_capacity held.old) }
    ensures seat { ((seat_view seat.new).cell ≡ (seat_view seat.old).cell) × ((seat_view seat.new).share ≡ (seat_view seat.old).share) }
    ensures claims { ClaimsNothing (seat_claims seat.new).facts × ((seat_claims seat.new).facts.cap ≡ (seat_claims seat.old).facts.cap) }
    ensures held { (held.new.items ≡ []) × (vec_capacity held.new ≡ vec_capacity held.old) }
{
    if let Ok(n) = pool.reserve_some(rt, seat, 1) {
        pool.take(rt, seat, n, held);
        pool.give(rt, seat, held);
    }
}

// Takes and gives so often.
fn keep_taking<R: Wait>(
    rt: &R,
    pool: &SpacePool,
    mut seat: PoolSeat,
    mut held: Vec<Sector>,
    rounds: u64,
) -> PoolSeat
    requires cell { (seat_view seat).cell ≡ (pool_cell pool.now).cell }
    requires claims { ClaimsNothing (seat_claims seat).facts × (1 ≤ (seat_claims seat).facts.cap) }
    requires held { (held.items ≡ []) × (1 ≤ vec_capacity held) }
    ensures seat { ((seat_view result).cell ≡ (seat_view seat).cell) × ((seat_view result).share ≡ (seat_view seat).share) }
    ensures claims { ClaimsNothing (seat_claims result).facts }
{
    for _ in 0..rounds {
        take_and_give(rt, pool, &mut seat, &mut held);
    }
    seat
}

// Two threads take and give so often, and the pool is closed then. Each number is there as often as at the start.
fn share_by_two<R: Threads + Wait + Sync>(
    rt: &R,
    alloc: Global,
    blocks: u32,
    rounds: u64,
) -> Option<Vec<Sector>>
    ensures { IfSome result (λ all. (x : ℕ) → times x (numbers_of all.items) ≡ times x (numbers_of (fresh_blocks 16 0 blocks))) }
{
    let (pool, mut seat) = started(alloc, blocks, 2)?;
    let Ok(mine) = Vec::with_capacity(alloc, 1) else {
        return None;
    };
    let Ok(theirs) = Vec::with_capacity(alloc, 1) else {
        return None;
    };
    let Ok(other) = pool.split(&mut seat, 1, &[]) else {
        return None;
    };
    let line = &pool;
    let (mut seat, other) = thread::join(
        rt,
        move ||
            requires { ((seat_view seat).cell ≡ (pool_cell line.now).cell) × (ClaimsNothing (seat_claims seat).facts × (1 ≤ (seat_claims seat).facts.cap)) × ((mine.items ≡ []) × (1 ≤ vec_capacity mine)) }
            ensures { ((seat_view result).cell ≡ (seat_view seat).cell) × ((seat_view result).share ≡ (seat_view seat).share) × ClaimsNothing (seat_claims result).facts }
        { keep_taking(rt, line, seat, mine, rounds) },
        move ||
            requires { ((seat_view other).cell ≡ (pool_cell line.now).cell) × (ClaimsNothing (seat_claims other).facts × (1 ≤ (seat_claims other).facts.cap)) × ((theirs.items ≡ []) × (1 ≤ vec_capacity theirs)) }
            ensures { ((seat_view result).cell ≡ (seat_view other).cell) × ((seat_view result).share ≡ (seat_view other).share) × ClaimsNothing (seat_claims result).facts }
        { keep_taking(rt, line, other, theirs, rounds) },
    );
    pool.join(&mut seat, other);
    Some(pool.close(seat))
}

// Takes one sector more where there is room for it and one is unreserved, and tells whether it did.
fn take_one<R: Wait>(rt: &R, pool: &SpacePool, seat: &mut PoolSeat, held: &mut Vec<Sector>) -> bool
    requires cell { (seat_view seat.old).cell ≡ (pool_cell pool.now).cell }
    requires holds { Holds held.old.items (seat_claims seat.old).facts }
    requires fits { vec_capacity held.old ≤ (seat_claims seat.old).facts.cap }
    ensures seat { ((seat_view seat.new).cell ≡ (seat_view seat.old).cell) × ((seat_view seat.new).share ≡ (seat_view seat.old).share) }
    ensures holds { Holds held.new.items (seat_claims seat.new).facts }
    ensures kept { (vec_capacity held.new ≡ vec_capacity held.old) × ((seat_claims seat.new).facts.cap ≡ (seat_claims seat.old).facts.cap) }
{
    if held.len() == held.capacity() {
        return false;
    }
    let Ok(()) = pool.reserve(rt, seat, 1) else {
        return false;
    };
    pool.take(rt, seat, 1, held);
    true
}

// Takes sectors one at a time until that fails, at most so often.
fn take_each<R: Wait>(
    rt: &R,
    pool: &SpacePool,
    seat: &mut PoolSeat,
    held: &mut Vec<Sector>,
    most: u64,
)
    requires cell { (seat_view seat.old).cell ≡ (pool_cell pool.now).cell }
    requires holds { Holds held.old.items (seat_claims seat.old).facts }
    requires fits { vec_capacity held.old ≤ (seat_claims seat.old).facts.cap }
    ensures seat { ((seat_view seat.new).cell ≡ (seat_view seat.old).cell) × ((seat_view seat.new).share ≡ (seat_view seat.old).share) }
    ensures holds { Holds held.new.items (seat_claims seat.new).facts }
{
    for _ in 0..most {
        if !take_one(rt, pool, seat, held) {
            break;
        }
    }
}

// Gives one of the held sectors back, if there is one.
fn give_one<R: Wait>(
    rt: &R,
    pool: &SpacePool,
    seat: &mut PoolSeat,
    held: &mut Vec<Sector>,
    one: &mut Vec<Sector>,
)
    requires cell { (seat_view seat.old).cell ≡ (pool_cell pool.now).cell }
    requires holds { Holds held.old.items (seat_claims seat.old).facts }
    requires one { (one.old.items ≡ []) × (1 ≤ vec_capacity one.old) }
    ensures seat { ((seat_view seat.new).cell ≡ (seat_view seat.old).cell) × ((seat_view seat.new).share ≡ (seat_view seat.old).share) }
    ensures holds { Holds held.new.items (seat_claims seat.new).facts }
    ensures one { (one.new.items ≡ []) × (vec_capacity one.new ≡ vec_capacity one.old) }
{
    if let Some(sector) = held.pop() {
        one.push_reserved(sector);
        pool.give(rt, seat, one);
    }
}

// Gives the held sectors back one at a time, at most so many.
fn give_each<R: Wait>(
    rt: &R,
    pool: &SpacePool,
    seat: &mut PoolSeat,
    held: &mut Vec<Sector>,
    one: &mut Vec<Sector>,
    most: u64,
)
    requires cell { (seat_view seat.old).cell ≡ (pool_cell pool.now).cell }
    requires holds { Holds held.old.items (seat_claims seat.old).facts }
    requires one { (one.old.items ≡ []) × (1 ≤ vec_capacity one.old) }
    ensures seat { ((seat_view seat.new).cell ≡ (seat_view seat.old).cell) × ((seat_view seat.new).share ≡ (seat_view seat.old).share) }
    ensures holds { Holds held.new.items (seat_claims seat.new).facts }
{
    for _ in 0..most {
        give_one(rt, pool, seat, held, one);
    }
}

// Takes all sectors of a new pool and gives them back, one at a time. What it counts in between, and all that the pool has at its
// end.
fn one_at_a_time<R: Wait>(rt: &R, alloc: Global, blocks: u32) -> Option<(Counts, Vec<Sector>)> {
    let (pool, mut seat) = started(alloc, blocks, blocks as u64)?;
    let Ok(mut held) = Vec::with_capacity(alloc, blocks as usize) else {
        return None;
    };
    let Ok(mut one) = Vec::with_capacity(alloc, 1) else {
        return None;
    };
    take_each(rt, &pool, &mut seat, &mut held, blocks as u64);
    let counts = pool.counts(rt, &mut seat);
    give_each(rt, &pool, &mut seat, &mut held, &mut one, blocks as u64);
    Some((counts, pool.close(seat)))
}

#[test]
fn a_large_pool_is_emptied_and_filled_one_at_a_time(rt: HostRuntime) -> Result<(), Fail> {
    let (counts, all) = one_at_a_time(&rt, rt.alloc(), 65_536).ok_or("there is memory")?;
    assert_eq!(rt; counts.free, 0);
    assert_eq!(rt; counts.reserved, 0);
    assert_eq!(rt; all.len(), 65_536);
    for (i, sector) in all.iter().enumerate() {
        assert_eq!(rt; sector.number() as usize, i);
    }
    Ok(())
}

#[test]
fn two_threads_leave_every_number_once(rt: HostRuntime) -> Result<(), Fail> {
    let all = share_by_two(&rt, rt.alloc(), 3, 1000).ok_or("there is memory")?;
    assert_eq!(rt; all.len(), 3);
    for (i, sector) in all.iter().enumerate() {
        assert_eq!(rt; sector.number() as usize, i);
    }
    Ok(())
}

#[test]
fn a_large_pool_is_quick(rt: HostRuntime) -> Result<(), Fail> {
    let all = share_by_two(&rt, rt.alloc(), 65_536, 65_536).ok_or("there is memory")?;
    assert_eq!(rt; all.len(), 65_536);
    for (i, sector) in all.iter().enumerate() {
        assert_eq!(rt; sector.number() as usize, i);
    }
    Ok(())
}

#[test]
fn three_sectors_of_a_plain_pool(rt: HostRuntime) -> Result<(), Fail> {
    let (mut state, mut claims) = plain(rt.alloc(), 3, 8).ok_or("there is memory")?;
    let mut held = Vec::with_capacity(rt.alloc(), 2)?;
    assert!(rt;
        matches!(
            state.reserve(&mut claims, 4),
            Err(NoSpace {
                wanted: 4,
                found: 3
            })
        )
    );
    assert!(rt; matches!(state.reserve_some(&mut claims, 4), Ok(3)));
    state.take(&mut claims, 2, &mut held);
    assert_eq!(rt; held[0].number(), 0);
    assert_eq!(rt; held[1].number(), 1);
    let counts = state.counts();
    assert_eq!(rt; counts.free, 1);
    assert_eq!(rt; counts.reserved, 1);
    state.unreserve(&mut claims, 1);
    let counts = state.counts();
    assert_eq!(rt; counts.free, 1);
    assert_eq!(rt; counts.reserved, 0);
    state.give(&mut claims, &mut held);
    assert_eq!(rt; state.counts().free, 3);
    Ok(())
}

#[test]
fn three_sectors_of_a_shared_pool(rt: HostRuntime) -> Result<(), Fail> {
    let (pool, mut seat) = started(rt.alloc(), 3, 8).ok_or("there is memory")?;
    let mut held = Vec::with_capacity(rt.alloc(), 2)?;
    assert!(rt;
        matches!(
            pool.reserve(&rt, &mut seat, 4),
            Err(NoSpace {
                wanted: 4,
                found: 3
            })
        )
    );
    assert!(rt; matches!(pool.reserve_some(&rt, &mut seat, 4), Ok(3)));
    pool.take(&rt, &mut seat, 2, &mut held);
    assert_eq!(rt; held[0].number(), 0);
    assert_eq!(rt; held[1].number(), 1);
    pool.unreserve(&rt, &mut seat, 1);
    let counts = pool.counts(&rt, &mut seat);
    assert_eq!(rt; counts.free, 1);
    assert_eq!(rt; counts.reserved, 0);
    pool.give(&rt, &mut seat, &mut held);
    assert_eq!(rt; pool.counts(&rt, &mut seat).free, 3);
    assert_eq!(rt; pool.close(seat).len(), 3);
    Ok(())
}
