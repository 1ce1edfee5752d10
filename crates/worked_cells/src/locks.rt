//! The lock of an inode: three seats, many holds of one class, and two threads that exclude each other.
ghost use Rattle.std.specs.Prelude.{◌≡◌};

use inode_lock::{InodeLock, LockBusy, LockSeat};
use std::process::Abort;
use std::sync::Wait;
use std::sync::atomic::AtomicU64;
use std::sync::atomic::Ordering::SeqCst;
use std::test::Fail;
use std::thread::{Threads, join};

// How the word tells a class: so many times 2^32, plus the number of holds.
const CACHED: u64 = 1 << 32;

const DIRECT: u64 = 2 << 32;

const EXCLUSIVE: u64 = 3 << 32;

// How often each of two threads counts.
const ROUNDS: u64 = 100_000;

// A cached hold is not to be had.
fn cached_is_refused(rt: &impl Abort, lock: &InodeLock, seat: LockSeat) -> LockBusy
    requires { seat.lock ≡ lock.now }
    ensures { result.seat.lock ≡ lock.now }
{
    match lock.try_cached(seat) {
        Ok(hold) => {
            let _seat = lock.leave_cached(hold);
            panic!(rt; "a cached hold was granted")
        }
        Err(busy) => busy,
    }
}

// A direct hold is not to be had.
fn direct_is_refused(rt: &impl Abort, lock: &InodeLock, seat: LockSeat) -> LockBusy
    requires { seat.lock ≡ lock.now }
    ensures { result.seat.lock ≡ lock.now }
{
    match lock.try_direct(seat) {
        Ok(hold) => {
            let _seat = lock.leave_direct(hold);
            panic!(rt; "a direct hold was granted")
        }
        Err(busy) => busy,
    }
}

// An exclusive hold is not to be had.
fn exclusive_is_refused(rt: &impl Abort, lock: &InodeLock, seat: LockSeat) -> LockBusy
    requires { seat.lock ≡ lock.now }
    ensures { result.seat.lock ≡ lock.now }
{
    match lock.try_exclusive(seat) {
        Ok(hold) => {
            let _seat = lock.leave_exclusive(hold);
            panic!(rt; "an exclusive hold was granted")
        }
        Err(busy) => busy,
    }
}

#[test]
fn classes_exclude_each_other(rt: HostRuntime) -> Result<(), Fail> {
    let (lock, mut first) = InodeLock::start(rt.alloc())?;
    let second = lock.split(&mut first);
    let third = lock.split(&mut first);
    let Ok(one) = lock.try_cached(first) else {
        panic!(rt; "nobody holds a class")
    };
    let Ok(two) = lock.try_cached(second) else {
        panic!(rt; "cached holds stand together")
    };
    let busy = direct_is_refused(&rt, &lock, third);
    assert_eq!(rt; (busy.read, busy.found), (CACHED + 2, CACHED + 2));
    let first = lock.leave_cached(one);
    let _second = lock.leave_cached(two);
    let Ok(alone) = lock.try_exclusive(busy.seat) else {
        panic!(rt; "both have left")
    };
    let busy = cached_is_refused(&rt, &lock, first);
    assert_eq!(rt; (busy.read, busy.found), (EXCLUSIVE + 1, EXCLUSIVE + 1));
    let _third = lock.leave_exclusive(alone);
    Ok(())
}

// At the word `told` so many more direct holds are taken, and then all of these are left.
fn stand_together(rt: &impl Abort, lock: &InodeLock, mut seat: LockSeat, told: u64, more: u64)
    requires { seat.lock ≡ lock.now }
{
    if more == 0 {
        let busy = exclusive_is_refused(rt, lock, seat);
        assert_eq!(rt; busy.found, told);
        let busy = cached_is_refused(rt, lock, busy.seat);
        assert_eq!(rt; busy.found, told);
        return;
    }
    let another = lock.split(&mut seat);
    let Ok(hold) = lock.try_direct(seat) else {
        panic!(rt; "direct holds stand together")
    };
    stand_together(rt, lock, another, told.wrapping_add(1), more - 1);
    let _seat = lock.leave_direct(hold);
}

#[test]
fn holds_of_one_class_stand_together(rt: HostRuntime) -> Result<(), Fail> {
    let (lock, mut seat) = InodeLock::start(rt.alloc())?;
    let last = lock.split(&mut seat);
    stand_together(&rt, &lock, seat, DIRECT, 1_000);
    let Ok(alone) = lock.try_exclusive(last) else {
        panic!(rt; "all have left")
    };
    let _seat = lock.leave_exclusive(alone);
    Ok(())
}

// Adds 1 to the counter, by a load and a store that another thread's could come between.
fn count<R: Wait>(rt: &R, lock: &InodeLock, seat: LockSeat, counter: &AtomicU64) -> LockSeat
    requires { seat.lock ≡ lock.now }
    ensures { result.lock ≡ lock.now }
{
    let hold = lock.exclusive(rt, seat);
    let counted = counter.load(SeqCst);
    counter.store(counted.wrapping_add(1), SeqCst);
    lock.leave_exclusive(hold)
}

fn count_often<R: Wait>(rt: &R, lock: &InodeLock, seat: LockSeat, counter: &AtomicU64) -> LockSeat
    requires { seat.lock ≡ lock.now }
    ensures { result.lock ≡ lock.now }
{
    let mut seat = seat;
    for _ in 0..ROUNDS {
        seat = count(rt, lock, seat, counter);
    }
    seat
}

fn count_in_two<R: Threads + Wait + Sync>(
    rt: &R,
    lock: &InodeLock,
    one: LockSeat,
    two: LockSeat,
    counter: &AtomicU64,
) -> (LockSeat, LockSeat)
    requires one { one.lock ≡ lock.now }
    requires two { two.lock ≡ lock.now }
{
    join(
        rt,
        || count_often(rt, lock, one, counter),
        || count_often(rt, lock, two, counter),
    )
}

// Whether the counter stands still under a cached hold, and then under a direct one.
fn stands_still<R: Wait>(
    rt: &R,
    lock: &InodeLock,
    seat: LockSeat,
    counter: &AtomicU64,
) -> (bool, LockSeat)
    requires { seat.lock ≡ lock.now }
    ensures { result.1.lock ≡ lock.now }
{
    let hold = lock.cached(rt, seat);
    let cached = counter.load(SeqCst) == counter.load(SeqCst);
    let seat = lock.leave_cached(hold);
    let hold = lock.direct(rt, seat);
    let direct = counter.load(SeqCst) == counter.load(SeqCst);
    (cached && direct, lock.leave_direct(hold))
}

fn watch_often<R: Wait>(rt: &R, lock: &InodeLock, seat: LockSeat, counter: &AtomicU64) -> bool
    requires { seat.lock ≡ lock.now }
{
    let mut seat = seat;
    let mut still = true;
    for _ in 0..ROUNDS {
        let watched = stands_still(rt, lock, seat, counter);
        still = still && watched.0;
        seat = watched.1;
    }
    still
}

fn count_and_watch<R: Threads + Wait + Sync>(
    rt: &R,
    lock: &InodeLock,
    one: LockSeat,
    two: LockSeat,
    counter: &AtomicU64,
) -> bool
    requires one { one.lock ≡ lock.now }
    requires two { two.lock ≡ lock.now }
{
    join(
        rt,
        || count_often(rt, lock, one, counter),
        || watch_often(rt, lock, two, counter),
    )
    .1
}

#[test]
fn two_threads_exclude_each_other(rt: HostRuntime) -> Result<(), Fail> {
    let (lock, mut one) = InodeLock::start(rt.alloc())?;
    let two = lock.split(&mut one);
    let counter = AtomicU64::new(0);
    count_in_two(&rt, &lock, one, two, &counter);
    assert_eq!(rt; counter.load(SeqCst), 2 * ROUNDS);
    Ok(())
}

#[test]
fn shared_holds_keep_a_writer_out(rt: HostRuntime) -> Result<(), Fail> {
    let (lock, mut one) = InodeLock::start(rt.alloc())?;
    let two = lock.split(&mut one);
    let counter = AtomicU64::new(0);
    assert!(rt; count_and_watch(&rt, &lock, one, two, &counter));
    assert_eq!(rt; counter.load(SeqCst), ROUNDS);
    Ok(())
}
