//! The queue of a mount is met full.
ghost use Rattle.std.specs.Prelude.{◌<◌};
ghost use Rattle.worked_mounts.specs.Alone.{IsAlone, share_of};

use crate::callers::lane;
use crate::mount_bios::{Ran, prepared, run};
use crate::mount_ground::started;
use crate::mount_passes::split;
use crate::single::Begin;
use fault_device::{Fate, Lane, Verdict};
use mini_fs::{Mount, Pass};
use std::alloc::{AllocError, Global};
use std::process::Abort;
use std::sync::atomic::{AtomicU64, Ordering};
use std::sync::{Arc, Wait};
use std::test::Fail;
use std::thread;
use std::thread::Threads;

// A file of one hole.
const HOLE: Begin = Begin {
    device: 0,
    blocks: 1,
    size: None,
    cookie: 0,
};

// How many bios of the third caller find the queue full.
const HANDED_BACK: u64 = 30;

// How often callers came to the gate. It is open once all three did.
type Gate = Arc<AtomicU64, Global>;

// Where the callers meet.
#[derive(Drop)]
struct Place {
    mount: Mount,
    gate: Gate,
}

const BOTH: u64 = 2;

const OPEN: u64 = 3;

// Comes to the gate, and goes on.
fn come(gate: &Gate) {
    let _ = gate.fetch_add(1, Ordering::SeqCst);
}

// Comes to the gate, and stands there until it is open.
fn stand_at(gate: &Gate) {
    come(gate);
    for _ in 0..u64::MAX {
        if gate.load(Ordering::SeqCst) >= OPEN {
            return;
        }
    }
}

// Waits until the two other callers came to the gate.
fn await_both(rt: &impl Wait, gate: &Gate) {
    for _ in rt.forever() {
        if gate.load(Ordering::SeqCst) >= BOTH {
            return;
        }
    }
}

// The fate of a lane whose transfers stand at the gate until it is open. None fails.
#[derive(Drop)]
struct Held {
    gate: Gate,
}

impl Fate for Held {
    ghost use Rattle.std.specs.Prelude.{None};

    ghost count = { λ _. 0 };

    ghost tells = { λ _. None };

    fn arm(&mut self, op: u64) -> Result<(), AllocError> {
        let _ = op;
        Ok(())
    }

    fn judge(&mut self, blocks: u32) -> Verdict {
        let _ = blocks;
        stand_at(&self.gate);
        Verdict::Done
    }

    fn faults(&self) -> u64 {
        0
    }
}

// A lane whose transfers stand at the gate until it is open.
fn held_lane(alloc: Global, number: u32, gate: &Gate) -> Result<Lane, AllocError> {
    let gate = Arc::try_clone(gate)?;
    Ok(Lane::new(number, Box::new(alloc, Held { gate })?))
}

// A lane that lets as many transfers fail as bios find the queue full, and no later one.
fn failing_lane(alloc: Global, number: u32) -> Result<Lane, AllocError> {
    let mut lane = lane(alloc, number)?;
    for op in 1..=HANDED_BACK {
        lane.arm(op)?;
    }
    Ok(lane)
}

// Runs the bios of a caller, whose first transfer stands at the gate.
fn run_held<R: Abort + Wait>(
    rt: &R,
    place: &Place,
    pass: Pass,
    number: u32,
) -> Result<Ran, AllocError>
    requires alone { IsAlone place.now.mount pass }
    requires share { 32 < share_of pass }
{
    let lane = held_lane(place.mount.allocator(), number, &place.gate)?;
    let ready = prepared(rt, &place.mount, pass, lane)?;
    Ok(run(rt, &place.mount, ready))
}

// A caller that is held. Without memory it has no transfer, and comes to the gate so that no other waits for it.
fn held_caller<R: Abort + Wait>(
    rt: &R,
    place: &Place,
    pass: Pass,
    number: u32,
) -> Result<Ran, AllocError>
    requires alone { IsAlone place.now.mount pass }
    requires share { 32 < share_of pass }
{
    let ran = run_held(rt, place, pass, number);
    if ran.is_err() {
        come(&place.gate);
    }
    ran
}

// Runs the bios of a caller while the others are held.
fn run_meanwhile<R: Abort + Wait>(rt: &R, place: &Place, pass: Pass) -> Result<Ran, AllocError>
    requires alone { IsAlone place.now.mount pass }
    requires share { 32 < share_of pass }
{
    let lane = failing_lane(place.mount.allocator(), 2)?;
    let ready = prepared(rt, &place.mount, pass, lane)?;
    await_both(rt, &place.gate);
    Ok(run(rt, &place.mount, ready))
}

// The caller that meets the queue full, and opens the gate.
fn third_caller<R: Abort + Wait>(rt: &R, place: &Place, pass: Pass) -> Result<Ran, AllocError>
    requires alone { IsAlone place.now.mount pass }
    requires share { 32 < share_of pass }
{
    let ran = run_meanwhile(rt, place, pass);
    come(&place.gate);
    ran
}

// What has become of the bios of three callers.
#[derive(Drop)]
struct Three {
    first: Ran,
    second: Ran,
    third: Ran,
}

// Two callers, each on a thread of its own.
fn run_two<R: Abort + Threads + Wait + Sync>(
    rt: &R,
    place: &Place,
    second: Pass,
    third: Pass,
) -> Result<(Ran, Ran), AllocError>
    requires second { IsAlone place.now.mount second × (32 < share_of second) }
    requires third { IsAlone place.now.mount third × (32 < share_of third) }
{
    let (second, third) = thread::join(
        rt,
        move ||
            requires { IsAlone place.now.mount second × (32 < share_of second) }
        { held_caller(rt, place, second, 1) },
        move ||
            requires { IsAlone place.now.mount third × (32 < share_of third) }
        { third_caller(rt, place, third) },
    );
    Ok((second?, third?))
}

// Three callers, each on a thread of its own.
fn run_three<R: Abort + Threads + Wait + Sync>(
    rt: &R,
    place: &Place,
    first: Pass,
    second: Pass,
    third: Pass,
) -> Result<Three, AllocError>
    requires first { IsAlone place.now.mount first × (32 < share_of first) }
    requires second { IsAlone place.now.mount second × (32 < share_of second) }
    requires third { IsAlone place.now.mount third × (32 < share_of third) }
{
    let (first, others) = thread::join(
        rt,
        move ||
            requires { IsAlone place.now.mount first × (32 < share_of first) }
        { held_caller(rt, place, first, 0) },
        move ||
            requires { (IsAlone place.now.mount second × (32 < share_of second)) × (IsAlone place.now.mount third × (32 < share_of third)) }
        { run_two(rt, place, second, third) },
    );
    let (second, third) = others?;
    Ok(Three {
        first: first?,
        second,
        third,
    })
}

// Three callers at a mount with 32 bios each. Want of memory is the only error.
fn meet_full<R: Abort + Threads + Wait + Sync>(rt: &R, alloc: Global) -> Result<Three, AllocError> {
    let (mount, mut pass) = started(alloc, HOLE, &[])?;
    let first = split(rt, &mount, &mut pass)?;
    let second = split(rt, &mount, &mut pass)?;
    let gate = Arc::new(alloc, AtomicU64::new(0))?;
    run_three(rt, &Place { mount, gate }, first, second, pass)
}

// A caller whose lane ran one bio that it held, and of whose bios none failed.
fn expect_held(rt: &impl Abort, ran: &Ran) {
    assert_eq!(rt; (ran.ops, ran.dones.len()), (1, 32));
    for done in ran.dones.as_slice() {
        assert!(rt; !done.failed);
    }
}

// The first two bios of the caller went through the queue, and its lane ran the others first, in their order.
fn expect_handed_back(rt: &impl Abort, ran: &Ran) {
    assert_eq!(rt; (ran.ops, ran.dones.len()), (HANDED_BACK + 64, 32));
    for (slot, done) in ran.dones.as_slice().iter().enumerate() {
        let want = if slot < 2 {
            (false, HANDED_BACK)
        } else {
            (true, slot as u64 - 2)
        };
        assert_eq!(rt; (done.failed, done.before), want, "at slot {slot}");
    }
}

// The queue of a mount has room for 64 bios. Two callers push 32 each, take one each out of it, and are held in its transfer.
// So it has 62 when the third caller pushes 32. How often a pass found the queue full is known to contracts alone, so the run
// tells it by its faults: the third lane lets the first 30 transfers fail and no later one, and a transfer that failed tells how
// many had failed before it. Bios leave the queue in their order, so one that was pushed behind 62 others is not among the first
// 30 of a lane. The bios that failed are those that found the queue full.
#[test]
fn queue_is_met_full(rt: HostRuntime) -> Result<(), Fail> {
    let three = meet_full(&rt, rt.alloc())?;
    expect_held(&rt, &three.first);
    expect_held(&rt, &three.second);
    expect_handed_back(&rt, &three.third);
    Ok(())
}
