//! Bios that come back to a shelf, and go through a queue, also to another thread.
ghost use Rattle.std.specs.Prelude.{◌≡◌, ◌<◌};
ghost use Rattle.std.specs.Arc.{arc_value};
ghost use denote.Param.Send.{IsSend};
ghost use Rattle.bio_pages.specs.Running.{IsRun};
ghost use Rattle.bio_pages.specs.Shelf.{with_errand, IsFree, IsNotedFor};

use bio_pages::{Bio, BioQueue, BioShelf, QueuePass, Sent, ShelfSeat, run_bio, send_out, serve};
use fault_device::{Done, Lane, Listed, can_transfer};
use folio_bits::Outcome;
use iob_base::{Geometry, Items, Op, Page, Part, Parts, sectors};
use std::alloc::Global;
use std::process::Abort;
use std::snapshot::Snapshot;
use std::sync::{Arc, Wait};
use std::test::Fail;
use std::thread;

const BLOCK: u32 = 16;

// How often a thread looks for bios that another is to push.
const TRIES: u32 = 10_000_000;

// A write of one block of bytes ee from a page of this byte, that returns to this slot.
fn write_of(alloc: Global, slot: u32, fill: u8) -> Result<Bio<u64>, Fail> {
    let geometry = Geometry::new(BLOCK, 1)?;
    let mut parts = Parts::new(alloc)?;
    for sector in sectors(alloc, geometry, 1, 0xee)? {
        let bytes = vec![in alloc; fill; BLOCK as usize]?;
        let page = Page {
            number: 0,
            bytes: Items::from_vec(bytes),
        };
        if parts.len() < 16 {
            parts.push(Part { sector, page });
        }
    }
    Ok(Bio {
        op: Op::Write,
        slot,
        block: 40,
        parts,
        ticket: 9,
    })
}

fn run(rt: &impl Abort, lane: &mut Lane, bio: &mut Bio<u64>) -> Done
    ensures { IsRun bio.old bio.new result }
{
    assert!(rt; can_transfer(bio.parts.as_slice()));
    run_bio(lane, bio)
}

// The first byte of the first block that a bio carries.
fn block_byte(bio: &Bio<u64>) -> Option<u8> {
    let part = bio.parts.as_slice().first()?;
    part.sector.bytes().first().copied()
}

fn is_last(outcome: Outcome) -> bool {
    matches!(outcome, Outcome::Last)
}

// A shelf of two slots, both given away: the owner sees Last once both bios are back, and finds each in its slot.
#[test]
fn shelf_gathers_both(rt: HostRuntime) -> Result<(), Fail> {
    let mut lane = Lane::new(3, Box::new(rt.alloc(), Listed::new(rt.alloc()))?);
    let (shelf, mut owner) = BioShelf::start(rt.alloc(), 2)?;
    let mut first = write_of(rt.alloc(), 0, 0x41)?;
    let mut second = write_of(rt.alloc(), 1, 0x42)?;
    let one = shelf.split(&mut owner, 0, &first);
    let two = shelf.split(&mut owner, 1, &second);
    let done = run(&rt, &mut lane, &mut first);
    assert!(rt; !is_last(shelf.put(one, 0, first, done).outcome));
    assert!(rt; !is_last(shelf.look(&mut owner)));
    let done = run(&rt, &mut lane, &mut second);
    assert!(rt; !is_last(shelf.put(two, 1, second, done).outcome));
    let Outcome::Last = shelf.look(&mut owner) else {
        return Err(Fail::from("both bios are back"));
    };
    let (first, done) = shelf.gather(&mut owner, 0);
    assert_eq!(rt;
        (block_byte(&first), done.landed, done.lane),
        (Some(0x41), 1, 3)
    );
    let (second, done) = shelf.gather(&mut owner, 1);
    assert_eq!(rt;
        (block_byte(&second), done.landed, done.failed),
        (Some(0x42), 1, false)
    );
    assert_eq!(rt; (second.slot, second.block, second.ticket), (1, 40, 9));
    Ok(())
}

fn send(
    rt: &impl Abort,
    shelf: &Arc<BioShelf<u64>, Global>,
    owner: &mut ShelfSeat<u64>,
    bio: Bio<u64>,
) -> Result<Sent<u64>, Fail>
    requires shelf { owner.old.shelf ≡ arc_value shelf.now }
    requires owner { (owner.old.seat ≡ 0) × (32 < owner.old.amount) × IsFree owner.old bio.slot }
    ensures { owner.new ≡ with_errand owner.old bio.slot bio }
{
    assert!(rt; can_transfer(bio.parts.as_slice()));
    let seat = shelf.split(owner, bio.slot, &bio);
    let shelf = Arc::try_clone(shelf)?;
    Ok(Sent { bio, seat, shelf })
}

// A queue with room for one: the second bio comes back, and the first comes out once.
#[test]
fn queue_of_one(rt: HostRuntime) -> Result<(), Fail> {
    let (shelf, mut owner) = BioShelf::start(rt.alloc(), 2)?;
    let shelf = Arc::new(rt.alloc(), shelf)?;
    let mut bio = write_of(rt.alloc(), 0, 0x41)?;
    bio.slot = 0;
    let first = send(&rt, &shelf, &mut owner, bio)?;
    let mut bio = write_of(rt.alloc(), 1, 0x42)?;
    bio.slot = 1;
    let second = send(&rt, &shelf, &mut owner, bio)?;
    let (queue, mut pass) = BioQueue::start(rt.alloc(), 1)?;
    assert!(rt; queue.push(&rt, &mut pass, first).is_ok());
    let Err(second) = queue.push(&rt, &mut pass, second) else {
        return Err(Fail::from("there is room for one"));
    };
    assert_eq!(rt; second.bio.slot, 1);
    let Some(first) = queue.pop(&rt, &mut pass) else {
        return Err(Fail::from("one was pushed"));
    };
    assert_eq!(rt; first.bio.slot, 0);
    assert!(rt; queue.pop(&rt, &mut pass).is_none());
    Ok(())
}

// The owner of a bio that is away, with a shelf of one slot.
#[derive(Drop)]
struct Away {
    shelf: Arc<BioShelf<u64>, Global>,
    owner: ShelfSeat<u64>,
    bio: Snapshot<Bio<u64>>,
    ghost of_shelf: { owner.shelf ≡ arc_value shelf },
    ghost first: { owner.seat ≡ 0 },
    ghost noted: { IsNotedFor owner 0 bio.value },
}

fn sent_out<R: Wait + Abort>(
    rt: &R,
    alloc: Global,
    queue: &BioQueue<u64>,
    pass: &mut QueuePass<u64>,
    lane: &mut Lane,
    fill: u8,
) -> Result<Away, Fail>
    requires { pass.old.queue ≡ queue.now.queue }
    ensures { pass.new.queue ≡ pass.old.queue }
{
    let mut bio = write_of(alloc, 0, fill)?;
    bio.slot = 0;
    assert!(rt; can_transfer(bio.parts.as_slice()));
    let (shelf, mut owner) = BioShelf::start(alloc, 1)?;
    let shelf = Arc::new(alloc, shelf)?;
    let noted = Snapshot::of(&bio);
    send_out(rt, queue, pass, &shelf, &mut owner, lane, bio);
    Ok(Away {
        shelf,
        owner,
        bio: noted,
    })
}

// Gathers the bio if it is back.
fn home(away: Away) -> Option<(Bio<u64>, Done)> {
    let Away {
        shelf,
        mut owner,
        bio: _,
    } = away;
    let Outcome::Last = shelf.look(&mut owner) else {
        return None;
    };
    Some(shelf.gather(&mut owner, 0))
}

// Runs so many bios that come through the queue, unless they stay away for long, and tells how many judgements the lane made.
fn serve_some<R: Wait>(
    rt: &R,
    queue: &BioQueue<u64>,
    mut pass: QueuePass<u64>,
    mut lane: Lane,
    count: u32,
) -> u64
    requires { pass.queue ≡ queue.now.queue }
{
    let mut served = 0;
    for _ in 0..TRIES {
        if served >= count {
            break;
        }
        match queue.pop(rt, &mut pass) {
            Some(sent) => {
                serve(&mut lane, sent);
                served += 1;
            }
            None => thread::yield_now(),
        }
    }
    lane.ops()
}

fn send_some<R: Wait + Abort>(
    rt: &R,
    alloc: Global,
    queue: &BioQueue<u64>,
    mut pass: QueuePass<u64>,
    mut lane: Lane,
    count: u8,
) -> Result<Vec<Away>, Fail>
    requires { pass.queue ≡ queue.now.queue }
{
    let mut all = Vec::new(alloc);
    for i in 0..count {
        all.push(sent_out(rt, alloc, queue, &mut pass, &mut lane, i)?)?;
    }
    Ok(all)
}

// A type whose values can go to another thread.
fn goes<T: Send>()
    ensures { IsSend T.row }
{}

// One thread pushes sixteen bios and another runs them. Each comes back with its own byte, from the other's lane.
#[test]
fn another_thread_runs_sixteen(rt: HostRuntime) -> Result<(), Fail> {
    goes::<Bio<u64>>();
    goes::<Sent<u64>>();
    let alloc = rt.alloc();
    let own = Lane::new(0, Box::new(alloc, Listed::new(alloc))?);
    let other = Lane::new(1, Box::new(alloc, Listed::new(alloc))?);
    let (queue, mut mine) = BioQueue::start(alloc, 16)?;
    let theirs = queue.split(&mut mine)?;
    let line = &queue;
    let (sent, served) = thread::join(
        &rt,
        move ||
            requires { mine.queue ≡ line.now.queue }
        { send_some(&rt, alloc, line, mine, own, 16) },
        move ||
            requires { theirs.queue ≡ line.now.queue }
        { serve_some(&rt, line, theirs, other, 16) },
    );
    let mut sent = sent?;
    assert_eq!(rt; (sent.len(), served), (16, 16));
    for fill in (0..16).rev() {
        let one = sent.pop().ok_or("sixteen were sent")?;
        let (bio, done) = home(one).ok_or("every bio is back")?;
        assert_eq!(rt;
            (block_byte(&bio), done.lane, done.landed),
            (Some(fill), 1, 1)
        );
    }
    Ok(())
}
