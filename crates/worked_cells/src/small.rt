//! The small crates: the bits of a folio, a countdown, a lane with its fate, and bios.
use bio_pages::{Bio, run_bio};
use fault_device::{Done, Lane, Listed, can_transfer};
use folio_bits::{
    Countdown, Ended, FolioBits, Outcome, last_is_told_after_all, one_is_told_last,
    somebody_is_told_last,
};
use iob_base::{Geometry, Items, Op, Page, Part, Parts, sectors};
use std::alloc::{AllocError, Global};
use std::process::Abort;
use std::test::Fail;

const BLOCK: u32 = 16;

// The number of the lane under test.
const PORT: u32 = 3;

fn expect_more(rt: &impl Abort, ended: &Ended) {
    assert!(rt; matches!(ended.outcome, Outcome::More));
}

// Three seats of one each: the last to finish is told so, and it alone.
#[test]
fn last_of_three_is_told_last(rt: HostRuntime) -> Result<(), Fail> {
    let (countdown, mut first) = Countdown::start(rt.alloc(), 3)?;
    let second = countdown.split(&mut first, 1);
    let third = countdown.split(&mut first, 1);
    expect_more(&rt, &countdown.finish(third));
    expect_more(&rt, &countdown.finish(first));
    let ended = countdown.finish(second);
    assert!(rt; matches!(ended.outcome, Outcome::Last));
    one_is_told_last();
    last_is_told_after_all();
    somebody_is_told_last();
    Ok(())
}

fn dirty_blocks(folio: &FolioBits) -> [Option<(u32, u32)>; 4] {
    [
        folio.next_dirty_run(0),
        folio.next_dirty_run(3),
        folio.next_dirty_run(7),
        folio.next_dirty_run(8),
    ]
}

// Eight blocks of which 1, 2, 3 and 6, 7 become dirty, and then 2 clean again.
#[test]
fn dirty_runs_are_found_apart(rt: HostRuntime) {
    let mut folio = FolioBits::new(8);
    assert_eq!(rt; dirty_blocks(&folio), [None, None, None, None]);
    folio.set_dirty(1, 3);
    folio.set_dirty(6, 2);
    assert_eq!(rt;
        dirty_blocks(&folio),
        [Some((1, 3)), Some((3, 1)), Some((7, 1)), None]
    );
    folio.clear_dirty(2, 1);
    assert_eq!(rt;
        dirty_blocks(&folio),
        [Some((1, 1)), Some((3, 1)), Some((7, 1)), None]
    );
    folio.clear_dirty(1, 0);
    folio.clear_dirty(0, 4);
    assert_eq!(rt;
        dirty_blocks(&folio),
        [Some((6, 2)), Some((6, 2)), Some((7, 1)), None]
    );
    assert!(rt; folio.is_dirty(6) && !folio.is_dirty(5) && !folio.is_uptodate(6));
}

// A folio of 32 blocks, the most that it can have.
#[test]
fn whole_words_are_set_and_cleared(rt: HostRuntime) {
    let mut folio = FolioBits::new(32);
    folio.set_uptodate(0, 32);
    folio.clear_uptodate(31, 1);
    assert!(rt; folio.is_uptodate(0) && folio.is_uptodate(30) && !folio.is_uptodate(31));
    folio.set_dirty(0, 32);
    assert_eq!(rt; folio.next_dirty_run(0), Some((0, 32)));
    assert_eq!(rt; folio.next_dirty_run(31), Some((31, 1)));
    assert_eq!(rt; folio.next_dirty_run(32), None);
    folio.clear_dirty(0, 31);
    assert_eq!(rt; folio.next_dirty_run(0), Some((31, 1)));
}

fn page(alloc: Global, number: u64, fill: u8) -> Result<Page, AllocError> {
    let bytes = vec![in alloc; fill; BLOCK as usize]?;
    Ok(Page {
        number,
        bytes: Items::from_vec(bytes),
    })
}

// Blocks 0, 1 and 2 of bytes ee, each with a page of bytes 41.
fn bio_of_three(alloc: Global, op: Op) -> Result<Bio<u64>, Fail> {
    let geometry = Geometry::new(BLOCK, 4)?;
    let mut parts = Parts::new(alloc)?;
    for sector in sectors(alloc, geometry, 3, 0xee)? {
        let page = page(alloc, 0, 0x41)?;
        if parts.len() < 16 {
            parts.push(Part { sector, page });
        }
    }
    Ok(Bio {
        op,
        slot: 7,
        block: 40,
        parts,
        ticket: 9,
    })
}

fn run(rt: &impl Abort, lane: &mut Lane, bio: &mut Bio<u64>) -> Done {
    assert!(rt; can_transfer(bio.parts.as_slice()));
    run_bio(lane, bio)
}

// The first byte of each block and of its page.
fn first_bytes(bio: &Bio<u64>) -> [(Option<u8>, Option<u8>); 3] {
    let parts = bio.parts.as_slice();
    [
        bytes_of(parts.first()),
        bytes_of(parts.get(1)),
        bytes_of(parts.get(2)),
    ]
}

fn bytes_of(part: Option<&Part>) -> (Option<u8>, Option<u8>) {
    match part {
        Some(part) => (
            part.sector.bytes().first().copied(),
            part.page.bytes.as_slice().first().copied(),
        ),
        None => (None, None),
    }
}

const DEVICE: (Option<u8>, Option<u8>) = (Some(0xee), Some(0xee));

const MEMORY: (Option<u8>, Option<u8>) = (Some(0x41), Some(0x41));

const APART: (Option<u8>, Option<u8>) = (Some(0xee), Some(0x41));

fn expect_done(rt: &impl Abort, done: Done, landed: u32, before: u64, after: u64) {
    assert_eq!(rt; (done.lane, done.blocks, done.landed), (PORT, 3, landed));
    assert_eq!(rt;
        (done.failed, done.before, done.after),
        (before < after, before, after)
    );
}

// Of three blocks one lands where a transfer fails, whether it reads or writes.
#[test]
fn failed_transfers_move_the_first_half(rt: HostRuntime) -> Result<(), Fail> {
    let mut lane = Lane::new(PORT, Box::new(rt.alloc(), Listed::new(rt.alloc()))?);
    lane.arm(2)?;
    lane.arm(4)?;
    lane.arm(5)?;
    let mut bio = bio_of_three(rt.alloc(), Op::Read)?;
    expect_done(&rt, run(&rt, &mut lane, &mut bio), 3, 0, 0);
    assert_eq!(rt; first_bytes(&bio), [DEVICE, DEVICE, DEVICE]);
    let mut bio = bio_of_three(rt.alloc(), Op::Read)?;
    expect_done(&rt, run(&rt, &mut lane, &mut bio), 1, 0, 1);
    assert_eq!(rt; first_bytes(&bio), [DEVICE, APART, APART]);
    let mut bio = bio_of_three(rt.alloc(), Op::Write)?;
    expect_done(&rt, run(&rt, &mut lane, &mut bio), 3, 1, 1);
    assert_eq!(rt; first_bytes(&bio), [MEMORY, MEMORY, MEMORY]);
    let mut bio = bio_of_three(rt.alloc(), Op::Write)?;
    expect_done(&rt, run(&rt, &mut lane, &mut bio), 1, 1, 2);
    assert_eq!(rt; first_bytes(&bio), [MEMORY, APART, APART]);
    assert_eq!(rt; (bio.slot, bio.block, bio.ticket), (7, 40, 9));
    expect_done(&rt, lane.judge(3), 1, 2, 3);
    expect_done(&rt, lane.judge(3), 3, 3, 3);
    assert_eq!(rt; (lane.ops(), lane.faults()), (6, 3));
    Ok(())
}
