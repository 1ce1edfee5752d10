//! A range ends, and the pool at which it has its seat: every number of the device is there once.
ghost use Rattle.std.specs.Prelude.{◌≡◌, ◌^◌, ◌++◌, None, IfOk, OnOk};
ghost use Rattle.turn_cell.specs.Seats.{cell_view, seat_claims, seat_view};
ghost use Rattle.turn_cell.specs.Views.{first_seat};
ghost use Rattle.space_pool.specs.Claims.{numbers_of};
ghost use Rattle.space_pool.specs.Seats.{pool_cell};
ghost use Rattle.range_core.specs.ClaimsView.{first_claims};
ghost use Rattle.worked_ranges.specs.SmallEnds.{DEVICE_NUMBERS, SameNumbers, end_numbers, first_part, own_part, second_part, sector_number};
ghost use Rattle.worked_ranges.specs.SmallRanges.{Stands};

use crate::range_caller::{Caller, two_callers};
use crate::range_ground::{Ground, started};
use crate::range_runs::{CACHED, Line, armed_lane, take_turns};
use crate::range_steps::Step;
use fault_device::Lane;
use iob_base::{Items, Op, Sector};
use range_core::{BlockEnd, Range, RangeEnd, closed_is_home};
use std::alloc::{AllocError, Global};
use std::process::Abort;
use std::sync::Wait;
use std::test::Fail;
use turn_cell::TurnSeat;

// Blocks are stored, and one takes a sector. The first caller is lent the dirty ones of the first extent.
const BEFORE: &[Line] = &[
    (0, Step::SampleRun(0, 6), "cookie 0, errors 0, 0+2 mapped 2"),
    (0, Step::Store(0, b"0123456789abcdef"), "ok"),
    (0, Step::SampleRun(3, 6), "cookie 0, errors 0, 3+3 hole"),
    (0, Step::Reserve(2), "cookie 1, errors 0, 3+2 delalloc"),
    (0, Step::SampleRun(3, 6), "cookie 1, errors 0, 3+2 delalloc"),
    (0, Step::Store(48, b"three"), "ok"),
    (1, Step::Attach(3, 1), "1"),
    (0, Step::LendWritebackRun(0, 6), "ticket 0, 0+1"),
];

// While that loan is out, the other caller reads a block into the cache, and makes a hole of one.
const MEANWHILE: &[Line] = &[
    (1, Step::LendReadRun(0, 6), "Away { block: 0, ticket: 0 }"),
    (1, Step::LendReadRun(1, 5), "ticket 1, 1+1"),
    (0, Step::SampleRun(1, 1), "cookie 2, errors 0, 1+1 mapped 3"),
    (1, Step::Back, "done, 1 of 1"),
    (1, Step::Wipe(2, 1), "1"),
];

// What is dirty is written, and a block's bytes are read straight into a page of the caller's own.
const AFTER: &[Line] = &[
    (0, Step::LendWritebackRun(3, 1), "ticket 2, 3+1"),
    (0, Step::Back, "done, 1 of 1, 1 written"),
    (1, Step::SampleRun(0, 1), "cookie 4, errors 0, 0+1 mapped 2"),
    (1, Step::LendDirect(Op::Read, 0, b"#"), "ticket 3, 0+1"),
    (1, Step::Back, "done, 1 of 1 | 0123456789abcdef"),
];

// The seats of both callers as one, with the whole share.
fn joined<R: Abort + Wait>(ground: &Ground, first: Caller<R>, second: Caller<R>) -> TurnSeat<Range>
    requires stands { Stands first.ground.now.cell first.seat first.sample first.loan × Stands second.ground.now.cell second.seat second.sample second.loan }
    requires first { own_part first.ground.now.cell first.seat ≡ first_part (cell_view ground.now.cell) }
    requires second { own_part second.ground.now.cell second.seat ≡ second_part (cell_view ground.now.cell) }
    ensures cell { (seat_view result).cell ≡ (cell_view ground.now.cell).cell }
    ensures whole { (seat_view result).share ≡ 2 ^ 63 }
    ensures free { (seat_claims result).held ≡ None }
{
    first.expect_free();
    second.expect_free();
    let mut seat = first.seat;
    ground.cell.join(&mut seat, second.seat);
    seat
}

// The turns of two callers, with a loan that goes on a seat of its own and comes home, and their seats as one afterwards.
fn worked<R: Abort + Wait>(
    rt: &R,
    alloc: Global,
    ground: &Ground,
    seat: TurnSeat<Range>,
    lane: &mut Lane,
) -> Result<TurnSeat<Range>, AllocError>
    requires seat { seat_view seat ≡ first_seat (cell_view ground.now.cell).cell (2 ^ 63) }
    requires claims { seat_claims seat ≡ first_claims }
    ensures cell { IfOk result (λ s. (seat_view s).cell ≡ (cell_view ground.now.cell).cell) }
    ensures whole { IfOk result (λ s. (seat_view s).share ≡ 2 ^ 63) }
    ensures free { IfOk result (λ s. (seat_claims s).held ≡ None) }
{
    let (mut first, mut second) = two_callers(rt, alloc, ground, seat);
    take_turns(rt, BEFORE, &mut first, &mut second, lane)?;
    let ticket = first.split_loan();
    take_turns(rt, MEANWHILE, &mut first, &mut second, lane)?;
    let written = first.write_loan(ticket, lane);
    assert_eq!(rt; first.end_write(written), 1);
    take_turns(rt, AFTER, &mut first, &mut second, lane)?;
    Ok(joined(ground, first, second))
}

// What is left: the end of each block, and the free sectors.
#[derive(Drop)]
struct Left {
    blocks: Items<BlockEnd>,
    free: Vec<Sector>,
}

// Closes the cell of the range, takes the range apart, and closes the pool.
fn ended(ground: Ground, seat: TurnSeat<Range>) -> Result<Left, AllocError>
    requires cell { (seat_view seat).cell ≡ (cell_view ground.cell).cell }
    requires whole { (seat_view seat).share ≡ 2 ^ 63 }
    requires free { (seat_claims seat).held ≡ None }
    ensures { IfOk result (λ left. SameNumbers (end_numbers left.blocks ++ numbers_of left.free.items) (pool_cell ground.space).opening.numbers) }
{
    closed_is_home();
    let Ground {
        space,
        mut keeper,
        cell,
        mode: _,
    } = ground;
    let range = cell.close(seat);
    range.is_kept();
    let RangeEnd {
        extents: _,
        blocks,
        seat,
    } = range.end()?;
    space.join(&mut keeper, seat);
    let free = space.close(keeper);
    Ok(Left { blocks, free })
}

fn push_end(numbers: &mut Vec<u32>, end: BlockEnd) -> Result<(), AllocError>
    ensures { OnOk result (numbers.new.items ≡ numbers.old.items ++ sector_number end.sector) }
{
    let BlockEnd { sector, .. } = end;
    if let Some(sector) = sector {
        numbers.push(sector.number())?;
    }
    Ok(())
}

// Adds the numbers of the blocks' sectors.
fn push_ends(numbers: &mut Vec<u32>, ends: Vec<BlockEnd>) -> Result<(), AllocError>
    ensures { OnOk result (numbers.new.items ≡ numbers.old.items ++ end_numbers ends.items) }
{
    for end in ends {
        push_end(numbers, end)?;
    }
    Ok(())
}

// Adds the numbers of these sectors.
fn push_free(numbers: &mut Vec<u32>, free: Vec<Sector>) -> Result<(), AllocError>
    ensures { OnOk result (numbers.new.items ≡ numbers.old.items ++ numbers_of free.items) }
{
    for sector in free {
        numbers.push(sector.number())?;
    }
    Ok(())
}

// The numbers of all that is left.
fn closed_numbers(alloc: Global, left: Left) -> Result<Vec<u32>, AllocError>
    ensures { IfOk result (λ numbers. numbers.items ≡ end_numbers left.blocks ++ numbers_of left.free.items) }
{
    let Left { blocks, free } = left;
    let mut numbers = Vec::new(alloc);
    push_ends(&mut numbers, blocks.into_vec())?;
    push_free(&mut numbers, free)?;
    Ok(numbers)
}

// The numbers of all sectors that are left of a range and its pool, each once.
fn numbers_at_end<R: Abort + Wait>(rt: &R, alloc: Global) -> Result<Vec<u32>, Fail>
    ensures { IfOk result (λ numbers. SameNumbers numbers.items DEVICE_NUMBERS) }
{
    let (ground, seat) = started(alloc, CACHED).ok_or("there is memory")?;
    let mut lane = armed_lane(alloc, &[])?;
    let seat = worked(rt, alloc, &ground, seat, &mut lane)?;
    let left = ended(ground, seat)?;
    Ok(closed_numbers(alloc, left)?)
}

fn times_in(numbers: &[u32], number: u32) -> u64 {
    let mut times = 0u64;
    for n in numbers {
        if *n == number {
            times = times.saturating_add(1);
        }
    }
    times
}

#[test]
fn a_range_ends_with_every_number_once(rt: HostRuntime) -> Result<(), Fail> {
    let numbers = numbers_at_end(&rt, rt.alloc())?;
    assert_eq!(rt; numbers.len(), 8);
    for number in 0..8u32 {
        assert_eq!(rt;
            times_in(&numbers, number),
            1,
            "how often {number} is there"
        );
    }
    Ok(())
}
