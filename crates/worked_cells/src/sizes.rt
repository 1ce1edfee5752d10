//! The size of a file: what calls enter into its journal, by hand, and two callers whose writes end in either order.
ghost use Rattle.std.specs.Prelude.{◌≡◌, ◌+◌, ◌-◌, ◌^◌, ◌<◌, ◌≤◌, IfSome, OnOk};
ghost use Rattle.turn_cell.specs.Seats.{cell_view, seat_view, seat_claims, IsSeatOf};
ghost use Rattle.turn_cell.specs.Views.{first_seat};
ghost use Rattle.size_core.specs.ClaimsView.{first_claims};

use iob_base::Tag;
use size_core::{
    CutSize, ForgetRoom, GrowSize, NextCaller, ReadyRoom, SameCaller, SeeSize, SizeClaims,
    SizeMark, SizeStamp, Sizes,
};
use std::alloc::{AllocError, Global};
use std::process::Abort;
use std::sync::Wait;
use std::test::*;
use turn_cell::{NoCell, TurnCell, TurnSeat};

// A size of 5 bytes of a file of 64. `None` where there is no memory.
fn started(alloc: Global) -> Option<(TurnCell<Sizes>, TurnSeat<Sizes>)>
    ensures opening { IfSome result (λ r. (cell_view r.0).opening.end ≡ 64) }
    ensures seat { IfSome result (λ r. seat_view r.1 ≡ first_seat (cell_view r.0).cell (2 ^ 63)) }
    ensures claims { IfSome result (λ r. seat_claims r.1 ≡ first_claims) }
{
    match TurnCell::start(alloc, Sizes::new(alloc, 5, 64), SizeClaims::first()) {
        Ok(both) => Some(both),
        Err(
            NoCell {
                value: _,
                claims: _,
            },
        ) => None,
    }
}

// A write that ends at `to`: it makes room first, and raises the size last.
fn write<R: Wait>(
    rt: &R,
    cell: &TurnCell<Sizes>,
    seat: &mut TurnSeat<Sizes>,
    by: Tag,
    to: u64,
) -> Result<(), AllocError>
    requires cell { IsSeatOf cell.now seat.old }
    requires within { to ≤ (cell_view cell.now).opening.end }
    ensures cell { IsSeatOf cell.now seat.new }
    ensures share { (seat_view seat.new).share ≡ (seat_view seat.old).share }
    ensures claims { OnOk result (seat_claims seat.new ≡ seat_claims seat.old) }
{
    cell.turn(rt, seat, &mut ReadyRoom {})?;
    cell.turn(rt, seat, &mut GrowSize { by, to });
    Ok(())
}

// A truncation to `to`: it sees the size, makes room, and sets the size last. It answers the size that it saw.
fn truncate<R: Wait>(
    rt: &R,
    cell: &TurnCell<Sizes>,
    seat: &mut TurnSeat<Sizes>,
    by: Tag,
    to: u64,
) -> Result<u64, AllocError>
    requires cell { IsSeatOf cell.now seat.old }
    requires within { to ≤ (cell_view cell.now).opening.end }
    ensures cell { IsSeatOf cell.now seat.new }
    ensures share { (seat_view seat.new).share ≡ (seat_view seat.old).share }
    ensures claims { OnOk result (seat_claims seat.new ≡ seat_claims seat.old) }
{
    let found = cell.turn(rt, seat, &mut SeeSize { by })?;
    cell.turn(rt, seat, &mut ReadyRoom {})?;
    cell.turn(rt, seat, &mut CutSize { by, to });
    Ok(found)
}

// A write that comes to nothing: it makes room and gives it up.
fn give_up<R: Wait>(
    rt: &R,
    cell: &TurnCell<Sizes>,
    seat: &mut TurnSeat<Sizes>,
) -> Result<(), AllocError>
    requires { IsSeatOf cell.now seat.old }
    ensures cell { IsSeatOf cell.now seat.new }
    ensures share { (seat_view seat.new).share ≡ (seat_view seat.old).share }
    ensures claims { OnOk result (seat_claims seat.new ≡ seat_claims seat.old) }
{
    cell.turn(rt, seat, &mut ReadyRoom {})?;
    cell.turn(rt, seat, &mut ForgetRoom {});
    Ok(())
}

// Two reads, a write, a failed write and a truncation, of calls 1 to 6 of one caller. What is left of the size.
fn one_caller<R: Wait>(rt: &R, alloc: Global) -> Option<(u64, Vec<SizeStamp>)> {
    let (cell, mut seat) = started(alloc)?;
    let seat_mut = &mut seat;
    let Ok(_) = cell.turn(rt, seat_mut, &mut SeeSize { by: call(0, 1) }) else {
        return None;
    };
    let Ok(()) = write(rt, &cell, seat_mut, call(0, 2), 21) else {
        return None;
    };
    let Ok(_) = cell.turn(rt, seat_mut, &mut SeeSize { by: call(0, 3) }) else {
        return None;
    };
    let Ok(()) = give_up(rt, &cell, seat_mut) else {
        return None;
    };
    let Ok(_) = truncate(rt, &cell, seat_mut, call(0, 4), 3) else {
        return None;
    };
    let Ok(_) = cell.turn(rt, seat_mut, &mut SeeSize { by: call(0, 5) }) else {
        return None;
    };
    Some(cell.close(seat).end())
}

// Two callers, each with a room at once. The one whose write ends farther raises the size first.
fn two_callers<R: Wait>(rt: &R, alloc: Global) -> Option<(u64, Vec<SizeStamp>)> {
    let (cell, mut seat) = started(alloc)?;
    let mut other = cell.split(&mut seat, 1, &mut NextCaller {});
    let same = cell.split(&mut seat, 1, &mut SameCaller {});
    let Ok(()) = cell.turn(rt, &mut seat, &mut ReadyRoom {}) else {
        return None;
    };
    let Ok(()) = write(rt, &cell, &mut other, call(1, 2), 48) else {
        return None;
    };
    let mut grow = GrowSize {
        by: call(0, 1),
        to: 32,
    };
    cell.turn(rt, &mut seat, &mut grow);
    cell.join(&mut seat, other);
    cell.join(&mut seat, same);
    Some(cell.close(seat).end())
}

fn call(caller: u32, call: u32) -> Tag {
    Tag { caller, call }
}

// The entry as the letter and the number that are printed of it, after the number of its call.
fn printed(stamp: &SizeStamp) -> (u32, char, u64) {
    match stamp.mark {
        SizeMark::See { found } => (stamp.call, 'S', found),
        SizeMark::Grow { to } => (stamp.call, 'G', to),
        SizeMark::Cut { to } => (stamp.call, 'C', to),
    }
}

#[test]
fn sizes_cut_and_grow(rt: HostRuntime) -> Result<(), Fail> {
    let (size, entries) = one_caller(&rt, rt.alloc()).ok_or("there is memory")?;
    assert_eq!(rt; size, 3);
    let wanted = [
        (1, 'S', 5),
        (2, 'G', 21),
        (3, 'S', 21),
        (4, 'S', 21),
        (4, 'C', 3),
        (5, 'S', 3),
    ];
    assert_eq!(rt; entries.len(), wanted.len());
    for (entry, want) in entries.iter().zip(wanted.iter()) {
        assert_eq!(rt; printed(entry), *want);
    }
    Ok(())
}

#[test]
fn growing_never_shrinks(rt: HostRuntime) -> Result<(), Fail> {
    let (size, entries) = two_callers(&rt, rt.alloc()).ok_or("there is memory")?;
    assert_eq!(rt; size, 48);
    let wanted = [(2, 'G', 48), (1, 'G', 32)];
    assert_eq!(rt; entries.len(), wanted.len());
    for (entry, want) in entries.iter().zip(wanted.iter()) {
        assert_eq!(rt; printed(entry), *want);
    }
    Ok(())
}
