//! Turns at a cell: a counter whose history is its increments.
ghost use Rattle.std.specs.Prelude.{◌≡◌, ◌+◌, ◌*◌, ◌-◌, ◌^◌, ◌<◌, min, length, IfSome, MatchOption};
ghost use Rattle.turn_cell.specs.Seats.{cell_view, seat_view, IsSeatOf};
ghost use Rattle.turn_cell.specs.Views.{first_seat, FoundHeld};

use std::alloc::Global;
use std::process::Abort;
use std::sync::Wait;
use std::test::*;
use std::thread;
use std::thread::Threads;
use turn_cell::{Busy, Change, Chronicle, Cut, NoCell, TurnCell, TurnSeat};

// The number of turns so far, up to 2^64 - 1.
#[derive(Drop)]
struct Counter {
    count: u64,
}

// What a seat of a counter claims: nothing.
#[derive(Drop)]
struct Nothing {}

// One more. It is also the entry that such a turn makes.
#[derive(Drop)]
struct Increment {}

impl Chronicle for Counter {
    type Claims = Nothing;

    type Entry = Increment;

    ghost truth = { λ opening now history stakes. now.count ≡ min (opening.count + length history) (2 ^ 64 - 1) };

    ghost may_merge = { λ _ _. Unit {0} };

    ghost merges = { λ _ _ _. Unit {0} };

    fn merge(into: &mut Nothing, from: Nothing) {
        *into = from;
    }
}

impl Change<Counter> for Increment {
    type Out = u64;

    ghost ready = { λ _ _ _ _. Unit {0} };

    ghost does = { λ _ _ _ before _ _ after _ answer _. (after.count ≡ min (before.count + 1) (2 ^ 64 - 1)) × (answer ≡ after.count) };

    fn apply(&mut self, value: &mut Counter, _claims: &mut Nothing) -> u64 {
        value.count = value.count.saturating_add(1);
        value.count
    }
}

impl Cut<Counter> for Nothing {
    ghost may_cut = { λ _ _. Unit {0} };

    ghost cuts = { λ _ _ _ _ _. Unit {0} };

    fn cut(&mut self, _claims: &mut Nothing) -> Nothing {
        Nothing {}
    }
}

// One more, while another seat tries a turn at the same cell. It answers the word that the other seat found.
struct Meeting<'a> {
    cell: &'a TurnCell<Counter>,
    other: TurnSeat<Counter>,
}

impl<'a> Change<Counter> for Meeting<'a> {
    type Out = Option<u64>;

    ghost ready = { λ change _ _ _. IsSeatOf change.cell.now change.other };

    ghost does = { λ before _ _ _ _ after _ _ answer _. MatchOption answer ((seat_view after.other).refused ≡ (seat_view before.other).refused) (λ word. FoundHeld (seat_view before.other) word (seat_view after.other)) };

    fn apply(&mut self, value: &mut Counter, _claims: &mut Nothing) -> Option<u64> {
        value.count = value.count.saturating_add(1);
        match self.cell.try_turn(&mut self.other, &mut Increment {}) {
            Ok(_) => None,
            Err(Busy { word }) => Some(word),
        }
    }
}

// A counter that begins here, with its one seat. `None` where there is no memory.
fn started(alloc: Global, count: u64) -> Option<(TurnCell<Counter>, TurnSeat<Counter>)>
    ensures opening { IfSome result (λ r. (cell_view r.0).opening.count ≡ count) }
    ensures seat { IfSome result (λ r. seat_view r.1 ≡ first_seat (cell_view r.0).cell (2 ^ 63)) }
{
    match TurnCell::start(alloc, Counter { count }, Nothing {}) {
        Ok(both) => Some(both),
        Err(
            NoCell {
                value: _,
                claims: _,
            },
        ) => None,
    }
}

// Makes so many turns.
fn increments<R: Wait>(
    rt: &R,
    cell: &TurnCell<Counter>,
    mut seat: TurnSeat<Counter>,
    turns: u64,
) -> TurnSeat<Counter>
    requires { IsSeatOf cell.now seat }
    ensures cell { IsSeatOf cell.now result }
    ensures share { (seat_view result).share ≡ (seat_view seat).share }
    ensures made { length (seat_view result).made ≡ length (seat_view seat).made + turns }
{
    for _ in 0..turns {
        cell.turn(rt, &mut seat, &mut Increment {});
    }
    seat
}

// Two threads make so many turns each, and the count is the number of both. `None` where there is no memory.
fn count_by_two<R: Threads + Wait + Sync>(rt: &R, alloc: Global, turns: u64) -> Option<u64>
    requires { turns < 2 ^ 32 }
    ensures { IfSome result (λ count. count ≡ 2 * turns) }
{
    let (cell, mut seat) = started(alloc, 0)?;
    let other = cell.split(&mut seat, 1, &mut Nothing {});
    let line = &cell;
    let (mut seat, other) = thread::join(
        rt,
        move ||
            requires { IsSeatOf line.now seat }
            ensures { IsSeatOf line.entry.now result × ((seat_view result).share ≡ (seat_view seat).share) × (length (seat_view result).made ≡ length (seat_view seat).made + turns) }
        { increments(rt, line, seat, turns) },
        move ||
            requires { IsSeatOf line.now other }
            ensures { IsSeatOf line.entry.now result × ((seat_view result).share ≡ (seat_view other).share) × (length (seat_view result).made ≡ length (seat_view other).made + turns) }
        { increments(rt, line, other, turns) },
    );
    cell.join(&mut seat, other);
    Some(cell.close(seat).count)
}

#[test]
fn two_threads_count_each_turn_once(rt: HostRuntime) -> Result<(), Fail> {
    let count = count_by_two(&rt, rt.alloc(), 1000).ok_or("there is memory")?;
    assert_eq!(rt; count, 2000);
    Ok(())
}

#[test]
fn a_held_gate_is_met(rt: HostRuntime) -> Result<(), Fail> {
    let (cell, mut seat) = started(rt.alloc(), 5).ok_or("there is memory")?;
    let other = cell.split(&mut seat, 1, &mut Nothing {});
    let mut meeting = Meeting { cell: &cell, other };
    let met = cell.try_turn(&mut seat, &mut meeting);
    let Meeting { cell: _, other } = meeting;
    assert!(rt; matches!(met, Ok(Some(1))));
    cell.join(&mut seat, other);
    assert_eq!(rt; cell.close(seat).count, 6);
    Ok(())
}
