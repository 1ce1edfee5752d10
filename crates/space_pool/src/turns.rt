//! The calls of a pool, each one turn at its cell.
ghost use Rattle.std.specs.Prelude.{◌≡◌, ◌+◌, ◌<◌, ◌≤◌, [], vec_len, vec_capacity, drop, IsOk, IfOk, OnOk, OnErr};
ghost use Rattle.turn_cell.specs.Seats.{seat_view, seat_claims};
ghost use Rattle.turn_cell.specs.Stakes.{Begins};
ghost use Rattle.turn_cell.specs.Views.{kept_part, new_part, joined};
ghost use Rattle.space_pool.specs.Claims.{Fits, claims_with, with_more, with_fewer, with_taken, with_given, with_part_gone, joined_claims};
ghost use Rattle.space_pool.specs.Pool.{CanGive, CanPart};
ghost use Rattle.space_pool.specs.Turns.{TurnedAt, KeepsSeat, ReserveTurns, ReserveSomeTurns, UnreserveTurns, TakeTurns, GiveTurns, CountTurns};

use crate::answer::{Counts, NoSpace};
use crate::cell::{PoolSeat, SpacePool};
use crate::chronicle::{
    CountTurn, GiveTurn, Part, ReserveSomeTurn, ReserveTurn, TakeTurn, UnreserveTurn,
};
use iob_base::Sector;
use std::alloc::AllocError;
use std::sync::Wait;

impl SpacePool {
    ghost use Rattle.space_pool.specs.Seats.{pool_cell};

    /// Reserves n sectors for this seat.
    ///
    /// # Errors
    ///
    /// `NoSpace` exactly where fewer were unreserved at its turn, with how many there were. No claim has changed then.
    pub fn reserve<R: Wait>(&self, rt: &R, seat: &mut PoolSeat, n: u64) -> Result<(), NoSpace>
        requires cell { (seat_view seat.old).cell ≡ (pool_cell self.now).cell }
        requires fits { Fits (seat_claims seat.old).facts n }
        ensures claims { OnOk result ((seat_claims seat.new).facts ≡ with_more (seat_claims seat.old).facts n) }
        ensures err { OnErr result ((seat_claims seat.new).facts ≡ (seat_claims seat.old).facts) }
        ensures same { KeepsSeat (seat_view seat.old) (seat_view seat.new) }
        ensures turned { TurnedAt (pool_cell self.now).opening (λ history value next entry. ReserveTurns (pool_cell self.now).opening (seat_claims seat.old) (seat_claims seat.new) history value next entry n result) (seat_claims seat.old) (seat_claims seat.new) (seat_view seat.old) (seat_view seat.new) }
    {
        self.cell.turn(rt, seat, &mut ReserveTurn { n })
    }

    /// Reserves n sectors for this seat, or as many as are unreserved, and answers how many.
    ///
    /// # Errors
    ///
    /// `NoSpace` exactly where none was unreserved at its turn. No claim has changed then.
    pub fn reserve_some<R: Wait>(&self, rt: &R, seat: &mut PoolSeat, n: u64) -> Result<u64, NoSpace>
        requires cell { (seat_view seat.old).cell ≡ (pool_cell self.now).cell }
        requires fits { Fits (seat_claims seat.old).facts n }
        requires some { 1 ≤ n }
        ensures claims { IfOk result (λ m. (seat_claims seat.new).facts ≡ with_more (seat_claims seat.old).facts m) }
        ensures err { OnErr result ((seat_claims seat.new).facts ≡ (seat_claims seat.old).facts) }
        ensures same { KeepsSeat (seat_view seat.old) (seat_view seat.new) }
        ensures turned { TurnedAt (pool_cell self.now).opening (λ history value next entry. ReserveSomeTurns (pool_cell self.now).opening (seat_claims seat.old) (seat_claims seat.new) history value next entry n result) (seat_claims seat.old) (seat_claims seat.new) (seat_view seat.old) (seat_view seat.new) }
    {
        self.cell.turn(rt, seat, &mut ReserveSomeTurn { n })
    }

    /// Gives up this seat's reservation of n sectors.
    pub fn unreserve<R: Wait>(&self, rt: &R, seat: &mut PoolSeat, n: u64)
        requires cell { (seat_view seat.old).cell ≡ (pool_cell self.now).cell }
        requires reserved { n ≤ (seat_claims seat.old).facts.reserved }
        ensures claims { (seat_claims seat.new).facts ≡ with_fewer (seat_claims seat.old).facts n }
        ensures same { KeepsSeat (seat_view seat.old) (seat_view seat.new) }
        ensures turned { TurnedAt (pool_cell self.now).opening (λ history value next entry. UnreserveTurns (pool_cell self.now).opening (seat_claims seat.old) (seat_claims seat.new) history value next entry n) (seat_claims seat.old) (seat_claims seat.new) (seat_view seat.old) (seat_view seat.new) }
    {
        self.cell.turn(rt, seat, &mut UnreserveTurn { n });
    }

    /// Moves the n free sectors with the lowest numbers, in order, to the end of `into`. This seat had reserved them, and claims
    /// them now.
    pub fn take<R: Wait>(&self, rt: &R, seat: &mut PoolSeat, n: u64, into: &mut Vec<Sector>)
        requires cell { (seat_view seat.old).cell ≡ (pool_cell self.now).cell }
        requires reserved { n ≤ (seat_claims seat.old).facts.reserved }
        requires room { vec_len into.old + n ≤ vec_capacity into.old }
        ensures claims { (seat_claims seat.new).facts ≡ with_taken (seat_claims seat.old).facts (drop (vec_len into.old) into.new.items) }
        ensures same { KeepsSeat (seat_view seat.old) (seat_view seat.new) }
        ensures turned { TurnedAt (pool_cell self.now).opening (λ history value next entry. TakeTurns (pool_cell self.now).opening (seat_claims seat.old) (seat_claims seat.new) history value next entry n into.old.items into.new.items) (seat_claims seat.old) (seat_claims seat.new) (seat_view seat.old) (seat_view seat.new) }
        ensures kept { vec_capacity into.new ≡ vec_capacity into.old }
    {
        self.cell.turn(rt, seat, &mut TakeTurn { n, into });
    }

    /// Moves all sectors of the list back. This seat had claimed them, and they are free now.
    pub fn give<R: Wait>(&self, rt: &R, seat: &mut PoolSeat, sectors: &mut Vec<Sector>)
        requires cell { (seat_view seat.old).cell ≡ (pool_cell self.now).cell }
        requires can { CanGive sectors.old.items (seat_claims seat.old).facts }
        ensures claims { (seat_claims seat.new).facts ≡ with_given (seat_claims seat.old).facts sectors.old.items }
        ensures same { KeepsSeat (seat_view seat.old) (seat_view seat.new) }
        ensures turned { TurnedAt (pool_cell self.now).opening (λ history value next entry. GiveTurns (pool_cell self.now).opening (seat_claims seat.old) (seat_claims seat.new) history value next entry sectors.old.items) (seat_claims seat.old) (seat_claims seat.new) (seat_view seat.old) (seat_view seat.new) }
        ensures emptied { sectors.new.items ≡ [] }
        ensures kept { vec_capacity sectors.new ≡ vec_capacity sectors.old }
    {
        self.cell.turn(rt, seat, &mut GiveTurn { sectors });
    }

    /// How many sectors are free at its turn, and how many of these are reserved.
    pub fn counts<R: Wait>(&self, rt: &R, seat: &mut PoolSeat) -> Counts
        requires cell { (seat_view seat.old).cell ≡ (pool_cell self.now).cell }
        ensures claims { (seat_claims seat.new).facts ≡ (seat_claims seat.old).facts }
        ensures same { KeepsSeat (seat_view seat.old) (seat_view seat.new) }
        ensures turned { TurnedAt (pool_cell self.now).opening (λ history value next entry. CountTurns (pool_cell self.now).opening (seat_claims seat.old) (seat_claims seat.new) history value next entry result) (seat_claims seat.old) (seat_claims seat.new) (seat_view seat.old) (seat_view seat.new) }
    {
        self.cell.turn(rt, seat, &mut CountTurn {})
    }

    /// Cuts these sectors, this cap and a share of 1 off a seat, for another seat. Claims take no memory, so it does not fail.
    pub fn split(
        &self,
        seat: &mut PoolSeat,
        cap: u64,
        held: &[Sector],
    ) -> Result<PoolSeat, AllocError>
        requires cell { (seat_view seat.old).cell ≡ (pool_cell self.now).cell }
        requires share { 1 < (seat_view seat.old).share }
        requires part { CanPart held.now cap (seat_claims seat.old).facts }
        ensures ok { IsOk result }
        ensures kept { seat_view seat.new ≡ kept_part (seat_view seat.old) 1 }
        ensures given { IfOk result (λ other. seat_view other ≡ new_part (seat_view seat.old) 1) }
        ensures claims { (seat_claims seat.new).facts ≡ with_part_gone (seat_claims seat.old).facts held.now cap }
        ensures part { IfOk result (λ other. (seat_claims other).facts ≡ claims_with held.now cap (seat_claims seat.old).facts.size) }
    {
        Ok(self.cell.split(seat, 1, &mut Part { cap, held }))
    }

    /// Makes two seats one: `into` then has seen the longer of what both had seen, and has made and claims what both did.
    pub fn join(&self, into: &mut PoolSeat, from: PoolSeat)
        requires into { (seat_view into.old).cell ≡ (pool_cell self.now).cell }
        requires from { (seat_view from).cell ≡ (pool_cell self.now).cell }
        ensures seat { seat_view into.new ≡ joined (seat_view into.old) (seat_view from) }
        ensures begins { Begins (seat_view into.old).seen (seat_view into.new).seen × Begins (seat_view from).seen (seat_view into.new).seen }
        ensures claims { (seat_claims into.new).facts ≡ joined_claims (seat_claims into.old).facts (seat_claims from).facts }
    {
        self.cell.join(into, from);
    }
}
