//! Space is promised to holes, and such promises are taken back.
ghost use Rattle.std.specs.Prelude.{◌≡◌, ◌<◌, ◌≤◌, ◌+◌, ◌^◌, IfErr, IfOk, vec_len};
ghost use Rattle.range_core.specs.OnRun.{on_run};
ghost use Rattle.range_core.specs.Placing.{is_unused};
ghost use Rattle.range_core.specs.Reserves.{promised_cell, unpromised};

use super::Range;
use crate::cell::Cell;
use crate::claims::Claims;
use crate::cookie::{next_cookie, stale_stop, worn_stop};
use crate::fault::EventFault;
use crate::place::{IsUnused, Picks, count_run};
use crate::sample::Sample;
use crate::space::unreserve_at;
use io_model::{Extent, Kind};
use iob_base::WORN;
use space_pool::{NoSpace, SpacePool};
use std::sync::Wait;
use turn_cell::Change;

fn promise(cell: &mut Cell)
    ensures { cell.new ≡ promised_cell cell.old }
{
    cell.kind = Kind::Delalloc;
}

fn promise_run(cells: &mut Vec<Cell>, low: usize, blocks: usize)
    requires { low + blocks ≤ vec_len cells.old }
    ensures { cells.new.items ≡ on_run promised_cell low blocks cells.old.items }
{
    for i in 0..blocks {
        promise(&mut cells[low + i]);
    }
}

// A promise of space is taken back from a block that has nothing to write.
fn release(cell: &mut Cell)
    ensures { cell.new ≡ unpromised cell.old }
{
    let unused = &IsUnused {};
    if unused.is_picked(cell) {
        cell.kind = Kind::Hole;
        cell.page = None;
    }
}

fn release_run(cells: &mut Vec<Cell>, low: usize, blocks: usize)
    requires { low + blocks ≤ vec_len cells.old }
    ensures { cells.new.items ≡ on_run unpromised low blocks cells.old.items }
{
    for i in 0..blocks {
        release(&mut cells[low + i]);
    }
}

impl Range {
    ghost use Rattle.space_pool.specs.Seats.{pool_cell};
    ghost use Rattle.range_core.specs.Placing.{count_in};
    ghost use Rattle.range_core.specs.PoolTurns.{LeavesAlone, ReservesSomeAt, TurnsFor, UnreservesAt, place_of};
    ghost use Rattle.range_core.specs.RangeView.{LiesAt};
    ghost use Rattle.range_core.specs.Refusals.{reserve_refusal};
    ghost use Rattle.range_core.specs.Reserves.{AsksHoles, reserve_fault, reserved_run, reserved_sample, unreserved_run};
    ghost use Rattle.range_core.specs.KnownSamples.{IsKnown};

    // What hinders a change of the kind that a sample told.
    fn reserve_stop(&self, seen: Sample) -> Option<EventFault>
        ensures { result ≡ reserve_refusal self.now seen }
    {
        if let Some(fault) = stale_stop(self.cookie, seen) {
            return Some(fault);
        }
        worn_stop(self.cookie, 1)
    }

    /// Promises space to as many of the first `blocks` blocks of a sample as the pool has sectors for, and answers a
    /// sample of them. They are a hole, and become delalloc. It takes no memory.
    ///
    /// # Errors
    ///
    /// `Stale` where the sample is of another cookie, `Worn` where the cookie is used up, and `NoSpace` where no sector
    /// was unreserved at its turn. Blocks stay as they were.
    pub fn reserve<R: Wait>(
        &mut self,
        rt: &R,
        space: &SpacePool,
        seen: Sample,
        blocks: u64,
    ) -> Result<Sample, EventFault>
        requires holes { AsksHoles self.old seen blocks }
        requires known { IsKnown self.old seen }
        requires pool { self.old.seat.cell ≡ (pool_cell space.now).cell }
        ensures refused { IfErr result (λ e. e ≡ reserve_fault self.old seen blocks) }
        ensures unchanged { IfErr result (λ e. LeavesAlone (λ none. ReservesSomeAt (pool_cell space.now).opening blocks (Err none)) e self.old self.new) }
        ensures made { IfOk result (λ s. reserve_refusal self.old seen ≡ None) }
        ensures some { IfOk result (λ s. 0 < s.extent.length) }
        ensures few { IfOk result (λ s. s.extent.length ≤ blocks) }
        ensures sample { IfOk result (λ s. s ≡ reserved_sample self.old seen s.extent.length) }
        ensures state { IfOk result (λ s. self.new ≡ reserved_run self.old seen s.extent.length self.new.seat) }
        ensures reserved { IfOk result (λ s. ReservesSomeAt (pool_cell space.now).opening blocks (Ok s.extent.length) (place_of self.old) (place_of self.new)) }
    {
        if let Some(fault) = self.reserve_stop(seen) {
            return Err(fault);
        }
        let found = match space.reserve_some(rt, &mut self.seat, blocks) {
            Ok(found) => found,
            Err(NoSpace { wanted, found }) => return Err(EventFault::NoSpace { wanted, found }),
        };
        let low = (seen.extent.block - self.first) as usize;
        promise_run(&mut self.cells, low, found as usize);
        self.cookie += 1;
        Ok(Sample {
            cookie: self.cookie,
            errors: self.errors,
            extent: Extent {
                block: seen.extent.block,
                length: found,
                kind: Kind::Delalloc,
            },
        })
    }

    /// Each of these blocks that has space promised to it and nothing to write becomes a hole, and the promise goes back
    /// to the pool. It answers how many did. It has no refusal and takes no memory.
    pub fn unreserve<R: Wait>(&mut self, rt: &R, space: &SpacePool, block: u64, blocks: u64) -> u64
        requires lies { LiesAt self.old block blocks }
        requires pool { self.old.seat.cell ≡ (pool_cell space.now).cell }
        requires cookie { self.old.cookie ≤ WORN + 65536 }
        ensures count { result ≡ count_in is_unused self.old block blocks }
        ensures state { self.new ≡ unreserved_run self.old block blocks self.new.seat }
        ensures pool { TurnsFor result (UnreservesAt (pool_cell space.now).opening result) (place_of self.old) (place_of self.new) }
    {
        let low = (block - self.first) as usize;
        let holes = count_run(&IsUnused {}, &self.cells, low, blocks as usize);
        release_run(&mut self.cells, low, blocks as usize);
        unreserve_at(rt, space, &mut self.seat, holes);
        self.cookie = next_cookie(self.cookie, holes);
        holes
    }
}

/// The turn of `Range::reserve`, which promises space to holes. It answers the same.
#[derive_where(Clone, Copy)]
pub struct ReserveRun<'a, R> {
    pub rt: &'a R,
    pub space: &'a SpacePool,
    pub seen: Sample,
    pub blocks: u64,
}

impl<'a, R: Wait> Change<Range> for ReserveRun<'a, R> {
    ghost use Rattle.range_core.specs.ClaimsView.{MayTurn};
    ghost use Rattle.range_core.specs.Reserves.{CanReserve, ReserveTurned};

    type Out = Result<Sample, EventFault>;

    ghost ready = { λ change opening seen claims. MayTurn claims (CanReserve change opening seen) };

    ghost does = { λ change opening _ before claims later after left answer entry. ReserveTurned opening change later before after claims left answer entry };

    fn apply(&mut self, value: &mut Range, _claims: &mut Claims) -> Result<Sample, EventFault> {
        value.reserve(self.rt, self.space, self.seen, self.blocks)
    }
}

/// The turn of `Range::unreserve`, which takes promises of space back. It answers how many.
#[derive_where(Clone, Copy)]
pub struct UnreserveRun<'a, R> {
    pub rt: &'a R,
    pub space: &'a SpacePool,
    pub block: u64,
    pub blocks: u64,
}

impl<'a, R: Wait> Change<Range> for UnreserveRun<'a, R> {
    ghost use Rattle.range_core.specs.ClaimsView.{MayTurn};
    ghost use Rattle.range_core.specs.Reserves.{CanUnreserve, UnreserveTurned};

    type Out = u64;

    ghost ready = { λ change opening _ claims. MayTurn claims (CanUnreserve change opening) };

    ghost does = { λ change _ _ before claims later after left answer entry. UnreserveTurned change later before after claims left answer entry };

    fn apply(&mut self, value: &mut Range, _claims: &mut Claims) -> u64 {
        value.unreserve(self.rt, self.space, self.block, self.blocks)
    }
}
