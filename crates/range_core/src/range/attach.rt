//! Blocks take sectors of the pool, in order of blocks.
ghost use Rattle.std.specs.Prelude.{◌≡◌, ◌<◌, ◌≤◌, ◌+◌, ◌^◌, None, IfErr, IfOk, OnErr, OnOk, unwrap_or};
ghost use Rattle.range_core.specs.declared.fault.EventFault.TheVariants.{NoMemory};

use super::Range;
use crate::claims::Claims;
use crate::cookie::{next_cookie, worn_stop};
use crate::fault::EventFault;
use crate::place::{AwaitsSector, IsEmpty, LacksSector, count_run, place_run};
use crate::space::{reserve_at, take_at};
use space_pool::{NoSpace, SpacePool};
use std::sync::Wait;
use turn_cell::Change;

impl Range {
    ghost use Rattle.space_pool.specs.Seats.{pool_cell};
    ghost use Rattle.range_core.specs.Attaches.{Attaches, IsRefusedFor, Preallocates, holes_in};
    ghost use Rattle.range_core.specs.PoolTurns.{LeavesAlone, ReservesAt};
    ghost use Rattle.range_core.specs.RangeView.{LiesAt};
    ghost use Rattle.range_core.specs.Refusals.{attach_refusal, preallocate_refusal};

    /// Each of these blocks that has space promised to it and bytes to be written takes a sector of the reservation, in
    /// order of blocks, and becomes unwritten. It answers how many did. Pages and their bytes stay.
    ///
    /// # Errors
    ///
    /// `Worn` where there is such a block and the cookie is used up, and want of memory. Nothing has changed then.
    pub fn attach<R: Wait>(
        &mut self,
        rt: &R,
        space: &SpacePool,
        block: u64,
        blocks: u64,
    ) -> Result<u64, EventFault>
        requires lies { LiesAt self.old block blocks }
        requires pool { self.old.seat.cell ≡ (pool_cell space.now).cell }
        ensures refused { IfErr result (λ e. e ≡ unwrap_or (attach_refusal self.old block blocks) NoMemory) }
        ensures unchanged { OnErr result (self.new ≡ self.old) }
        ensures made { OnOk result (attach_refusal self.old block blocks ≡ None) }
        ensures state { IfOk result (Attaches (pool_cell space.now).opening self.old block blocks self.new) }
    {
        let low = (block - self.first) as usize;
        let taken = count_run(&AwaitsSector {}, &self.cells, low, blocks as usize);
        if let Some(fault) = worn_stop(self.cookie, taken) {
            return Err(fault);
        }
        let Ok(mut sectors) = Vec::with_capacity(self.log.allocator(), taken as usize) else {
            return Err(EventFault::NoMemory);
        };
        take_at(rt, space, &mut self.seat, taken, &mut sectors);
        place_run(
            &AwaitsSector {},
            &mut self.cells,
            low,
            blocks as usize,
            sectors,
        );
        self.cookie = next_cookie(self.cookie, taken);
        Ok(taken)
    }

    /// Each of these blocks that has no sector takes one, in order of blocks, and becomes unwritten. The holes among them
    /// are reserved first. It answers how many did. Pages and their bytes stay.
    ///
    /// # Errors
    ///
    /// `Worn` where there is such a block and the cookie is used up, want of memory, and `NoSpace` where fewer sectors
    /// were unreserved than there are holes. Blocks stay as they were.
    pub fn preallocate<R: Wait>(
        &mut self,
        rt: &R,
        space: &SpacePool,
        block: u64,
        blocks: u64,
    ) -> Result<u64, EventFault>
        requires lies { LiesAt self.old block blocks }
        requires pool { self.old.seat.cell ≡ (pool_cell space.now).cell }
        ensures refused { IfErr result (IsRefusedFor (holes_in self.old block blocks) (preallocate_refusal self.old block blocks)) }
        ensures unchanged { IfErr result (λ e. LeavesAlone (λ none. ReservesAt (pool_cell space.now).opening (holes_in self.old block blocks) (Err none)) e self.old self.new) }
        ensures made { OnOk result (preallocate_refusal self.old block blocks ≡ None) }
        ensures state { IfOk result (Preallocates (pool_cell space.now).opening self.old block blocks self.new) }
    {
        let low = (block - self.first) as usize;
        let taken = count_run(&LacksSector {}, &self.cells, low, blocks as usize);
        if let Some(fault) = worn_stop(self.cookie, taken) {
            return Err(fault);
        }
        let Ok(mut sectors) = Vec::with_capacity(self.log.allocator(), taken as usize) else {
            return Err(EventFault::NoMemory);
        };
        let holes = count_run(&IsEmpty {}, &self.cells, low, blocks as usize);
        if let Err(NoSpace { wanted, found }) = reserve_at(rt, space, &mut self.seat, holes) {
            return Err(EventFault::NoSpace { wanted, found });
        }
        take_at(rt, space, &mut self.seat, taken, &mut sectors);
        place_run(
            &LacksSector {},
            &mut self.cells,
            low,
            blocks as usize,
            sectors,
        );
        self.cookie = next_cookie(self.cookie, taken);
        Ok(taken)
    }
}

/// The turn of `Range::attach`, which gives sectors to the dirty blocks of a run. It answers the same.
#[derive_where(Clone, Copy)]
pub struct AttachRun<'a, R> {
    pub rt: &'a R,
    pub space: &'a SpacePool,
    pub block: u64,
    pub blocks: u64,
}

impl<'a, R: Wait> Change<Range> for AttachRun<'a, R> {
    ghost use Rattle.range_core.specs.ClaimsView.{MayTurn};
    ghost use Rattle.range_core.specs.Attaches.{AttachTurned, CanAttach};

    type Out = Result<u64, EventFault>;

    ghost ready = { λ change opening _ claims. MayTurn claims (CanAttach change opening) };

    ghost does = { λ change _ _ before claims later after left answer entry. AttachTurned change later before after claims left answer entry };

    fn apply(&mut self, value: &mut Range, _claims: &mut Claims) -> Result<u64, EventFault> {
        let answer = value.attach(self.rt, self.space, self.block, self.blocks);
        value.is_kept();
        answer
    }
}

/// The turn of `Range::preallocate`, which gives sectors to the blocks of a run that have none. It answers the same.
#[derive_where(Clone, Copy)]
pub struct PreallocateRun<'a, R> {
    pub rt: &'a R,
    pub space: &'a SpacePool,
    pub block: u64,
    pub blocks: u64,
}

impl<'a, R: Wait> Change<Range> for PreallocateRun<'a, R> {
    ghost use Rattle.range_core.specs.ClaimsView.{MayTurn};
    ghost use Rattle.range_core.specs.Attaches.{CanPreallocate, PreallocateTurned};

    type Out = Result<u64, EventFault>;

    ghost ready = { λ change opening _ claims. MayTurn claims (CanPreallocate change opening) };

    ghost does = { λ change _ _ before claims later after left answer entry. PreallocateTurned change later before after claims left answer entry };

    fn apply(&mut self, value: &mut Range, _claims: &mut Claims) -> Result<u64, EventFault> {
        let answer = value.preallocate(self.rt, self.space, self.block, self.blocks);
        value.is_kept();
        answer
    }
}
