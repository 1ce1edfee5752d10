//! Blocks become holes, and what they had of the pool goes back.
ghost use Rattle.std.specs.Prelude.{◌≡◌, ◌<◌, ◌≤◌, ◌+◌, ◌++◌, ◌^◌, [], drop, take, None, IfErr, IfOk, OnErr, OnOk, unwrap_or, vec_capacity, vec_len};
ghost use Rattle.std.specs.List.{cons_option};
ghost use Rattle.range_core.specs.OnRun.{on_run};
ghost use Rattle.range_core.specs.Wipes.{sectors_of, wiped};
ghost use Rattle.range_core.specs.declared.fault.EventFault.TheVariants.{NoMemory};

use super::Range;
use crate::cell::Cell;
use crate::claims::Claims;
use crate::cookie::{next_cookie, worn_stop};
use crate::fault::EventFault;
use crate::place::{IsPromised, IsUsed, count_run};
use crate::space::give_back;
use crate::spare::{Spare, shed_page};
use crate::stamps::stamp_done;
use crate::stops::{IsAway, first_stop};
use io_model::Kind;
use iob_base::{Sector, Tag};
use space_pool::SpacePool;
use std::sync::Wait;
use turn_cell::Change;

// Makes a hole of a block, and moves its sector to the end of a list that has room.
fn wipe_block(cell: &mut Cell, sectors: &mut Vec<Sector>, spare: &mut Spare)
    requires { vec_len sectors.old < vec_capacity sectors.old }
    ensures cell { cell.new ≡ wiped cell.old }
    ensures sectors { sectors.new.items ≡ sectors.old.items ++ cons_option cell.old.sector [] }
    ensures few { vec_len sectors.new ≤ vec_len sectors.old + 1 }
    ensures capacity { vec_capacity sectors.new ≡ vec_capacity sectors.old }
{
    cell.kind = Kind::Hole;
    shed_page(cell, spare);
    cell.dirty = false;
    if let Some(sector) = cell.sector.take() {
        sectors.push_reserved(sector);
    }
}

fn wipe_run(
    cells: &mut Vec<Cell>,
    low: usize,
    blocks: usize,
    sectors: &mut Vec<Sector>,
    spare: &mut Spare,
)
    requires within { low + blocks ≤ vec_len cells.old }
    requires empty { sectors.old.items ≡ [] }
    requires room { blocks ≤ vec_capacity sectors.old }
    ensures cells { cells.new.items ≡ on_run wiped low blocks cells.old.items }
    ensures sectors { sectors.new.items ≡ sectors_of (take blocks (drop low cells.old.items)) }
{
    for i in 0..blocks {
        wipe_block(&mut cells[low + i], sectors, spare);
    }
}

impl Range {
    ghost use Rattle.space_pool.specs.Seats.{pool_cell};
    ghost use Rattle.range_core.specs.RangeView.{LiesAt};
    ghost use Rattle.range_core.specs.Refusals.{wipe_refusal};
    ghost use Rattle.range_core.specs.Wipes.{Wipes, used_in};

    // What hinders a wipe that would change so many kinds.
    fn wipe_stop(&self, block: u64, blocks: u64, changed: u64) -> Option<EventFault>
        requires lies { LiesAt self.now block blocks }
        requires counted { changed ≡ used_in self.now block blocks }
        ensures { result ≡ wipe_refusal self.now block blocks }
    {
        let low = (block - self.first) as usize;
        let run = &self.cells[low..low + blocks as usize];
        if let Some(fault) = first_stop(&IsAway {}, block, run) {
            return Some(fault);
        }
        worn_stop(self.cookie, changed)
    }

    /// Makes a hole of each of these blocks, clean and without a page, and stamps it. Sectors and promises of space go
    /// back to the pool. It answers how many kinds changed.
    ///
    /// # Errors
    ///
    /// `Away` of the first block that is lent out, `Worn` where a block is no hole and the cookie is used up, and want of
    /// memory. Nothing has changed then.
    pub fn wipe<R: Wait>(
        &mut self,
        rt: &R,
        space: &SpacePool,
        by: Tag,
        block: u64,
        blocks: u64,
    ) -> Result<u64, EventFault>
        requires lies { LiesAt self.old block blocks }
        requires pool { self.old.seat.cell ≡ (pool_cell space.now).cell }
        ensures refused { IfErr result (λ e. e ≡ unwrap_or (wipe_refusal self.old block blocks) NoMemory) }
        ensures unchanged { OnErr result (self.new ≡ self.old) }
        ensures made { OnOk result (wipe_refusal self.old block blocks ≡ None) }
        ensures state { IfOk result (Wipes (pool_cell space.now).opening self.old by block blocks self.new) }
    {
        let low = (block - self.first) as usize;
        let n = blocks as usize;
        let changed = count_run(&IsUsed {}, &self.cells, low, n);
        if let Some(fault) = self.wipe_stop(block, blocks, changed) {
            return Err(fault);
        }
        let Ok(()) = self.log.reserve(self.cells.len()) else {
            return Err(EventFault::NoMemory);
        };
        let Ok(mut sectors) = Vec::with_capacity(self.log.allocator(), n) else {
            return Err(EventFault::NoMemory);
        };
        let promised = count_run(&IsPromised {}, &self.cells, low, n);
        wipe_run(&mut self.cells, low, n, &mut sectors, &mut self.spare);
        give_back(rt, space, &mut self.seat, &mut sectors, promised);
        self.log.add(block, n, stamp_done(by));
        self.cookie = next_cookie(self.cookie, changed);
        Ok(changed)
    }
}

/// The turn of `Range::wipe`, which makes holes of a run of blocks. It answers the same.
#[derive_where(Clone, Copy)]
pub struct WipeRun<'a, R> {
    pub rt: &'a R,
    pub space: &'a SpacePool,
    pub by: Tag,
    pub block: u64,
    pub blocks: u64,
}

impl<'a, R: Wait> Change<Range> for WipeRun<'a, R> {
    ghost use Rattle.range_core.specs.ClaimsView.{MayTurn};
    ghost use Rattle.range_core.specs.Wipes.{CanWipe, WipeTurned};

    type Out = Result<u64, EventFault>;

    ghost ready = { λ change opening _ claims. MayTurn claims (CanWipe change opening) };

    ghost does = { λ change _ _ before claims later after left answer entry. WipeTurned change later before after claims left answer entry };

    fn apply(&mut self, value: &mut Range, _claims: &mut Claims) -> Result<u64, EventFault> {
        let answer = value.wipe(self.rt, self.space, self.by, self.block, self.blocks);
        value.is_kept();
        answer
    }
}
