//! Zeros are laid over the sectors of a file that skips the page cache.
ghost use Rattle.std.specs.Prelude.{◌≡◌, ℕ, ◌+◌, ◌-◌, ◌<◌, ◌≤◌, true, IsSomeAnd, length, vec_len};
ghost use Rattle.fault_device.specs.LaneView.{lane_seen};
ghost use Rattle.range_core.specs.ByteRuns.{IsByteRun, run_between};
ghost use Rattle.range_core.specs.DaxGets.{AreHomeIn};
ghost use Rattle.range_core.specs.DaxZeros.{cleared_through, zeroed_through};
ghost use Rattle.range_core.specs.Kinds.{is_mapped};
ghost use Rattle.range_core.specs.OnRun.{on_each};

use super::Range;
use super::direct_now::ask;
use crate::cell::{Cell, is_mapped_kind};
use crate::claims::Claims;
use crate::cookie::stale_stop;
use crate::dax_bytes::clear_sector;
use crate::fault::EventFault;
use crate::parts::{BlockPart, ByteRun, block_part, byte_run};
use crate::sample::Sample;
use crate::stamps::stamp_done;
use fault_device::{Done, Lane};
use iob_base::Tag;
use space_pool::SpacePool;
use std::sync::Wait;
use turn_cell::Change;

fn clear_part(cell: &mut Cell, part: BlockPart)
    requires { is_mapped cell.old.kind ≡ true → IsSomeAnd cell.old.sector (λ s. part.at + part.length ≤ length s.bytes) }
    ensures { cell.new ≡ cleared_through part cell.old }
{
    if !is_mapped_kind(cell.kind) {
        return;
    }
    let Some(sector) = &mut cell.sector else {
        unreachable!()
    };
    clear_sector(sector, part);
}

/// Lays zeros over the sectors of the mapped blocks of a run. The blocks have the numbers from `first` on.
fn clear_through(cells: &mut Vec<Cell>, first: u64, run: ByteRun)
    requires run { IsByteRun run }
    requires low { first ≤ run.first }
    requires high { run.first + run.blocks ≤ first + vec_len cells.old }
    requires ready { AreHomeIn run first cells.old.items }
    ensures { cells.new.items ≡ on_each (zeroed_through run) 0 (run.first - first) run.blocks cells.old.items }
{
    let low = (run.first - first) as usize;
    for k in 0..run.blocks {
        clear_part(&mut cells[low + k], block_part(run, k));
    }
}

impl Range {
    ghost use Rattle.range_core.specs.DaxZeros.{AnswersZero, CanZeroDax};
    ghost use Rattle.range_core.specs.Judges.{AsksLane};

    /// Lays zeros over the bytes from one place up to another, in the sectors of the sample's extent, and leaves a stamp
    /// on each block that has some of them. Mapped blocks take one judgement of the lane. Blocks of other kinds read as
    /// zeros already: they take none, and no block changes its kind, so nothing is asked of the pool.
    ///
    /// # Errors
    ///
    /// - `Stale` where the sample's cookie is not the range's.
    /// - `NoMemory`, before any judgement.
    /// - `Poison` exactly where the judgement failed.
    ///
    /// Nothing but the lane has changed then.
    pub fn dax_zero<R: Wait>(
        &mut self,
        _rt: &R,
        _space: &SpacePool,
        by: Tag,
        lane: &mut Lane,
        seen: Sample,
        from: u64,
        to: u64,
    ) -> Result<(), EventFault>
        requires { CanZeroDax self.old seen from to }
        ensures { AnswersZero AsksLane (lane_seen count tells lane.old) (lane_seen count tells lane.new) self.old by seen from to self.new result }
    {
        let mut judge = |n: u32| -> Done
            requires { 0 < n }
            ensures { AsksLane (lane_seen count tells lane.entry.now) n result (lane_seen count tells lane.exit.now) }
        { lane.judge(n) };
        self.zero_through(by, &mut judge, seen, from, to)
    }

    /// `dax_zero`, with any judgement of so many blocks.
    fn zero_through<F: FnMut(u32) -> Done>(
        &mut self,
        by: Tag,
        judge: &mut F,
        seen: Sample,
        from: u64,
        to: u64,
    ) -> Result<(), EventFault>
        requires judge { (m : ℕ) → 0 < m → F.pre judge.old m }
        requires can { CanZeroDax self.old seen from to }
        ensures answers { AnswersZero F.step judge.old judge.new self.old by seen from to self.new result }
        ensures met { IsByteRun (run_between self.old.geometry.block_size from to) }
    {
        let run = byte_run(&self.geometry, from, to);
        if let Some(fault) = stale_stop(self.cookie, seen) {
            return Err(fault);
        }
        let Ok(()) = self.log.reserve(self.cells.len()) else {
            return Err(EventFault::NoMemory);
        };
        if let Err(done) = ask(judge, is_mapped_kind(seen.extent.kind), run.blocks as u32) {
            return Err(EventFault::Poison { done });
        }
        clear_through(&mut self.cells, self.first, run);
        self.log.add(run.first, run.blocks, stamp_done(by));
        Ok(())
    }
}

/// The turn of `Range::dax_zero`, with any judgement. It answers the same.
#[derive(Drop)]
pub struct DaxZeroRun<F> {
    pub by: Tag,
    /// A judgement of so many blocks.
    pub judge: F,
    pub seen: Sample,
    pub from: u64,
    pub to: u64,
}

impl<F: FnMut(u32) -> Done> Change<Range> for DaxZeroRun<F> {
    ghost use Rattle.range_core.specs.ClaimsView.{MayTurn};
    ghost use Rattle.range_core.specs.DaxZeros.{MayZeroDax, ZeroedDax};

    type Out = Result<(), EventFault>;

    ghost ready = { λ change opening history claims. MayTurn claims (MayZeroDax F.pre change opening history) };

    ghost does = { λ change _ _ before claims later after left out entry. ZeroedDax F.step change before claims later after left out entry };

    fn apply(&mut self, value: &mut Range, _claims: &mut Claims) -> Result<(), EventFault> {
        value.zero_through(self.by, &mut self.judge, self.seen, self.from, self.to)
    }
}
