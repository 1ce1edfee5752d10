//! Bytes are written straight into the sectors of a file that skips the page cache.
ghost use Rattle.std.specs.Prelude.{◌≡◌, ℕ, ◌+◌, ◌-◌, ◌<◌, ◌≤◌, not, nat_lt, true, IfErr, IsSomeAnd, OnErr, OnOk, length, vec_len};
ghost use Rattle.fault_device.specs.LaneView.{lane_seen};
ghost use Rattle.io_model.specs.Effects.{overlay};
ghost use Rattle.space_pool.specs.Claims.{Fits};
ghost use Rattle.space_pool.specs.Seats.{pool_cell};
ghost use Rattle.turn_cell.specs.Seats.{seat_claims, seat_view};
ghost use Rattle.range_core.specs.ByteRuns.{HasNext, IsByteRun, run_between};
ghost use Rattle.range_core.specs.DaxPools.{HoldsHoles, LosesHoles};
ghost use Rattle.range_core.specs.DaxPuts.{AreFull, put};
ghost use Rattle.range_core.specs.Kinds.{is_mapped};
ghost use Rattle.range_core.specs.OnRun.{on_each};
ghost use Rattle.range_core.specs.PoolTurns.{place_at};
ghost use Rattle.range_core.specs.Stores.{next_bytes, past};
ghost use Rattle.range_core.specs.Through.{made_mapped, through};

use super::Range;
use super::direct_now::ask;
use crate::cell::{Cell, is_mapped_kind};
use crate::claims::Claims;
use crate::cookie::{next_cookie, stale_stop, worn_stop};
use crate::dax_bytes::{blank_sector, write_sector};
use crate::fault::EventFault;
use crate::parts::{BlockPart, ByteRun, block_part, byte_run};
use crate::place::{IsEmpty, count_run, place_run};
use crate::sample::Sample;
use crate::space::{reserve_at, take_at, unreserve_at};
use crate::stamps::stamp_done;
use fault_device::{Done, Lane};
use io_model::Kind;
use iob_base::Tag;
use iov_iter::IovIter;
use space_pool::{NoSpace, PoolSeat, SpacePool};
use std::sync::Wait;
use turn_cell::Change;

/// Maps a block with space that was never written, and makes zeros of its sector.
fn map_fresh(cell: &mut Cell)
    ensures { cell.new ≡ made_mapped cell.old }
{
    let Kind::Unwritten(number) = cell.kind else {
        return;
    };
    cell.kind = Kind::Mapped(number);
    let Some(sector) = &mut cell.sector else {
        return;
    };
    blank_sector(sector);
}

fn write_part(cell: &mut Cell, part: BlockPart, iov: &mut IovIter)
    requires sector { IsSomeAnd cell.old.sector (λ s. part.at + part.length ≤ length s.bytes) }
    requires room { HasNext iov.old part.length }
    ensures cell { cell.new ≡ through (overlay part.at (next_bytes iov.old part.length)) cell.old }
    ensures iov { iov.new ≡ past iov.old part.length }
{
    let Some(sector) = &mut cell.sector else {
        unreachable!()
    };
    write_sector(sector, part, iov);
}

fn put_part(cell: &mut Cell, part: BlockPart, iov: &mut IovIter)
    requires sector { IsSomeAnd cell.old.sector (λ s. part.at + part.length ≤ length s.bytes) }
    requires room { HasNext iov.old part.length }
    ensures cell { cell.new ≡ through (overlay part.at (next_bytes iov.old part.length)) (made_mapped cell.old) }
    ensures iov { iov.new ≡ past iov.old part.length }
{
    map_fresh(cell);
    write_part(cell, part, iov);
}

/// Writes an iov's next bytes into the sectors of a run of blocks, which have the numbers from `first` on.
fn put_run(cells: &mut Vec<Cell>, first: u64, run: ByteRun, iov: &mut IovIter)
    requires run { IsByteRun run }
    requires low { first ≤ run.first }
    requires high { run.first + run.blocks ≤ first + vec_len cells.old }
    requires full { AreFull run first cells.old.items }
    requires room { HasNext iov.old (run.to - run.from) }
    ensures cells { cells.new.items ≡ on_each (put run (next_bytes iov.old (run.to - run.from))) 0 (run.first - first) run.blocks cells.old.items }
    ensures iov { iov.new ≡ past iov.old (run.to - run.from) }
{
    let low = (run.first - first) as usize;
    for k in 0..run.blocks {
        put_part(&mut cells[low + k], block_part(run, k), iov);
    }
}

/// How many kinds change at least where blocks of this kind become mapped: 1 or none.
fn kinds_changed(kind: Kind) -> u64
    ensures { nat_lt 0 result ≡ not (is_mapped kind) }
{
    if is_mapped_kind(kind) {
        return 0;
    }
    1
}

/// Reserves sectors for the holes and has `n` blocks judged. Where the judgement fails, the reservation is given up.
fn reserve_judged<R: Wait, F: FnMut(u32) -> Done>(
    rt: &R,
    space: &SpacePool,
    seat: &mut PoolSeat,
    holes: u64,
    judge: &mut F,
    n: u32,
) -> Result<(), EventFault>
    requires pool { (seat_view seat.old).cell ≡ (pool_cell space.now).cell }
    requires fits { Fits (seat_claims seat.old).facts holes }
    requires judge { F.pre judge.old n }
    ensures ok { OnOk result (HoldsHoles (pool_cell space.now).opening holes (λ done. F.step judge.old n done judge.new) (place_at (seat_view seat.old) (seat_claims seat.old).facts) (place_at (seat_view seat.new) (seat_claims seat.new).facts)) }
    ensures err { IfErr result (LosesHoles (pool_cell space.now).opening holes (λ done. F.step judge.old n done judge.new) (judge.new ≡ judge.old) (place_at (seat_view seat.old) (seat_claims seat.old).facts) (place_at (seat_view seat.new) (seat_claims seat.new).facts)) }
    ensures same { OnErr result ((seat_claims seat.new).facts ≡ (seat_claims seat.old).facts) }
{
    if let Err(NoSpace { wanted, found }) = reserve_at(rt, space, seat, holes) {
        return Err(EventFault::NoSpace { wanted, found });
    }
    if let Err(done) = ask(judge, true, n) {
        unreserve_at(rt, space, seat, holes);
        return Err(EventFault::Poison { done });
    }
    Ok(())
}

impl Range {
    ghost use Rattle.range_core.specs.DaxPuts.{AnswersPut, CanPutDax};
    ghost use Rattle.range_core.specs.Judges.{AsksLane};

    /// Writes the iov's next bytes from one place up to another into the sectors of the sample's extent, and leaves a
    /// stamp on each block that has some of them. Holes take sectors of the pool, which were reserved first. The sectors
    /// of holes and of blocks that were never written are made zeros before, and all these blocks are mapped then. There
    /// is one judgement of the lane, of as many blocks as are met. The iov's place moves on by the bytes.
    ///
    /// # Errors
    ///
    /// - `Stale` where the sample's cookie is not the range's.
    /// - `Worn` where the extent is not mapped and the cookie is used up.
    /// - `NoMemory`, before any turn at the pool.
    /// - `NoSpace` where fewer sectors were unreserved than there are holes: `wanted` is their number. No judgement was
    ///   made.
    /// - `Poison` exactly where the judgement failed. The reservation is given back.
    ///
    /// No byte has moved then.
    pub fn dax_put<R: Wait>(
        &mut self,
        rt: &R,
        space: &SpacePool,
        by: Tag,
        lane: &mut Lane,
        seen: Sample,
        from: u64,
        to: u64,
        iov: &mut IovIter,
    ) -> Result<(), EventFault>
        requires can { CanPutDax self.old seen from to iov.old }
        requires pool { self.old.seat.cell ≡ (pool_cell space.now).cell }
        ensures { AnswersPut AsksLane (lane_seen count tells lane.old) (lane_seen count tells lane.new) (pool_cell space.now).opening self.old by seen from to iov.old self.new iov.new result }
    {
        let mut judge = |n: u32| -> Done
            requires { 0 < n }
            ensures { AsksLane (lane_seen count tells lane.entry.now) n result (lane_seen count tells lane.exit.now) }
        { lane.judge(n) };
        self.put_through(rt, space, by, &mut judge, seen, from, to, iov)
    }

    /// `dax_put`, with any judgement of so many blocks.
    fn put_through<R: Wait, F: FnMut(u32) -> Done>(
        &mut self,
        rt: &R,
        space: &SpacePool,
        by: Tag,
        judge: &mut F,
        seen: Sample,
        from: u64,
        to: u64,
        iov: &mut IovIter,
    ) -> Result<(), EventFault>
        requires judge { (m : ℕ) → 0 < m → F.pre judge.old m }
        requires can { CanPutDax self.old seen from to iov.old }
        requires pool { self.old.seat.cell ≡ (pool_cell space.now).cell }
        ensures answers { AnswersPut F.step judge.old judge.new (pool_cell space.now).opening self.old by seen from to iov.old self.new iov.new result }
        ensures met { IsByteRun (run_between self.old.geometry.block_size from to) }
    {
        let run = byte_run(&self.geometry, from, to);
        if let Some(fault) = stale_stop(self.cookie, seen) {
            return Err(fault);
        }
        let changed = kinds_changed(seen.extent.kind);
        if let Some(fault) = worn_stop(self.cookie, changed) {
            return Err(fault);
        }
        let low = (run.first - self.first) as usize;
        let holes = count_run(&IsEmpty {}, &self.cells, low, run.blocks);
        let Ok(()) = self.log.reserve(self.cells.len()) else {
            return Err(EventFault::NoMemory);
        };
        let Ok(mut sectors) = Vec::with_capacity(self.log.allocator(), holes as usize) else {
            return Err(EventFault::NoMemory);
        };
        let n = run.blocks as u32;
        if let Err(fault) = reserve_judged(rt, space, &mut self.seat, holes, judge, n) {
            return Err(fault);
        }
        take_at(rt, space, &mut self.seat, holes, &mut sectors);
        place_run(&IsEmpty {}, &mut self.cells, low, run.blocks, sectors);
        put_run(&mut self.cells, self.first, run, iov);
        self.log.add(run.first, run.blocks, stamp_done(by));
        self.cookie = next_cookie(self.cookie, changed);
        Ok(())
    }
}

/// The turn of `Range::dax_put`, with any judgement. It answers the same.
#[derive(Drop)]
pub struct DaxPutRun<'a, R, F> {
    pub rt: &'a R,
    pub space: &'a SpacePool,
    pub by: Tag,
    /// A judgement of so many blocks.
    pub judge: F,
    pub seen: Sample,
    pub from: u64,
    pub to: u64,
    pub iov: &'a mut IovIter,
}

impl<'a, R: Wait, F: FnMut(u32) -> Done> Change<Range> for DaxPutRun<'a, R, F> {
    ghost use Rattle.range_core.specs.ClaimsView.{MayTurn};
    ghost use Rattle.range_core.specs.DaxPuts.{MayPutDax, PutDax};

    type Out = Result<(), EventFault>;

    ghost ready = { λ change opening history claims. MayTurn claims (MayPutDax F.pre change opening history) };

    ghost does = { λ change _ _ before claims later after left out entry. PutDax F.step change before claims later after left out entry };

    fn apply(&mut self, value: &mut Range, _claims: &mut Claims) -> Result<(), EventFault> {
        let answer = value.put_through(
            self.rt,
            self.space,
            self.by,
            &mut self.judge,
            self.seen,
            self.from,
            self.to,
            self.iov,
        );
        value.is_kept();
        answer
    }
}
