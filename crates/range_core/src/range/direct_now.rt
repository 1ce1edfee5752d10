//! A run of blocks is read past the page cache, inside one turn.
ghost use Rattle.std.specs.Prelude.{◌≡◌, ℕ, ◌+◌, ◌<◌, ◌≤◌, ◌^◌, drop, length, All, vec_len};
ghost use Rattle.std.specs.List.{prefix_len};
ghost use Rattle.fault_device.specs.LaneView.{lane_seen};
ghost use Rattle.iob_base.specs.Parting.{pages_of};
ghost use Rattle.range_core.specs.BlockTruth.{IsWholePage};
ghost use Rattle.range_core.specs.Cells.{IsPlaced};
ghost use Rattle.range_core.specs.DirectNows.{AreReady, filled_page, filled_part, is_clean_home, now_length, parts_filled, without_mapped_page};
ghost use Rattle.range_core.specs.Judges.{AskedNow};
ghost use Rattle.range_core.specs.Kinds.{is_mapped};
ghost use Rattle.range_core.specs.OnRun.{on_run};
ghost use Rattle.range_core.specs.Refusals.{◌orElse◌, away, dirty, first_that_stops};

use super::Range;
use crate::cell::{Cell, is_mapped_kind};
use crate::claims::Claims;
use crate::fault::EventFault;
use crate::fresh::zero_bytes;
use crate::run::run_at;
use crate::spare::{Spare, shed_page};
use crate::stamps::stamp_done;
use crate::stops::{IsAway, IsDirty, first_stop};
use fault_device::{Done, Lane};
use io_model::Kind;
use iob_base::{Page, Part, Parts, Tag};
use turn_cell::Change;

/// What hinders a read from the first of these blocks on.
fn now_stop(block: u64, cells: &[Cell]) -> Option<EventFault>
    requires { block + length cells.now < 2 ^ 64 }
    ensures { result ≡ first_that_stops away block cells.now orElse first_that_stops dirty block cells.now }
{
    if let Some(fault) = first_stop(&IsAway {}, block, cells) {
        return Some(fault);
    }
    first_stop(&IsDirty {}, block, cells)
}

/// Whether a block is at home and not dirty.
fn is_clean(cell: &Cell) -> bool
    ensures { result ≡ is_clean_home cell.now }
{
    if cell.away.is_some() {
        return false;
    }
    !cell.dirty
}

/// How many blocks at the head of these are at home and not dirty.
fn clean_run(cells: &[Cell]) -> usize
    ensures { result ≡ prefix_len is_clean_home cells.now }
{
    cells.iter().take_while(|cell| is_clean(cell)).count()
}

/// How many blocks can be read at once from the place `at` on, of at most `most`.
fn now_run(cells: &[Cell], at: usize, most: usize) -> usize
    requires few { length cells.now ≤ 65536 }
    requires within { at ≤ length cells.now }
    ensures { result ≡ now_length (drop at cells.now) most }
{
    let run = run_at(cells, at, most);
    clean_run(&cells[at..][..run])
}

/// One judgement of `n` blocks, where they are mapped.
pub(super) fn ask<F: FnMut(u32) -> Done>(judge: &mut F, mapped: bool, n: u32) -> Result<(), Done>
    requires { F.pre judge.old n }
    ensures { AskedNow mapped (λ done. F.step judge.old n done judge.new) (judge.new ≡ judge.old) result }
{
    if !mapped {
        return Ok(());
    }
    let done = judge(n);
    if done.failed {
        return Err(done);
    }
    Ok(())
}

/// Fills a page with what the device has of a block at home.
fn fill_page(size: u32, cell: &Cell, page: &mut Page)
    requires placed { IsPlaced size cell.now }
    requires home { cell.now.away ≡ None }
    requires whole { IsWholePage size page.old }
    ensures { page.new ≡ filled_page size cell.now page.old }
{
    if !is_mapped_kind(cell.kind) {
        zero_bytes(page);
        return;
    }
    let Some(sector) = &cell.sector else {
        unreachable!()
    };
    page.bytes.copy_from_slice(sector.bytes());
}

/// Fills the page of a part with what the device has of a block at home. Its sector stays.
fn fill_part(size: u32, cell: &Cell, part: &mut Part)
    requires placed { IsPlaced size cell.now }
    requires home { cell.now.away ≡ None }
    requires whole { IsWholePage size part.old.page }
    ensures { part.new ≡ filled_part size cell.now part.old }
{
    fill_page(size, cell, &mut part.page);
}

/// Fills the pages of the first `n` parts with what the device has of the blocks from the place `low` on.
fn fill_parts(size: u32, cells: &Vec<Cell>, low: usize, n: usize, parts: &mut [Part])
    requires cells { low + n ≤ vec_len cells.now }
    requires parts { n ≤ length parts.old }
    requires ready { AreReady size n (drop low cells.now.items) }
    requires whole { All (IsWholePage size) (pages_of parts.old) }
    ensures { parts.new ≡ parts_filled size n (drop low cells.now.items) parts.old }
{
    for i in 0..n {
        fill_part(size, &cells[low + i], &mut parts[i]);
    }
}

/// A mapped block loses its page.
fn drop_mapped_page(cell: &mut Cell, spare: &mut Spare)
    ensures { cell.new ≡ without_mapped_page cell.old }
{
    if !is_mapped_kind(cell.kind) {
        return;
    }
    shed_page(cell, spare);
}

/// Each mapped block of the run loses its page.
fn drop_mapped_run(cells: &mut Vec<Cell>, low: usize, n: usize, spare: &mut Spare)
    requires { low + n ≤ vec_len cells.old }
    ensures { cells.new.items ≡ on_run without_mapped_page low n cells.old.items }
{
    for i in 0..n {
        drop_mapped_page(&mut cells[low + i], spare);
    }
}

impl Range {
    ghost use Rattle.range_core.specs.DirectNows.{AnswersNow, CanReadNow};
    ghost use Rattle.range_core.specs.Judges.{AsksLane};

    /// Reads, inside its turn and past the page cache, the longest run of one extent from `block` on that is at home and
    /// not dirty, of at most as many blocks as there are pages. The pages come in a list of parts with blank sectors. It
    /// fills the first pages, stamps these blocks and answers their number. Mapped blocks take one judgement of the lane,
    /// and lose their pages in the cache; blocks of other kinds read as zeros and take none. Pages keep their numbers and
    /// lengths.
    ///
    /// # Errors
    ///
    /// `Away` and `Dirty` name the first block. `NoMemory` comes before any judgement, and `Poison` exactly where the
    /// judgement failed. All leave the range and the pages as they were.
    pub fn direct_now(
        &mut self,
        by: Tag,
        lane: &mut Lane,
        block: u64,
        pages: &mut Parts,
    ) -> Result<u64, EventFault>
        requires { CanReadNow self.old block (pages_of pages.old) }
        ensures { AnswersNow AsksLane (lane_seen count tells lane.old) (lane_seen count tells lane.new) self.old by block pages.old self.new pages.new result }
    {
        let mut judge = |n: u32| -> Done
            requires { 0 < n }
            ensures { AsksLane (lane_seen count tells lane.entry.now) n result (lane_seen count tells lane.exit.now) }
        { lane.judge(n) };
        self.read_now(by, &mut judge, block, pages)
    }

    /// `direct_now`, with any judgement of so many blocks.
    fn read_now<F: FnMut(u32) -> Done>(
        &mut self,
        by: Tag,
        judge: &mut F,
        block: u64,
        pages: &mut Parts,
    ) -> Result<u64, EventFault>
        requires judge { (m : ℕ) → 0 < m → F.pre judge.old m }
        requires can { CanReadNow self.old block (pages_of pages.old) }
        ensures { AnswersNow F.step judge.old judge.new self.old by block pages.old self.new pages.new result }
    {
        let at = (block - self.first) as usize;
        if let Some(fault) = now_stop(block, &self.cells[at..at + 1]) {
            return Err(fault);
        }
        let n = now_run(&self.cells, at, pages.len());
        let Ok(()) = self.log.reserve(self.cells.len()) else {
            return Err(EventFault::NoMemory);
        };
        if let Err(done) = ask(judge, is_mapped_kind(self.cells[at].kind), n as u32) {
            return Err(EventFault::Poison { done });
        }
        let size = self.geometry.block_size();
        fill_parts(size, &self.cells, at, n, pages.as_mut_slice());
        drop_mapped_run(&mut self.cells, at, n, &mut self.spare);
        self.log.add(block, n, stamp_done(by));
        Ok(n as u64)
    }
}

/// The turn of `Range::direct_now`, with any judgement. It reads a run of blocks past the page cache, and answers the
/// same.
#[derive(Drop)]
pub struct DirectNowRun<'a, F> {
    pub by: Tag,
    /// A judgement of so many blocks.
    pub judge: F,
    pub block: u64,
    /// The list of the pages, whose sectors are blank.
    pub pages: &'a mut Parts,
}

impl<'a, F: FnMut(u32) -> Done> Change<Range> for DirectNowRun<'a, F> {
    ghost use Rattle.range_core.specs.ClaimsView.{MayTurn};
    ghost use Rattle.std.specs.Prelude.{ℕ, ◌<◌};
    ghost use Rattle.range_core.specs.DirectNows.{CanReadNow};
    ghost use Rattle.range_core.specs.DirectNowTurns.{ReadsNow};

    type Out = Result<u64, EventFault>;

    ghost ready = { λ change opening _ claims. MayTurn claims (((m : ℕ) → 0 < m → F.pre change.judge m) × CanReadNow opening change.block (pages_of change.pages.now)) };

    ghost does = { λ change opening history before claims later after left out entry. ReadsNow F.step change opening history before claims later after left out entry };

    fn apply(&mut self, value: &mut Range, _claims: &mut Claims) -> Result<u64, EventFault> {
        value.read_now(self.by, &mut self.judge, self.block, self.pages)
    }
}
