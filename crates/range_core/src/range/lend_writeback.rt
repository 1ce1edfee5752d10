//! Dirty blocks are written to the device.
ghost use Rattle.std.specs.Prelude.{◌≡◌, ◌+◌, ◌≤◌, [], Some, IfOk, OnErr, OnOk, drop, if◌then◌else◌, length, map, take, vec_len};
ghost use Rattle.iob_base.specs.Parting.{pages_of};
ghost use Rattle.range_core.specs.Kinds.{is_unwritten};
ghost use Rattle.range_core.specs.OnRun.{on_each, on_run};
ghost use Rattle.range_core.specs.Refusals.{◌orElse◌, away, not_ready};
ghost use Rattle.range_core.specs.LendWritebacks.{dirtied_cell, ended_of, page_copy, raise, write_run};

use super::Range;
use crate::cell::{Cell, continues, is_unwritten_kind};
use crate::claims::Claims;
use crate::fault::EventFault;
use crate::fresh::copy_of;
use crate::leading::{Joins, leading_run, most_lent};
use crate::lend::{bring_home, lend_blocks, mark_run_written};
use crate::lending::{Away, Lender, Lent};
use crate::loan_answer::{LendRefused, Written};
use crate::spare::{Spare, keep_pages};
use crate::stops::{Hinders, IsAway, IsNotReady};
use fault_device::Done;
use io_model::Kind;
use iob_base::{Items, Op, Page, Parts, WORN};
use std::alloc::{AllocError, Global};
use turn_cell::Change;

/// A block is written together with one of this kind, the first of its run.
#[derive(Clone, Copy)]
struct IsWrittenWith {
    first: Kind,
}

impl Joins for IsWrittenWith {
    ghost use Rattle.range_core.specs.LendWritebacks.{writes_with};

    ghost joins = { λ test. writes_with test.first };

    fn has(&self, i: u64, cell: &Cell) -> bool {
        if !cell.dirty {
            return false;
        }
        if cell.away.is_some() {
            return false;
        }
        continues(self.first, i, cell.kind)
    }
}

/// Of the blocks from the place `at` on, at most `most`, how many are written together with the first.
fn dirty_run(cells: &[Cell], at: usize, most: usize) -> usize
    requires few { length cells.now ≤ 65536 }
    requires within { at ≤ length cells.now }
    ensures { result ≡ write_run (drop at cells.now) most }
{
    dirty_prefix(&cells[at..], most)
}

fn dirty_prefix(cells: &[Cell], most: usize) -> usize
    requires { length cells.now ≤ 65536 }
    ensures { result ≡ write_run cells.now most }
{
    match cells {
        [] => 0,
        [head, ..] => leading_run(&IsWrittenWith { first: head.kind }, cells, most),
    }
}

/// Why a block is not written: it is away, or there is nothing to write of it, or nowhere to write it to.
fn is_not_dirty(block: u64, cell: &Cell) -> Option<EventFault>
    ensures { result ≡ away block cell.now orElse not_ready block cell.now }
{
    let away = IsAway {}.at(block, cell);
    if away.is_some() {
        return away;
    }
    IsNotReady {}.at(block, cell)
}

fn copy_page(alloc: Global, cell: &Cell, spare: &mut Spare) -> Result<Page, AllocError>
    ensures { IfOk result (λ page. page ≡ page_copy cell.now) }
{
    let Some(page) = &cell.page else {
        return Ok(Page {
            number: u64::MAX,
            bytes: Items::new(alloc),
        });
    };
    copy_of(alloc, page, spare)
}

/// Adds snapshots of the pages of `n` blocks from the place `low` on to an empty list, whose sectors stay blank. Want of
/// memory is the only error, and leaves the list empty.
fn add_copies(
    alloc: Global,
    cells: &[Cell],
    low: usize,
    n: usize,
    spare: &mut Spare,
    parts: &mut Parts,
) -> Result<(), AllocError>
    requires within { low + n ≤ length cells.now }
    requires few { n ≤ 16 }
    requires empty { parts.old ≡ [] }
    ensures copies { OnOk result (pages_of parts.new ≡ map page_copy (take n (drop low cells.now))) }
    ensures none { OnErr result (parts.new ≡ []) }
{
    for i in 0..n {
        let Ok(page) = copy_page(alloc, &cells[low + i], spare) else {
            parts.clear();
            return Err(AllocError);
        };
        parts.push_page(page);
    }
    Ok(())
}

fn mark_dirty(cell: &mut Cell)
    ensures { cell.new ≡ dirtied_cell cell.old }
{
    cell.dirty = true;
}

fn mark_run_dirty(cells: &mut Vec<Cell>, low: usize, n: usize)
    requires { low + n ≤ vec_len cells.old }
    ensures { cells.new.items ≡ on_run dirtied_cell low n cells.old.items }
{
    for i in 0..n {
        mark_dirty(&mut cells[low + i]);
    }
}

/// Brings the sectors of a write home, to the blocks from the place `low` on: these are mapped where it did not fail, and
/// dirty where it failed. It answers the list, empty.
fn write_run_back(
    cells: &mut Vec<Cell>,
    low: usize,
    parts: Parts,
    failed: bool,
    spare: &mut Spare,
) -> Parts
    requires { low + length parts ≤ vec_len cells.old }
    ensures cells { cells.new.items ≡ on_each (ended_of failed parts) 0 low (length parts) cells.old.items }
    ensures emptied { result ≡ [] }
{
    let n = parts.len();
    let mut pages = bring_home(cells, low, parts);
    keep_pages(spare, &mut pages);
    if failed {
        mark_run_dirty(cells, low, n);
        return pages;
    }
    mark_run_written(cells, low, n);
    pages
}

// How many of `n` blocks were written.
fn count_written(n: usize, failed: bool) -> u64
    ensures { result ≡ (if failed then 0 else n) }
{
    if failed { 0 } else { n as u64 }
}

// By how much the cookie rises where blocks of this kind come back from a write: 1 where it maps them, else 0.
fn cookie_raise(kind: Kind, failed: bool) -> u64
    ensures value { result ≡ raise kind failed }
    ensures few { result ≤ 1 }
{
    if failed {
        return 0;
    }
    u64::from(is_unwritten_kind(kind))
}

impl Range {
    ghost use Rattle.std.specs.Prelude.{◌<◌, ◌-◌, ◌^◌, None, All, IfErr, OnErr, OnOk, unwrap_or};
    ghost use Rattle.fault_device.specs.Transfer.{CanTransfer};
    ghost use Rattle.range_core.specs.ClaimsView.{released};
    ghost use Rattle.range_core.specs.Lends.{TakesHold};
    ghost use Rattle.range_core.specs.Lookups.{first_kind};
    ghost use Rattle.range_core.specs.RangeView.{LiesAt, cells_from};
    ghost use Rattle.range_core.specs.Refusals.{lend_writeback_refusal};
    ghost use Rattle.range_core.specs.Returning.{ComesBack};
    ghost use Rattle.range_core.specs.LendWritebacks.{IsDirtyRun, IsWritable, MayWrite, dirty_loan, lent_dirty, write_length, written, written_count};

    /// How many blocks from `block` on are written together, of at most `blocks` and those that one loan may have.
    fn dirty_blocks(&self, block: u64, blocks: u64) -> Result<usize, EventFault>
        requires lies { LiesAt self.now block blocks }
        requires writable { All (IsWritable self.now.geometry.block_size) self.now.cells }
        ensures refused { IfErr result (λ e. lend_writeback_refusal self.now block ≡ Some e) }
        ensures made { OnOk result (lend_writeback_refusal self.now block ≡ None) }
        ensures count { IfOk result (λ n. n ≡ write_length self.now block blocks) }
        ensures run { IfOk result (λ n. IsDirtyRun self.now.cells (block - self.now.first) n) }
    {
        let low = (block - self.first) as usize;
        let cell = &self.cells[low];
        if let Some(fault) = is_not_dirty(block, cell) {
            return Err(fault);
        }
        if is_unwritten_kind(cell.kind) && self.cookie >= WORN {
            return Err(EventFault::Worn {
                cookie: self.cookie,
            });
        }
        let most = most_lent(self.geometry, block, blocks);
        Ok(dirty_run(&self.cells, low, most))
    }

    /// Lends the sectors of blocks that are dirty and at home, with snapshots of their pages, for a write of them to the
    /// device: the longest run from `block` on, of at most `blocks` and at most 16, in one folio, all mapped or all
    /// unwritten, and with device numbers that follow each other. They go out in the list that is handed in empty. The
    /// blocks are clean from now on and stay uptodate. The claims name them until `written_back`.
    ///
    /// # Errors
    ///
    /// `Away` where `block` is lent out, `Settled` where it is not dirty, `Unattached` where it has no space yet, `Worn`
    /// where it was never written and the cookie is used up, and `NoMemory`. Nothing has changed then, and the list comes
    /// back empty.
    pub fn lend_writeback(
        &mut self,
        claims: &mut Claims,
        block: u64,
        blocks: u64,
        mut parts: Parts,
    ) -> Result<Lent, LendRefused>
        requires may { MayWrite self.old claims.old block blocks }
        requires writable { All (IsWritable self.old.geometry.block_size) self.old.cells }
        requires empty { parts ≡ [] }
        ensures refused { IfErr result (λ e. e.fault ≡ unwrap_or (lend_writeback_refusal self.old block) EventFault.NoMemory) }
        ensures list { IfErr result (λ e. e.parts ≡ []) }
        ensures made { OnOk result (lend_writeback_refusal self.old block ≡ None) }
        ensures unchanged { OnErr result (self.new ≡ self.old) }
        ensures free { OnErr result (claims.new ≡ claims.old) }
        ensures run { OnOk result (IsDirtyRun self.old.cells (block - self.old.first) (write_length self.old block blocks)) }
        ensures state { OnOk result (self.new ≡ lent_dirty self.old block blocks) }
        ensures lent { IfOk result (λ lent. lent ≡ dirty_loan self.old block blocks) }
        ensures ready { IfOk result (λ lent. CanTransfer lent.parts) }
        ensures claims { IfOk result (λ lent. TakesHold claims.old claims.new lent Lender.Writeback (first_kind (cells_from self.old block))) }
    {
        let low = (block - self.first) as usize;
        let n = match self.dirty_blocks(block, blocks) {
            Ok(n) => n,
            Err(fault) => return Err(LendRefused { fault, parts }),
        };
        let Ok(()) = self.log.reserve(self.cells.len()) else {
            return Err(LendRefused {
                fault: EventFault::NoMemory,
                parts,
            });
        };
        let alloc = self.log.allocator();
        let Ok(()) = add_copies(alloc, &self.cells, low, n, &mut self.spare, &mut parts) else {
            return Err(LendRefused {
                fault: EventFault::NoMemory,
                parts,
            });
        };
        let away = Away {
            ticket: self.tickets,
            lender: Lender::Writeback,
        };
        self.tickets = self.tickets.wrapping_add(1);
        Ok(lend_blocks(
            &mut self.cells,
            low,
            block,
            parts,
            away,
            claims,
            &mut self.spare,
        ))
    }

    /// Takes blocks back from a write of them, and answers how many were written, and their list, empty. Where the write
    /// did not fail they are mapped, and dirty only where a store changed them meanwhile. Where it failed they are as they
    /// were and dirty, and the count of failed writebacks rises. It has no refusal and takes no memory.
    pub fn written_back(&mut self, claims: &mut Claims, back: Lent, done: Done) -> Written
        requires back { ComesBack self.old claims.old Lender.Writeback Op.Write back done }
        requires unspent { self.old.cookie + 1 < 2 ^ 64 }
        ensures state { self.new ≡ written self.old back done }
        ensures count { result.blocks ≡ written_count back done }
        ensures claims { claims.new ≡ released claims.old }
        ensures emptied { result.parts ≡ [] }
    {
        let Lent {
            ticket: _,
            block,
            parts,
        } = back;
        claims.release();
        let low = (block - self.first) as usize;
        let blocks = count_written(parts.len(), done.failed);
        self.cookie += cookie_raise(self.cells[low].kind, done.failed);
        self.errors = self.errors.saturating_add(u64::from(done.failed));
        let parts = write_run_back(&mut self.cells, low, parts, done.failed, &mut self.spare);
        Written { blocks, parts }
    }
}

/// The turn of `Range::lend_writeback`, which lends dirty blocks for a write. It answers the same.
#[derive(Drop)]
pub struct LendWritebackRun {
    pub block: u64,
    pub blocks: u64,
    /// An empty list for what is lent, until the turn takes it.
    pub parts: Option<Parts>,
}

impl Change<Range> for LendWritebackRun {
    ghost use Rattle.range_core.specs.ClaimsView.{MayTurn};
    ghost use Rattle.std.specs.Prelude.{MatchResult};
    ghost use Rattle.range_core.specs.LendWritebacks.{LentDirty, ReadyToWrite, RefusedDirty};

    type Out = Result<Lent, LendRefused>;

    ghost ready = { λ change opening _ claims. MayTurn claims (ReadyToWrite change opening claims) };

    ghost does = { λ change opening _ before claims later after left out entry. MatchResult out (λ lent. LentDirty opening change later before after claims left lent entry) (λ refused. RefusedDirty change later before after claims left refused entry) };

    fn apply(&mut self, value: &mut Range, claims: &mut Claims) -> Result<Lent, LendRefused> {
        let Some(parts) = self.parts.take() else {
            unreachable!()
        };
        value.lend_writeback(claims, self.block, self.blocks, parts)
    }
}

/// The turn of `Range::written_back`, which takes blocks back from a write of their pages. It answers the same.
#[derive(Drop)]
pub struct WrittenBackRun {
    /// What comes back, until the turn takes it.
    pub back: Option<Lent>,
    pub done: Done,
}

impl Change<Range> for WrittenBackRun {
    ghost use Rattle.range_core.specs.ClaimsView.{MayTurn};
    ghost use Rattle.iob_base.specs.declared.stamp.Op.TheVariants.{Write};
    ghost use Rattle.range_core.specs.Returning.{BringsBack};
    ghost use Rattle.range_core.specs.LendWritebacks.{EndedWriteback};
    ghost use Rattle.range_core.specs.declared.lending.Lender.TheVariants.{Writeback};

    type Out = Written;

    ghost ready = { λ change opening _ claims. MayTurn claims (BringsBack opening claims Writeback Write change.back change.done) };

    ghost does = { λ change _ _ before claims later after left out entry. EndedWriteback change later before after claims left out entry };

    fn apply(&mut self, value: &mut Range, claims: &mut Claims) -> Written {
        let Some(back) = self.back.take() else {
            unreachable!()
        };
        value.written_back(claims, back, self.done)
    }
}
