//! Blocks are read into the page cache.
ghost use Rattle.std.specs.Prelude.{◌≡◌, ◌+◌, ◌≤◌, [], Some, drop, length, map, vec_len};
ghost use Rattle.iob_base.specs.Parting.{pages_of, without_page};
ghost use Rattle.range_core.specs.LendReads.{fill_run, filled_of, fills_with, paged_of};
ghost use Rattle.range_core.specs.OnRun.{on_each};
ghost use Rattle.range_core.specs.Refusals.{◌orElse◌, away, warm};

use super::Range;
use crate::cell::{Cell, continues};
use crate::claims::Claims;
use crate::fault::EventFault;
use crate::fresh::add_pages;
use crate::leading::{Joins, leading_run, most_lent};
use crate::lend::{bring_home, lend_blocks};
use crate::lending::{Away, Lender, Lent};
use crate::loan_answer::LendRefused;
use crate::spare::{Spare, keep_pages};
use crate::stops::{Hinders, IsAway, IsWarm, is_cold_block};
use fault_device::Done;
use io_model::Kind;
use iob_base::{Op, Page, Part, Parts};
use turn_cell::Change;

/// A block is read together with one of this kind, the first of its run.
#[derive(Clone, Copy)]
struct IsReadWith {
    first: Kind,
}

impl Joins for IsReadWith {
    ghost use Rattle.range_core.specs.LendReads.{fills_with};

    ghost joins = { λ test. fills_with test.first };

    fn has(&self, i: u64, cell: &Cell) -> bool {
        if !is_cold_block(cell) {
            return false;
        }
        continues(self.first, i, cell.kind)
    }
}

/// Of the blocks from the place `at` on, at most `most`, how many are read together with the first.
fn cold_run(cells: &[Cell], at: usize, most: usize) -> usize
    requires few { length cells.now ≤ 65536 }
    requires within { at ≤ length cells.now }
    ensures { result ≡ fill_run (drop at cells.now) most }
{
    cold_prefix(&cells[at..], most)
}

fn cold_prefix(cells: &[Cell], most: usize) -> usize
    requires { length cells.now ≤ 65536 }
    ensures { result ≡ fill_run cells.now most }
{
    match cells {
        [] => 0,
        [head, ..] => leading_run(&IsReadWith { first: head.kind }, cells, most),
    }
}

/// Why a block is not read: it is away, or there is nothing to read of it.
fn is_not_cold(block: u64, cell: &Cell) -> Option<EventFault>
    ensures { result ≡ away block cell.now orElse warm block cell.now }
{
    let away = IsAway {}.at(block, cell);
    if away.is_some() {
        return away;
    }
    IsWarm {}.at(block, cell)
}

fn put_page(cell: &mut Cell, page: Page)
    ensures { cell.new ≡ record cell.old { page = Some page } }
{
    cell.page = Some(page);
}

/// Gives the blocks from the place `low` on the pages of these parts.
fn put_pages(cells: &mut Vec<Cell>, low: usize, parts: &mut [Part])
    requires { low + length parts.old ≤ vec_len cells.old }
    ensures cells { cells.new.items ≡ on_each (paged_of (pages_of parts.old)) 0 low (length parts.old) cells.old.items }
    ensures parts { parts.new ≡ map without_page parts.old }
{
    let mut at = low;
    for part in parts.iter_mut() {
        let page = part.take_page();
        put_page(&mut cells[at], page);
        at += 1;
    }
}

/// Brings the sectors of a read home, to the blocks from the place `low` on, which get its pages where it did not fail.
/// It answers the list, empty.
fn fill_run_back(
    cells: &mut Vec<Cell>,
    low: usize,
    parts: Parts,
    failed: bool,
    spare: &mut Spare,
) -> Parts
    requires { low + length parts ≤ vec_len cells.old }
    ensures cells { cells.new.items ≡ on_each (filled_of failed parts) 0 low (length parts) cells.old.items }
    ensures emptied { result ≡ [] }
{
    let mut pages = bring_home(cells, low, parts);
    if failed {
        keep_pages(spare, &mut pages);
        return pages;
    }
    put_pages(cells, low, pages.as_mut_slice());
    pages.clear();
    pages
}

impl Range {
    ghost use Rattle.std.specs.Prelude.{◌-◌, None, Some, IfErr, IfOk, OnErr, OnOk, unwrap_or};
    ghost use Rattle.fault_device.specs.Transfer.{CanTransfer};
    ghost use Rattle.range_core.specs.ClaimsView.{released};
    ghost use Rattle.range_core.specs.LendReads.{IsColdLoan, IsColdRun, MayFill, fill_length, after_fill_back, lent_cold};
    ghost use Rattle.range_core.specs.Lends.{TakesHold};
    ghost use Rattle.range_core.specs.Lookups.{first_kind};
    ghost use Rattle.range_core.specs.RangeView.{LiesAt, cells_from};
    ghost use Rattle.range_core.specs.Refusals.{lend_read_refusal};
    ghost use Rattle.range_core.specs.Returning.{ComesBack};

    /// How many blocks from `block` on are read together, of at most `blocks` and those that one loan may have.
    fn cold_blocks(&self, block: u64, blocks: u64) -> Result<usize, EventFault>
        requires { LiesAt self.now block blocks }
        ensures refused { IfErr result (λ e. lend_read_refusal self.now block ≡ Some e) }
        ensures made { OnOk result (lend_read_refusal self.now block ≡ None) }
        ensures count { IfOk result (λ n. n ≡ fill_length self.now block blocks) }
        ensures run { IfOk result (λ n. IsColdRun self.now.cells (block - self.now.first) n) }
    {
        let low = (block - self.first) as usize;
        if let Some(fault) = is_not_cold(block, &self.cells[low]) {
            return Err(fault);
        }
        let most = most_lent(self.geometry, block, blocks);
        Ok(cold_run(&self.cells, low, most))
    }

    /// Lends the sectors of blocks that are mapped, at home and not uptodate, for a read of them into the cache: the
    /// longest run from `block` on, of at most `blocks` and at most 16, in one folio and with device numbers that follow
    /// each other. They go out in the list that is handed in empty, each with a page of a block's length, whose bytes are
    /// any. The claims name them until `fill_back`.
    ///
    /// # Errors
    ///
    /// `Away` where `block` is lent out, `Settled` where it is uptodate or not mapped, and `NoMemory`. Nothing has
    /// changed then, and the list comes back empty.
    pub fn lend_read(
        &mut self,
        claims: &mut Claims,
        block: u64,
        blocks: u64,
        mut parts: Parts,
    ) -> Result<Lent, LendRefused>
        requires may { MayFill self.old claims.old block blocks }
        requires empty { parts ≡ [] }
        ensures refused { IfErr result (λ e. e.fault ≡ unwrap_or (lend_read_refusal self.old block) EventFault.NoMemory) }
        ensures list { IfErr result (λ e. e.parts ≡ []) }
        ensures made { OnOk result (lend_read_refusal self.old block ≡ None) }
        ensures unchanged { OnErr result (self.new ≡ self.old) }
        ensures free { OnErr result (claims.new ≡ claims.old) }
        ensures run { OnOk result (IsColdRun self.old.cells (block - self.old.first) (fill_length self.old block blocks)) }
        ensures state { OnOk result (self.new ≡ lent_cold self.old block blocks) }
        ensures lent { IfOk result (IsColdLoan self.old block blocks) }
        ensures ready { IfOk result (λ lent. CanTransfer lent.parts) }
        ensures claims { IfOk result (λ lent. TakesHold claims.old claims.new lent Lender.Reading (first_kind (cells_from self.old block))) }
    {
        let low = (block - self.first) as usize;
        let n = match self.cold_blocks(block, blocks) {
            Ok(n) => n,
            Err(fault) => return Err(LendRefused { fault, parts }),
        };
        let Ok(()) = self.log.reserve(self.cells.len()) else {
            return Err(LendRefused {
                fault: EventFault::NoMemory,
                parts,
            });
        };
        let alloc = self.log.allocator();
        let size = self.geometry.block_size();
        let Ok(()) = add_pages(alloc, size, n, &mut self.spare, &mut parts) else {
            return Err(LendRefused {
                fault: EventFault::NoMemory,
                parts,
            });
        };
        let away = Away {
            ticket: self.tickets,
            lender: Lender::Reading,
        };
        self.tickets = self.tickets.wrapping_add(1);
        Ok(lend_blocks(
            &mut self.cells,
            low,
            block,
            parts,
            away,
            claims,
            &mut self.spare,
        ))
    }

    /// Takes blocks back from a read of them. Where it did not fail they have its pages from now on, uptodate and clean.
    /// Where it failed none is uptodate. It answers the list, empty. It has no refusal and takes no memory.
    pub fn fill_back(&mut self, claims: &mut Claims, back: Lent, done: Done) -> Parts
        requires { ComesBack self.old claims.old Lender.Reading Op.Read back done }
        ensures state { self.new ≡ after_fill_back self.old back done }
        ensures claims { claims.new ≡ released claims.old }
        ensures emptied { result ≡ [] }
    {
        let Lent {
            ticket: _,
            block,
            parts,
        } = back;
        claims.release();
        let low = (block - self.first) as usize;
        fill_run_back(&mut self.cells, low, parts, done.failed, &mut self.spare)
    }
}

/// The turn of `Range::lend_read`, which lends blocks for a read into the cache. It answers the same.
#[derive(Drop)]
pub struct LendReadRun {
    pub block: u64,
    pub blocks: u64,
    /// An empty list for what is lent, until the turn takes it.
    pub parts: Option<Parts>,
}

impl Change<Range> for LendReadRun {
    ghost use Rattle.range_core.specs.ClaimsView.{MayTurn};
    ghost use Rattle.std.specs.Prelude.{MatchResult};
    ghost use Rattle.range_core.specs.LendReads.{LentCold, ReadyToFill, RefusedCold};

    type Out = Result<Lent, LendRefused>;

    ghost ready = { λ change opening _ claims. MayTurn claims (ReadyToFill change opening claims) };

    ghost does = { λ change opening _ before claims later after left out entry. MatchResult out (λ lent. LentCold opening change later before after claims left lent entry) (λ refused. RefusedCold change later before after claims left refused entry) };

    fn apply(&mut self, value: &mut Range, claims: &mut Claims) -> Result<Lent, LendRefused> {
        let Some(parts) = self.parts.take() else {
            unreachable!()
        };
        value.lend_read(claims, self.block, self.blocks, parts)
    }
}

/// The turn of `Range::fill_back`, which takes blocks back from a read into the cache. It answers their list, empty.
#[derive(Drop)]
pub struct FillBackRun {
    /// What comes back, until the turn takes it.
    pub back: Option<Lent>,
    pub done: Done,
}

impl Change<Range> for FillBackRun {
    ghost use Rattle.range_core.specs.ClaimsView.{MayTurn};
    ghost use Rattle.range_core.specs.LendReads.{Filled};
    ghost use Rattle.iob_base.specs.declared.stamp.Op.TheVariants.{Read};
    ghost use Rattle.range_core.specs.Returning.{BringsBack};
    ghost use Rattle.range_core.specs.declared.lending.Lender.TheVariants.{Reading};

    type Out = Parts;

    ghost ready = { λ change opening _ claims. MayTurn claims (BringsBack opening claims Reading Read change.back change.done) };

    ghost does = { λ change _ _ before claims later after left out entry. Filled change later before after claims left out entry };

    fn apply(&mut self, value: &mut Range, claims: &mut Claims) -> Parts {
        let Some(back) = self.back.take() else {
            unreachable!()
        };
        value.fill_back(claims, back, self.done)
    }
}
