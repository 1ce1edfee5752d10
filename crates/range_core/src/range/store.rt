//! Bytes are laid over blocks in the page cache.
ghost use Rattle.std.specs.Prelude.{◌≡◌, ◌+◌, ◌-◌, ◌<◌, ◌≤◌, true, vec_len, All, None, Some, IfErr, OnErr, OnOk, length, unwrap_or};
ghost use Rattle.io_model.specs.Effects.{overlay};
ghost use Rattle.range_core.specs.ByteRuns.{HasNext, IsByteRun, IsRunIn, after_bytes, run_between};
ghost use Rattle.range_core.specs.EntryCounts.{one_where};
ghost use Rattle.range_core.specs.OnRun.{count_on, on_each};
ghost use Rattle.range_core.specs.Pages.{IsCachePage};
ghost use Rattle.range_core.specs.Paging.{HasWholePage, filled, lacks_page};
ghost use Rattle.range_core.specs.ReadyPages.{IsReadyFor};
ghost use Rattle.range_core.specs.Stores.{dirtied, next_bytes, past, stored};

use super::Range;
use super::store_zeros::clear_page;
use crate::cell::Cell;
use crate::claims::Claims;
use crate::cookie::stale_stop;
use crate::fault::EventFault;
use crate::fresh::any_pages;
use crate::paging::{NeedsPage, count_needs};
use crate::parts::{BlockPart, ByteRun, block_part, byte_run, is_in_part};
use crate::sample::Sample;
use crate::stamps::stamp_done;
use crate::stops::{Hinders, IsAwayWithPage, first_stop, is_cold_block};
use iob_base::{Items, Page, Tag};
use iov_iter::IovIter;
use turn_cell::Change;

/// The block would have to be read from the device first, since the run covers it in part.
#[derive(Clone, Copy)]
struct IsColdInPart {
    run: ByteRun,
}

impl Hinders for IsColdInPart {
    ghost use Rattle.range_core.specs.Refusals.{cold_in_part};

    ghost hinders = { λ test. cold_in_part test.run.size test.run.from test.run.to };

    fn at(&self, block: u64, cell: &Cell) -> Option<EventFault> {
        if !is_cold_block(cell) {
            return None;
        }
        if is_in_part(self.run, block) {
            Some(EventFault::Cold { block })
        } else {
            None
        }
    }
}

fn write_page(page: Page, part: BlockPart, iov: &mut IovIter) -> Page
    requires whole { part.at + part.length ≤ length page.bytes }
    requires room { HasNext iov.old part.length }
    ensures page { result ≡ record page { bytes = overlay part.at (next_bytes iov.old part.length) page.bytes } }
    ensures iov { iov.new ≡ past iov.old part.length }
{
    let Page { number, bytes } = page;
    let mut bytes = bytes.into_vec();
    iov.copy_from(&mut bytes[part.at..part.at + part.length]);
    Page {
        number,
        bytes: Items::from_vec(bytes),
    }
}

/// A page of any bytes, with zeros around a part.
fn clear_around(size: u32, page: Page, part: BlockPart) -> Page
    requires page { IsCachePage size page }
    requires inside { part.at + part.length ≤ size }
    ensures { IsReadyFor size part result }
{
    let end = part.at + part.length;
    let before = BlockPart {
        at: 0,
        length: part.at,
    };
    let behind = BlockPart {
        at: end,
        length: size as usize - end,
    };
    let first = clear_page(page, before);
    clear_page(first, behind)
}

/// The next page of a stock, with zeros around a part.
fn next_page(size: u32, part: BlockPart, stock: &mut Vec<Page>) -> Page
    requires some { 0 < vec_len stock.old }
    requires kept { All (IsCachePage size) stock.old.items }
    requires inside { part.at + part.length ≤ size }
    ensures page { IsReadyFor size part result }
    ensures left { vec_len stock.new + 1 ≡ vec_len stock.old }
    ensures rest { All (IsCachePage size) stock.new.items }
{
    let Some(page) = stock.pop() else {
        unreachable!()
    };
    clear_around(size, page, part)
}

fn put_part(cell: &mut Cell, page: Page, part: BlockPart, iov: &mut IovIter)
    requires whole { part.at + part.length ≤ length page.bytes }
    requires room { HasNext iov.old part.length }
    ensures cell { cell.new ≡ record cell.old { page = Some (record page { bytes = overlay part.at (next_bytes iov.old part.length) page.bytes }); dirty = true } }
    ensures iov { iov.new ≡ past iov.old part.length }
{
    cell.page = Some(write_page(page, part, iov));
    cell.dirty = true;
}

/// Lays the iov's next bytes over a part of a block without a page, in the next page of a stock.
fn store_new(cell: &mut Cell, size: u32, part: BlockPart, stock: &mut Vec<Page>, iov: &mut IovIter)
    requires none { cell.old.page ≡ None }
    requires inside { part.at + part.length ≤ size }
    requires some { 0 < vec_len stock.old }
    requires kept { All (IsCachePage size) stock.old.items }
    requires room { HasNext iov.old part.length }
    ensures cell { cell.new ≡ dirtied (overlay part.at (next_bytes iov.old part.length)) (filled size cell.old) }
    ensures left { vec_len stock.new + 1 ≡ vec_len stock.old }
    ensures rest { All (IsCachePage size) stock.new.items }
    ensures iov { iov.new ≡ past iov.old part.length }
{
    let page = next_page(size, part, stock);
    put_part(cell, page, part, iov);
}

/// Lays the iov's next bytes over a part of a block, in its own page or in the next one of a stock.
fn store_part(cell: &mut Cell, size: u32, part: BlockPart, stock: &mut Vec<Page>, iov: &mut IovIter)
    requires own { HasWholePage size cell.old }
    requires inside { part.at + part.length ≤ size }
    requires some { lacks_page cell.old ≡ true → 0 < vec_len stock.old }
    requires kept { All (IsCachePage size) stock.old.items }
    requires room { HasNext iov.old part.length }
    ensures cell { cell.new ≡ dirtied (overlay part.at (next_bytes iov.old part.length)) (filled size cell.old) }
    ensures left { vec_len stock.new + one_where (lacks_page cell.old) ≡ vec_len stock.old }
    ensures rest { All (IsCachePage size) stock.new.items }
    ensures iov { iov.new ≡ past iov.old part.length }
{
    let Some(page) = cell.page.take() else {
        return store_new(cell, size, part, stock, iov);
    };
    put_part(cell, page, part, iov);
}

fn store_run(
    cells: &mut Vec<Cell>,
    first: u64,
    run: ByteRun,
    stock: &mut Vec<Page>,
    iov: &mut IovIter,
)
    requires run { IsByteRun run }
    requires low { first ≤ run.first }
    requires high { run.first + run.blocks ≤ first + vec_len cells.old }
    requires pages { All (HasWholePage run.size) cells.old.items }
    requires stock { vec_len stock.old ≡ count_on lacks_page (run.first - first) run.blocks cells.old.items }
    requires kept { All (IsCachePage run.size) stock.old.items }
    requires room { HasNext iov.old (run.to - run.from) }
    ensures cells { cells.new.items ≡ on_each (stored run (next_bytes iov.old (run.to - run.from))) 0 (run.first - first) run.blocks cells.old.items }
    ensures iov { iov.new ≡ past iov.old (run.to - run.from) }
{
    let low = (run.first - first) as usize;
    for k in 0..run.blocks {
        let part = block_part(run, k);
        store_part(&mut cells[low + k], run.size, part, stock, iov);
    }
}

impl Range {
    ghost use Rattle.range_core.specs.Paging.{HaveWholePages};
    ghost use Rattle.range_core.specs.Refusals.{store_refusal};
    ghost use Rattle.range_core.specs.Stores.{CanStore, after_store, stored};

    pub(super) fn store_fault(&self, seen: Sample, run: ByteRun) -> Option<EventFault>
        requires { IsRunIn self.now run }
        ensures { result ≡ store_refusal self.now seen run.from run.to }
    {
        if let Some(fault) = stale_stop(self.cookie, seen) {
            return Some(fault);
        }
        let low = (run.first - self.first) as usize;
        let met = &self.cells[low..low + run.blocks];
        if let Some(fault) = first_stop(&IsAwayWithPage {}, run.first, met) {
            return Some(fault);
        }
        first_stop(&IsColdInPart { run }, run.first, met)
    }

    fn store_blocks(&mut self, by: Tag, run: ByteRun, iov: &mut IovIter) -> Result<(), EventFault>
        requires run { IsRunIn self.old run }
        requires pages { HaveWholePages self.old }
        requires room { HasNext iov.old (run.to - run.from) }
        ensures err { IfErr result (λ e. e ≡ EventFault.NoMemory) }
        ensures unchanged { OnErr result (self.new ≡ self.old) }
        ensures nothing { OnErr result (iov.new ≡ iov.old) }
        ensures state { OnOk result (self.new ≡ after_bytes (stored run (next_bytes iov.old (run.to - run.from))) self.old by run) }
        ensures moved { OnOk result (iov.new ≡ past iov.old (run.to - run.from)) }
    {
        let Ok(()) = self.log.reserve(self.cells.len()) else {
            return Err(EventFault::NoMemory);
        };
        let alloc = self.log.allocator();
        let low = (run.first - self.first) as usize;
        let many = count_needs(&NeedsPage {}, &self.cells, low, run.blocks);
        let Ok(mut stock) = any_pages(alloc, run.size, many, &mut self.spare) else {
            return Err(EventFault::NoMemory);
        };
        store_run(&mut self.cells, self.first, run, &mut stock, iov);
        self.log.add(run.first, run.blocks, stamp_done(by));
        Ok(())
    }

    /// Lays the iov's next bytes over the blocks from one place up to another, all in one folio and in the sample's
    /// extent, which is no hole. The blocks that have some of these bytes become uptodate and dirty, and each gets a
    /// stamp. Around the bytes a block without a page is zeros. The iov's place moves on by the bytes.
    ///
    /// # Errors
    ///
    /// - `Stale` where the cookie of the sample is not the range's.
    /// - `Away` of the first block that is lent for a read or to a caller's own pages. A block that is lent for writeback
    ///   hinders nothing, since a snapshot of its page is written.
    /// - `Cold` of the first block that is covered in part, and is mapped, at home and not uptodate.
    /// - `NoMemory`, which nothing else explains.
    ///
    /// Nothing has changed then.
    pub fn store(
        &mut self,
        by: Tag,
        seen: Sample,
        from: u64,
        to: u64,
        iov: &mut IovIter,
    ) -> Result<(), EventFault>
        requires can { CanStore self.old seen from to iov.old }
        requires pages { HaveWholePages self.old }
        ensures refused { IfErr result (λ e. e ≡ unwrap_or (store_refusal self.old seen from to) EventFault.NoMemory) }
        ensures made { OnOk result (store_refusal self.old seen from to ≡ None) }
        ensures unchanged { OnErr result (self.new ≡ self.old) }
        ensures nothing { OnErr result (iov.new ≡ iov.old) }
        ensures state { OnOk result (self.new ≡ after_store self.old by from to (next_bytes iov.old (to - from))) }
        ensures moved { OnOk result (iov.new ≡ past iov.old (to - from)) }
        ensures met { IsByteRun (run_between self.old.geometry.block_size from to) }
    {
        let run = byte_run(&self.geometry, from, to);
        if let Some(fault) = self.store_fault(seen, run) {
            return Err(fault);
        }
        self.store_blocks(by, run, iov)
    }
}

/// The turn of `Range::store`, which lays an iov's bytes over the cache. It answers the same.
#[derive(Drop)]
pub struct StoreRun<'a> {
    pub by: Tag,
    pub seen: Sample,
    pub from: u64,
    pub to: u64,
    pub iov: &'a mut IovIter,
}

impl<'a> Change<Range> for StoreRun<'a> {
    ghost use Rattle.range_core.specs.ClaimsView.{MayTurn};
    ghost use Rattle.range_core.specs.Stores.{MayStore, Stored};

    type Out = Result<(), EventFault>;

    ghost ready = { λ change opening seen claims. MayTurn claims (MayStore change opening seen) };

    ghost does = { λ change _ _ before claims later after left out entry. Stored change later before after claims left out entry };

    fn apply(&mut self, value: &mut Range, _claims: &mut Claims) -> Result<(), EventFault> {
        value.store(self.by, self.seen, self.from, self.to, self.iov)
    }
}
