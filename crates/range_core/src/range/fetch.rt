//! Bytes are copied out of the page cache.
ghost use Rattle.std.specs.Prelude.{◌≡◌, ◌+◌, ◌-◌, ◌≤◌, vec_len, None, IfErr, OnErr, OnOk, IsSomeAnd, length, unwrap_or};
ghost use Rattle.iov_iter.specs.IovView.{written_on};
ghost use Rattle.range_core.specs.ByteRuns.{HasNext, IsByteRun, IsRunIn, after_bytes, part_bytes, run_between, run_bytes};
ghost use Rattle.range_core.specs.Paging.{HavePages, bytes_of, cached_at};

use super::Range;
use crate::cell::Cell;
use crate::claims::Claims;
use crate::fault::EventFault;
use crate::paging::{NeedsPage, give_pages};
use crate::parts::{BlockPart, ByteRun, block_part, byte_run};
use crate::stamps::stamp_done;
use crate::stops::{IsAwayWithPage, IsCold, first_stop};
use iob_base::Tag;
use iov_iter::IovIter;
use turn_cell::Change;

fn copy_part(cell: &Cell, part: BlockPart, iov: &mut IovIter)
    requires page { IsSomeAnd cell.now.page (λ p. part.at + part.length ≤ length p.bytes) }
    requires room { HasNext iov.old part.length }
    ensures { iov.new ≡ written_on (part_bytes part (bytes_of cell.now.page)) iov.old }
{
    let Some(page) = &cell.page else {
        unreachable!()
    };
    iov.copy_to(&page.bytes.as_slice()[part.at..part.at + part.length]);
}

fn copy_run(cells: &Vec<Cell>, first: u64, run: ByteRun, iov: &mut IovIter)
    requires run { IsByteRun run }
    requires low { first ≤ run.first }
    requires high { run.first + run.blocks ≤ first + vec_len cells.now }
    requires pages { HavePages run first cells.now.items }
    requires room { HasNext iov.old (run.to - run.from) }
    ensures { iov.new ≡ written_on (run_bytes run (cached_at first cells.now.items)) iov.old }
{
    let low = (run.first - first) as usize;
    for k in 0..run.blocks {
        copy_part(&cells[low + k], block_part(run, k), iov);
    }
}

impl Range {
    ghost use Rattle.range_core.specs.Fetches.{CanFetch, after_fetch, cached_run, fetched};
    ghost use Rattle.range_core.specs.Paging.{HaveWholePages, fill_each};
    ghost use Rattle.range_core.specs.Refusals.{fetch_refusal};

    fn fetch_fault(&self, run: ByteRun) -> Option<EventFault>
        requires { IsRunIn self.now run }
        ensures { result ≡ fetch_refusal self.now run.from run.to }
    {
        let low = (run.first - self.first) as usize;
        let met = &self.cells[low..low + run.blocks];
        if let Some(fault) = first_stop(&IsAwayWithPage {}, run.first, met) {
            return Some(fault);
        }
        first_stop(&IsCold {}, run.first, met)
    }

    fn fetch_run(&mut self, by: Tag, run: ByteRun, iov: &mut IovIter) -> Result<(), EventFault>
        requires run { IsRunIn self.old run }
        requires pages { HaveWholePages self.old }
        requires room { HasNext iov.old (run.to - run.from) }
        ensures err { IfErr result (λ e. e ≡ EventFault.NoMemory) }
        ensures unchanged { OnErr result (self.new ≡ self.old) }
        ensures nothing { OnErr result (iov.new ≡ iov.old) }
        ensures state { OnOk result (self.new ≡ after_bytes (fill_each run) self.old by run) }
        ensures bytes { OnOk result (iov.new ≡ written_on (cached_run self.new run) iov.old) }
    {
        let Ok(()) = self.log.reserve(self.cells.len()) else {
            return Err(EventFault::NoMemory);
        };
        let alloc = self.log.allocator();
        let low = (run.first - self.first) as usize;
        let Ok(()) = give_pages(
            alloc,
            run.size,
            &NeedsPage {},
            &mut self.cells,
            low,
            run.blocks,
            &mut self.spare,
        ) else {
            return Err(EventFault::NoMemory);
        };
        copy_run(&self.cells, self.first, run, iov);
        self.log.add(run.first, run.blocks, stamp_done(by));
        Ok(())
    }

    /// Copies the bytes from one place up to another, all in one folio, to the iov, whose place moves on by them, and
    /// leaves a stamp on each block that has some of them. A block without a page that is a hole, or whose space was
    /// never written, gets a page of zeros.
    ///
    /// # Errors
    ///
    /// - `Away` of the first block that is lent for a read or to a caller's own pages.
    /// - `Cold` of the first block that is mapped, at home and not uptodate.
    /// - `NoMemory`, which nothing else explains.
    ///
    /// Nothing has changed then.
    pub fn fetch(
        &mut self,
        by: Tag,
        from: u64,
        to: u64,
        iov: &mut IovIter,
    ) -> Result<(), EventFault>
        requires can { CanFetch self.old from to iov.old }
        requires pages { HaveWholePages self.old }
        ensures refused { IfErr result (λ e. e ≡ unwrap_or (fetch_refusal self.old from to) EventFault.NoMemory) }
        ensures made { OnOk result (fetch_refusal self.old from to ≡ None) }
        ensures unchanged { OnErr result (self.new ≡ self.old) }
        ensures nothing { OnErr result (iov.new ≡ iov.old) }
        ensures state { OnOk result (self.new ≡ after_fetch self.old by from to) }
        ensures bytes { OnOk result (iov.new ≡ written_on (fetched self.new from to) iov.old) }
        ensures met { IsByteRun (run_between self.old.geometry.block_size from to) }
    {
        let run = byte_run(&self.geometry, from, to);
        if let Some(fault) = self.fetch_fault(run) {
            return Err(fault);
        }
        self.fetch_run(by, run, iov)
    }
}

/// The turn of `Range::fetch`, which copies bytes to an iov. It answers the same.
#[derive(Drop)]
pub struct FetchRun<'a> {
    pub by: Tag,
    pub from: u64,
    pub to: u64,
    pub iov: &'a mut IovIter,
}

impl<'a> Change<Range> for FetchRun<'a> {
    ghost use Rattle.range_core.specs.ClaimsView.{MayTurn};
    ghost use Rattle.range_core.specs.Fetches.{CanFetch, Fetched};

    type Out = Result<(), EventFault>;

    ghost ready = { λ change opening _ claims. MayTurn claims (CanFetch opening change.from change.to change.iov.now) };

    ghost does = { λ change opening history before claims later after left out entry. Fetched change later opening history before after claims left out entry };

    fn apply(&mut self, value: &mut Range, _claims: &mut Claims) -> Result<(), EventFault> {
        value.fetch(self.by, self.from, self.to, self.iov)
    }
}
