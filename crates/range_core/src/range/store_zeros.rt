//! Zeros are laid over blocks in the page cache.
ghost use Rattle.std.specs.Prelude.{◌≡◌, ◌+◌, ◌-◌, ◌≤◌, false, vec_len, None, IfErr, OnErr, OnOk, IsSomeAnd, length, unwrap_or};
ghost use Rattle.io_model.specs.Contents.{zeros};
ghost use Rattle.io_model.specs.Effects.{overlay};
ghost use Rattle.range_core.specs.BlockStates.{is_zero_already, state_of};
ghost use Rattle.range_core.specs.ByteRuns.{IsByteRun, IsRunIn, after_bytes, run_between};
ghost use Rattle.range_core.specs.OnRun.{on_each};
ghost use Rattle.range_core.specs.StoreZeros.{HavePagesForZeros, cleared, laid_zeros};

use super::Range;
use crate::cell::Cell;
use crate::claims::Claims;
use crate::fault::EventFault;
use crate::paging::{NeedsPageForZeros, give_pages, is_zero};
use crate::parts::{BlockPart, ByteRun, block_part, byte_run};
use crate::sample::Sample;
use crate::stamps::stamp_done;
use iob_base::{Items, Page, Tag};
use turn_cell::Change;

/// A page with zeros in a part of it.
pub(super) fn clear_page(page: Page, part: BlockPart) -> Page
    requires { part.at + part.length ≤ length page.bytes }
    ensures { result ≡ record page { bytes = overlay part.at (zeros part.length) page.bytes } }
{
    let Page { number, bytes } = page;
    let mut bytes = bytes.into_vec();
    bytes[part.at..part.at + part.length].fill(0);
    Page {
        number,
        bytes: Items::from_vec(bytes),
    }
}

fn clear_part(cell: &mut Cell, part: BlockPart)
    requires { is_zero_already (state_of cell.old) ≡ false → IsSomeAnd cell.old.page (λ p. part.at + part.length ≤ length p.bytes) }
    ensures { cell.new ≡ cleared part cell.old }
{
    if is_zero(cell) {
        return;
    }
    let Some(page) = cell.page.take() else {
        unreachable!()
    };
    cell.page = Some(clear_page(page, part));
    cell.dirty = true;
}

fn clear_run(cells: &mut Vec<Cell>, first: u64, run: ByteRun)
    requires run { IsByteRun run }
    requires low { first ≤ run.first }
    requires high { run.first + run.blocks ≤ first + vec_len cells.old }
    requires pages { HavePagesForZeros run first cells.old.items }
    ensures { cells.new.items ≡ on_each (laid_zeros run) 0 (run.first - first) run.blocks cells.old.items }
{
    let low = (run.first - first) as usize;
    for k in 0..run.blocks {
        clear_part(&mut cells[low + k], block_part(run, k));
    }
}

impl Range {
    ghost use Rattle.range_core.specs.Paging.{HaveWholePages};
    ghost use Rattle.range_core.specs.Refusals.{store_refusal};
    ghost use Rattle.range_core.specs.StoreZeros.{CanStoreZeros, after_zeros, zeroed};

    fn zero_blocks(&mut self, by: Tag, run: ByteRun) -> Result<(), EventFault>
        requires run { IsRunIn self.old run }
        requires pages { HaveWholePages self.old }
        ensures err { IfErr result (λ e. e ≡ EventFault.NoMemory) }
        ensures unchanged { OnErr result (self.new ≡ self.old) }
        ensures state { OnOk result (self.new ≡ after_bytes (zeroed run) self.old by run) }
    {
        let Ok(()) = self.log.reserve(self.cells.len()) else {
            return Err(EventFault::NoMemory);
        };
        let alloc = self.log.allocator();
        let low = (run.first - self.first) as usize;
        let needs = &NeedsPageForZeros {};
        let Ok(()) = give_pages(
            alloc,
            run.size,
            needs,
            &mut self.cells,
            low,
            run.blocks,
            &mut self.spare,
        ) else {
            return Err(EventFault::NoMemory);
        };
        clear_run(&mut self.cells, self.first, run);
        self.log.add(run.first, run.blocks, stamp_done(by));
        Ok(())
    }

    /// Lays zeros over the blocks from one place up to another, all in one folio and in the sample's extent. It is
    /// `store` of zeros, and the extent may be a hole: a block that is not mapped, at home and not dirty reads as zeros
    /// already, and is only stamped.
    ///
    /// # Errors
    ///
    /// Those of `store`. Nothing has changed then.
    pub fn store_zeros(
        &mut self,
        by: Tag,
        seen: Sample,
        from: u64,
        to: u64,
    ) -> Result<(), EventFault>
        requires can { CanStoreZeros self.old seen from to }
        requires pages { HaveWholePages self.old }
        ensures refused { IfErr result (λ e. e ≡ unwrap_or (store_refusal self.old seen from to) EventFault.NoMemory) }
        ensures made { OnOk result (store_refusal self.old seen from to ≡ None) }
        ensures unchanged { OnErr result (self.new ≡ self.old) }
        ensures state { OnOk result (self.new ≡ after_zeros self.old by from to) }
        ensures met { IsByteRun (run_between self.old.geometry.block_size from to) }
    {
        let run = byte_run(&self.geometry, from, to);
        if let Some(fault) = self.store_fault(seen, run) {
            return Err(fault);
        }
        self.zero_blocks(by, run)
    }
}

/// The turn of `Range::store_zeros`. It answers the same.
#[derive(Clone, Copy)]
pub struct StoreZerosRun {
    pub by: Tag,
    pub seen: Sample,
    pub from: u64,
    pub to: u64,
}

impl Change<Range> for StoreZerosRun {
    ghost use Rattle.range_core.specs.ClaimsView.{MayTurn};
    ghost use Rattle.range_core.specs.StoreZeros.{MayStoreZeros, StoredZeros};

    type Out = Result<(), EventFault>;

    ghost ready = { λ change opening seen claims. MayTurn claims (MayStoreZeros change opening seen) };

    ghost does = { λ change _ _ before claims later after left out entry. StoredZeros change later before after claims left out entry };

    fn apply(&mut self, value: &mut Range, _claims: &mut Claims) -> Result<(), EventFault> {
        value.store_zeros(self.by, self.seen, self.from, self.to)
    }
}
