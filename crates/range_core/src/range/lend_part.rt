//! A block is lent for a write of a part of it.
ghost use Rattle.std.specs.Prelude.{◌≡◌, ◌+◌, ◌≤◌, true, All, IsSomeAnd, length, map};
ghost use Rattle.io_model.specs.Contents.{zeros};
ghost use Rattle.io_model.specs.Effects.{overlay};
ghost use Rattle.iob_base.specs.Parting.{pages_of};
ghost use Rattle.range_core.specs.BlockTruth.{IsWholePage};
ghost use Rattle.range_core.specs.ByteRuns.{part_bytes};
ghost use Rattle.range_core.specs.Kinds.{is_mapped};
ghost use Rattle.range_core.specs.LendParts.{around_in, with_around};

use super::Range;
use crate::cell::{Cell, is_mapped_kind, is_unwritten_kind};
use crate::claims::Claims;
use crate::cookie::{stale_stop, worn_stop};
use crate::dax_bytes::blank_bytes;
use crate::direct_answer::PartRefused;
use crate::fault::EventFault;
use crate::lend::lend_blocks;
use crate::lending::{Away, Lender, Lent};
use crate::parts::{BlockPart, ByteRun, block_part, byte_run};
use crate::sample::Sample;
use crate::stops::{IsAway, IsCold, IsDirty, first_stop};
use iob_base::{Items, Page, Part, Parts, Tag};
use turn_cell::Change;

/// Makes zeros of what lies around a part.
fn clear_around(bytes: &mut [u8], part: BlockPart)
    requires { part.at + part.length ≤ length bytes.old }
    ensures { bytes.new ≡ overlay part.at (part_bytes part bytes.old) (zeros (length bytes.old)) }
{
    blank_bytes(&mut bytes[..part.at]);
    blank_bytes(&mut bytes[part.at + part.length..]);
}

/// Copies what lies around a part.
fn copy_around(bytes: &mut [u8], part: BlockPart, around: &[u8])
    requires within { part.at + part.length ≤ length bytes.old }
    requires long { length around.now ≡ length bytes.old }
    ensures { bytes.new ≡ overlay part.at (part_bytes part bytes.old) around.now }
{
    bytes[..part.at].copy_from_slice(&around[..part.at]);
    let end = part.at + part.length;
    bytes[end..].copy_from_slice(&around[end..]);
}

/// Lays around a part what the block has there: zeros where it was never written, and its page's bytes where it is mapped.
fn lay_around(bytes: &mut [u8], part: BlockPart, cell: &Cell)
    requires within { part.at + part.length ≤ length bytes.old }
    requires page { is_mapped cell.now.kind ≡ true → IsSomeAnd cell.now.page (IsWholePage (length bytes.old)) }
    ensures { bytes.new ≡ overlay part.at (part_bytes part bytes.old) (around_in (length bytes.old) cell.now) }
{
    if !is_mapped_kind(cell.kind) {
        return clear_around(bytes, part);
    }
    let Some(page) = &cell.page else {
        unreachable!()
    };
    copy_around(bytes, part, page.bytes.as_slice());
}

fn page_around(page: Page, part: BlockPart, cell: &Cell) -> Page
    requires within { part.at + part.length ≤ length page.bytes }
    requires page { is_mapped cell.now.kind ≡ true → IsSomeAnd cell.now.page (IsWholePage (length page.bytes)) }
    ensures { result ≡ with_around part (around_in (length page.bytes) cell.now) page }
{
    let Page { number, bytes } = page;
    let mut bytes = bytes.into_vec();
    lay_around(bytes.as_mut_slice(), part, cell);
    Page {
        number,
        bytes: Items::from_vec(bytes),
    }
}

fn fill_around(whole: &mut Part, part: BlockPart, cell: &Cell)
    requires within { part.at + part.length ≤ length whole.old.page.bytes }
    requires page { is_mapped cell.now.kind ≡ true → IsSomeAnd cell.now.page (IsWholePage (length whole.old.page.bytes)) }
    ensures { whole.new ≡ record whole.old { page = with_around part (around_in (length whole.old.page.bytes) cell.now) whole.old.page } }
{
    let page = whole.take_page();
    whole.page = page_around(page, part, cell);
}

/// The list of one page, with what the block has around the part.
fn list_around(mut pages: Parts, size: u32, part: BlockPart, cell: &Cell) -> Parts
    requires one { length (pages_of pages) ≡ 1 }
    requires whole { All (IsWholePage size) (pages_of pages) }
    requires within { part.at + part.length ≤ size }
    requires page { is_mapped cell.now.kind ≡ true → IsSomeAnd cell.now.page (IsWholePage size) }
    ensures { pages_of result ≡ map (with_around part (around_in size cell.now)) (pages_of pages) }
{
    let parts = pages.as_mut_slice();
    fill_around(&mut parts[0], part, cell);
    pages
}

impl Range {
    ghost use Rattle.std.specs.Prelude.{◌-◌, None, IfErr, IfOk, OnErr, OnOk, unwrap_or};
    ghost use Rattle.fault_device.specs.Transfer.{CanTransfer};
    ghost use Rattle.iob_base.specs.Parting.{IsBare};
    ghost use Rattle.range_core.specs.ByteRuns.{IsByteRun, IsRunIn, run_between};
    ghost use Rattle.range_core.specs.Lends.{TakesHold};
    ghost use Rattle.range_core.specs.Lookups.{first_kind};
    ghost use Rattle.range_core.specs.Paging.{HaveWholePages};
    ghost use Rattle.range_core.specs.LendParts.{CanLendPart, IsOpenPart, part_lent, part_loan};
    ghost use Rattle.range_core.specs.RangeView.{LiesAt, cells_from};
    ghost use Rattle.iob_base.specs.declared.stamp.Op.TheVariants.{Write};
    ghost use Rattle.range_core.specs.Refusals.{◌orElse◌, at_first, cold, dirty, lend_part_refusal, will_convert, worn};
    ghost use Rattle.range_core.specs.declared.fault.EventFault.TheVariants.{NoMemory};

    /// What hinders a loan of a part of a block.
    fn part_stop(&self, seen: Sample, block: u64) -> Option<EventFault>
        requires { LiesAt self.now block 1 }
        ensures { result ≡ lend_part_refusal self.now seen block }
    {
        if let Some(fault) = stale_stop(self.cookie, seen) {
            return Some(fault);
        }
        let low = (block - self.first) as usize;
        if let Some(fault) = first_stop(&IsAway {}, block, &self.cells[low..low + 1]) {
            return Some(fault);
        }
        self.page_stop(seen, block)
    }

    /// What of its page hinders a loan of a part of a block, and the cookie that its return would use.
    fn page_stop(&self, seen: Sample, block: u64) -> Option<EventFault>
        requires { LiesAt self.now block 1 }
        ensures { result ≡ at_first cold self.now block orElse at_first dirty self.now block orElse worn self.now (will_convert Write seen.extent.kind) }
    {
        let low = (block - self.first) as usize;
        let cells = &self.cells[low..low + 1];
        if let Some(fault) = first_stop(&IsCold {}, block, cells) {
            return Some(fault);
        }
        if let Some(fault) = first_stop(&IsDirty {}, block, cells) {
            return Some(fault);
        }
        if !is_unwritten_kind(seen.extent.kind) {
            return None;
        }
        worn_stop(self.cookie, 1)
    }

    /// Lends the block of a run of bytes, which hinders nothing.
    fn lend_run_part(
        &mut self,
        claims: &mut Claims,
        by: Tag,
        run: ByteRun,
        page: Parts,
    ) -> Result<Lent, PartRefused>
        requires run { IsRunIn self.old run }
        requires able { IsOpenPart self.old run (pages_of page) }
        ensures state { OnOk result (self.new ≡ part_lent self.old by run) }
        ensures lent { IfOk result (λ l. l ≡ part_loan self.old run (pages_of page)) }
        ensures ready { IfOk result (λ l. CanTransfer l.parts) }
        ensures claims { IfOk result (λ l. TakesHold claims.old claims.new l (Lender.Part by run.from run.to) (first_kind (cells_from self.old run.first))) }
        ensures err { IfErr result (λ e. e.fault ≡ NoMemory) }
        ensures page_back { IfErr result (λ e. e.page ≡ page) }
        ensures unchanged { OnErr result (self.new ≡ self.old) }
        ensures unclaimed { OnErr result (claims.new ≡ claims.old) }
    {
        let Ok(()) = self.log.reserve(self.cells.len()) else {
            return Err(PartRefused {
                fault: EventFault::NoMemory,
                page,
            });
        };
        let low = (run.first - self.first) as usize;
        let page = list_around(page, run.size, block_part(run, 0), &self.cells[low]);
        let away = Away {
            ticket: self.tickets,
            lender: Lender::Part {
                by,
                from: run.from,
                to: run.to,
            },
        };
        self.tickets = self.tickets.wrapping_add(1);
        Ok(lend_blocks(
            &mut self.cells,
            low,
            run.first,
            page,
            away,
            claims,
            &mut self.spare,
        ))
    }

    /// Lends the sector of a block with a caller's own page, for a write from one place of the file up to another, both in
    /// that block and not all of it. The page has the call's bytes in their place; around them it gets zeros where the block
    /// was never written, and the bytes of the block's own page where it is mapped. The block's own page is dropped, as
    /// iomap invalidates the cache under direct I/O. The block lies in the sample's extent, which has space. What is lent
    /// comes back by `direct_back`, for a write.
    ///
    /// # Errors
    ///
    /// - `Stale` where the sample's cookie is not the range's.
    /// - `Away` where the block is lent.
    /// - `Cold` where it is mapped, at home and not uptodate: what is around the part would have to be read first.
    /// - `Dirty` where its page has bytes that the device lacks.
    /// - `Worn` where it was never written and the cookies are used up.
    /// - `NoMemory`, which nothing else explains.
    ///
    /// All give the page back as it was, and change nothing.
    pub fn lend_part(
        &mut self,
        claims: &mut Claims,
        by: Tag,
        seen: Sample,
        from: u64,
        to: u64,
        page: Parts,
    ) -> Result<Lent, PartRefused>
        requires can { CanLendPart self.old claims.old seen from to (pages_of page) }
        requires bare { All IsBare page }
        requires pages { HaveWholePages self.old }

        // What is lent, and what that leaves.
        ensures made { OnOk result (lend_part_refusal self.old seen (run_between self.old.geometry.block_size from to).first ≡ None) }
        ensures state { OnOk result (self.new ≡ part_lent self.old by (run_between self.old.geometry.block_size from to)) }
        ensures lent { IfOk result (λ l. l ≡ part_loan self.old (run_between self.old.geometry.block_size from to) (pages_of page)) }
        ensures ready { IfOk result (λ l. CanTransfer l.parts) }
        ensures claims { IfOk result (λ l. TakesHold claims.old claims.new l (Lender.Part by from to) (first_kind (cells_from self.old (run_between self.old.geometry.block_size from to).first))) }
        ensures met { IsByteRun (run_between self.old.geometry.block_size from to) }

        // Why it is refused, and that nothing has changed then.
        ensures refused { IfErr result (λ e. e.fault ≡ unwrap_or (lend_part_refusal self.old seen (run_between self.old.geometry.block_size from to).first) NoMemory) }
        ensures page_back { IfErr result (λ e. e.page ≡ page) }
        ensures unchanged { OnErr result (self.new ≡ self.old) }
        ensures unclaimed { OnErr result (claims.new ≡ claims.old) }
    {
        let run = byte_run(&self.geometry, from, to);
        if let Some(fault) = self.part_stop(seen, run.first) {
            return Err(PartRefused { fault, page });
        }
        self.lend_run_part(claims, by, run, page)
    }
}

/// The turn of `Range::lend_part`, which lends a block for a write of a part of it. It answers the same.
#[derive(Drop)]
pub struct LendPartRun {
    pub by: Tag,
    pub seen: Sample,
    pub from: u64,
    pub to: u64,
    /// The list of the one page, whose sector is blank, until the turn takes it.
    pub page: Option<Parts>,
}

impl Change<Range> for LendPartRun {
    ghost use Rattle.range_core.specs.ClaimsView.{MayTurn};
    ghost use Rattle.range_core.specs.LendParts.{ReadyToLendPart, TurnedToLendPart};

    type Out = Result<Lent, PartRefused>;

    ghost ready = { λ change opening history claims. MayTurn claims (ReadyToLendPart change opening history claims) };

    ghost does = { λ change opening history before claims later after left out entry. TurnedToLendPart change later opening history before after claims left out entry };

    fn apply(&mut self, value: &mut Range, claims: &mut Claims) -> Result<Lent, PartRefused> {
        let Some(page) = self.page.take() else {
            unreachable!()
        };
        value.lend_part(claims, self.by, self.seen, self.from, self.to, page)
    }
}
