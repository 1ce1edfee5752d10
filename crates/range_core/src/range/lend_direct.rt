//! Blocks are lent with a caller's own pages, and come back.
ghost use Rattle.std.specs.Prelude.{◌≡◌, ◌+◌, ◌-◌, ◌<◌, ◌≤◌, ◌++◌, ◌^◌, ◌&&◌, None, All, length, map, vec_len, unwrap_or, IfErr, IfOk, OnErr, OnOk};
ghost use Rattle.range_core.specs.DirectBacks.{lands, marked_back};
ghost use Rattle.range_core.specs.LendDirects.{goes_out, part_zeroed};
ghost use Rattle.range_core.specs.Pages.{zeroed_page};
ghost use Rattle.iob_base.specs.Parting.{IsBare, bare_parts, pages_of};
ghost use Rattle.range_core.specs.EntryCounts.{is_write_back, one_where};
ghost use Rattle.range_core.specs.EntryStamps.{direct_stamps, landed_by, missed_by};
ghost use Rattle.range_core.specs.Kinds.{is_mapped, is_unwritten};
ghost use Rattle.range_core.specs.OnRun.{on_run};
ghost use Rattle.range_core.specs.Refusals.{will_convert};

use super::Range;
use crate::cell::{Cell, is_mapped_kind, is_unwritten_kind};
use crate::claims::Claims;
use crate::cookie::{stale_stop, worn_stop};
use crate::direct_answer::{Direct, DirectRefused};
use crate::fault::EventFault;
use crate::fresh::zero_bytes;
use crate::lend::{bring_home, lend_blocks, mark_run_written};
use crate::lending::{Away, Lender, Lent};
use crate::log::StampLog;
use crate::sample::Sample;
use crate::stamps::stamp_done;
use crate::stops::{IsAway, IsDirty, first_stop};
use fault_device::Done;
use io_model::Kind;
use iob_base::{Mark, Op, Part, Parts, Stamp, Tag, WORN};
use turn_cell::Change;

/// Whether blocks of this kind go out with the pages. For a read others than mapped ones read as zeros.
fn is_lent(op: Op, kind: Kind) -> bool
    ensures { result ≡ goes_out op kind }
{
    match op {
        Op::Read => is_mapped_kind(kind),
        Op::Write => true,
    }
}

/// Whether blocks of this kind will be mapped by a transfer in this direction.
fn converts(op: Op, kind: Kind) -> bool
    ensures { result ≡ will_convert op kind }
{
    match op {
        Op::Read => false,
        Op::Write => is_unwritten_kind(kind),
    }
}

fn zero_part(part: &mut Part)
    ensures { part.new ≡ part_zeroed part.old }
{
    zero_bytes(&mut part.page);
}

fn zero_run(parts: &mut [Part])
    ensures { parts.new ≡ map part_zeroed parts.old }
{
    for part in parts.iter_mut() {
        zero_part(part);
    }
}

/// The list, whose pages are each of as many zeros.
fn zero_pages(mut pages: Parts) -> Parts
    requires { All IsBare pages }
    ensures { result ≡ bare_parts (map zeroed_page (pages_of pages)) }
{
    zero_run(pages.as_mut_slice());
    pages
}

/// Whether a transfer in this direction that came back has mapped blocks.
fn has_written(op: Op, failed: bool) -> bool
    ensures { result ≡ is_write_back op failed }
{
    match op {
        Op::Read => false,
        Op::Write => !failed,
    }
}

/// Makes the blocks of a run mapped where a caller's pages were written to them.
fn end_run(cells: &mut Vec<Cell>, low: usize, n: usize, op: Op, failed: bool)
    requires { low + n ≤ vec_len cells.old }
    ensures { cells.new.items ≡ on_run (marked_back op failed) low n cells.old.items }
{
    if !has_written(op, failed) {
        return;
    }
    mark_run_written(cells, low, n);
}

/// By how much the cookie rises where blocks of this kind come back: 1 where the transfer maps them, else 0.
fn rise_of(op: Op, kind: Kind, failed: bool) -> u64
    ensures rise { result ≡ one_where (is_unwritten kind && is_write_back op failed) }
    ensures few { result ≤ 1 }
{
    if !is_unwritten_kind(kind) {
        return 0;
    }
    u64::from(has_written(op, failed))
}

/// The stamp of a call that failed.
fn stamp_failed(by: Tag, mark: Mark) -> Stamp
    ensures { result ≡ record { caller = by.caller; call = by.call; mark = mark } }
{
    Stamp {
        caller: by.caller,
        call: by.call,
        mark,
    }
}

/// Whether a write that failed has left something on blocks of this kind.
fn may_land(op: Op, kind: Kind) -> bool
    ensures { result ≡ lands op kind }
{
    match op {
        Op::Read => false,
        Op::Write => is_mapped_kind(kind),
    }
}

/// Adds the stamps of a transfer of `n` blocks that came back. There is room for two runs.
fn stamp_back(log: &mut StampLog, by: Tag, op: Op, block: u64, kind: Kind, n: usize, done: Done)
    requires room { log.old.used + 2 ≤ log.old.capacity }
    requires fits { block + n < 2 ^ 64 }
    requires landed { done.landed ≤ n }
    ensures items { log.new.items ≡ log.old.items ++ direct_stamps by op block kind n done }
    ensures few { log.new.used ≤ log.old.used + 2 }
    ensures kept { log.new.capacity ≡ log.old.capacity }
{
    if !done.failed {
        return log.add(block, n, stamp_done(by));
    }
    if !may_land(op, kind) {
        return log.add(block, n, stamp_failed(by, Mark::Missed));
    }
    let landed = done.landed as usize;
    log.add(block, landed, stamp_failed(by, Mark::Landed));
    let rest = block + landed as u64;
    log.add(rest, n - landed, stamp_failed(by, Mark::Missed));
}

impl Range {
    ghost use Rattle.range_core.specs.ClaimsView.{released};
    ghost use Rattle.range_core.specs.DirectBacks.{ComesDirectly, KeepsPages, after_direct_back, kind_held, pages_held};
    ghost use Rattle.range_core.specs.LendDirects.{CanLendDirect, ClaimsAnswer, GoesOut, after_lend_direct, direct_answer};
    ghost use Rattle.range_core.specs.Lookups.{first_kind};
    ghost use Rattle.range_core.specs.RangeView.{LiesAt, cells_from};
    ghost use Rattle.range_core.specs.Refusals.{lend_direct_refusal};
    ghost use Rattle.range_core.specs.declared.fault.EventFault.TheVariants.{NoMemory};

    /// What hinders a loan of `n` blocks for a caller's own pages.
    fn direct_stop(&self, seen: Sample, op: Op, block: u64, n: usize) -> Option<EventFault>
        requires { LiesAt self.now block n }
        ensures { result ≡ lend_direct_refusal self.now seen op block n }
    {
        if let Some(fault) = stale_stop(self.cookie, seen) {
            return Some(fault);
        }
        let low = (block - self.first) as usize;
        let cells = &self.cells[low..low + n];
        if let Some(fault) = first_stop(&IsAway {}, block, cells) {
            return Some(fault);
        }
        if let Some(fault) = first_stop(&IsDirty {}, block, cells) {
            return Some(fault);
        }
        if !converts(op, seen.extent.kind) {
            return None;
        }
        worn_stop(self.cookie, 1)
    }

    /// Lends the sectors of as many blocks as there are pages with these pages, for a transfer that skips the page cache.
    /// The blocks' own pages are dropped, as iomap invalidates the cache under direct I/O. A read of blocks that are not
    /// mapped lends nothing: it fills the pages with zeros and stamps the blocks. The blocks lie in the sample's extent,
    /// and a write needs space there.
    ///
    /// # Errors
    ///
    /// `Stale` where the sample's cookie is not the range's; `Away` and `Dirty` of the first such block; `Worn` for a
    /// write of unwritten blocks where the cookies are used up; and want of memory. All give the pages back as they
    /// were, and change nothing.
    pub fn lend_direct(
        &mut self,
        claims: &mut Claims,
        by: Tag,
        seen: Sample,
        op: Op,
        block: u64,
        pages: Parts,
    ) -> Result<Direct, DirectRefused>
        requires can { CanLendDirect self.old claims.old seen op block (pages_of pages) }
        requires bare { All IsBare pages }

        // What is lent or answered, and what that leaves.
        ensures made { OnOk result (lend_direct_refusal self.old seen op block (length (pages_of pages)) ≡ None) }
        ensures state { OnOk result (self.new ≡ after_lend_direct self.old by seen op block (length (pages_of pages))) }
        ensures answer { IfOk result (λ a. a ≡ direct_answer self.old seen op block (pages_of pages)) }
        ensures ready { IfOk result (λ a. GoesOut op (first_kind (cells_from self.old block)) a) }
        ensures claims { IfOk result (λ a. ClaimsAnswer claims.old claims.new by op (first_kind (cells_from self.old block)) a) }

        // Why it is refused, and that nothing has changed then.
        ensures refused { IfErr result (λ e. e.fault ≡ unwrap_or (lend_direct_refusal self.old seen op block (length (pages_of pages))) NoMemory) }
        ensures pages_back { IfErr result (λ e. e.pages ≡ pages) }
        ensures unchanged { OnErr result (self.new ≡ self.old) }
        ensures unclaimed { OnErr result (claims.new ≡ claims.old) }
    {
        if let Some(fault) = self.direct_stop(seen, op, block, pages.len()) {
            return Err(DirectRefused { fault, pages });
        }
        let Ok(()) = self.log.reserve(self.cells.len()) else {
            return Err(DirectRefused {
                fault: EventFault::NoMemory,
                pages,
            });
        };
        if !is_lent(op, seen.extent.kind) {
            self.log.add(block, pages.len(), stamp_done(by));
            return Ok(Direct::Zeros(zero_pages(pages)));
        }
        let away = Away {
            ticket: self.tickets,
            lender: Lender::Direct { by, op },
        };
        self.tickets = self.tickets.wrapping_add(1);
        let low = (block - self.first) as usize;
        Ok(Direct::Lent(lend_blocks(
            &mut self.cells,
            low,
            block,
            pages,
            away,
            claims,
            &mut self.spare,
        )))
    }

    /// Brings blocks home that were lent by `lend_direct` for the same tag and op, or, for a write, a block that `lend_part`
    /// lent for the same tag, and answers the list of these pages, in order and with blank sectors. A write that did not
    /// fail makes its blocks mapped. Each block is stamped: done; or, of a transfer that failed, landed for the first
    /// mapped blocks of a write, up to where it came, and missed for all others. Of a block that was lent in part, the
    /// content changes in that part alone. It has no refusal and takes no memory.
    pub fn direct_back(
        &mut self,
        claims: &mut Claims,
        by: Tag,
        op: Op,
        back: Lent,
        done: Done,
    ) -> Parts
        requires comes { ComesDirectly self.old claims.old by op back done }
        requires cookie { self.old.cookie ≤ WORN + 65536 }
        ensures state { self.new ≡ after_direct_back self.old by op (kind_held claims.old.held) back done }
        ensures claims { claims.new ≡ released claims.old }
        ensures pages { pages_of result ≡ map (λ p. p.page) back.parts }
        ensures bare { All IsBare result }
        ensures kept { KeepsPages op (pages_held claims.old.held) (pages_of result) }
    {
        let Lent {
            ticket: _,
            block,
            parts,
        } = back;
        let low = (block - self.first) as usize;
        let n = parts.len();
        let kind = self.cells[low].kind;
        claims.release();
        stamp_back(&mut self.log, by, op, block, kind, n, done);
        let pages = bring_home(&mut self.cells, low, parts);
        end_run(&mut self.cells, low, n, op, done.failed);
        self.cookie += rise_of(op, kind, done.failed);
        pages
    }
}

/// The turn of `Range::lend_direct`, which lends blocks with a caller's own pages. It answers the same.
#[derive(Drop)]
pub struct LendDirectRun {
    pub by: Tag,
    pub seen: Sample,
    pub op: Op,
    pub block: u64,
    /// The list of the pages, whose sectors are blank, until the turn takes it.
    pub pages: Option<Parts>,
}

impl Change<Range> for LendDirectRun {
    ghost use Rattle.range_core.specs.ClaimsView.{MayTurn};
    ghost use Rattle.range_core.specs.LendDirects.{ReadyToLend, TurnedToLend};

    type Out = Result<Direct, DirectRefused>;

    ghost ready = { λ change opening history claims. MayTurn claims (ReadyToLend change opening history claims) };

    ghost does = { λ change opening history before claims later after left out entry. TurnedToLend change later opening history before after claims left out entry };

    fn apply(&mut self, value: &mut Range, claims: &mut Claims) -> Result<Direct, DirectRefused> {
        let Some(pages) = self.pages.take() else {
            unreachable!()
        };
        value.lend_direct(claims, self.by, self.seen, self.op, self.block, pages)
    }
}

/// The turn of `Range::direct_back`, which brings blocks home that were lent with a caller's own pages, or for a write of a
/// part. It answers the pages.
#[derive(Drop)]
pub struct DirectBackRun {
    pub by: Tag,
    pub op: Op,
    /// What comes back, until the turn takes it.
    pub back: Option<Lent>,
    pub done: Done,
}

impl Change<Range> for DirectBackRun {
    ghost use Rattle.range_core.specs.ClaimsView.{MayTurn};
    ghost use Rattle.range_core.specs.DirectBacks.{ReadyToReturn, ReturnedDirectly};

    type Out = Parts;

    ghost ready = { λ change opening _ claims. MayTurn claims (ReadyToReturn change opening claims) };

    ghost does = { λ change opening history before claims later after left out entry. ReturnedDirectly change later opening history before after claims left out entry };

    fn apply(&mut self, value: &mut Range, claims: &mut Claims) -> Parts {
        let Some(back) = self.back.take() else {
            unreachable!()
        };
        value.direct_back(claims, self.by, self.op, back, self.done)
    }
}
