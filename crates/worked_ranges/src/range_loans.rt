//! A caller's turns that lend blocks, and those that bring them back after a transfer.
ghost use Rattle.std.specs.Prelude.{◌≡◌, ◌+◌, ◌/◌, ◌<◌, ◌≤◌, [], true, Some, None, All, IfOk, OnErr, length, nat_lt};
ghost use Rattle.fault_device.specs.Transfer.{CanTransfer, parts_after};
ghost use Rattle.iob_base.specs.Parting.{IsBare, pages_of};
ghost use Rattle.range_core.specs.BlockTruth.{IsWholePage};
ghost use Rattle.range_core.specs.LendDirects.{CanTake};
ghost use Rattle.range_core.specs.Refusals.{covers_in_part};
ghost use Rattle.range_core.specs.Spots.{blocks_met};
ghost use Rattle.worked_ranges.specs.SmallEnds.{own_part};
ghost use Rattle.worked_ranges.specs.SmallRanges.{IsWholeAndBare, Stands};

use crate::range_caller::Caller;
use fault_device::{Done, Lane, can_transfer};
use io_model::{Extent, Kind};
use iob_base::{Items, Op, Page, Parts, Tag};
use range_core::{
    Direct, DirectBackRun, DirectNowRun, DirectRefused, EventFault, FillBackRun, LendDirectRun,
    LendPartRun, LendReadRun, LendRefused, LendWritebackRun, Lender, Lent, PartRefused,
    WrittenBackRun,
};
use std::alloc::{AllocError, Global};
use std::process::Abort;
use std::sync::Wait;

/// What came of a loan: a ticket with so many blocks from one on, or a caller's own pages, of zeros now.
#[derive(Drop)]
pub(crate) enum Loan {
    Ticket {
        ticket: u64,
        block: u64,
        blocks: usize,
    },
    Zeros(Parts),
}

/// So many blocks were read into the first of these pages.
#[derive(Drop)]
pub(crate) struct Now {
    pub(crate) blocks: u64,
    pub(crate) pages: Parts,
}

/// Why a loan for pages of the caller's own was refused, and the list of these pages.
#[derive(Drop)]
pub(crate) struct Refused {
    pub(crate) fault: EventFault,
    pub(crate) pages: Parts,
}

/// Why a read past the cache was refused, and the pages for it.
#[derive(Drop)]
pub(crate) struct Unread {
    pub(crate) fault: EventFault,
    pub(crate) pages: Parts,
}

/// What came back: what the transfer did, how many dirty blocks were written, and the caller's own pages.
#[derive(Drop)]
pub(crate) struct Back {
    pub(crate) done: Done,
    pub(crate) written: Option<u64>,
    pub(crate) pages: Option<Parts>,
}

// An empty list for what is lent.
fn empty_list(alloc: Global) -> Result<Parts, EventFault>
    ensures { IfOk result (λ parts. parts ≡ []) }
{
    let Ok(parts) = Parts::new(alloc) else {
        return Err(EventFault::NoMemory);
    };
    Ok(parts)
}

fn page_of(alloc: Global, number: u64, fill: u8) -> Result<Page, AllocError>
    ensures { IfOk result (λ p. IsWholePage 16 p) }
{
    let bytes = vec![in alloc; fill; 16]?;
    Ok(Page {
        number,
        bytes: Items::from_vec(bytes),
    })
}

// A list of pages that are filled with these bytes, one each, whose sectors are blank.
fn list_of(alloc: Global, fills: &[u8]) -> Result<Parts, AllocError>
    requires { length fills.now ≤ 6 }
    ensures count { IfOk result (λ parts. length (pages_of parts) ≡ length fills.now) }
    ensures whole { IfOk result (λ parts. All (IsWholePage 16) (pages_of parts)) }
    ensures bare { IfOk result (λ parts. All IsBare parts) }
{
    let parts = fill_list(alloc, fills)?;
    Ok(parts)
}

fn fill_list(alloc: Global, fills: &[u8]) -> Result<Parts, AllocError>
    requires { length fills.now ≤ 6 }
    ensures count { IfOk result (λ parts. length parts ≡ length fills.now) }
    ensures whole { IfOk result (λ parts. All IsWholeAndBare parts) }
{
    let mut parts = Parts::new(alloc)?;
    for i in 0..fills.len() {
        parts.push_page(page_of(alloc, i as u64, fills[i])?);
    }
    Ok(parts)
}

fn ticket_of(lent: &Lent) -> Loan {
    Loan::Ticket {
        ticket: lent.ticket,
        block: lent.block,
        blocks: lent.parts.len(),
    }
}

/// The transfer of what was lent.
pub(crate) fn carry(lane: &mut Lane, op: Op, lent: &mut Lent) -> Done
    requires { CanTransfer lent.old.parts }
    ensures ticket { lent.new.ticket ≡ lent.old.ticket }
    ensures block { lent.new.block ≡ lent.old.block }
    ensures parts { lent.new.parts ≡ parts_after op result.landed lent.old.parts }
    ensures landed { result.landed ≤ length lent.old.parts }
    ensures failed { result.failed ≡ nat_lt result.landed (length lent.old.parts) }
{
    match op {
        Op::Read => lane.read(lent.parts.as_mut_slice()),
        Op::Write => lane.write(lent.parts.as_mut_slice()),
    }
}

impl<'a, R: Abort + Wait> Caller<'a, R> {
    // Blocks of the range with parts for one transfer.
    fn expect_loan(&self, lent: &Lent)
        ensures some { 0 < length lent.now.parts }
        ensures within { lent.now.block + length lent.now.parts ≤ 6 }
        ensures ready { CanTransfer lent.now.parts }
    {
        self.expect_run(lent.block, lent.parts.len() as u64);
        assert!(self.rt;
            can_transfer(lent.parts.as_slice()),
            "parts for one transfer"
        );
    }

    /// Asks for blocks to be read into the cache, and keeps what is lent.
    pub(crate) fn lend_cold(&mut self, block: u64, blocks: u64) -> Result<Loan, EventFault>
        requires stands { Stands self.old.ground.now.cell self.old.seat self.old.sample self.old.loan }
        ensures stands { Stands self.new.ground.now.cell self.new.seat self.new.sample self.new.loan }
        ensures stays { own_part self.new.ground.now.cell self.new.seat ≡ own_part self.old.ground.now.cell self.old.seat }
    {
        self.expect_cached();
        self.expect_run(block, blocks);
        self.expect_free();
        let parts = empty_list(self.alloc)?;
        let mut change = LendReadRun {
            block,
            blocks,
            parts: Some(parts),
        };
        match self.ground.cell.turn(self.rt, &mut self.seat, &mut change) {
            Ok(lent) => {
                self.expect_loan(&lent);
                let loan = ticket_of(&lent);
                self.loan = Some((Lender::Reading, lent));
                Ok(loan)
            }
            Err(LendRefused { fault, parts: _ }) => Err(fault),
        }
    }

    /// Asks for dirty blocks to be written, and keeps what is lent.
    pub(crate) fn lend_dirty(&mut self, block: u64, blocks: u64) -> Result<Loan, EventFault>
        requires stands { Stands self.old.ground.now.cell self.old.seat self.old.sample self.old.loan }
        ensures stands { Stands self.new.ground.now.cell self.new.seat self.new.sample self.new.loan }
        ensures stays { own_part self.new.ground.now.cell self.new.seat ≡ own_part self.old.ground.now.cell self.old.seat }
    {
        self.expect_run(block, blocks);
        self.expect_free();
        let parts = empty_list(self.alloc)?;
        let mut change = LendWritebackRun {
            block,
            blocks,
            parts: Some(parts),
        };
        match self.ground.cell.turn(self.rt, &mut self.seat, &mut change) {
            Ok(lent) => {
                self.expect_loan(&lent);
                let loan = ticket_of(&lent);
                self.loan = Some((Lender::Writeback, lent));
                Ok(loan)
            }
            Err(LendRefused { fault, parts: _ }) => Err(fault),
        }
    }

    // Blocks of an extent.
    fn expect_inside(&self, extent: Extent, block: u64, blocks: u64)
        requires { block + blocks ≤ 6 }
        ensures low { extent.block ≤ block }
        ensures high { block + blocks ≤ extent.block + extent.length }
    {
        assert!(self.rt; extent.block <= block, "blocks of the extent");
        assert!(self.rt;
            block + blocks - extent.block <= extent.length,
            "blocks of the extent"
        );
    }

    // Blocks with space for a write.
    fn expect_target(&self, op: Op, kind: Kind)
        ensures { CanTake op kind }
    {
        match op {
            Op::Read => {}
            Op::Write => match kind {
                Kind::Hole | Kind::Delalloc => panic!(self.rt; "blocks with space"),
                Kind::Unwritten(_) | Kind::Mapped(_) => {}
            },
        }
    }

    // The turn that asks for blocks of the sample for these pages. What is lent is kept.
    fn lend_pages(&mut self, op: Op, block: u64, pages: Parts) -> Result<Loan, Refused>
        requires stands { Stands self.old.ground.now.cell self.old.seat self.old.sample self.old.loan }
        requires whole { All (IsWholePage 16) (pages_of pages) }
        requires bare { All IsBare pages }
        ensures stands { Stands self.new.ground.now.cell self.new.seat self.new.sample self.new.loan }
        ensures stays { own_part self.new.ground.now.cell self.new.seat ≡ own_part self.old.ground.now.cell self.old.seat }
    {
        let seen = self.seen();
        let n = pages.len() as u64;
        self.expect_cached();
        self.expect_free();
        self.expect_run(block, n);
        self.expect_inside(seen.extent, block, n);
        self.expect_target(op, seen.extent.kind);
        let mut change = LendDirectRun {
            by: self.by,
            seen,
            op,
            block,
            pages: Some(pages),
        };
        match self.ground.cell.turn(self.rt, &mut self.seat, &mut change) {
            Ok(Direct::Lent(lent)) => {
                self.expect_loan(&lent);
                let loan = ticket_of(&lent);
                self.loan = Some((Lender::Direct { by: self.by, op }, lent));
                Ok(loan)
            }
            Ok(Direct::Zeros(pages)) => Ok(Loan::Zeros(pages)),
            Err(DirectRefused { fault, pages }) => Err(Refused { fault, pages }),
        }
    }

    /// Asks for blocks of the sample for pages of its own, which are filled with these bytes, and keeps what is lent.
    pub(crate) fn lend_direct(
        &mut self,
        op: Op,
        block: u64,
        fills: &[u8],
    ) -> Result<Result<Loan, Refused>, AllocError>
        requires stands { Stands self.old.ground.now.cell self.old.seat self.old.sample self.old.loan }
        ensures stands { Stands self.new.ground.now.cell self.new.seat self.new.sample self.new.loan }
        ensures stays { own_part self.new.ground.now.cell self.new.seat ≡ own_part self.old.ground.now.cell self.old.seat }
    {
        assert!(self.rt; fills.len() <= 6, "pages for blocks of the range");
        let pages = list_of(self.alloc, fills)?;
        Ok(self.lend_pages(op, block, pages))
    }

    // Bytes of one block, but not all of them.
    fn expect_part(&self, from: u64, to: u64)
        requires within { to ≤ 96 }
        requires some { from < to }
        ensures one { blocks_met 16 from to ≡ 1 }
        ensures part { covers_in_part 16 from to (from / 16) ≡ true }
    {
        assert_eq!(self.rt; (to - 1) / 16, from / 16, "bytes of one block");
        if from / 16 * 16 < from {
            return;
        }
        assert!(self.rt; to < from / 16 * 16 + 16, "not all of the block");
    }

    // The turn that asks for a block of the sample for a write of a part of it. What is lent is kept.
    fn part_turn(&mut self, from: u64, to: u64, page: Parts) -> Result<Loan, Refused>
        requires stands { Stands self.old.ground.now.cell self.old.seat self.old.sample self.old.loan }
        requires one { length (pages_of page) ≡ 1 }
        requires whole { All (IsWholePage 16) (pages_of page) }
        requires bare { All IsBare page }
        ensures stands { Stands self.new.ground.now.cell self.new.seat self.new.sample self.new.loan }
        ensures stays { own_part self.new.ground.now.cell self.new.seat ≡ own_part self.old.ground.now.cell self.old.seat }
    {
        let seen = self.seen();
        self.expect_cached();
        self.expect_free();
        self.expect_bytes(from, to);
        self.expect_part(from, to);
        self.expect_covered(seen.extent, from, to);
        self.expect_target(Op::Write, seen.extent.kind);
        let mut change = LendPartRun {
            by: self.by,
            seen,
            from,
            to,
            page: Some(page),
        };
        match self.ground.cell.turn(self.rt, &mut self.seat, &mut change) {
            Ok(lent) => {
                self.expect_loan(&lent);
                let loan = ticket_of(&lent);
                self.loan = Some((
                    Lender::Part {
                        by: self.by,
                        from,
                        to,
                    },
                    lent,
                ));
                Ok(loan)
            }
            Err(PartRefused { fault, page }) => Err(Refused { fault, pages: page }),
        }
    }

    /// Asks for a block of the sample for a write of a part of it, from a page that is filled with this byte, and keeps what
    /// is lent.
    pub(crate) fn lend_part(
        &mut self,
        from: u64,
        to: u64,
        fill: u8,
    ) -> Result<Result<Loan, Refused>, AllocError>
        requires stands { Stands self.old.ground.now.cell self.old.seat self.old.sample self.old.loan }
        ensures stands { Stands self.new.ground.now.cell self.new.seat self.new.sample self.new.loan }
        ensures stays { own_part self.new.ground.now.cell self.new.seat ≡ own_part self.old.ground.now.cell self.old.seat }
    {
        let page = list_of(self.alloc, &[fill])?;
        Ok(self.part_turn(from, to, page))
    }

    // The turn that brings blocks back which were lent for a read into the cache, after the read.
    fn fill_back(&mut self, lane: &mut Lane, mut back: Lent) -> Done
        requires free { self.old.loan ≡ None }
        requires stands { Stands self.old.ground.now.cell self.old.seat self.old.sample (Some (Lender.Reading, back)) }
        ensures stands { Stands self.new.ground.now.cell self.new.seat self.new.sample self.new.loan }
        ensures stays { own_part self.new.ground.now.cell self.new.seat ≡ own_part self.old.ground.now.cell self.old.seat }
    {
        let done = carry(lane, Op::Read, &mut back);
        let mut change = FillBackRun {
            back: Some(back),
            done,
        };
        let _ = self.ground.cell.turn(self.rt, &mut self.seat, &mut change);
        done
    }

    // The turn that brings dirty blocks back, after the write.
    fn write_back(&mut self, lane: &mut Lane, mut back: Lent) -> Back
        requires free { self.old.loan ≡ None }
        requires stands { Stands self.old.ground.now.cell self.old.seat self.old.sample (Some (Lender.Writeback, back)) }
        ensures stands { Stands self.new.ground.now.cell self.new.seat self.new.sample self.new.loan }
        ensures stays { own_part self.new.ground.now.cell self.new.seat ≡ own_part self.old.ground.now.cell self.old.seat }
    {
        let done = carry(lane, Op::Write, &mut back);
        let mut change = WrittenBackRun {
            back: Some(back),
            done,
        };
        let written = self.ground.cell.turn(self.rt, &mut self.seat, &mut change);
        Back {
            done,
            written: Some(written.blocks),
            pages: None,
        }
    }

    // The turn that brings blocks back which were lent with pages of its own, after the transfer.
    fn direct_back(&mut self, lane: &mut Lane, by: Tag, op: Op, mut back: Lent) -> Back
        requires free { self.old.loan ≡ None }
        requires stands { Stands self.old.ground.now.cell self.old.seat self.old.sample (Some (Lender.Direct by op, back)) }
        ensures stands { Stands self.new.ground.now.cell self.new.seat self.new.sample self.new.loan }
        ensures stays { own_part self.new.ground.now.cell self.new.seat ≡ own_part self.old.ground.now.cell self.old.seat }
    {
        let done = carry(lane, op, &mut back);
        let mut change = DirectBackRun {
            by,
            op,
            back: Some(back),
            done,
        };
        let pages = self.ground.cell.turn(self.rt, &mut self.seat, &mut change);
        Back {
            done,
            written: None,
            pages: Some(pages),
        }
    }

    // The turn that brings a block back which was lent for a write of a part of it, after the write.
    fn part_back(&mut self, lane: &mut Lane, by: Tag, from: u64, to: u64, mut back: Lent) -> Back
        requires free { self.old.loan ≡ None }
        requires stands { Stands self.old.ground.now.cell self.old.seat self.old.sample (Some (Lender.Part by from to, back)) }
        ensures stands { Stands self.new.ground.now.cell self.new.seat self.new.sample self.new.loan }
        ensures stays { own_part self.new.ground.now.cell self.new.seat ≡ own_part self.old.ground.now.cell self.old.seat }
    {
        let done = carry(lane, Op::Write, &mut back);
        let mut change = DirectBackRun {
            by,
            op: Op::Write,
            back: Some(back),
            done,
        };
        let pages = self.ground.cell.turn(self.rt, &mut self.seat, &mut change);
        Back {
            done,
            written: None,
            pages: Some(pages),
        }
    }

    /// Makes the transfer of what was lent, and brings it back.
    pub(crate) fn bring_back(&mut self, lane: &mut Lane) -> Back
        requires stands { Stands self.old.ground.now.cell self.old.seat self.old.sample self.old.loan }
        ensures stands { Stands self.new.ground.now.cell self.new.seat self.new.sample self.new.loan }
        ensures stays { own_part self.new.ground.now.cell self.new.seat ≡ own_part self.old.ground.now.cell self.old.seat }
    {
        let Some((lender, back)) = self.loan.take() else {
            panic!(self.rt; "something was lent")
        };
        match lender {
            Lender::Reading => Back {
                done: self.fill_back(lane, back),
                written: None,
                pages: None,
            },
            Lender::Writeback => self.write_back(lane, back),
            Lender::Direct { by, op } => self.direct_back(lane, by, op, back),
            Lender::Part { by, from, to } => self.part_back(lane, by, from, to, back),
        }
    }

    // The turn that reads blocks past the page cache.
    fn read_turn(
        &mut self,
        lane: &mut Lane,
        block: u64,
        pages: &mut Parts,
    ) -> Result<u64, EventFault>
        requires stands { Stands self.old.ground.now.cell self.old.seat self.old.sample self.old.loan }
        requires whole { All (IsWholePage 16) (pages_of pages.old) }
        ensures stands { Stands self.new.ground.now.cell self.new.seat self.new.sample self.new.loan }
        ensures stays { own_part self.new.ground.now.cell self.new.seat ≡ own_part self.old.ground.now.cell self.old.seat }
    {
        self.expect_cached();
        self.expect_run(block, 1);
        assert!(self.rt; 0 < pages.len(), "some pages");
        let mut change = DirectNowRun {
            by: self.by,
            judge: |n: u32| -> Done
                requires { 0 < n }
            { lane.judge(n) },
            block,
            pages,
        };
        self.ground.cell.turn(self.rt, &mut self.seat, &mut change)
    }

    /// Reads blocks past the page cache, inside one turn, into pages of its own, which are filled with these bytes.
    pub(crate) fn read_now(
        &mut self,
        lane: &mut Lane,
        block: u64,
        fills: &[u8],
    ) -> Result<Result<Now, Unread>, AllocError>
        requires stands { Stands self.old.ground.now.cell self.old.seat self.old.sample self.old.loan }
        ensures stands { Stands self.new.ground.now.cell self.new.seat self.new.sample self.new.loan }
        ensures stays { own_part self.new.ground.now.cell self.new.seat ≡ own_part self.old.ground.now.cell self.old.seat }
    {
        assert!(self.rt; fills.len() <= 6, "pages for blocks of the range");
        let mut pages = list_of(self.alloc, fills)?;
        match self.read_turn(lane, block, &mut pages) {
            Ok(blocks) => Ok(Ok(Now { blocks, pages })),
            Err(fault) => Ok(Err(Unread { fault, pages })),
        }
    }
}
