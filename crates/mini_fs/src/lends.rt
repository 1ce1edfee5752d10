//! Calls that lend blocks on a ticket of a pass.
ghost use Rattle.std.specs.Prelude.{◌≡◌, ◌/◌, [], None, Some, IfErr, IfOk, OnErr, map};
ghost use Rattle.iob_base.specs.Parting.{pages_of};
ghost use Rattle.mini_fs.specs.Loans.{AnswersPages, CarriesAnswer, IsLoaned, LendsDirect, LendsPart, LendsRead, LendsWriteback, lend_direct_run, lend_part_run};
ghost use Rattle.mini_fs.specs.PassView.{IsPassOf};
ghost use Rattle.mini_fs.specs.Tickets.{IsTicketOf, KeepsTickets, lent_claims};
ghost use Rattle.mini_fs.specs.Turns.{ReadyAt, TurnsAt};
ghost use Rattle.mount_parts.specs.MountView.{stripe_at};
ghost use Rattle.range_core.specs.LendDirects.{ReadyToLend};
ghost use Rattle.range_core.specs.LendParts.{ReadyToLendPart};
ghost use Rattle.range_core.specs.LendReads.{MayFill};
ghost use Rattle.range_core.specs.LendWritebacks.{MayWrite};
ghost use Rattle.range_core.specs.declared.lending.Lender.TheVariants.{Part, Reading, Writeback};

use crate::mount::Mount;
use crate::pass::Pass;
use crate::ticket::Ticket;
use iob_base::{FileId, Op, Parts, Tag};
use range_core::{
    Direct, DirectRefused, LendDirectRun, LendPartRun, LendReadRun, LendRefused, LendWritebackRun,
    Lent, PartRefused, Sample,
};
use std::sync::Wait;

impl Mount {
    /// Lends blocks on a ticket for a read of them into the cache: the longest run from `block` on, of at most `blocks`
    /// and at most 16, in one folio, that is mapped with device numbers that follow each other, at home and not uptodate.
    /// They go out in the list that is handed in empty. The ticket then carries the loan, until `fill_back`.
    ///
    /// # Errors
    ///
    /// `Away` where `block` is lent out, `Settled` where it is uptodate or not mapped, and `NoMemory`. Nothing has
    /// changed then, the list comes back empty, and the ticket carries nothing.
    pub fn lend_read<R: Wait>(
        &self,
        rt: &R,
        pass: &mut Pass,
        file: FileId,
        ticket: Ticket,
        block: u64,
        blocks: u64,
        parts: Parts,
    ) -> (Ticket, Result<Lent, LendRefused>)
        requires of { IsPassOf self.now pass.old }
        requires ticket { IsTicketOf pass.old ticket }
        requires at { ticket.stripe ≡ stripe_at self.now file block }
        requires free { ticket.held ≡ None }
        requires list { parts ≡ [] }
        requires ready { ReadyAt (λ opening seen claims. MayFill opening claims block blocks) self.now pass.old ticket.stripe (lent_claims pass.old ticket.held) }
        ensures of { IsPassOf self.now pass.new }
        ensures turned { TurnsAt (λ opening history value next entry. LendsRead block blocks parts result.1 opening value (lent_claims pass.old ticket.held) next (lent_claims pass.old result.0.held) entry) self.now ticket.stripe (lent_claims pass.old ticket.held) (lent_claims pass.old result.0.held) pass.old pass.new }
        ensures ticket { IsTicketOf pass.new result.0 }
        ensures stripe { result.0.stripe ≡ ticket.stripe }
        ensures held { IfOk result.1 (λ lent. IsLoaned self.now file result.0 lent Reading) }
        ensures refused { OnErr result.1 (result.0.held ≡ None) }
        ensures list { IfErr result.1 (λ refused. refused.parts ≡ []) }
        ensures tickets { KeepsTickets pass.old pass.new }
    {
        let mut change = LendReadRun {
            block,
            blocks,
            parts: Some(parts),
        };
        self.lent_turn(rt, pass, ticket, &mut change)
    }

    /// Lends blocks on a ticket for a write of them to the device, with snapshots of their pages: the longest run from
    /// `block` on, of at most `blocks` and at most 16, in one folio, that is dirty and at home, all mapped or all unwritten,
    /// with device numbers that follow each other. They go out in the list that is handed in empty, and are clean from now
    /// on. The ticket then carries the loan, until `written_back`.
    ///
    /// # Errors
    ///
    /// `Away` where `block` is lent out, `Settled` where it is not dirty, `Unattached` where it has no space yet, `Worn`
    /// where it was never written and the cookies are used up, and `NoMemory`. Nothing has changed then, the list comes
    /// back empty, and the ticket carries nothing.
    pub fn lend_writeback<R: Wait>(
        &self,
        rt: &R,
        pass: &mut Pass,
        file: FileId,
        ticket: Ticket,
        block: u64,
        blocks: u64,
        parts: Parts,
    ) -> (Ticket, Result<Lent, LendRefused>)
        requires of { IsPassOf self.now pass.old }
        requires ticket { IsTicketOf pass.old ticket }
        requires at { ticket.stripe ≡ stripe_at self.now file block }
        requires free { ticket.held ≡ None }
        requires list { parts ≡ [] }
        requires ready { ReadyAt (λ opening seen claims. MayWrite opening claims block blocks) self.now pass.old ticket.stripe (lent_claims pass.old ticket.held) }
        ensures of { IsPassOf self.now pass.new }
        ensures turned { TurnsAt (λ opening history value next entry. LendsWriteback block blocks parts result.1 opening value (lent_claims pass.old ticket.held) next (lent_claims pass.old result.0.held) entry) self.now ticket.stripe (lent_claims pass.old ticket.held) (lent_claims pass.old result.0.held) pass.old pass.new }
        ensures ticket { IsTicketOf pass.new result.0 }
        ensures stripe { result.0.stripe ≡ ticket.stripe }
        ensures held { IfOk result.1 (λ lent. IsLoaned self.now file result.0 lent Writeback) }
        ensures refused { OnErr result.1 (result.0.held ≡ None) }
        ensures list { IfErr result.1 (λ refused. refused.parts ≡ []) }
        ensures tickets { KeepsTickets pass.old pass.new }
    {
        let mut change = LendWritebackRun {
            block,
            blocks,
            parts: Some(parts),
        };
        self.lent_turn(rt, pass, ticket, &mut change)
    }

    /// Lends as many blocks on a ticket as there are pages, with these pages, for a transfer that skips the page cache. The
    /// ticket then carries the loan, until `direct_back`. A read of blocks that are not mapped lends nothing: it fills the
    /// pages with zeros and stamps the blocks.
    ///
    /// # Errors
    ///
    /// `Stale` where the sample's cookie is not the range's; `Away` and `Dirty` of the first such block; `Worn` for a
    /// write of unwritten blocks where the cookies are used up; and want of memory. All give the pages back as they were
    /// and change nothing, and the ticket carries nothing.
    pub fn lend_direct<R: Wait>(
        &self,
        rt: &R,
        pass: &mut Pass,
        file: FileId,
        ticket: Ticket,
        by: Tag,
        seen: Sample,
        op: Op,
        block: u64,
        pages: Parts,
    ) -> (Ticket, Result<Direct, DirectRefused>)
        requires of { IsPassOf self.now pass.old }
        requires ticket { IsTicketOf pass.old ticket }
        requires at { ticket.stripe ≡ stripe_at self.now file block }
        requires free { ticket.held ≡ None }
        requires ready { ReadyAt (λ opening history claims. ReadyToLend (lend_direct_run by seen op block (Some pages)) opening history claims) self.now pass.old ticket.stripe (lent_claims pass.old ticket.held) }
        ensures of { IsPassOf self.now pass.new }
        ensures turned { TurnsAt (λ opening history value next entry. LendsDirect by seen op block pages result.1 opening history value (lent_claims pass.old ticket.held) next (lent_claims pass.old result.0.held) entry) self.now ticket.stripe (lent_claims pass.old ticket.held) (lent_claims pass.old result.0.held) pass.old pass.new }
        ensures ticket { IsTicketOf pass.new result.0 }
        ensures stripe { result.0.stripe ≡ ticket.stripe }
        ensures held { IfOk result.1 (λ answer. CarriesAnswer self.now file result.0 by op answer) }
        ensures refused { OnErr result.1 (result.0.held ≡ None) }
        ensures pages { IfOk result.1 (λ answer. AnswersPages pages answer) }
        ensures pages_back { IfErr result.1 (λ refused. refused.pages ≡ pages) }
        ensures tickets { KeepsTickets pass.old pass.new }
    {
        let mut change = LendDirectRun {
            by,
            seen,
            op,
            block,
            pages: Some(pages),
        };
        self.lent_turn(rt, pass, ticket, &mut change)
    }

    /// Lends a block on a ticket with a caller's own page, for a write from one place of the file up to another, both in
    /// that block and not all of it. Around the call's bytes the page gets zeros where the block was never written, and the
    /// bytes of the block's own page where it is mapped. The ticket then carries the loan, until `direct_back` for a write.
    ///
    /// # Errors
    ///
    /// `Stale`, `Away`, `Cold`, `Dirty`, `Worn` and `NoMemory`, as the event has them. All give the page back as it was and
    /// change nothing, and the ticket carries nothing.
    pub fn lend_part<R: Wait>(
        &self,
        rt: &R,
        pass: &mut Pass,
        file: FileId,
        ticket: Ticket,
        by: Tag,
        seen: Sample,
        from: u64,
        to: u64,
        page: Parts,
    ) -> (Ticket, Result<Lent, PartRefused>)
        requires of { IsPassOf self.now pass.old }
        requires ticket { IsTicketOf pass.old ticket }
        requires at { ticket.stripe ≡ stripe_at self.now file (from / self.now.geometry.block_size) }
        requires free { ticket.held ≡ None }
        requires ready { ReadyAt (λ opening history claims. ReadyToLendPart (lend_part_run by seen from to (Some page)) opening history claims) self.now pass.old ticket.stripe (lent_claims pass.old ticket.held) }
        ensures of { IsPassOf self.now pass.new }
        ensures turned { TurnsAt (λ opening history value next entry. LendsPart by seen from to page result.1 opening history value (lent_claims pass.old ticket.held) next (lent_claims pass.old result.0.held) entry) self.now ticket.stripe (lent_claims pass.old ticket.held) (lent_claims pass.old result.0.held) pass.old pass.new }
        ensures ticket { IsTicketOf pass.new result.0 }
        ensures stripe { result.0.stripe ≡ ticket.stripe }
        ensures held { IfOk result.1 (λ lent. IsLoaned self.now file result.0 lent (Part by from to)) }
        ensures refused { OnErr result.1 (result.0.held ≡ None) }
        ensures page { IfOk result.1 (λ lent. map (λ p. p.number) (pages_of lent.parts) ≡ map (λ p. p.number) (pages_of page)) }
        ensures page_back { IfErr result.1 (λ refused. refused.page ≡ page) }
        ensures tickets { KeepsTickets pass.old pass.new }
    {
        self.is_laid_out();
        let mut change = LendPartRun {
            by,
            seen,
            from,
            to,
            page: Some(page),
        };
        self.lent_turn(rt, pass, ticket, &mut change)
    }
}
