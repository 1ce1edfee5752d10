//! Calls that take back what was lent on a ticket of a pass.
ghost use Rattle.std.specs.Prelude.{◌≡◌, [], All, None, Some, map};
ghost use Rattle.iob_base.specs.Parting.{IsBare, pages_of};
ghost use Rattle.iob_base.specs.declared.stamp.Op.TheVariants.{Read, Write};
ghost use Rattle.mini_fs.specs.Loans.{EndsDirect, EndsWriteback, FillsBack, direct_back_run};
ghost use Rattle.mini_fs.specs.PassView.{IsPassOf};
ghost use Rattle.mini_fs.specs.Tickets.{IsTicketOf, KeepsTickets, lent_claims};
ghost use Rattle.mini_fs.specs.Turns.{ReadyAt, TurnsAt};
ghost use Rattle.mount_parts.specs.MountView.{stripe_at};
ghost use Rattle.range_core.specs.DirectBacks.{KeepsPages, ReadyToReturn, pages_held};
ghost use Rattle.range_core.specs.LendWritebacks.{written_count};
ghost use Rattle.range_core.specs.Returning.{MayComeBack};
ghost use Rattle.range_core.specs.declared.lending.Lender.TheVariants.{Reading, Writeback};

use crate::mount::Mount;
use crate::pass::Pass;
use crate::ticket::Ticket;
use fault_device::Done;
use iob_base::{FileId, Op, Parts, Tag};
use range_core::{DirectBackRun, FillBackRun, Lent, Written, WrittenBackRun};
use std::sync::Wait;

impl Mount {
    /// Takes blocks back that a ticket carries, from a read of them into the cache, and answers the list that they were in,
    /// empty. Where the read did not fail they have its pages from now on, uptodate and clean. Where it failed none is
    /// uptodate. The ticket then carries nothing. It has no refusal and takes no memory.
    pub fn fill_back<R: Wait>(
        &self,
        rt: &R,
        pass: &mut Pass,
        file: FileId,
        ticket: Ticket,
        back: Lent,
        done: Done,
    ) -> (Ticket, Parts)
        requires of { IsPassOf self.now pass.old }
        requires ticket { IsTicketOf pass.old ticket }
        requires at { ticket.stripe ≡ stripe_at self.now file back.block }
        requires ready { ReadyAt (λ opening seen claims. MayComeBack opening claims Reading Read back done) self.now pass.old ticket.stripe (lent_claims pass.old ticket.held) }
        ensures of { IsPassOf self.now pass.new }
        ensures turned { TurnsAt (λ opening history value next entry. FillsBack back done result.1 value (lent_claims pass.old ticket.held) next (lent_claims pass.old result.0.held) entry) self.now ticket.stripe (lent_claims pass.old ticket.held) (lent_claims pass.old result.0.held) pass.old pass.new }
        ensures ticket { IsTicketOf pass.new result.0 }
        ensures stripe { result.0.stripe ≡ ticket.stripe }
        ensures held { result.0.held ≡ None }
        ensures emptied { result.1 ≡ [] }
        ensures tickets { KeepsTickets pass.old pass.new }
    {
        let mut change = FillBackRun {
            back: Some(back),
            done,
        };
        self.lent_turn(rt, pass, ticket, &mut change)
    }

    /// Takes blocks back that a ticket carries, from a write of their pages, and answers how many were written, and the list
    /// that they were in, empty. Where the write did not fail they are mapped, and dirty only where a store changed them
    /// meanwhile. Where it failed they are dirty, and the range counts one more failed writeback. The ticket then carries
    /// nothing. It has no refusal and takes no memory.
    pub fn written_back<R: Wait>(
        &self,
        rt: &R,
        pass: &mut Pass,
        file: FileId,
        ticket: Ticket,
        back: Lent,
        done: Done,
    ) -> (Ticket, Written)
        requires of { IsPassOf self.now pass.old }
        requires ticket { IsTicketOf pass.old ticket }
        requires at { ticket.stripe ≡ stripe_at self.now file back.block }
        requires ready { ReadyAt (λ opening seen claims. MayComeBack opening claims Writeback Write back done) self.now pass.old ticket.stripe (lent_claims pass.old ticket.held) }
        ensures of { IsPassOf self.now pass.new }
        ensures turned { TurnsAt (λ opening history value next entry. EndsWriteback back done result.1 value (lent_claims pass.old ticket.held) next (lent_claims pass.old result.0.held) entry) self.now ticket.stripe (lent_claims pass.old ticket.held) (lent_claims pass.old result.0.held) pass.old pass.new }
        ensures ticket { IsTicketOf pass.new result.0 }
        ensures stripe { result.0.stripe ≡ ticket.stripe }
        ensures held { result.0.held ≡ None }
        ensures count { result.1.blocks ≡ written_count back done }
        ensures emptied { result.1.parts ≡ [] }
        ensures tickets { KeepsTickets pass.old pass.new }
    {
        let mut change = WrittenBackRun {
            back: Some(back),
            done,
        };
        self.lent_turn(rt, pass, ticket, &mut change)
    }

    /// Takes blocks back that a ticket carries, lent for the same tag and direction with a caller's own pages, or, for a
    /// write, a block that was lent for a part of it, and answers the list of these pages, in order and with blank sectors.
    /// A write that did not fail makes its blocks mapped, and each block is stamped. The ticket then carries nothing. It has
    /// no refusal and takes no memory.
    pub fn direct_back<R: Wait>(
        &self,
        rt: &R,
        pass: &mut Pass,
        file: FileId,
        ticket: Ticket,
        by: Tag,
        op: Op,
        back: Lent,
        done: Done,
    ) -> (Ticket, Parts)
        requires of { IsPassOf self.now pass.old }
        requires ticket { IsTicketOf pass.old ticket }
        requires at { ticket.stripe ≡ stripe_at self.now file back.block }
        requires ready { ReadyAt (λ opening seen claims. ReadyToReturn (direct_back_run by op (Some back) done) opening claims) self.now pass.old ticket.stripe (lent_claims pass.old ticket.held) }
        ensures of { IsPassOf self.now pass.new }
        ensures turned { TurnsAt (λ opening history value next entry. EndsDirect by op back done result.1 opening history value (lent_claims pass.old ticket.held) next (lent_claims pass.old result.0.held) entry) self.now ticket.stripe (lent_claims pass.old ticket.held) (lent_claims pass.old result.0.held) pass.old pass.new }
        ensures ticket { IsTicketOf pass.new result.0 }
        ensures stripe { result.0.stripe ≡ ticket.stripe }
        ensures held { result.0.held ≡ None }
        ensures pages { pages_of result.1 ≡ map (λ p. p.page) back.parts }
        ensures kept { KeepsPages op (pages_held ticket.held) (pages_of result.1) }
        ensures bare { All IsBare result.1 }
        ensures tickets { KeepsTickets pass.old pass.new }
    {
        let mut change = DirectBackRun {
            by,
            op,
            back: Some(back),
            done,
        };
        self.lent_turn(rt, pass, ticket, &mut change)
    }
}
