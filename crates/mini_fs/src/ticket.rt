//! Tickets: the seats that carry a pass's loans, and the turns that lend and take back.
ghost use Rattle.std.specs.Prelude.{◌≡◌, ◌<◌, None};
ghost use Rattle.turn_cell.specs.Seats.{cell_view, seat_claims, seat_view, IsSeatOf};
ghost use Rattle.turn_cell.specs.Stakes.{Begins};
ghost use Rattle.turn_cell.specs.Views.{Turned, new_part};
ghost use Rattle.range_core.specs.RangeTruth.{RangeTruth};
ghost use Rattle.mount_parts.specs.MountView.{HasBlock, stripe_at};
ghost use Rattle.mini_fs.specs.PassView.{IsPassOf, share_at};
ghost use Rattle.mini_fs.specs.Tickets.{ClosedTicket, IsLoanSeat, IsTicketOf, KeepsTickets, Opened, lent_claims, ticket_claims, with_held};
ghost use Rattle.mini_fs.specs.Turns.{LeavesNumbers, ReadyAt, TurnsAt};

use crate::mount::Mount;
use crate::pass::Pass;
use iob_base::FileId;
use range_core::{Range, SameCaller, WithLoan};
use std::marker::Model;
use std::sync::Wait;
use turn_cell::{Change, TurnCell, TurnSeat};

/// A seat at one stripe that carries at most one loan of a pass, under the pass's caller number. Contracts see it as a
/// `TicketView`.
///
/// It makes no turn: the pass does, with the ticket's loan. One that is dropped keeps its share and its loan for good, and
/// then the mount cannot be taken apart any more.
///
/// # Invariants
///
/// Its seat has no spare number.
#[derive(Drop)]
pub struct Ticket {
    stripe: usize,
    seat: TurnSeat<Range>,
}

impl Model for Ticket {
    ghost use Rattle.std.specs.Prelude.{◌≡◌};
    ghost use Rattle.turn_cell.specs.Seats.{seat_claims, seat_view};
    ghost use Rattle.mini_fs.specs.TicketView.{TicketView, ticket_view};
    ghost use Rattle.mini_fs.specs.Tickets.{ticket_claims};

    ghost Value = { TicketView };

    ghost view = { λ t. ticket_view t.stripe (seat_view t.seat) (seat_claims t.seat) };

    ghost invariant = { λ t. seat_claims t.seat ≡ ticket_claims (seat_claims t.seat).caller (seat_claims t.seat).held };
}

// One turn of a caller's own seat with the loan of another seat, which then carries the loan that is left.
fn turn_with<C: Change<Range>, R: Wait>(
    rt: &R,
    cell: &TurnCell<Range>,
    seat: &mut TurnSeat<Range>,
    loan: TurnSeat<Range>,
    change: &mut C,
) -> (TurnSeat<Range>, C::Out)
    requires cell { IsSeatOf cell.now seat.old }
    requires free { (seat_claims seat.old).held ≡ None }
    requires loan { IsLoanSeat (seat_view seat.old) (seat_view loan) }
    requires carries { seat_claims loan ≡ ticket_claims (seat_claims seat.old).caller (seat_claims loan).held }
    requires ready { C.ready change.old (cell_view cell.now).opening (seat_view seat.old).seen (with_held (seat_claims seat.old) (seat_claims loan).held) }
    requires leaves { LeavesNumbers C.does change.old }
    ensures same { ((seat_view seat.new).cell ≡ (seat_view seat.old).cell) × ((seat_view seat.new).share ≡ (seat_view seat.old).share) }
    ensures claims { seat_claims seat.new ≡ seat_claims seat.old }
    ensures refused { Begins (seat_view seat.old).refused (seat_view seat.new).refused }
    ensures turned { Turned RangeTruth (λ history value next entry. C.does change.old (cell_view cell.now).opening history value (with_held (seat_claims seat.old) (seat_claims loan).held) change.new next (with_held (seat_claims seat.old) (seat_claims result.0).held) result.1 entry) (cell_view cell.now).opening (with_held (seat_claims seat.old) (seat_claims loan).held) (with_held (seat_claims seat.old) (seat_claims result.0).held) (seat_view seat.old) (seat_view seat.new) }
    ensures loan { seat_view result.0 ≡ new_part (seat_view seat.new) 1 }
    ensures carries { seat_claims result.0 ≡ ticket_claims (seat_claims seat.old).caller (seat_claims result.0).held }
{
    cell.join(seat, loan);
    let out = cell.turn(rt, seat, change);
    let back = cell.split(seat, 1, &mut WithLoan {});
    (back, out)
}

impl Mount {
    /// A ticket without a loan for the stripe of block `b`. The pass's share there is above 1, of which the ticket gets 1. It
    /// takes no memory.
    pub fn ticket(&self, pass: &mut Pass, file: FileId, b: u64) -> Ticket
        requires of { IsPassOf self.now pass.old }
        requires block { HasBlock self.now file b }
        requires share { 1 < share_at pass.old (stripe_at self.now file b) }
        ensures of { IsPassOf self.now pass.new }
        ensures opened { Opened pass.old (stripe_at self.now file b) pass.new result }
        ensures ticket { IsTicketOf pass.new result }
        ensures tickets { KeepsTickets pass.old pass.new }
    {
        let stripe = self.stripe(file, b);
        let cell = self.range_cell(stripe);
        let seat = cell.split(&mut pass.stripes[stripe], 1, &mut SameCaller {});
        Ticket { stripe, seat }
    }

    /// One turn of the pass at the stripe of a ticket, with the ticket's loan: by an event that lends, which finds none, or
    /// by one that takes back what the ticket carries. It gives the ticket with the loan that is left, and what the change
    /// answers. It tries until it wins the gate.
    ///
    /// The turn is the pass's own: it sees all that it had seen there, then entries of others, then the one entry of this turn.
    /// Every other ticket of the pass stays its ticket.
    pub fn lent_turn<C: Change<Range>, R: Wait>(
        &self,
        rt: &R,
        pass: &mut Pass,
        ticket: Ticket,
        change: &mut C,
    ) -> (Ticket, C::Out)
        requires of { IsPassOf self.now pass.old }
        requires ticket { IsTicketOf pass.old ticket }
        requires ready { ReadyAt (C.ready change.old) self.now pass.old ticket.stripe (lent_claims pass.old ticket.held) }
        requires leaves { LeavesNumbers C.does change.old }
        ensures of { IsPassOf self.now pass.new }
        ensures turned { TurnsAt (λ opening history value next entry. C.does change.old opening history value (lent_claims pass.old ticket.held) change.new next (lent_claims pass.old result.0.held) result.1 entry) self.now ticket.stripe (lent_claims pass.old ticket.held) (lent_claims pass.old result.0.held) pass.old pass.new }
        ensures stripe { result.0.stripe ≡ ticket.stripe }
        ensures ticket { IsTicketOf pass.new result.0 }
        ensures tickets { KeepsTickets pass.old pass.new }
    {
        let Ticket { stripe, seat } = ticket;
        let cell = self.range_cell(stripe);
        let (seat, out) = turn_with(rt, cell, &mut pass.stripes[stripe], seat, change);
        (Ticket { stripe, seat }, out)
    }

    /// Takes back a ticket of the pass that carries no loan, with its share.
    pub fn close_ticket(&self, pass: &mut Pass, ticket: Ticket)
        requires of { IsPassOf self.now pass.old }
        requires ticket { IsTicketOf pass.old ticket }
        requires free { ticket.held ≡ None }
        ensures of { IsPassOf self.now pass.new }
        ensures closed { ClosedTicket pass.old ticket pass.new }
        ensures tickets { KeepsTickets pass.old pass.new }
    {
        let Ticket { stripe, seat } = ticket;
        let cell = self.range_cell(stripe);
        cell.join(&mut pass.stripes[stripe], seat);
    }
}
