//! A loan of a caller goes on a seat of its own, is written, and comes home with that seat.
ghost use Rattle.std.specs.Prelude.{◌≡◌, ◌<◌};
ghost use Rattle.turn_cell.specs.Seats.{seat_claims, seat_view};
ghost use Rattle.worked_ranges.specs.SmallEnds.{CarriesLoan, CarriesWritten, own_part, with_one, without_one};
ghost use Rattle.worked_ranges.specs.SmallRanges.{Stands};

use crate::range_caller::Caller;
use crate::range_loans::carry;
use fault_device::{Done, Lane};
use iob_base::Op;
use range_core::{Lender, Lent, Range, WithLoan, WrittenBackRun};
use std::process::Abort;
use std::sync::Wait;
use turn_cell::TurnSeat;

/// A loan, with the seat that carries it.
#[derive(Drop)]
pub(crate) struct Ticket {
    pub(crate) seat: TurnSeat<Range>,
    pub(crate) lender: Lender,
    pub(crate) lent: Lent,
}

/// What was written of a loan, with the seat that carries it.
#[derive(Drop)]
pub(crate) struct Written {
    pub(crate) seat: TurnSeat<Range>,
    pub(crate) back: Lent,
    pub(crate) done: Done,
}

impl<'a, R: Abort + Wait> Caller<'a, R> {
    /// Splits a seat off that carries what was lent to it.
    pub(crate) fn split_loan(&mut self) -> Ticket
        requires stands { Stands self.old.ground.now.cell self.old.seat self.old.sample self.old.loan }
        requires more { 1 < (seat_view self.old.seat).share }
        ensures stands { Stands self.new.ground.now.cell self.new.seat self.new.sample self.new.loan }
        ensures part { own_part self.new.ground.now.cell self.new.seat ≡ without_one (own_part self.old.ground.now.cell self.old.seat) }
        ensures carries { CarriesLoan (own_part self.new.ground.now.cell self.new.seat) (seat_view result.seat) (seat_claims result.seat) result.lender result.lent }
    {
        let Some((lender, lent)) = self.loan.take() else {
            panic!(self.rt; "something was lent")
        };
        let seat = self.ground.cell.split(&mut self.seat, 1, &mut WithLoan {});
        Ticket { seat, lender, lent }
    }

    /// The write of a loan of its dirty blocks, while the loan is on a seat of its own.
    pub(crate) fn write_loan(&self, ticket: Ticket, lane: &mut Lane) -> Written
        requires { CarriesLoan (own_part self.now.ground.now.cell self.now.seat) (seat_view ticket.seat) (seat_claims ticket.seat) ticket.lender ticket.lent }
        ensures { CarriesWritten (own_part self.now.ground.now.cell self.now.seat) (seat_view result.seat) (seat_claims result.seat) result.back result.done }
    {
        let Ticket {
            seat,
            lender,
            lent: mut back,
        } = ticket;
        match lender {
            Lender::Writeback => {}
            Lender::Reading | Lender::Direct { .. } | Lender::Part { .. } => {
                panic!(self.rt; "a loan for a write")
            }
        }
        let done = carry(lane, Op::Write, &mut back);
        Written { seat, back, done }
    }

    /// Joins the seat of a loan that was written, and makes the turn that brings it home.
    pub(crate) fn end_write(&mut self, written: Written) -> u64
        requires stands { Stands self.old.ground.now.cell self.old.seat self.old.sample self.old.loan }
        requires carries { CarriesWritten (own_part self.old.ground.now.cell self.old.seat) (seat_view written.seat) (seat_claims written.seat) written.back written.done }
        ensures stands { Stands self.new.ground.now.cell self.new.seat self.new.sample self.new.loan }
        ensures part { own_part self.new.ground.now.cell self.new.seat ≡ with_one (own_part self.old.ground.now.cell self.old.seat) }
    {
        self.expect_free();
        let Written { seat, back, done } = written;
        self.ground.cell.join(&mut self.seat, seat);
        let mut change = WrittenBackRun {
            back: Some(back),
            done,
        };
        let end = self.ground.cell.turn(self.rt, &mut self.seat, &mut change);
        end.blocks
    }
}
