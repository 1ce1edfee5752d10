//! A number that its seats count down, each by its own amount. The one that counts it to 0 is told so.
ghost use Rattle.std.specs.Prelude.{◌≡◌, ◌-◌, ◌<◌, ◌≤◌, IfOk};
ghost use Rattle.atomic_table.specs.Seated.{TableId, table_id_coded};
ghost use Rattle.atomic_table.specs.Table.{Splits};
ghost use Rattle.folio_bits.specs.Counting.{AmountsCounted};
ghost use Rattle.folio_bits.specs.Steps.{holder, less};
ghost use Rattle.folio_bits.specs.Views.{whole, IsSpent, outcome_of};

use crate::rule::{CountsDown, Cuts, Finishes, Known, Shares};
use crate::seats::{CountSeat, Place, SpentSeat};
use atomic_table::Table;
use std::alloc::{AllocError, Global};
use std::marker::{Brand, Model};

/// A number that is shared out among seats. To a contract it is what tells it from every other countdown.
///
/// Invariant: it has one word, which is the sum of what its seats have.
#[derive(Drop)]
pub struct Countdown {
    table: Table<(), Known, u64, CountsDown, Global>,
}

impl Model for Countdown {
    ghost Value = { TableId };

    ghost coded = { table_id_coded };

    ghost view = { λ c. c.table.shared.table_id };

    ghost invariant = { λ c. c.table.shared.table_id.words ≡ 1 };
}

/// What a seat is told that has finished.
#[derive(Clone, Copy, Debug)]
pub enum Outcome {
    /// It counted to 0: every other seat has finished before.
    Last,
    /// Other seats still have something.
    More,
}

/// The end of a seat: what it was told, and the seat, which has nothing any more.
#[derive(Drop)]
pub struct Ended {
    pub outcome: Outcome,
    pub seat: SpentSeat,
}

impl Countdown {
    /// A countdown from `total`, and its first seat, which has all of it. It fails for want of memory alone.
    pub fn start(alloc: Global, total: u64) -> Result<(Countdown, CountSeat), AllocError>
        requires { 1 ≤ total }
        ensures { IfOk result (λ made. made.1 ≡ whole made.0 total) }
    {
        let (table, place) = Table::of_words(alloc, &[total], &total)?;
        Ok((
            Countdown { table },
            CountSeat {
                place,
                amount: total,
            },
        ))
    }

    /// Gives `share` of the seat's amount to a new seat. It takes no memory.
    pub fn split(&self, seat: &mut CountSeat, share: u64) -> CountSeat
        requires countdown { seat.old.countdown ≡ self.now }
        requires some { 1 ≤ share }
        requires less { share < seat.old.amount }
        ensures kept { seat.new ≡ record seat.old { amount = seat.old.amount - share } }
        ensures given { (result.countdown ≡ seat.old.countdown) × (result.amount ≡ share) }
    {
        let place = self.cut::<Brand>(&mut seat.place, share);
        seat.amount -= share;
        CountSeat {
            place,
            amount: share,
        }
    }

    fn cut<L: Shares>(&self, place: &mut Place, share: u64) -> Place
        requires countdown { place.old.table_id ≡ self.now }
        requires step { Splits AmountsCounted place.old.id place.old.me.0 (less L.share place.old.me.0) (holder L.share) }
        ensures kept { (place.new.table_id ≡ place.old.table_id) × (place.new.id ≡ place.old.id) × (place.new.me.0 ≡ less L.share place.old.me.0) }
        ensures given { (result.table_id ≡ place.old.table_id) × (result.me.0 ≡ holder L.share) }
    {
        self.table.shared.split_seat::<Cuts<L>>(place)
    }

    /// Counts the seat's amount down, by one atomic step. It waits for nobody, and takes no memory.
    ///
    /// `Last` where the word was this very amount, so that nothing is left, and `More` where it was greater.
    pub fn finish(&self, seat: CountSeat) -> Ended
        requires { seat.countdown ≡ self.now }
        ensures seat { IsSpent seat result.seat }
        ensures outcome { result.outcome ≡ outcome_of result.seat }
    {
        let CountSeat { mut place, amount } = seat;
        let found = self
            .table
            .shared
            .fetch_sub::<Finishes>(&mut place, 0, amount);
        let outcome = if found == amount {
            Outcome::Last
        } else {
            Outcome::More
        };
        Ended {
            outcome,
            seat: SpentSeat { place },
        }
    }
}
