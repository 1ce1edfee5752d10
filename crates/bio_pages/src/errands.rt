//! The calls on a shelf: errands are given away, bios come back, and are gathered.
ghost use Rattle.std.specs.Prelude.{◌≡◌, ◌<◌, ℕ, true, [], ◌∷◌};
ghost use Rattle.atomic_table.specs.Table.{Allows, Splits};
ghost use Rattle.bio_pages.specs.Running.{IsRun};
ghost use Rattle.bio_pages.specs.Shelf.{runner_of, with_errand, spent, looked, without_note, seen_last, outcome_at, IsFree, IsNotedFor, Fulfils};
ghost use Rattle.bio_pages.specs.ShelfRule.{Shelved};
ghost use Rattle.bio_pages.specs.ShelfSteps.{lender, sent_out, IsPicked};
ghost use Rattle.bio_pages.specs.declared.bio.Bio.{Bio};
ghost use Rattle.folio_bits.specs.declared.countdown.Outcome.TheVariants.{Last};

use crate::bio::Bio;
use crate::shelf::{BioShelf, PutEnd, WORD};
use crate::shelf_rule::{Clears, Counts, Fills, Lends, Looks, Picks, Sends, Slots};
use crate::shelf_seat::{Place, ShelfSeat};
use fault_device::Done;
use folio_bits::Outcome;
use std::marker::Brand;

impl<T> BioShelf<T> {
    fn lend<L: Sends<T>>(&self, place: &mut Place<T>, slot: u32, bio: &Bio<T>) -> Place<T>
        requires shelf { place.old.table_id ≡ self.now }
        requires step { Splits Shelved place.old.id place.old.me.0 (lender L.errand place.old.me.0) (sent_out L.errand) }
        ensures kept { (place.new.table_id ≡ place.old.table_id) × (place.new.id ≡ place.old.id) × (place.new.me ≡ (lender L.errand place.old.me.0, place.old.me.1)) }
        ensures given { (result.table_id ≡ place.old.table_id) × (result.me ≡ (sent_out L.errand, [])) }
    {
        self.table.shared.split_seat::<Lends<L>>(place)
    }

    /// Gives one of the owner's amount to a new seat, whose errand is to bring this bio back to this slot. The owner notes
    /// the bio for the slot until the slot is emptied. It takes no memory.
    pub fn split(&self, seat: &mut ShelfSeat<T>, slot: u32, bio: &Bio<T>) -> ShelfSeat<T>
        requires shelf { seat.old.shelf ≡ self.now }
        requires owner { seat.old.seat ≡ 0 }
        requires amount { 32 < seat.old.amount }
        requires free { IsFree seat.old slot }
        ensures kept { seat.new ≡ with_errand seat.old slot bio.now }
        ensures given { result ≡ runner_of self.now result.seat slot bio.now }
    {
        let place = self.lend::<Brand>(&mut seat.place, slot, bio);
        seat.amount -= 1;
        ShelfSeat { place, amount: 1 }
    }

    /// Puts a bio into the slot of the seat's errand, with what its transfer did, and then counts the seat down. It waits for
    /// nobody, and takes no memory.
    ///
    /// `Last` where the word found was the seat's amount, and `More` where it was not.
    pub fn put(&self, seat: ShelfSeat<T>, slot: u32, bio: Bio<T>, done: Done) -> PutEnd<T>
        requires shelf { seat.shelf ≡ self.now }
        requires errand { Fulfils seat slot bio done }
        ensures seat { result.seat ≡ spent seat result.seat.found }
        ensures outcome { result.outcome ≡ outcome_at seat.amount result.seat.found }
    {
        let ShelfSeat { mut place, amount } = seat;
        self.table.shared.load::<Fills>(&mut place, WORD);
        let back = Some((bio, done));
        match self.table.shared.exchange(&mut place, slot as usize, back) {
            None => {}
            Some(_) => unreachable!(),
        }
        let found = self.table.shared.fetch_sub::<Counts>(&mut place, WORD, 1);
        PutEnd {
            outcome: outcome_of(amount, found),
            seat: ShelfSeat { place, amount: 0 },
        }
    }

    /// Looks at the word, by one load.
    ///
    /// `Last` where it is the seat's own amount: nobody else has any, and all errands are done. The seat has then seen
    /// `Last`, until it gives the next errand away.
    pub fn look(&self, seat: &mut ShelfSeat<T>) -> Outcome
        requires shelf { seat.old.shelf ≡ self.now }
        ensures seat { seat.new ≡ looked seat.old seat.new.found }
        ensures outcome { result ≡ outcome_at seat.old.amount seat.new.found }
        ensures last { result ≡ Last → seat.new ≡ seen_last seat.old }
    {
        let found = self.table.shared.load::<Looks>(&mut seat.place, WORD);
        outcome_of(seat.amount, found)
    }

    fn pick<L: Slots>(&self, place: &mut Place<T>, slot: u32)
        requires shelf { place.old.table_id ≡ self.now }
        requires step { Allows Shelved place.old.table_id.slots place.old.id place.old.me 0 (λ n. n) (λ n w. IsPicked L.slot place.old.me w) }
        ensures shelf { (place.new.table_id ≡ place.old.table_id) × (place.new.id ≡ place.old.id) }
        ensures step { IsPicked L.slot place.old.me place.new.me }
    {
        self.table.shared.load::<Picks<L>>(place, WORD);
    }

    /// Takes out of a slot the bio that the owner noted for it, and what its transfer did. The slot is then empty, and
    /// nothing is noted for it. It waits for nobody, and takes no memory.
    pub fn gather(&self, seat: &mut ShelfSeat<T>, slot: u32) -> (Bio<T>, Done)
        requires shelf { seat.old.shelf ≡ self.now }
        requires owner { seat.old.seat ≡ 0 }
        requires last { seat.old.last ≡ true }
        requires noted { (before : Bio T) × IsNotedFor seat.old slot before }
        ensures seat { seat.new ≡ without_note seat.old slot }
        ensures bio { (before : Bio T) → IsNotedFor seat.old slot before → IsRun before result.0 result.1 }
    {
        self.pick::<Brand>(&mut seat.place, slot);
        let back = self
            .table
            .shared
            .exchange(&mut seat.place, slot as usize, None);
        self.table.shared.load::<Clears>(&mut seat.place, WORD);
        back.unwrap()
    }
}

fn outcome_of(amount: u64, found: u64) -> Outcome
    ensures { result ≡ outcome_at amount found }
{
    if found == amount {
        Outcome::Last
    } else {
        Outcome::More
    }
}
