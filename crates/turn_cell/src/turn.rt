//! One turn: win the gate, change the value, free the gate.
ghost use Rattle.std.specs.Prelude.{◌≡◌, ℕ, List, [], ◌∷◌, ◌++◌, ◌==◌, Some, None, IfOk, IfErr, OnOk};
ghost use prog.Atomic.{either};
ghost use Rattle.atomic_table.specs.Table.{Allows};
ghost use Rattle.turn_cell.specs.Laws.{KeepsTurn};
ghost use Rattle.turn_cell.specs.Rule.{Ruled};
ghost use Rattle.turn_cell.specs.Seats.{cell_view, seat_view, seat_claims, place_view, IsSeatOf};
ghost use Rattle.turn_cell.specs.Steps.{IsIdle, Won};
ghost use Rattle.turn_cell.specs.Stakes.{Begins};
ghost use Rattle.turn_cell.specs.Views.{Turned, FoundHeld};

use crate::cell::{FREE, GATE, HELD, SLOT, TurnCell};
use crate::chronicle::{Change, Chronicle};
use crate::plays::{Tells, Told};
use crate::seat::{Place, TurnSeat, ViewOf};
use std::marker::Brand;
use std::snapshot::Snapshot;
use std::sync::Wait;
use std::thread;

/// The gate was held. The change, the claims, what the seat has seen and its share are as before.
#[derive(Drop)]
pub struct Busy {
    /// The word that the seat's compare and exchange found at the gate: 1, while a turn runs.
    pub word: u64,
}

// What a turn began with, for the proof alone.
struct Began<T, C, D> {
    value: Snapshot<T>,
    claims: Snapshot<C>,
    change: Snapshot<D>,
}

impl<T, C, D> Began<T, C, D> {
    fn of(value: &T, claims: &C, change: &D) -> Began<T, C, D>
        ensures { (result.value.value ≡ value.now) × (result.claims.value ≡ claims.now) × (result.change.value ≡ change.now) }
    {
        Began {
            value: Snapshot::of(value),
            claims: Snapshot::of(claims),
            change: Snapshot::of(change),
        }
    }
}

impl<T, C, D> Drop for Began<T, C, D> {
    fn drop(self) {
        let Self {
            value: _,
            claims: _,
            change: _,
        } = self;
    }
}

impl<T: Chronicle> TurnCell<T> {
    // The one compare and exchange at the gate.
    fn try_gate<L: Told<Option<T>, ViewOf<T>>>(
        &self,
        place: &mut Place<T>,
        claims: &T::Claims,
    ) -> u64
        requires cell { (place_view place.old).cell ≡ (cell_view self.now).cell }
        requires step { Allows (Ruled T.truth (cell_view self.now).opening) 1 place.old.id place.old.me 0 (λ n. either (n == 0) 1 n) (L.fact place.old.me) }
        ensures cell { (place.new.table_id ≡ place.old.table_id) × (place.new.id ≡ place.old.id) }
        ensures step { L.fact place.old.me result place.new.me }
    {
        self.table
            .shared
            .compare_exchange::<Tells<L>>(place, GATE, FREE, HELD)
    }

    // Moves the value back, and frees the gate by a swap.
    fn leave<C: Change<T>, L: Told<Option<T>, ViewOf<T>>>(
        &self,
        place: &mut Place<T>,
        began: &Began<T, T::Claims, C>,
        change: &C,
        claims: &T::Claims,
        out: &C::Out,
        value: T,
    )
        requires cell { (place_view place.old).cell ≡ (cell_view self.now).cell }
        requires slot { place.old.me.1 ≡ (0, None) ∷ [] }
        requires step { Allows (Ruled T.truth (cell_view self.now).opening) 1 place.old.id (place.old.me.0, (0, Some value) ∷ []) 0 (λ _. 0) (L.fact (place.old.me.0, (0, Some value) ∷ [])) }
        ensures cell { (place.new.table_id ≡ place.old.table_id) × (place.new.id ≡ place.old.id) }
        ensures step { (found : ℕ) × L.fact (place.old.me.0, (0, Some value) ∷ []) found place.new.me }
    {
        match self.table.shared.exchange(place, SLOT, Some(value)) {
            None => {}
            Some(_) => unreachable!(),
        }
        self.table.shared.swap::<Tells<L>>(place, GATE, FREE);
    }

    fn turn_at<C: Change<T>>(
        &self,
        place: &mut Place<T>,
        claims: &mut T::Claims,
        change: &mut C,
    ) -> Result<C::Out, Busy>
        requires cell { (place_view place.old).cell ≡ (cell_view self.now).cell }
        requires idle { IsIdle place.old.me claims.old }
        requires ready { C.ready change.old (cell_view self.now).opening (place_view place.old).seen claims.old }
        ensures idle { IsIdle place.new.me claims.new }
        ensures same { ((place_view place.new).cell ≡ (place_view place.old).cell) × ((place_view place.new).share ≡ (place_view place.old).share) }
        ensures turned { IfOk result (λ out. Turned T.truth (λ history value next entry. C.does change.old (cell_view self.now).opening history value claims.old change.new next claims.new out entry) (cell_view self.now).opening claims.old claims.new (place_view place.old) (place_view place.new)) }
        ensures free { OnOk result ((place_view place.new).refused ≡ (place_view place.old).refused) }
        ensures refused { IfErr result (λ busy. FoundHeld (place_view place.old) busy.word (place_view place.new) × (claims.new ≡ claims.old) × (change.new ≡ change.old)) }
    {
        let word = self.try_gate::<Brand>(place, claims);
        if word != FREE {
            return Err(Busy { word });
        }
        let mut value = self.table.shared.exchange(place, SLOT, None).unwrap();
        let began = Began::of(&value, claims, change);
        let out = change.apply(&mut value, claims);
        self.leave::<C, Brand>(place, &began, change, claims, &out, value);
        Ok(out)
    }

    /// Makes one turn if the gate is free, and answers what the change answers.
    ///
    /// Afterwards the seat has seen all that it had seen, then entries of others, then the one entry of this turn.
    ///
    /// # Errors
    ///
    /// `Busy` where the one compare and exchange of this call found the gate held, with the word that it found, which is 1. A
    /// turn ran then whose entry the seat has not seen. That word, with the number of that entry, is one more of the seat's
    /// refused words, and all else is as before.
    pub fn try_turn<C: Change<T>>(
        &self,
        seat: &mut TurnSeat<T>,
        change: &mut C,
    ) -> Result<C::Out, Busy>
        requires cell { IsSeatOf self.now seat.old }
        requires ready { C.ready change.old (cell_view self.now).opening (seat_view seat.old).seen (seat_claims seat.old) }
        ensures same { ((seat_view seat.new).cell ≡ (seat_view seat.old).cell) × ((seat_view seat.new).share ≡ (seat_view seat.old).share) }
        ensures turned { IfOk result (λ out. Turned T.truth (λ history value next entry. C.does change.old (cell_view self.now).opening history value (seat_claims seat.old) change.new next (seat_claims seat.new) out entry) (cell_view self.now).opening (seat_claims seat.old) (seat_claims seat.new) (seat_view seat.old) (seat_view seat.new)) }
        ensures free { OnOk result ((seat_view seat.new).refused ≡ (seat_view seat.old).refused) }
        ensures refused { IfErr result (λ busy. FoundHeld (seat_view seat.old) busy.word (seat_view seat.new) × (seat_claims seat.new ≡ seat_claims seat.old) × (change.new ≡ change.old)) }
    {
        self.turn_at(&mut seat.place, &mut seat.claims, change)
    }

    /// Makes one turn. It tries until it wins the gate.
    ///
    /// Afterwards the seat has seen all that it had seen, then entries of others, then the one entry of this turn. Each
    /// try that found the gate held is one more of the seat's refused words.
    pub fn turn<C: Change<T>, R: Wait>(
        &self,
        rt: &R,
        seat: &mut TurnSeat<T>,
        change: &mut C,
    ) -> C::Out
        requires cell { IsSeatOf self.now seat.old }
        requires ready { C.ready change.old (cell_view self.now).opening (seat_view seat.old).seen (seat_claims seat.old) }
        ensures same { ((seat_view seat.new).cell ≡ (seat_view seat.old).cell) × ((seat_view seat.new).share ≡ (seat_view seat.old).share) }
        ensures turned { Turned T.truth (λ history value next entry. C.does change.old (cell_view self.now).opening history value (seat_claims seat.old) change.new next (seat_claims seat.new) result entry) (cell_view self.now).opening (seat_claims seat.old) (seat_claims seat.new) (seat_view seat.old) (seat_view seat.new) }
        ensures refused { Begins (seat_view seat.old).refused (seat_view seat.new).refused }
    {
        for _ in rt.forever() {
            match self.try_turn(seat, change) {
                Ok(out) => return out,
                Err(Busy { word: _ }) => thread::yield_now(),
            }
        }
        unreachable!()
    }
}
