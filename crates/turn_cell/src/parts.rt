//! Seats are cut in two, and joined.
ghost use Rattle.std.specs.Prelude.{◌≡◌, ◌<◌, ◌≤◌, ℕ, [], Some, length};
ghost use Rattle.atomic_table.specs.Table.{Allows, Splits, Joins};
ghost use Rattle.turn_cell.specs.Rule.{Ruled};
ghost use Rattle.turn_cell.specs.Seats.{cell_view, seat_view, seat_claims, place_view, IsSeatOf};
ghost use Rattle.turn_cell.specs.Stakes.{Begins};
ghost use Rattle.turn_cell.specs.Steps.{IsIdle, kept_view, new_view, joined_view, spent_view};
ghost use Rattle.turn_cell.specs.Views.{kept_part, new_part, joined};

use crate::cell::{GATE, TurnCell};
use crate::chronicle::{Chronicle, Cut};
use crate::plays::{Halves, Merged, Pair, Parts, Tells, Told};
use crate::seat::{Place, TurnSeat, ViewOf};
use std::marker::Brand;

impl<T: Chronicle> TurnCell<T> {
    fn split_place<L: Parts<T::Claims>>(
        &self,
        place: &mut Place<T>,
        share: u64,
        kept: &T::Claims,
        given: &T::Claims,
    ) -> Place<T>
        requires cell { (place_view place.old).cell ≡ (cell_view self.now).cell }
        requires step { Splits (Ruled T.truth (cell_view self.now).opening) place.old.id place.old.me.0 (kept_view L.share L.kept place.old.me.0) (new_view L.share L.given place.old.me.0) }
        ensures kept { (place.new.table_id ≡ place.old.table_id) × (place.new.id ≡ place.old.id) × (place.new.me ≡ (kept_view L.share L.kept place.old.me.0, place.old.me.1)) }
        ensures given { (result.table_id ≡ place.old.table_id) × (result.me ≡ (new_view L.share L.given place.old.me.0, [])) }
    {
        self.table.shared.split_seat::<Halves<L>>(place)
    }

    fn join_place<L: Merged<T::Claims>>(
        &self,
        place: &mut Place<T>,
        other: Place<T>,
        both: &T::Claims,
    )
        requires cell { ((place_view place.old).cell ≡ (cell_view self.now).cell) × ((place_view other).cell ≡ (cell_view self.now).cell) × (other.me.1 ≡ []) }
        requires step { Joins (Ruled T.truth (cell_view self.now).opening) place.old.id place.old.me.0 other.id other.me.0 (joined_view L.both place.old.me.0 other.me.0) spent_view }
        ensures { (place.new.table_id ≡ place.old.table_id) × (place.new.id ≡ place.old.id) × (place.new.me ≡ (joined_view L.both place.old.me.0 other.me.0, place.old.me.1)) }
    {
        self.table.shared.join_seat::<Pair<L>>(place, other);
    }

    // A look at the gate, by which the lists of a seat that has joined are compared.
    fn look<L: Told<Option<T>, ViewOf<T>>>(&self, place: &mut Place<T>)
        requires cell { (place_view place.old).cell ≡ (cell_view self.now).cell }
        requires step { Allows (Ruled T.truth (cell_view self.now).opening) 1 place.old.id place.old.me 0 (λ n. n) (L.fact place.old.me) }
        ensures cell { (place.new.table_id ≡ place.old.table_id) × (place.new.id ≡ place.old.id) }
        ensures step { (found : ℕ) × L.fact place.old.me found place.new.me }
    {
        self.table.shared.load::<Tells<L>>(place, GATE);
    }

    /// Cuts a seat in two. The new seat has this share and what the cut takes of the claims. It has seen as much, and made nothing.
    pub fn split<C: Cut<T>>(&self, seat: &mut TurnSeat<T>, share: u64, cut: &mut C) -> TurnSeat<T>
        requires cell { IsSeatOf self.now seat.old }
        requires some { 1 ≤ share }
        requires less { share < (seat_view seat.old).share }
        requires cut { C.may_cut cut.old (seat_claims seat.old) }
        ensures kept { seat_view seat.new ≡ kept_part (seat_view seat.old) share }
        ensures given { seat_view result ≡ new_part (seat_view seat.old) share }
        ensures claims { C.cuts cut.old (seat_claims seat.old) cut.new (seat_claims seat.new) (seat_claims result) }
    {
        let claims = cut.cut(&mut seat.claims);
        let place = self.split_place::<Brand>(&mut seat.place, share, &seat.claims, &claims);
        TurnSeat { place, claims }
    }

    /// Makes two seats one. `into` then has seen the longer of what both had seen, and has made what both made. It has
    /// the shares of both, and their claims as the chronicle merges them.
    pub fn join(&self, into: &mut TurnSeat<T>, from: TurnSeat<T>)
        requires cell { IsSeatOf self.now into.old × IsSeatOf self.now from }
        requires merge { T.may_merge (seat_claims into.old) (seat_claims from) }
        ensures seat { seat_view into.new ≡ joined (seat_view into.old) (seat_view from) }
        ensures begins { Begins (seat_view into.old).seen (seat_view into.new).seen × Begins (seat_view from).seen (seat_view into.new).seen }
        ensures claims { T.merges (seat_claims into.old) (seat_claims from) (seat_claims into.new) }
    {
        let (place, claims) = from.into_parts();
        T::merge(&mut into.claims, claims);
        self.join_place::<Brand>(&mut into.place, place, &into.claims);
        self.look::<Brand>(&mut into.place);
    }
}
