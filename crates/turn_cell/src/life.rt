//! How a cell is made, and how it ends.
ghost use Rattle.std.specs.Prelude.{◌≡◌, ◌^◌, [], ◌∷◌, Some, IfOk, IfErr};
ghost use Rattle.turn_cell.specs.Seats.{cell_view, seat_view, seat_claims, IsSeatOf};
ghost use Rattle.turn_cell.specs.Views.{first_seat, Closed};

use crate::cell::{FREE, NoCell, Opening, SLOT, TurnCell};
use crate::chronicle::Chronicle;
use crate::seat::TurnSeat;
use atomic_table::{Refused, Table};
use std::alloc::{AllocFailed, Global};

// The value of the one slot.
fn only<T>(mut slots: Vec<Option<T>>) -> T
    requires { (x : T) × (slots.items ≡ Some x ∷ []) }
    ensures { slots.items ≡ Some result ∷ [] }
{
    let Some(slot) = slots.pop() else {
        unreachable!()
    };
    slots.destroy_empty();
    slot.unwrap()
}

impl<T: Chronicle> TurnCell<T> {
    /// Makes a cell with this value and an empty history, and its first seat, which has these claims and the whole share.
    ///
    /// # Errors
    ///
    /// `NoCell` where there is no memory. The value and the claims come back in it.
    pub fn start(
        alloc: Global,
        value: T,
        claims: T::Claims,
    ) -> Result<(TurnCell<T>, TurnSeat<T>), NoCell<T>>
        requires { T.truth value value [] ((Some claims, []) ∷ []) }
        ensures cell { IfOk result (λ r. (cell_view r.0).opening ≡ value) }
        ensures seat { IfOk result (λ r. seat_view r.1 ≡ first_seat (cell_view r.0).cell (2 ^ 63)) }
        ensures claims { IfOk result (λ r. seat_claims r.1 ≡ claims) }
        ensures err { IfErr result (λ e. (e.value ≡ value) × (e.claims ≡ claims)) }
    {
        let opening = Opening::of(&value, &claims);
        let mut slots = Vec::new(alloc);
        if let Err(AllocFailed { value: slot }) = slots.push(Some(value)) {
            slots.destroy_empty();
            return Err(NoCell {
                value: slot.unwrap(),
                claims,
            });
        }
        match Table::new(alloc, &[FREE], slots, &opening) {
            Ok((table, place)) => Ok((TurnCell { table }, TurnSeat { place, claims })),
            Err(Refused { slots }) => Err(NoCell {
                value: only(slots),
                claims,
            }),
        }
    }

    /// Ends the cell and gives its value. The seat has the whole share, so there is no other seat and no turn runs.
    ///
    /// The value meets the chronicle with what the seat has seen as the whole history, and with the claims of this seat alone.
    pub fn close(self, seat: TurnSeat<T>) -> T
        requires cell { IsSeatOf self seat }
        requires whole { (seat_view seat).share ≡ 2 ^ 63 }
        ensures { Closed T.truth (cell_view self).opening result (seat_view seat) (seat_claims seat) }
    {
        let (place, claims) = seat.into_parts();
        drop(claims);
        let mut closed = self.into_table().close_with(place);
        let slot = closed.take(SLOT);
        closed.free();
        slot.unwrap()
    }
}
