//! A caller's place at a cell.
ghost use Rattle.std.specs.Prelude.{◌≡◌, Option};
ghost use Rattle.turn_cell.specs.Steps.{IsIdle};

use crate::chronicle::Chronicle;
use crate::view::View;
use atomic_table::Seat;

pub(crate) type ViewOf<T> = View<T, <T as Chronicle>::Claims, <T as Chronicle>::Entry>;

pub(crate) type Place<T> = Seat<Option<T>, ViewOf<T>>;

/// A caller's place at a cell: what it claims, and a share of the cell.
///
/// Contracts see the claims as `claims`, and the rest as `seat_view`: which cell it is, the beginning of the history that the
/// seat has seen, the entries that it made, its share, and the words that its refused compare and exchanges found.
///
/// # Invariants
///
/// No turn of the seat runs, and its share is at least 1. The shares of all seats of a cell add up to 2^63.
pub struct TurnSeat<T: Chronicle> {
    pub(crate) place: Place<T>,
    pub(crate) claims: T::Claims,
    pub ghost idle: { IsIdle place.me claims },
}

impl<T: Chronicle> TurnSeat<T> {
    pub(crate) fn into_parts(self) -> (Place<T>, T::Claims)
        ensures { (result.0 ≡ self.place) × (result.1 ≡ self.claims) × IsIdle result.0.me result.1 }
    {
        let Self { place, claims } = self;
        (place, claims)
    }
}

/// A seat that is dropped keeps its share and its claims for good, so its cell cannot be closed any more.
impl<T: Chronicle> Drop for TurnSeat<T> {
    fn drop(self) {
        let Self { place, claims } = self;
        drop(place);
        drop(claims);
    }
}
