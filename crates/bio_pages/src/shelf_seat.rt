//! A seat at a shelf.
ghost use Rattle.std.specs.Prelude.{◌≡◌, []};
ghost use Rattle.bio_pages.specs.Shelf.{SeatView, known_view};
ghost use Rattle.bio_pages.specs.ShelfSteps.{IsAtRest};

use crate::errand::Known;
use crate::shelf_rule::Returned;
use std::marker::Model;

pub(crate) type Place<T> = atomic_table::Seat<Option<Returned<T>>, Known<T>>;

/// A seat at a shelf: the owner's, which notes for each slot the bio that it is for, or that of one bio that is away.
///
/// To a contract it is its `SeatView`. One that is dropped keeps its amount and its errand for good, and then the owner
/// never sees `Last`.
///
/// # Invariants
///
/// No slot is out with it.
#[derive(Drop)]
pub struct ShelfSeat<T> {
    pub(crate) place: Place<T>,
    pub(crate) amount: u64,
}

impl<T> Model for ShelfSeat<T> {
    ghost Value = { SeatView T };

    ghost view = { λ s. known_view s.place.table_id s.place.id s.place.me.0 };

    ghost invariant = { λ s. (s.place.me.1 ≡ []) × (s.amount ≡ s.place.me.0.amount) × IsAtRest s.place.me.0.doing };
}

impl<T> ShelfSeat<T> {
    /// The seat's part of what is counted down.
    pub fn amount(&self) -> u64
        ensures { result ≡ self.now.amount }
    {
        self.amount
    }
}
