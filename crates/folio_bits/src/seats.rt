//! A seat at a countdown, before and after its one step.
ghost use Rattle.std.specs.Prelude.{◌≡◌, ◌<◌, IsSome};
ghost use Rattle.folio_bits.specs.Views.{CountView, SpentView, spent_view};
ghost use Rattle.folio_bits.specs.Steps.{holder};

use crate::rule::Known;
use std::marker::Model;

pub(crate) type Place = atomic_table::Seat<(), Known>;

/// A place at a countdown, with an amount that it counts down once. One that is dropped keeps its amount for good, and
/// then no seat of its countdown is ever told `Last`.
///
/// To a contract it is its `CountView`. Invariant: the amount is at least 1.
#[derive(Drop)]
pub struct CountSeat {
    pub(crate) place: Place,
    pub(crate) amount: u64,
}

impl Model for CountSeat {
    ghost Value = { CountView };

    ghost view = { λ s. record { countdown = s.place.table_id; seat = s.place.id; amount = s.amount } };

    ghost invariant = { λ s. (s.place.me.0 ≡ holder s.amount) × (0 < s.amount) };
}

/// A seat that has finished. It has no bytes. Its view, a `SpentView`, tells the amount that it had, and the word that it
/// found.
#[derive(Drop)]
pub struct SpentSeat {
    pub(crate) place: Place,
}

impl Model for SpentSeat {
    ghost Value = { SpentView };

    ghost view = { λ s. spent_view s.place.table_id s.place.id s.place.me.0.spent };

    ghost invariant = { λ s. IsSome s.place.me.0.spent };
}
