//! The rule of a shelf's table, and what each kind of step tells the seat that makes it. The types are for the proofs alone.
ghost use Rattle.std.specs.Prelude.{ℕ, Option, None};
ghost use Rattle.bio_pages.specs.declared.errand.Errand.{Errand};
ghost use Rattle.bio_pages.specs.ShelfRule.{Shelved};
ghost use Rattle.bio_pages.specs.ShelfSteps.{first_known, lender, sent_out, IsTaken, IsCounted, IsLooked, IsPicked, IsCleared};

use crate::bio::Bio;
use crate::errand::{Errand, Known};
use atomic_table::{Play, Split, TableRule};
use fault_device::Done;
use std::marker::{Brand, PhantomData};

/// What lies in a slot: a bio that came back, and what its transfer did.
pub(crate) type Returned<T> = (Bio<T>, Done);

/// The rule of a shelf: its word is what all seats have, and each slot that is noted is waited for, out or full.
pub(crate) struct Shelves;

impl<T> TableRule<Option<Returned<T>>, Known<T>, u64> for Shelves {
    ghost holds = { λ _. Shelved };

    ghost first = { first_known };
}

// A load by which a seat takes the slot of its errand.
pub(crate) struct Fills;

impl<T> Play<Option<Returned<T>>, Known<T>> for Fills {
    ghost then = { λ s m n w. IsTaken m w };
}

// The step that counts down and gives back a slot that was filled.
pub(crate) struct Counts;

impl<T> Play<Option<Returned<T>>, Known<T>> for Counts {
    ghost then = { λ s. IsCounted };
}

// A look at the word.
pub(crate) struct Looks;

impl<T> Play<Option<Returned<T>>, Known<T>> for Looks {
    ghost then = { λ s. IsLooked };
}

// Which slot the owner takes. A call at `Brand` picks it.
pub(crate) trait Slots {
    ghost slot: { ℕ };
}

impl Slots for Brand {
    ghost slot = { 0 };
}

// A load by which the owner takes a slot that it noted.
pub(crate) struct Picks<L> {
    marker: PhantomData<L>,
}

impl<T, L: Slots> Play<Option<Returned<T>>, Known<T>> for Picks<L> {
    ghost then = { λ s m n w. IsPicked L.slot m w };
}

// A load by which the owner gives back a slot that it emptied.
pub(crate) struct Clears;

impl<T> Play<Option<Returned<T>>, Known<T>> for Clears {
    ghost then = { λ s m n w. IsCleared m w };
}

// The errand that a split gives away. A call at `Brand` picks it.
pub(crate) trait Sends<T> {
    ghost errand: { Option (Errand T) };
}

impl<T> Sends<T> for Brand {
    ghost errand = { None };
}

pub(crate) struct Lends<L> {
    marker: PhantomData<L>,
}

impl<T, L: Sends<T>> Split<Known<T>> for Lends<L> {
    ghost left = { lender L.errand };

    ghost right = { λ _. sent_out L.errand };
}
