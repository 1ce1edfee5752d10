//! What the word of a countdown tells of all its seats, and what each kind of step tells the seat that makes it.
//! The types are for the proofs alone.
ghost use Rattle.std.specs.Prelude.{ℕ};
ghost use Rattle.folio_bits.specs.Counting.{AmountsCounted};
ghost use Rattle.folio_bits.specs.Steps.{holder, less, Finished};

use atomic_table::{Play, Split, TableRule};
use std::marker::{Brand, PhantomData};

/// How a seat ended: the amount that it had, and the word that its step found.
pub struct Spent {
    pub had: u64,
    pub found: u64,
}

/// What a seat knows: the amount that it has, and once it has finished, how.
pub struct Known {
    pub amount: u64,
    pub spent: Option<Spent>,
}

/// The rule of a countdown's word: it is what all seats have together, and one seat was told Last exactly where that is 0.
pub struct CountsDown;

impl TableRule<(), Known, u64> for CountsDown {
    ghost holds = { λ _. AmountsCounted };

    ghost first = { holder };
}

pub(crate) struct Finishes;

impl Play<(), Known> for Finishes {
    ghost then = { Finished };
}

// How much a split gives to the new seat. A call at `Brand` picks it.
pub(crate) trait Shares {
    ghost share: { ℕ };
}

impl Shares for Brand {
    ghost share = { 0 };
}

pub(crate) struct Cuts<L> {
    marker: PhantomData<L>,
}

impl<L: Shares> Split<Known> for Cuts<L> {
    ghost left = { less L.share };

    ghost right = { λ _. holder L.share };
}
