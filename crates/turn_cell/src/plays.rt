//! What each step tells, and how views are cut and joined. These types are for the proofs alone.
ghost use Rattle.std.specs.Prelude.{ℕ, Option, None};
ghost use Rattle.atomic_table.specs.Table.{Me};
ghost use Rattle.turn_cell.specs.Steps.{kept_view, new_view, joined_view, spent_view};

use crate::view::View;
use atomic_table::{Join, Play, Split};
use std::marker::{Brand, PhantomData};

// What a step tells: of the seat before, the number found and the seat after. A call at `Brand` picks it.
pub(crate) trait Told<S, V> {
    ghost fact: { Me S V → ℕ → Me S V → Type 0 };
}

impl<S, V> Told<S, V> for Brand {
    ghost fact = { λ _ _ _. Unit {0} };
}

pub(crate) struct Tells<L> {
    marker: PhantomData<L>,
}

impl<S, V, L: Told<S, V>> Play<S, V> for Tells<L> {
    ghost then = { λ s m n w. L.fact m n w };
}

// What a split gives away, and what is left. A call at `Brand` picks it.
pub(crate) trait Parts<C> {
    ghost share: { ℕ };

    ghost kept: { Option C };

    ghost given: { Option C };
}

impl<C> Parts<C> for Brand {
    ghost share = { 0 };

    ghost kept = { None };

    ghost given = { None };
}

pub(crate) struct Halves<L> {
    marker: PhantomData<L>,
}

impl<T, C, E, L: Parts<C>> Split<View<T, C, E>> for Halves<L> {
    ghost left = { kept_view L.share L.kept };

    ghost right = { new_view L.share L.given };
}

// What two seats claim together. A call at `Brand` picks it.
pub(crate) trait Merged<C> {
    ghost both: { Option C };
}

impl<C> Merged<C> for Brand {
    ghost both = { None };
}

pub(crate) struct Pair<L> {
    marker: PhantomData<L>,
}

impl<T, C, E, L: Merged<C>> Join<View<T, C, E>> for Pair<L> {
    ghost both = { joined_view L.both };

    ghost spent = { spent_view };
}
