//! The cell itself: how it is made and how it ends.
ghost use Rattle.std.specs.Prelude.{◌≡◌, [], ◌∷◌, Some, IfOk, IfErr};

use crate::chronicle::Chronicle;
use crate::seat::{Place, TurnSeat, ViewOf};
use crate::view::View;
use atomic_table::{Refused, Table, TableRule};
use std::alloc::Global;
use std::marker::PhantomData;
use std::snapshot::Snapshot;

// The word of the table, which is `HELD` while a turn runs, and its slot, which has the value while none does.
pub(crate) const GATE: usize = 0;

pub(crate) const FREE: u64 = 0;

pub(crate) const HELD: u64 = 1;

pub(crate) const SLOT: usize = 0;

// What a cell was opened with, for contracts alone.
pub(crate) struct Opening<T, C> {
    value: Snapshot<T>,
    claims: Snapshot<C>,
}

impl<T, C> Opening<T, C> {
    pub(crate) fn of(value: &T, claims: &C) -> Opening<T, C>
        ensures { (result.value.value ≡ value.now) × (result.claims.value ≡ claims.now) }
    {
        Opening {
            value: Snapshot::of(value),
            claims: Snapshot::of(claims),
        }
    }
}

impl<T, C> Drop for Opening<T, C> {
    fn drop(self) {
        let Self {
            value: _,
            claims: _,
        } = self;
    }
}

// The rule of a cell's table.
pub(crate) struct Turns<T> {
    marker: PhantomData<T>,
}

impl<T: Chronicle> TableRule<Option<T>, View<T, T::Claims, T::Entry>, Opening<T, T::Claims>>
    for Turns<T> {
    ghost use Rattle.turn_cell.specs.Rule.{Ruled};
    ghost use Rattle.turn_cell.specs.Steps.{first_view};

    ghost holds = { λ key. Ruled T.truth key.value.value };

    ghost first = { λ key. first_view key.claims.value };
}

pub(crate) type Lay<T> = Table<
    Option<T>,
    ViewOf<T>,
    Opening<T, <T as Chronicle>::Claims>,
    Turns<T>,
    Global,
>;

/// A cell whose value changes by one change a turn.
///
/// # Invariants
///
/// While no turn runs, the value, the history of all turns and what all seats claim meet the chronicle. Each entry of the
/// history was made by one seat, once.
pub struct TurnCell<T: Chronicle> {
    pub(crate) table: Lay<T>,
    pub ghost sized: { (table.shared.table_id.words ≡ 1) × (table.shared.table_id.slots ≡ 1) },
}

impl<T: Chronicle> TurnCell<T> {
    pub(crate) fn into_table(self) -> Lay<T>
        ensures table { result ≡ self.table }
        ensures sized { (result.shared.table_id.words ≡ 1) × (result.shared.table_id.slots ≡ 1) }
    {
        let Self { table } = self;
        table
    }
}

/// There was no memory. The value and the claims come back.
pub struct NoCell<T: Chronicle> {
    pub value: T,
    pub claims: T::Claims,
}

/// Drops the value.
impl<T: Chronicle + Drop> Drop for TurnCell<T> {
    fn drop(self) {
        let Self { table } = self;
        drop(table);
    }
}
