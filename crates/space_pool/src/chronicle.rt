//! The truth of a pool that many seats share, and the changes that turns make.
ghost use Rattle.std.specs.Prelude.{◌≡◌, ◌+◌, ◌≤◌, [], vec_len, vec_capacity};
ghost use Rattle.space_pool.specs.Claims.{Fits, claims_with, with_part_gone, joined_claims};
ghost use Rattle.space_pool.specs.Pool.{CanGive, CanPart};
ghost use Rattle.space_pool.specs.Truth.{PoolTruth};
ghost use Rattle.space_pool.specs.Turns.{ReserveTurns, ReserveSomeTurns, UnreserveTurns, TakeTurns, GiveTurns, CountTurns};

use crate::answer::{Counts, NoSpace};
use crate::claims::PoolClaims;
use crate::entry::PoolEntry;
use crate::state::PoolState;
use iob_base::Sector;
use turn_cell::{Change, Chronicle, Cut};

impl Chronicle for PoolState {
    type Claims = PoolClaims;

    type Entry = PoolEntry;

    ghost truth = { PoolTruth };

    ghost may_merge = { λ _ _. Unit {0} };

    ghost merges = { λ mine theirs both. both.facts ≡ joined_claims mine.facts theirs.facts };

    fn merge(into: &mut PoolClaims, from: PoolClaims) {
        into.join(from);
    }
}

// Reserves n sectors, or none.
#[derive(Drop)]
pub(crate) struct ReserveTurn {
    pub(crate) n: u64,
}

impl Change<PoolState> for ReserveTurn {
    type Out = Result<(), NoSpace>;

    ghost ready = { λ change _ _ claims. Fits claims.facts change.n };

    ghost does = { λ change opening history value claims _ next left answer entry. ReserveTurns opening claims left history value next entry change.n answer };

    fn apply(&mut self, value: &mut PoolState, claims: &mut PoolClaims) -> Result<(), NoSpace> {
        value.reserve(claims, self.n)
    }
}

// Reserves n sectors, or as many as are unreserved.
#[derive(Drop)]
pub(crate) struct ReserveSomeTurn {
    pub(crate) n: u64,
}

impl Change<PoolState> for ReserveSomeTurn {
    type Out = Result<u64, NoSpace>;

    ghost ready = { λ change _ _ claims. Fits claims.facts change.n × (1 ≤ change.n) };

    ghost does = { λ change opening history value claims _ next left answer entry. ReserveSomeTurns opening claims left history value next entry change.n answer };

    fn apply(&mut self, value: &mut PoolState, claims: &mut PoolClaims) -> Result<u64, NoSpace> {
        value.reserve_some(claims, self.n)
    }
}

// Gives up the reservation of n sectors.
#[derive(Drop)]
pub(crate) struct UnreserveTurn {
    pub(crate) n: u64,
}

impl Change<PoolState> for UnreserveTurn {
    type Out = ();

    ghost ready = { λ change _ _ claims. change.n ≤ claims.facts.reserved };

    ghost does = { λ change opening history value claims _ next left _ entry. UnreserveTurns opening claims left history value next entry change.n };

    fn apply(&mut self, value: &mut PoolState, claims: &mut PoolClaims) {
        value.unreserve(claims, self.n);
    }
}

// Moves n reserved sectors out.
#[derive(Drop)]
pub(crate) struct TakeTurn<'a> {
    pub(crate) n: u64,
    pub(crate) into: &'a mut Vec<Sector>,
}

impl<'a> Change<PoolState> for TakeTurn<'a> {
    type Out = ();

    ghost ready = { λ change _ _ claims. (change.n ≤ claims.facts.reserved) × (vec_len change.into.now + change.n ≤ vec_capacity change.into.now) };

    ghost does = { λ change opening history value claims after next left _ entry. TakeTurns opening claims left history value next entry change.n change.into.now.items after.into.now.items × (vec_capacity after.into.now ≡ vec_capacity change.into.now) × (after.into.ghost_name ≡ change.into.ghost_name) };

    fn apply(&mut self, value: &mut PoolState, claims: &mut PoolClaims) {
        value.take(claims, self.n, self.into);
    }
}

// Moves sectors back.
#[derive(Drop)]
pub(crate) struct GiveTurn<'a> {
    pub(crate) sectors: &'a mut Vec<Sector>,
}

impl<'a> Change<PoolState> for GiveTurn<'a> {
    type Out = ();

    ghost ready = { λ change _ _ claims. CanGive change.sectors.now.items claims.facts };

    ghost does = { λ change opening history value claims after next left _ entry. GiveTurns opening claims left history value next entry change.sectors.now.items × (after.sectors.now.items ≡ []) × (vec_capacity after.sectors.now ≡ vec_capacity change.sectors.now) × (after.sectors.ghost_name ≡ change.sectors.ghost_name) };

    fn apply(&mut self, value: &mut PoolState, claims: &mut PoolClaims) {
        value.give(claims, self.sectors);
    }
}

// Counts.
#[derive(Drop)]
pub(crate) struct CountTurn {}

impl Change<PoolState> for CountTurn {
    type Out = Counts;

    ghost ready = { λ _ _ _ _. Unit {0} };

    ghost does = { λ _ opening history value claims _ next left answer entry. CountTurns opening claims left history value next entry answer };

    fn apply(&mut self, value: &mut PoolState, _claims: &mut PoolClaims) -> Counts {
        value.counts()
    }
}

// These sectors and this cap go to another seat.
#[derive(Drop)]
pub(crate) struct Part<'a> {
    pub(crate) cap: u64,
    pub(crate) held: &'a [Sector],
}

impl<'a> Cut<PoolState> for Part<'a> {
    ghost may_cut = { λ part claims. CanPart part.held.now part.cap claims.facts };

    ghost cuts = { λ part claims _ left right. (left.facts ≡ with_part_gone claims.facts part.held.now part.cap) × (right.facts ≡ claims_with part.held.now part.cap claims.facts.size) };

    fn cut(&mut self, claims: &mut PoolClaims) -> PoolClaims {
        claims.split(self.cap, self.held)
    }
}
