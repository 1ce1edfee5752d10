//! What one seat claims of a pool. Contracts alone read it, so it takes no memory.
ghost use Rattle.std.specs.Prelude.{◌≡◌};
ghost use Rattle.std.specs.Borrow.{ftrue};
ghost use Rattle.space_pool.specs.Claims.{ClaimsView, claims_with, with_part_gone, joined_claims};

use iob_base::Sector;
use std::marker::Model;

/// What is claimed of a pool.
///
/// Contracts see it as `facts`: the numbers of the claimed sectors, how many more sectors are reserved, the cap on both
/// together, and the block size of the pool.
#[derive(Drop)]
pub struct PoolClaims {
    pub ghost facts: { ClaimsView },
}

impl Model for PoolClaims {
    ghost also_owns = { λ _. ftrue };
}

// Claims own nothing, so any thread may have them.
unsafe impl Send for PoolClaims {}

// How claims come about.
#[derive(Clone, Copy)]
pub(crate) enum Step<'a, 'b> {
    // These sectors are held from the start, under a cap.
    Starts {
        held: &'b [Sector],
        cap: u64,
        size: u32,
    },
    // So many more are reserved.
    Reserves(&'a PoolClaims, u64),
    // So many fewer are reserved.
    Unreserves(&'a PoolClaims, u64),
    // These sectors were reserved, and are claimed now.
    Takes(&'a PoolClaims, &'b [Sector]),
    // These sectors are claimed no longer.
    Gives(&'a PoolClaims, &'b [Sector]),
    // What is left where these sectors and this cap go to another seat.
    Keeps(&'a PoolClaims, &'b [Sector], u64),
    // What the other seat has then.
    Splits(&'a PoolClaims, &'b [Sector], u64),
    // Both together.
    Joins(&'a PoolClaims, &'a PoolClaims),
}

impl PoolClaims {
    ghost use Rattle.space_pool.specs.Steps.{claims_of};

    // The claims that a step leads to.
    pub(crate) fn of(_step: &Step<'_, '_>) -> PoolClaims
        ensures { result.facts ≡ claims_of _step.now }
    {
        PoolClaims {}
    }

    // Takes these sectors and this cap out, for another seat.
    pub(crate) fn split(&mut self, cap: u64, held: &[Sector]) -> PoolClaims
        ensures kept { self.new.facts ≡ with_part_gone self.old.facts held.now cap }
        ensures given { result.facts ≡ claims_with held.now cap self.old.facts.size }
    {
        let part = PoolClaims::of(&Step::Splits(self, held, cap));
        *self = PoolClaims::of(&Step::Keeps(self, held, cap));
        part
    }

    // Takes the other claims in.
    pub(crate) fn join(&mut self, from: PoolClaims)
        ensures { self.new.facts ≡ joined_claims self.old.facts from.facts }
    {
        *self = PoolClaims::of(&Step::Joins(self, &from));
    }
}
