//! The plain state of a pool: its free sectors, and how many of them are reserved.
ghost use Rattle.std.specs.Prelude.{◌≡◌, ℕ, ◌+◌, ◌^◌, ◌<◌, ◌≤◌, [], ◌++◌, length, All, vec_len, vec_capacity, IfOk, IfErr, IsOk};
ghost use Rattle.space_pool.specs.Sectors.{SameSectors, TakesLowest};
ghost use Rattle.space_pool.specs.Claims.{numbers_of, Fits, claims_with, with_part_gone, joined_claims};
ghost use Rattle.space_pool.specs.Pool.{fresh_pool, unreserved, HasSize, AreDistinct, IsClaimOn, AreClaimsOn, KeepsOthers, counts_of, Reserves, ReservesSome, Unreserves, Takes, Gives, CanGive, CanPart};

use crate::answer::{Counts, NoPool, NoSpace};
use crate::claims::{PoolClaims, Step};
use crate::free::FreeList;
use iob_base::{Geometry, Sector};
use std::alloc::{AllocError, Global};
use std::marker::Model;

/// The state of a pool of sectors, which several `PoolClaims` share.
///
/// Contracts see it as a `PoolView`: the free sectors, in no order, how many of them are reserved, and what does not change: the
/// numbers of all sectors of the pool, the cap on all claims together, and the block size.
///
/// # Invariants
///
/// No more sectors are reserved than are free, and each free sector has the block size. There is room for all sectors.
#[derive(Drop)]
pub struct PoolState {
    free: FreeList,
    reserved: u64,
    whole: PoolClaims,
}

impl Model for PoolState {
    ghost use Rattle.std.specs.Prelude.{◌≡◌, ◌≤◌, length};
    ghost use Rattle.turn_cell.specs.Stakes.{total};
    ghost use Rattle.space_pool.specs.Pool.{PoolView, pool_view, misfit};

    ghost Value = { PoolView };

    ghost view = { λ s. pool_view s.free.sectors s.reserved s.whole.facts };

    ghost invariant = { λ s. (s.reserved ≤ length s.free.sectors) × (length s.whole.facts.numbers ≤ s.free.room) × (total (misfit s.whole.facts.size) s.free.sectors ≡ 0) };
}

impl PoolState {
    /// A pool of these free sectors, and of those that are held, which stay with the caller. The claims have this cap, and the
    /// numbers of the held sectors.
    ///
    /// # Errors
    ///
    /// `NoPool` where there is no memory. No other call of the pool takes memory.
    pub fn new(
        alloc: Global,
        geometry: Geometry,
        free: Vec<Sector>,
        held: &[Sector],
        cap: u64,
    ) -> Result<(PoolState, PoolClaims), NoPool>
        requires free_sized { All (HasSize geometry.block_size) free.items }
        requires held_sized { All (HasSize geometry.block_size) held.now }
        requires distinct { AreDistinct (numbers_of held.now ++ numbers_of free.items) }
        requires few { length held.now ≤ cap }
        ensures free { IfOk result (λ r. SameSectors free.items r.0.free) }
        ensures state { IfOk result (λ r. r.0 ≡ fresh_pool r.0.free (numbers_of held.now ++ numbers_of free.items) cap geometry.block_size) }
        ensures claims { IfOk result (λ r. r.1.facts ≡ claims_with held.now cap geometry.block_size) }
        ensures claim { IfOk result (λ r. IsClaimOn r.0 r.1.facts) }
        ensures err { IfErr result (λ e. e.free.items ≡ free.items) }
    {
        let size = geometry.block_size();
        let claims = PoolClaims::of(&Step::Starts { held, cap, size });
        let whole = PoolClaims::of(&Step::Takes(&claims, free.as_slice()));
        match FreeList::new(alloc, free, held.len()) {
            Ok(free) => Ok((
                PoolState {
                    free,
                    reserved: 0,
                    whole,
                },
                claims,
            )),
            Err(free) => Err(NoPool { free }),
        }
    }

    fn unreserved(&self) -> u64
        ensures value { result ≡ unreserved self.now }
        ensures bound { self.now.reserved + result < 2 ^ 64 }
    {
        self.free.len() as u64 - self.reserved
    }

    /// Reserves n sectors.
    ///
    /// # Errors
    ///
    /// `NoSpace` exactly where fewer are unreserved. Nothing has changed then.
    pub fn reserve(&mut self, claims: &mut PoolClaims, n: u64) -> Result<(), NoSpace>
        requires { Fits claims.old.facts n }
        ensures reserved { Reserves n self.old claims.old.facts result self.new claims.new.facts }
        ensures claim { IsClaimOn self.old claims.old.facts → IsClaimOn self.new claims.new.facts }
        ensures others { KeepsOthers self.old claims.old.facts self.new claims.new.facts }
    {
        let found = self.unreserved();
        if found < n {
            return Err(NoSpace { wanted: n, found });
        }
        self.reserved += n;
        *claims = PoolClaims::of(&Step::Reserves(claims, n));
        Ok(())
    }

    /// Reserves n sectors, or as many as are unreserved, and answers how many.
    ///
    /// # Errors
    ///
    /// `NoSpace` exactly where none is unreserved. Nothing has changed then.
    pub fn reserve_some(&mut self, claims: &mut PoolClaims, n: u64) -> Result<u64, NoSpace>
        requires fits { Fits claims.old.facts n }
        requires some { 1 ≤ n }
        ensures reserved { ReservesSome n self.old claims.old.facts result self.new claims.new.facts }
        ensures claim { IsClaimOn self.old claims.old.facts → IsClaimOn self.new claims.new.facts }
        ensures others { KeepsOthers self.old claims.old.facts self.new claims.new.facts }
    {
        let found = self.unreserved();
        if found == 0 {
            return Err(NoSpace { wanted: n, found });
        }
        let some = n.min(found);
        self.reserved += some;
        *claims = PoolClaims::of(&Step::Reserves(claims, some));
        Ok(some)
    }

    /// Gives up the reservation of n sectors. The free sectors stay.
    pub fn unreserve(&mut self, claims: &mut PoolClaims, n: u64)
        requires claim { IsClaimOn self.old claims.old.facts }
        requires reserved { n ≤ claims.old.facts.reserved }
        ensures unreserved { Unreserves n self.old claims.old.facts self.new claims.new.facts }
        ensures claim { IsClaimOn self.new claims.new.facts }
        ensures others { KeepsOthers self.old claims.old.facts self.new claims.new.facts }
    {
        self.reserved -= n;
        *claims = PoolClaims::of(&Step::Unreserves(claims, n));
    }

    /// Moves the n free sectors with the lowest numbers, in order, to the end of `into`. They were reserved, and are claimed now.
    pub fn take(&mut self, claims: &mut PoolClaims, n: u64, into: &mut Vec<Sector>)
        requires claim { IsClaimOn self.old claims.old.facts }
        requires reserved { n ≤ claims.old.facts.reserved }
        requires room { vec_len into.old + n ≤ vec_capacity into.old }
        ensures taken { Takes n self.old claims.old.facts into.old.items self.new claims.new.facts into.new.items }
        ensures claim { IsClaimOn self.new claims.new.facts }
        ensures others { KeepsOthers self.old claims.old.facts self.new claims.new.facts }
        ensures kept { vec_capacity into.new ≡ vec_capacity into.old }
    {
        let from = into.len();
        self.free.take(n, into);
        self.reserved -= n;
        *claims = PoolClaims::of(&Step::Takes(claims, &into.as_slice()[from..]));
    }

    /// Moves all sectors of the list back. They were claimed, and are free now.
    pub fn give(&mut self, claims: &mut PoolClaims, sectors: &mut Vec<Sector>)
        requires claim { IsClaimOn self.old claims.old.facts }
        requires can { CanGive sectors.old.items claims.old.facts }
        ensures given { Gives sectors.old.items self.old claims.old.facts self.new claims.new.facts }
        ensures claim { IsClaimOn self.new claims.new.facts }
        ensures others { KeepsOthers self.old claims.old.facts self.new claims.new.facts }
        ensures emptied { sectors.new.items ≡ [] }
        ensures kept { vec_capacity sectors.new ≡ vec_capacity sectors.old }
    {
        *claims = PoolClaims::of(&Step::Gives(claims, sectors.as_slice()));
        self.free.put(sectors);
    }

    /// How many sectors are free, and how many of these are reserved.
    pub fn counts(&self) -> Counts
        ensures { result ≡ counts_of self.now }
    {
        Counts {
            free: self.free.len() as u64,
            reserved: self.reserved,
        }
    }

    /// Cuts these sectors and this cap off the claims, for another caller. The pool stays as it was, and a reservation stays with
    /// the first. Claims take no memory, so it does not fail.
    pub fn split(
        &mut self,
        claims: &mut PoolClaims,
        cap: u64,
        held: &[Sector],
    ) -> Result<PoolClaims, AllocError>
        requires { CanPart held.now cap claims.old.facts }
        ensures ok { IsOk result }
        ensures state { self.new ≡ self.old }
        ensures kept { claims.new.facts ≡ with_part_gone claims.old.facts held.now cap }
        ensures given { IfOk result (λ part. part.facts ≡ claims_with held.now cap claims.old.facts.size) }
        ensures beside { IfOk result (λ part. IsClaimOn self.old claims.old.facts → AreClaimsOn self.new claims.new.facts part.facts) }
    {
        Ok(claims.split(cap, held))
    }

    /// Makes two claims one: numbers, reservations and caps of both. The pool stays as it was.
    pub fn join(&mut self, into: &mut PoolClaims, from: PoolClaims)
        ensures state { self.new ≡ self.old }
        ensures claims { into.new.facts ≡ joined_claims into.old.facts from.facts }
        ensures claim { AreClaimsOn self.old into.old.facts from.facts → IsClaimOn self.new into.new.facts }
    {
        into.join(from);
    }

    /// The free sectors, in the order of their numbers. It takes no memory.
    pub fn into_free(self) -> Vec<Sector>
        ensures all { TakesLowest (length self.free) self.free [] [] result.items }
        ensures sized { All (HasSize self.size) result.items }
    {
        let PoolState {
            free,
            reserved: _,
            whole: _,
        } = self;
        free.into_vec()
    }
}
