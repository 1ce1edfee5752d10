//! The event calls on blocks whose bytes go through the page cache, and those that attach, drop and make holes of blocks.
//! Each is one turn of a pass at the stripe of its first block.
ghost use Rattle.std.specs.Prelude.{◌≡◌, OnOk, IfErr, IfOk, OnErr};
ghost use Rattle.range_core.specs.DropCleans.{Dropped};
ghost use Rattle.range_core.specs.Fetches.{CanFetch};
ghost use Rattle.range_core.specs.KnownSamples.{WasGiven};
ghost use Rattle.range_core.specs.RangeView.{LiesAt};
ghost use Rattle.range_core.specs.StoreZeros.{CanStoreZeros, StoredZeros};
ghost use Rattle.range_core.specs.Stores.{CanStore};
ghost use Rattle.mount_parts.specs.MountView.{HasBlock, stripe_at};
ghost use Rattle.mini_fs.specs.PageTurns.{AttachesAt, FetchedTo, StoredFrom, WipesAt, drop_run, zeros_run};
ghost use Rattle.mini_fs.specs.PassView.{IsPassOf, claims_of, refused_at};
ghost use Rattle.mini_fs.specs.Tickets.{KeepsTickets};
ghost use Rattle.mini_fs.specs.Turns.{BusyAt, ReadyAt, TurnsAt, block_at};

use crate::mount::Mount;
use crate::pass::Pass;
use iob_base::{FileId, Tag};
use iov_iter::IovIter;
use range_core::{
    AttachRun, DropCleanRun, EventFault, FetchRun, Sample, StoreRun, StoreZerosRun, WipeRun,
};
use std::sync::Wait;
use turn_cell::Busy;

impl Mount {
    /// Copies the bytes of a file from one place up to another, all in one folio, to the iov, whose place moves on by them,
    /// and leaves a stamp on each block that has some of them. A block without a page that is no mapped one gets a page of
    /// zeros.
    ///
    /// # Errors
    ///
    /// - `Away` of the first block that is lent for a read or to a caller's own pages.
    /// - `Cold` of the first block that is mapped, at home and not uptodate.
    /// - `NoMemory`.
    ///
    /// The range and the iov are then as before.
    pub fn fetch<R: Wait>(
        &self,
        rt: &R,
        pass: &mut Pass,
        file: FileId,
        by: Tag,
        from: u64,
        to: u64,
        iov: &mut IovIter,
    ) -> Result<(), EventFault>
        requires of { IsPassOf self.now pass.old }
        requires block { HasBlock self.now file (block_at self.now from) }
        requires ready { ReadyAt (λ opening _ _. CanFetch opening from to iov.old) self.now pass.old (stripe_at self.now file (block_at self.now from)) (claims_of pass.old) }
        ensures of { IsPassOf self.now pass.new }
        ensures turned { TurnsAt (λ opening history before after entry. FetchedTo by from to iov.old iov.new opening history before after pass.old.caller result entry) self.now (stripe_at self.now file (block_at self.now from)) (claims_of pass.old) (claims_of pass.old) pass.old pass.new }
        ensures tickets { KeepsTickets pass.old pass.new }
    {
        let mut change = FetchRun { by, from, to, iov };
        self.turn_from(rt, pass, file, from, &mut change)
    }

    /// `fetch` as one try, which does not wait.
    ///
    /// # Errors
    ///
    /// `Busy` where the gate of the stripe was held, with the word that was found. Nothing but the pass's note of it is then
    /// changed.
    pub fn try_fetch(
        &self,
        pass: &mut Pass,
        file: FileId,
        by: Tag,
        from: u64,
        to: u64,
        iov: &mut IovIter,
    ) -> Result<Result<(), EventFault>, Busy>
        requires of { IsPassOf self.now pass.old }
        requires block { HasBlock self.now file (block_at self.now from) }
        requires ready { ReadyAt (λ opening _ _. CanFetch opening from to iov.old) self.now pass.old (stripe_at self.now file (block_at self.now from)) (claims_of pass.old) }
        ensures of { IsPassOf self.now pass.new }
        ensures turned { IfOk result (λ answer. TurnsAt (λ opening history before after entry. FetchedTo by from to iov.old iov.new opening history before after pass.old.caller answer entry) self.now (stripe_at self.now file (block_at self.now from)) (claims_of pass.old) (claims_of pass.old) pass.old pass.new) }
        ensures free { OnOk result (refused_at pass.new (stripe_at self.now file (block_at self.now from)) ≡ refused_at pass.old (stripe_at self.now file (block_at self.now from))) }
        ensures busy { IfErr result (λ busy. BusyAt (stripe_at self.now file (block_at self.now from)) busy.word pass.old pass.new) }
        ensures nothing { OnErr result (iov.new ≡ iov.old) }
        ensures tickets { KeepsTickets pass.old pass.new }
    {
        let mut change = FetchRun { by, from, to, iov };
        self.try_turn_from(pass, file, from, &mut change)
    }

    /// Lays the iov's next bytes over the bytes of a file from one place up to another, all in one folio and in the extent
    /// of the sample, which is no hole. The blocks that have some of them become dirty, and get a stamp.
    ///
    /// # Errors
    ///
    /// - `Stale` where the sample's cookie is not the range's.
    /// - `Away` of the first block that is lent for a read or to a caller's own pages.
    /// - `Cold` of the first block that is covered in part, mapped, at home and not uptodate.
    /// - `NoMemory`.
    ///
    /// The range and the iov are then as before.
    pub fn store<R: Wait>(
        &self,
        rt: &R,
        pass: &mut Pass,
        file: FileId,
        by: Tag,
        seen: Sample,
        from: u64,
        to: u64,
        iov: &mut IovIter,
    ) -> Result<(), EventFault>
        requires of { IsPassOf self.now pass.old }
        requires block { HasBlock self.now file (block_at self.now from) }
        requires ready { ReadyAt (λ opening entries _. CanStore opening seen from to iov.old × WasGiven seen entries) self.now pass.old (stripe_at self.now file (block_at self.now from)) (claims_of pass.old) }
        ensures of { IsPassOf self.now pass.new }
        ensures turned { TurnsAt (λ opening history before after entry. StoredFrom by seen from to iov.old iov.new before after pass.old.caller result entry) self.now (stripe_at self.now file (block_at self.now from)) (claims_of pass.old) (claims_of pass.old) pass.old pass.new }
        ensures tickets { KeepsTickets pass.old pass.new }
    {
        let mut change = StoreRun {
            by,
            seen,
            from,
            to,
            iov,
        };
        self.turn_from(rt, pass, file, from, &mut change)
    }

    /// `store` of zeros, in the extent of any sample. A block that is no mapped one, at home and clean reads as zeros
    /// already, and only gets a stamp.
    ///
    /// # Errors
    ///
    /// Those of `store`. The range is then as before.
    pub fn store_zeros<R: Wait>(
        &self,
        rt: &R,
        pass: &mut Pass,
        file: FileId,
        by: Tag,
        seen: Sample,
        from: u64,
        to: u64,
    ) -> Result<(), EventFault>
        requires of { IsPassOf self.now pass.old }
        requires block { HasBlock self.now file (block_at self.now from) }
        requires ready { ReadyAt (λ opening entries _. CanStoreZeros opening seen from to × WasGiven seen entries) self.now pass.old (stripe_at self.now file (block_at self.now from)) (claims_of pass.old) }
        ensures of { IsPassOf self.now pass.new }
        ensures turned { TurnsAt (λ opening history before after entry. StoredZeros (zeros_run by seen from to) (zeros_run by seen from to) before after (claims_of pass.old) (claims_of pass.old) result entry) self.now (stripe_at self.now file (block_at self.now from)) (claims_of pass.old) (claims_of pass.old) pass.old pass.new }
        ensures tickets { KeepsTickets pass.old pass.new }
    {
        let mut change = StoreZerosRun { by, seen, from, to };
        self.turn_from(rt, pass, file, from, &mut change)
    }

    /// Each of `n` blocks from `b` on that has space promised to it and is dirty takes a sector, in order of blocks, and
    /// becomes unwritten. It answers how many did.
    ///
    /// # Errors
    ///
    /// `Worn` where there is such a block and the cookie is used up, and `NoMemory`. The range is then as before.
    pub fn attach<R: Wait>(
        &self,
        rt: &R,
        pass: &mut Pass,
        file: FileId,
        b: u64,
        n: u64,
    ) -> Result<u64, EventFault>
        requires of { IsPassOf self.now pass.old }
        requires block { HasBlock self.now file b }
        requires ready { ReadyAt (λ opening _ _. LiesAt opening b n) self.now pass.old (stripe_at self.now file b) (claims_of pass.old) }
        ensures of { IsPassOf self.now pass.new }
        ensures turned { TurnsAt (λ opening history before after entry. AttachesAt self.now.pool.opening b n before after pass.old.caller result entry) self.now (stripe_at self.now file b) (claims_of pass.old) (claims_of pass.old) pass.old pass.new }
        ensures tickets { KeepsTickets pass.old pass.new }
    {
        self.is_laid_out();
        let mut change = AttachRun {
            rt,
            space: self.pool(),
            block: b,
            blocks: n,
        };
        self.turn(rt, pass, file, b, &mut change)
    }

    /// Each of `n` blocks from `b` on that is uptodate, clean and at home loses its page. It answers how many did.
    pub fn drop_clean<R: Wait>(&self, rt: &R, pass: &mut Pass, file: FileId, b: u64, n: u64) -> u64
        requires of { IsPassOf self.now pass.old }
        requires block { HasBlock self.now file b }
        requires ready { ReadyAt (λ opening _ _. LiesAt opening b n) self.now pass.old (stripe_at self.now file b) (claims_of pass.old) }
        ensures of { IsPassOf self.now pass.new }
        ensures turned { TurnsAt (λ opening history before after entry. Dropped (drop_run b n) (drop_run b n) before after (claims_of pass.old) (claims_of pass.old) result entry) self.now (stripe_at self.now file b) (claims_of pass.old) (claims_of pass.old) pass.old pass.new }
        ensures tickets { KeepsTickets pass.old pass.new }
    {
        let mut change = DropCleanRun {
            block: b,
            blocks: n,
        };
        self.turn(rt, pass, file, b, &mut change)
    }

    /// Makes a hole of each of `n` blocks from `b` on, clean and without a page, and stamps it. Sectors and promises of
    /// space go back to the pool. It answers how many kinds changed.
    ///
    /// # Errors
    ///
    /// `Away` of the first block that is lent out, `Worn` where a block is no hole and the cookie is used up, and
    /// `NoMemory`. The range is then as before.
    pub fn wipe<R: Wait>(
        &self,
        rt: &R,
        pass: &mut Pass,
        file: FileId,
        by: Tag,
        b: u64,
        n: u64,
    ) -> Result<u64, EventFault>
        requires of { IsPassOf self.now pass.old }
        requires block { HasBlock self.now file b }
        requires ready { ReadyAt (λ opening _ _. LiesAt opening b n) self.now pass.old (stripe_at self.now file b) (claims_of pass.old) }
        ensures of { IsPassOf self.now pass.new }
        ensures turned { TurnsAt (λ opening history before after entry. WipesAt self.now.pool.opening by b n before after pass.old.caller result entry) self.now (stripe_at self.now file b) (claims_of pass.old) (claims_of pass.old) pass.old pass.new }
        ensures tickets { KeepsTickets pass.old pass.new }
    {
        self.is_laid_out();
        let mut change = WipeRun {
            rt,
            space: self.pool(),
            by,
            block: b,
            blocks: n,
        };
        self.turn(rt, pass, file, b, &mut change)
    }
}
