//! Turns of a pass that promise space to blocks, take promises back and give sectors, at the mount's pool.
ghost use Rattle.std.specs.Prelude.{◌≡◌};
ghost use Rattle.mount_parts.specs.MountView.{HasBlock, stripe_at};
ghost use Rattle.range_core.specs.RangeView.{LiesAt};
ghost use Rattle.mini_fs.specs.PassView.{IsPassOf, claims_of};
ghost use Rattle.mini_fs.specs.SpaceTurns.{MayReserve, Preallocated, Reserved, Unreserved};
ghost use Rattle.mini_fs.specs.Tickets.{KeepsTickets};
ghost use Rattle.mini_fs.specs.Turns.{ReadyAt, TurnsAt};

use crate::mount::Mount;
use crate::pass::Pass;
use iob_base::FileId;
use range_core::{EventFault, PreallocateRun, ReserveRun, Sample, UnreserveRun};
use std::sync::Wait;

impl Mount {
    /// Promises space to as many of the first `blocks` blocks of a sample as the pool has sectors for, and answers a sample
    /// of them. They are a hole, and become delalloc.
    ///
    /// # Errors
    ///
    /// `Stale` where the sample is of another cookie, `Worn` where the cookie is used up, and `NoSpace` where no sector was
    /// unreserved at its turn. Blocks stay as they were.
    pub fn reserve<R: Wait>(
        &self,
        rt: &R,
        pass: &mut Pass,
        file: FileId,
        seen: Sample,
        blocks: u64,
    ) -> Result<Sample, EventFault>
        requires of { IsPassOf self.now pass.old }
        requires block { HasBlock self.now file seen.extent.block }
        requires ready { ReadyAt (λ opening entries claims. MayReserve seen blocks opening entries) self.now pass.old (stripe_at self.now file seen.extent.block) (claims_of pass.old) }
        ensures of { IsPassOf self.now pass.new }
        ensures turned { TurnsAt (λ opening history value next entry. Reserved self.now.pool.opening seen blocks (claims_of pass.old) result opening value next entry) self.now (stripe_at self.now file seen.extent.block) (claims_of pass.old) (claims_of pass.old) pass.old pass.new }
        ensures tickets { KeepsTickets pass.old pass.new }
    {
        self.is_laid_out();
        let space = self.pool();
        let mut change = ReserveRun {
            rt,
            space,
            seen,
            blocks,
        };
        self.turn(rt, pass, file, seen.extent.block, &mut change)
    }

    /// Each of these blocks that has space promised to it and nothing to write becomes a hole, and the promise goes back to
    /// the pool. It answers how many did. It has no refusal.
    pub fn unreserve<R: Wait>(
        &self,
        rt: &R,
        pass: &mut Pass,
        file: FileId,
        block: u64,
        blocks: u64,
    ) -> u64
        requires of { IsPassOf self.now pass.old }
        requires block { HasBlock self.now file block }
        requires ready { ReadyAt (λ opening entries claims. LiesAt opening block blocks) self.now pass.old (stripe_at self.now file block) (claims_of pass.old) }
        ensures of { IsPassOf self.now pass.new }
        ensures turned { TurnsAt (λ opening history value next entry. Unreserved self.now.pool.opening block blocks (claims_of pass.old) result value next entry) self.now (stripe_at self.now file block) (claims_of pass.old) (claims_of pass.old) pass.old pass.new }
        ensures tickets { KeepsTickets pass.old pass.new }
    {
        self.is_laid_out();
        let space = self.pool();
        let mut change = UnreserveRun {
            rt,
            space,
            block,
            blocks,
        };
        self.turn(rt, pass, file, block, &mut change)
    }

    /// Each of these blocks that has no sector takes one, in order of blocks, and becomes unwritten. The holes among them
    /// are reserved first. It answers how many did. Pages and their bytes stay.
    ///
    /// # Errors
    ///
    /// `Worn` where there is such a block and the cookie is used up, want of memory, and `NoSpace` where fewer sectors were
    /// unreserved than there are holes. Blocks stay as they were.
    pub fn preallocate<R: Wait>(
        &self,
        rt: &R,
        pass: &mut Pass,
        file: FileId,
        block: u64,
        blocks: u64,
    ) -> Result<u64, EventFault>
        requires of { IsPassOf self.now pass.old }
        requires block { HasBlock self.now file block }
        requires ready { ReadyAt (λ opening entries claims. LiesAt opening block blocks) self.now pass.old (stripe_at self.now file block) (claims_of pass.old) }
        ensures of { IsPassOf self.now pass.new }
        ensures turned { TurnsAt (λ opening history value next entry. Preallocated self.now.pool.opening block blocks (claims_of pass.old) result value next entry) self.now (stripe_at self.now file block) (claims_of pass.old) (claims_of pass.old) pass.old pass.new }
        ensures tickets { KeepsTickets pass.old pass.new }
    {
        self.is_laid_out();
        let space = self.pool();
        let mut change = PreallocateRun {
            rt,
            space,
            block,
            blocks,
        };
        self.turn(rt, pass, file, block, &mut change)
    }
}
