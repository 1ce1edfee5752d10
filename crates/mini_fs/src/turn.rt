//! A turn of a pass.
ghost use Rattle.std.specs.Prelude.{◌≡◌, OnOk, IfOk, IfErr};
ghost use Rattle.mount_parts.specs.MountView.{HasBlock, stripe_at};
ghost use Rattle.mini_fs.specs.PassView.{IsPassOf, claims_of, refused_at};
ghost use Rattle.mini_fs.specs.Tickets.{KeepsTickets};
ghost use Rattle.mini_fs.specs.Turns.{BusyAt, LeavesClaims, ReadyAt, TurnsAt, block_at};

use crate::mount::Mount;
use crate::pass::Pass;
use iob_base::FileId;
use range_core::Range;
use std::sync::Wait;
use turn_cell::{Busy, Change};

impl Mount {
    /// One turn of the pass at the range of block `b`, by a change that leaves the claims of the pass's seat, and what the
    /// change answers. It tries until it wins the gate.
    ///
    /// Afterwards the pass has seen there all that it had seen, then entries of others, then the one entry of this turn.
    pub fn turn<C: Change<Range>, R: Wait>(
        &self,
        rt: &R,
        pass: &mut Pass,
        file: FileId,
        b: u64,
        change: &mut C,
    ) -> C::Out
        requires of { IsPassOf self.now pass.old }
        requires block { HasBlock self.now file b }
        requires ready { ReadyAt (C.ready change.old) self.now pass.old (stripe_at self.now file b) (claims_of pass.old) }
        requires leaves { LeavesClaims C.does change.old }
        ensures of { IsPassOf self.now pass.new }
        ensures turned { TurnsAt (λ opening history value next entry. C.does change.old opening history value (claims_of pass.old) change.new next (claims_of pass.old) result entry) self.now (stripe_at self.now file b) (claims_of pass.old) (claims_of pass.old) pass.old pass.new }
        ensures tickets { KeepsTickets pass.old pass.new }
    {
        let stripe = self.stripe(file, b);
        let cell = self.range_cell(stripe);
        cell.turn(rt, &mut pass.stripes[stripe], change)
    }

    /// One turn as `turn` makes it, if the gate is free. It does not wait.
    ///
    /// # Errors
    ///
    /// `Busy` where the one compare and exchange of this call found the gate held, with the word that it found. That word is
    /// one more of the refused words of the pass's seat there, and all else is as before, the change too.
    pub fn try_turn<C: Change<Range>>(
        &self,
        pass: &mut Pass,
        file: FileId,
        b: u64,
        change: &mut C,
    ) -> Result<C::Out, Busy>
        requires of { IsPassOf self.now pass.old }
        requires block { HasBlock self.now file b }
        requires ready { ReadyAt (C.ready change.old) self.now pass.old (stripe_at self.now file b) (claims_of pass.old) }
        requires leaves { LeavesClaims C.does change.old }
        ensures of { IsPassOf self.now pass.new }
        ensures turned { IfOk result (λ out. TurnsAt (λ opening history value next entry. C.does change.old opening history value (claims_of pass.old) change.new next (claims_of pass.old) out entry) self.now (stripe_at self.now file b) (claims_of pass.old) (claims_of pass.old) pass.old pass.new) }
        ensures free { OnOk result (refused_at pass.new (stripe_at self.now file b) ≡ refused_at pass.old (stripe_at self.now file b)) }
        ensures busy { IfErr result (λ busy. BusyAt (stripe_at self.now file b) busy.word pass.old pass.new × (change.new ≡ change.old)) }
        ensures tickets { KeepsTickets pass.old pass.new }
    {
        let stripe = self.stripe(file, b);
        let cell = self.range_cell(stripe);
        cell.try_turn(&mut pass.stripes[stripe], change)
    }

    // `turn` at the range of the block that has the byte in the place `from`.
    pub(crate) fn turn_from<C: Change<Range>, R: Wait>(
        &self,
        rt: &R,
        pass: &mut Pass,
        file: FileId,
        from: u64,
        change: &mut C,
    ) -> C::Out
        requires of { IsPassOf self.now pass.old }
        requires block { HasBlock self.now file (block_at self.now from) }
        requires ready { ReadyAt (C.ready change.old) self.now pass.old (stripe_at self.now file (block_at self.now from)) (claims_of pass.old) }
        requires leaves { LeavesClaims C.does change.old }
        ensures of { IsPassOf self.now pass.new }
        ensures turned { TurnsAt (λ opening history value next entry. C.does change.old opening history value (claims_of pass.old) change.new next (claims_of pass.old) result entry) self.now (stripe_at self.now file (block_at self.now from)) (claims_of pass.old) (claims_of pass.old) pass.old pass.new }
        ensures tickets { KeepsTickets pass.old pass.new }
    {
        let block = self.block_at(from);
        self.turn(rt, pass, file, block, change)
    }

    // `try_turn` at the range of the block that has the byte in the place `from`.
    pub(crate) fn try_turn_from<C: Change<Range>>(
        &self,
        pass: &mut Pass,
        file: FileId,
        from: u64,
        change: &mut C,
    ) -> Result<C::Out, Busy>
        requires of { IsPassOf self.now pass.old }
        requires block { HasBlock self.now file (block_at self.now from) }
        requires ready { ReadyAt (C.ready change.old) self.now pass.old (stripe_at self.now file (block_at self.now from)) (claims_of pass.old) }
        requires leaves { LeavesClaims C.does change.old }
        ensures of { IsPassOf self.now pass.new }
        ensures turned { IfOk result (λ out. TurnsAt (λ opening history value next entry. C.does change.old opening history value (claims_of pass.old) change.new next (claims_of pass.old) out entry) self.now (stripe_at self.now file (block_at self.now from)) (claims_of pass.old) (claims_of pass.old) pass.old pass.new) }
        ensures free { OnOk result (refused_at pass.new (stripe_at self.now file (block_at self.now from)) ≡ refused_at pass.old (stripe_at self.now file (block_at self.now from))) }
        ensures busy { IfErr result (λ busy. BusyAt (stripe_at self.now file (block_at self.now from)) busy.word pass.old pass.new × (change.new ≡ change.old)) }
        ensures tickets { KeepsTickets pass.old pass.new }
    {
        let block = self.block_at(from);
        self.try_turn(pass, file, block, change)
    }
}
