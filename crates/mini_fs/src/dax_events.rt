//! The event calls on files that skip the page cache: bytes go straight to and from the sectors, each inside one turn of a
//! pass at the stripe of its first block.
ghost use Rattle.std.specs.Prelude.{◌≡◌, ◌<◌, ◌-◌};
ghost use Rattle.fault_device.specs.LaneView.{lane_seen};
ghost use Rattle.range_core.specs.ByteRuns.{HasNext};
ghost use Rattle.range_core.specs.DaxGets.{IsThrough};
ghost use Rattle.range_core.specs.Judges.{AsksLane};
ghost use Rattle.range_core.specs.KnownSamples.{WasGiven};
ghost use Rattle.mount_parts.specs.MountView.{HasBlock, stripe_at};
ghost use Rattle.mini_fs.specs.DirectTurns.{GotOn, PutOn, ZeroedOn};
ghost use Rattle.mini_fs.specs.PassView.{IsPassOf, claims_of};
ghost use Rattle.mini_fs.specs.Tickets.{KeepsTickets};
ghost use Rattle.mini_fs.specs.Turns.{ReadyAt, TurnsAt, block_at};

use crate::mount::Mount;
use crate::pass::Pass;
use fault_device::{Done, Lane};
use iob_base::{FileId, Tag};
use iov_iter::IovIter;
use range_core::{DaxGetRun, DaxPutRun, DaxZeroRun, EventFault, Sample};
use std::sync::Wait;

impl Mount {
    /// Copies the bytes of a file from one place up to another, all in the sample's extent, from the sectors to the iov,
    /// whose place moves on by them, and leaves a stamp on each block that has some of them. Mapped blocks take one judgement
    /// of the lane; others read as zeros and take none.
    ///
    /// # Errors
    ///
    /// `Stale` where the sample's cookie is not the range's, `NoMemory` before any judgement, and `Poison` where the
    /// judgement failed. The range and the iov are then as before.
    pub fn dax_get<R: Wait>(
        &self,
        rt: &R,
        pass: &mut Pass,
        file: FileId,
        by: Tag,
        lane: &mut Lane,
        seen: Sample,
        from: u64,
        to: u64,
        iov: &mut IovIter,
    ) -> Result<(), EventFault>
        requires of { IsPassOf self.now pass.old }
        requires block { HasBlock self.now file (block_at self.now from) }
        requires ready { ReadyAt (λ opening entries _. IsThrough opening seen from to × HasNext iov.old (to - from) × WasGiven seen entries) self.now pass.old (stripe_at self.now file (block_at self.now from)) (claims_of pass.old) }
        ensures of { IsPassOf self.now pass.new }
        ensures turned { TurnsAt (λ opening history before after entry. GotOn (lane_seen count tells lane.old) (lane_seen count tells lane.new) by seen from to iov.old iov.new opening history before after pass.old.caller result entry) self.now (stripe_at self.now file (block_at self.now from)) (claims_of pass.old) (claims_of pass.old) pass.old pass.new }
        ensures tickets { KeepsTickets pass.old pass.new }
    {
        let mut change = DaxGetRun {
            by,
            judge: |n: u32| -> Done
                requires { 0 < n }
                ensures { AsksLane (lane_seen count tells lane.entry.now) n result (lane_seen count tells lane.exit.now) }
            { lane.judge(n) },
            seen,
            from,
            to,
            iov,
        };
        self.turn_from(rt, pass, file, from, &mut change)
    }

    /// Lays the iov's next bytes over the bytes of a file from one place up to another, all in the sample's extent, in the
    /// sectors. Holes take sectors of the pool, and each block that has some of the bytes is mapped then and gets a stamp. It
    /// takes one judgement of the lane.
    ///
    /// # Errors
    ///
    /// `Stale` where the sample's cookie is not the range's, `Worn` where a kind would change and the cookie is used up,
    /// `NoMemory` and `NoSpace` before any judgement, and `Poison` where the judgement failed. No byte has moved then.
    pub fn dax_put<R: Wait>(
        &self,
        rt: &R,
        pass: &mut Pass,
        file: FileId,
        by: Tag,
        lane: &mut Lane,
        seen: Sample,
        from: u64,
        to: u64,
        iov: &mut IovIter,
    ) -> Result<(), EventFault>
        requires of { IsPassOf self.now pass.old }
        requires block { HasBlock self.now file (block_at self.now from) }
        requires ready { ReadyAt (λ opening entries _. IsThrough opening seen from to × HasNext iov.old (to - from) × WasGiven seen entries) self.now pass.old (stripe_at self.now file (block_at self.now from)) (claims_of pass.old) }
        ensures of { IsPassOf self.now pass.new }
        ensures turned { TurnsAt (λ opening history before after entry. PutOn (lane_seen count tells lane.old) (lane_seen count tells lane.new) self.now.pool.opening by seen from to iov.old iov.new before after pass.old.caller result entry) self.now (stripe_at self.now file (block_at self.now from)) (claims_of pass.old) (claims_of pass.old) pass.old pass.new }
        ensures tickets { KeepsTickets pass.old pass.new }
    {
        self.is_laid_out();
        let mut change = DaxPutRun {
            rt,
            space: self.pool(),
            by,
            judge: |n: u32| -> Done
                requires { 0 < n }
                ensures { AsksLane (lane_seen count tells lane.entry.now) n result (lane_seen count tells lane.exit.now) }
            { lane.judge(n) },
            seen,
            from,
            to,
            iov,
        };
        self.turn_from(rt, pass, file, from, &mut change)
    }

    /// Lays zeros over the bytes of a file from one place up to another, all in the sample's extent, in the sectors, and
    /// leaves a stamp on each block that has some of them. Mapped blocks take one judgement of the lane; others read as zeros
    /// already and take none.
    ///
    /// # Errors
    ///
    /// Those of `dax_get`. The range is then as before.
    pub fn dax_zero<R: Wait>(
        &self,
        rt: &R,
        pass: &mut Pass,
        file: FileId,
        by: Tag,
        lane: &mut Lane,
        seen: Sample,
        from: u64,
        to: u64,
    ) -> Result<(), EventFault>
        requires of { IsPassOf self.now pass.old }
        requires block { HasBlock self.now file (block_at self.now from) }
        requires ready { ReadyAt (λ opening entries _. IsThrough opening seen from to × WasGiven seen entries) self.now pass.old (stripe_at self.now file (block_at self.now from)) (claims_of pass.old) }
        ensures of { IsPassOf self.now pass.new }
        ensures turned { TurnsAt (λ opening history before after entry. ZeroedOn (lane_seen count tells lane.old) (lane_seen count tells lane.new) by seen from to before after pass.old.caller result entry) self.now (stripe_at self.now file (block_at self.now from)) (claims_of pass.old) (claims_of pass.old) pass.old pass.new }
        ensures tickets { KeepsTickets pass.old pass.new }
    {
        let mut change = DaxZeroRun {
            by,
            judge: |n: u32| -> Done
                requires { 0 < n }
                ensures { AsksLane (lane_seen count tells lane.entry.now) n result (lane_seen count tells lane.exit.now) }
            { lane.judge(n) },
            seen,
            from,
            to,
        };
        self.turn_from(rt, pass, file, from, &mut change)
    }
}
