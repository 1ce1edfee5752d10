//! The event call that reads blocks past the page cache, inside one turn of a pass at the stripe of its first block.
ghost use Rattle.std.specs.Prelude.{◌≡◌, ◌<◌, OnOk, IfErr, IfOk, OnErr};
ghost use Rattle.fault_device.specs.LaneView.{lane_seen};
ghost use Rattle.iob_base.specs.Parting.{pages_of};
ghost use Rattle.range_core.specs.DirectNows.{CanReadNow};
ghost use Rattle.range_core.specs.Judges.{AsksLane};
ghost use Rattle.mount_parts.specs.MountView.{HasBlock, stripe_at};
ghost use Rattle.mini_fs.specs.DirectTurns.{ReadNowOn};
ghost use Rattle.mini_fs.specs.PassView.{IsPassOf, claims_of, refused_at};
ghost use Rattle.mini_fs.specs.Tickets.{KeepsTickets};
ghost use Rattle.mini_fs.specs.Turns.{BusyAt, ReadyAt, TurnsAt};

use crate::mount::Mount;
use crate::pass::Pass;
use fault_device::{Done, Lane};
use iob_base::{FileId, Parts, Tag};
use range_core::{DirectNowRun, EventFault};
use std::sync::Wait;
use turn_cell::Busy;

impl Mount {
    /// Reads, past the page cache, the longest run of one extent from block `b` on that is at home and clean, of at most as
    /// many blocks as there are pages. It fills the first pages, stamps these blocks and answers their number. Mapped blocks
    /// take one judgement of the lane, and lose their pages in the cache.
    ///
    /// # Errors
    ///
    /// `Away` and `Dirty` of the first block, `NoMemory` before any judgement, and `Poison` where the judgement failed. The
    /// range and the pages are then as before.
    pub fn direct_now<R: Wait>(
        &self,
        rt: &R,
        pass: &mut Pass,
        file: FileId,
        by: Tag,
        lane: &mut Lane,
        b: u64,
        pages: &mut Parts,
    ) -> Result<u64, EventFault>
        requires of { IsPassOf self.now pass.old }
        requires block { HasBlock self.now file b }
        requires ready { ReadyAt (λ opening _ _. CanReadNow opening b (pages_of pages.old)) self.now pass.old (stripe_at self.now file b) (claims_of pass.old) }
        ensures of { IsPassOf self.now pass.new }
        ensures turned { TurnsAt (λ opening history before after entry. ReadNowOn (lane_seen count tells lane.old) (lane_seen count tells lane.new) by b pages.old pages.new opening history before after pass.old.caller result entry) self.now (stripe_at self.now file b) (claims_of pass.old) (claims_of pass.old) pass.old pass.new }
        ensures tickets { KeepsTickets pass.old pass.new }
    {
        let mut change = DirectNowRun {
            by,
            judge: |n: u32| -> Done
                requires { 0 < n }
                ensures { AsksLane (lane_seen count tells lane.entry.now) n result (lane_seen count tells lane.exit.now) }
            { lane.judge(n) },
            block: b,
            pages,
        };
        self.turn(rt, pass, file, b, &mut change)
    }

    /// `direct_now` as one try, which does not wait.
    ///
    /// # Errors
    ///
    /// `Busy` where the gate of the stripe was held, with the word that was found. Nothing but the pass's note of it is then
    /// changed.
    pub fn try_direct_now(
        &self,
        pass: &mut Pass,
        file: FileId,
        by: Tag,
        lane: &mut Lane,
        b: u64,
        pages: &mut Parts,
    ) -> Result<Result<u64, EventFault>, Busy>
        requires of { IsPassOf self.now pass.old }
        requires block { HasBlock self.now file b }
        requires ready { ReadyAt (λ opening _ _. CanReadNow opening b (pages_of pages.old)) self.now pass.old (stripe_at self.now file b) (claims_of pass.old) }
        ensures of { IsPassOf self.now pass.new }
        ensures turned { IfOk result (λ answer. TurnsAt (λ opening history before after entry. ReadNowOn (lane_seen count tells lane.old) (lane_seen count tells lane.new) by b pages.old pages.new opening history before after pass.old.caller answer entry) self.now (stripe_at self.now file b) (claims_of pass.old) (claims_of pass.old) pass.old pass.new) }
        ensures free { OnOk result (refused_at pass.new (stripe_at self.now file b) ≡ refused_at pass.old (stripe_at self.now file b)) }
        ensures busy { IfErr result (λ busy. BusyAt (stripe_at self.now file b) busy.word pass.old pass.new) }
        ensures unasked { OnErr result (lane_seen count tells lane.new ≡ lane_seen count tells lane.old) }
        ensures unfilled { OnErr result (pages.new ≡ pages.old) }
        ensures tickets { KeepsTickets pass.old pass.new }
    {
        let mut change = DirectNowRun {
            by,
            judge: |n: u32| -> Done
                requires { 0 < n }
                ensures { AsksLane (lane_seen count tells lane.entry.now) n result (lane_seen count tells lane.exit.now) }
            { lane.judge(n) },
            block: b,
            pages,
        };
        self.try_turn(pass, file, b, &mut change)
    }
}
