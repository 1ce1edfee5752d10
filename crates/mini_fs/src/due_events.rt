//! The looks for work that is left to a sync, each one turn of a pass at the stripe of its first block.
ghost use Rattle.std.specs.Prelude.{◌≡◌};
ghost use Rattle.range_core.specs.FindDues.{FoundDue};
ghost use Rattle.range_core.specs.Samples.{MaySample};
ghost use Rattle.range_core.specs.Surveys.{Surveyed};
ghost use Rattle.mount_parts.specs.MountView.{HasBlock, stripe_at};
ghost use Rattle.mini_fs.specs.DueTurns.{due_run, survey_run};
ghost use Rattle.mini_fs.specs.PassView.{IsPassOf, claims_of};
ghost use Rattle.mini_fs.specs.Tickets.{KeepsTickets};
ghost use Rattle.mini_fs.specs.Turns.{ReadyAt, TurnsAt};

use crate::mount::Mount;
use crate::pass::Pass;
use iob_base::FileId;
use range_core::{FindDueRun, Found, Survey, SurveyRun};
use std::sync::Wait;

impl Mount {
    /// A sample of block `b`, and the first of the blocks from it on in its stripe, at most `most`, that is dirty or lent
    /// out.
    pub fn find_due<R: Wait>(
        &self,
        rt: &R,
        pass: &mut Pass,
        file: FileId,
        b: u64,
        most: u64,
    ) -> Found
        requires of { IsPassOf self.now pass.old }
        requires block { HasBlock self.now file b }
        requires ready { ReadyAt (λ opening _ _. MaySample opening b most) self.now pass.old (stripe_at self.now file b) (claims_of pass.old) }
        ensures of { IsPassOf self.now pass.new }
        ensures turned { TurnsAt (λ opening history before after entry. FoundDue opening (due_run b most) (due_run b most) before after (claims_of pass.old) (claims_of pass.old) result entry) self.now (stripe_at self.now file b) (claims_of pass.old) (claims_of pass.old) pass.old pass.new }
        ensures tickets { KeepsTickets pass.old pass.new }
    {
        let mut change = FindDueRun { block: b, most };
        self.turn(rt, pass, file, b, &mut change)
    }

    /// The extent of block `b`, of at most `most` blocks, and which of its blocks are dirty.
    pub fn survey<R: Wait>(
        &self,
        rt: &R,
        pass: &mut Pass,
        file: FileId,
        b: u64,
        most: u64,
    ) -> Survey
        requires of { IsPassOf self.now pass.old }
        requires block { HasBlock self.now file b }
        requires ready { ReadyAt (λ opening _ _. MaySample opening b most) self.now pass.old (stripe_at self.now file b) (claims_of pass.old) }
        ensures of { IsPassOf self.now pass.new }
        ensures turned { TurnsAt (λ opening history before after entry. Surveyed opening (survey_run b most) (survey_run b most) before after (claims_of pass.old) (claims_of pass.old) result entry) self.now (stripe_at self.now file b) (claims_of pass.old) (claims_of pass.old) pass.old pass.new }
        ensures tickets { KeepsTickets pass.old pass.new }
    {
        let mut change = SurveyRun { block: b, most };
        self.turn(rt, pass, file, b, &mut change)
    }
}
