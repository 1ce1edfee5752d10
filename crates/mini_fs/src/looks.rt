//! Looks of a pass at the extents of a file, and the look that its mapping rests on.
ghost use Rattle.std.specs.Prelude.{◌≡◌, Some};
ghost use Rattle.mount_parts.specs.MountView.{HasBlock, stripe_at};
ghost use Rattle.iomap_core.specs.Mappings.{IsSameMapping};
ghost use Rattle.range_core.specs.Samples.{GaveSample, MaySample};
ghost use Rattle.mini_fs.specs.PassView.{IsPassOf, claims_of};
ghost use Rattle.mini_fs.specs.Mappings.{mapping_in, sample_in};
ghost use Rattle.mini_fs.specs.SpaceTurns.{sample_run};
ghost use Rattle.mini_fs.specs.Tickets.{KeepsTickets};
ghost use Rattle.mini_fs.specs.Turns.{ReadyAt, TurnsAt};

use crate::mount::Mount;
use crate::pass::Pass;
use iob_base::FileId;
use iomap_core::Iomap;
use range_core::{Sample, SampleRun};
use std::sync::Wait;

impl Mount {
    /// The longest extent from `block` on of at most `most` blocks that crosses no multiple of 64 blocks, with the cookie
    /// and the count of failed writebacks there. It takes no memory.
    pub fn sample<R: Wait>(
        &self,
        rt: &R,
        pass: &mut Pass,
        file: FileId,
        block: u64,
        most: u64,
    ) -> Sample
        requires of { IsPassOf self.now pass.old }
        requires block { HasBlock self.now file block }
        requires ready { ReadyAt (λ opening entries claims. MaySample opening block most) self.now pass.old (stripe_at self.now file block) (claims_of pass.old) }
        ensures of { IsPassOf self.now pass.new }
        ensures turned { TurnsAt (λ opening history value next entry. GaveSample opening (sample_run block most) (sample_run block most) value next (claims_of pass.old) (claims_of pass.old) result entry) self.now (stripe_at self.now file block) (claims_of pass.old) (claims_of pass.old) pass.old pass.new }
        ensures tickets { KeepsTickets pass.old pass.new }
    {
        let mut change = SampleRun { block, most };
        self.turn(rt, pass, file, block, &mut change)
    }

    /// The sample that a mapping of the pass rests on. The mapping is the one that the pass began last and has not ended; its
    /// stale flag may have been set.
    pub fn seen(&self, pass: &Pass, iomap: &Iomap) -> Sample
        requires { IsSameMapping (mapping_in pass.now.begun) iomap.now }
        ensures { sample_in pass.now.begun ≡ Some result }
    {
        let Some(begun) = pass.begun() else {
            unreachable!()
        };
        begun.sample
    }
}
