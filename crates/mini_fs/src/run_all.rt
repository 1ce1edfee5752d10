//! A pass runs its bios.
ghost use Rattle.std.specs.Prelude.{◌≡◌, ◌≤◌, [], vec_len, vec_capacity};
ghost use Rattle.fault_device.specs.LaneView.{lane_seen};
ghost use Rattle.bio_pages.specs.Lists.{AreRun, CanSend, OwnFailures};
ghost use Rattle.bio_pages.specs.Queue.{Grew};
ghost use Rattle.bio_pages.specs.Running.{HasRun};
ghost use Rattle.mini_fs.specs.BioSeats.{HavePlenty, KeepsShelves};
ghost use Rattle.mini_fs.specs.PassView.{IsPassOf, with_bios};
ghost use Rattle.mini_fs.specs.Tickets.{KeepsTickets};

use crate::mount::Mount;
use crate::pass::Pass;
use crate::ticket::Ticket;
use bio_pages::Bio;
use fault_device::{Done, Lane};
use std::sync::Wait;

impl Mount {
    /// Runs the bios of a list, at most 32, of which each has the slot of its place. They go through the mount's queue and come
    /// back to one of the pass's shelves, and any caller that waits may run them. One that failed on another lane is run once
    /// more on this one. A pass without a shelf runs them all here.
    ///
    /// The list has the same bios in the same order, each after the transfer that its `Done` tells. What failed is of this
    /// lane, within its counts, and no two share a rise. It takes no memory, and refuses nothing. The pass keeps all else.
    pub fn run_all<R: Wait>(
        &self,
        rt: &R,
        pass: &mut Pass,
        lane: &mut Lane,
        bios: &mut Vec<Bio<Ticket>>,
        dones: &mut Vec<Done>,
    )
        requires of { IsPassOf self.now pass.old }
        requires few { vec_len bios.old ≤ 32 }
        requires can_send { CanSend bios.old.items }
        requires none_told { dones.old.items ≡ [] }
        requires room { vec_len bios.old ≤ vec_capacity dones.old }
        ensures of { IsPassOf self.now pass.new }
        ensures run { AreRun bios.old.items bios.new.items dones.new.items }
        ensures kept { (vec_capacity bios.new ≡ vec_capacity bios.old) × (vec_capacity dones.new ≡ vec_capacity dones.old) }
        ensures own { OwnFailures (lane_seen count tells lane.old).number (lane_seen count tells lane.old).count (lane_seen count tells lane.new).count dones.new.items }
        ensures pass { pass.new ≡ with_bios pass.old pass.new.bios }
        ensures shelves { KeepsShelves (vec_len bios.old) pass.old.bios pass.new.bios }
        ensures pushed { HavePlenty pass.new.bios.shelves → Grew (vec_len bios.old) pass.old.bios.queue pass.new.bios.queue }
        ensures tickets { KeepsTickets pass.old pass.new }
        ensures lane { HasRun (lane_seen count tells lane.old) (lane_seen count tells lane.new) }
    {
        pass.bios.run_all(rt, &self.queue, lane, bios, dones);
    }
}
