//! A port of the device.
ghost use Rattle.std.specs.Prelude.{◌≡◌, ◌<◌, ◌≤◌, MatchResult, length};

use crate::fate::{Fate, Verdict};
use crate::moves::{fill_blocks, fill_pages};
use iob_base::Part;
use std::alloc::AllocError;

/// What a transfer did: on which lane, of how many blocks, how many of them landed, whether it failed,
/// and the fate's counts of faults round its judgement.
#[derive(Clone, Copy, Debug)]
pub struct Done {
    pub lane: u32,
    pub blocks: u32,
    pub landed: u32,
    pub failed: bool,
    pub before: u64,
    pub after: u64,
}

/// A port of the device. It owns the fate of its transfers.
///
/// Contracts see it as `lane_view count tells lane`, and those of the crates above as
/// `lane_seen count tells lane`: `count` and `tells` are the members of its fate.
#[derive(Drop)]
pub struct Lane {
    number: u32,
    fate: Box<dyn Fate + Send>,
    ops: u64,
}

impl Lane {
    ghost use Rattle.fault_device.specs.LaneView.{lane_view, lane_of};
    ghost use Rattle.fault_device.specs.Opening.{Opening, opening_of, opening_with, IsServed, Opens, Serves};
    ghost use Rattle.fault_device.specs.Judging.{ArmsTold};
    ghost use Rattle.fault_device.specs.Transfer.{CanTransfer, Tells, parts_read, parts_written};

    /// The lane of this number, over this fate.
    pub fn new(number: u32, fate: Box<dyn Fate + Send>) -> Lane
        ensures view { lane_view count tells result ≡ lane_of number (count fate) (tells fate) }
        ensures opens { Opens (opening_of (count fate) (tells fate)) (lane_view count tells result) }
    {
        Lane {
            number,
            fate,
            ops: 0,
        }
    }

    /// Lets the judgement of this number fail. Want of memory is the one error, and leaves all as it was.
    pub fn arm(&mut self, op: u64) -> Result<(), AllocError>
        ensures number { (lane_view count tells self.new).number ≡ (lane_view count tells self.old).number }
        ensures ops { (lane_view count tells self.new).ops ≡ (lane_view count tells self.old).ops }
        ensures never_falls { (lane_view count tells self.old).count ≤ (lane_view count tells self.new).count }
        ensures told { ArmsTold op (lane_view count tells self.old).count (lane_view count tells self.old).tells result
            (lane_view count tells self.new).count (lane_view count tells self.new).tells }
        ensures opens { (o : Opening) → Opens o (lane_view count tells self.old)
            → MatchResult result (λ _. Opens (opening_with o op) (lane_view count tells self.new)) (λ _. Opens o (lane_view count tells self.new)) }
    {
        self.fate.arm(op)
    }

    /// Moves the blocks to their pages.
    pub fn read(&mut self, parts: &mut [Part]) -> Done
        requires { CanTransfer parts.old }
        ensures tells { Tells (length parts.old) (lane_view count tells self.old) result (lane_view count tells self.new) }
        ensures parts { parts.new ≡ parts_read result.landed parts.old }
        ensures serves { (o : Opening) → Serves o (lane_view count tells self.old) → IsServed o result (lane_view count tells self.new) }
    {
        let done = self.judge(parts.len() as u32);
        fill_pages(&mut parts[..done.landed as usize]);
        done
    }

    /// Moves the pages to their blocks.
    pub fn write(&mut self, parts: &mut [Part]) -> Done
        requires { CanTransfer parts.old }
        ensures tells { Tells (length parts.old) (lane_view count tells self.old) result (lane_view count tells self.new) }
        ensures parts { parts.new ≡ parts_written result.landed parts.old }
        ensures serves { (o : Opening) → Serves o (lane_view count tells self.old) → IsServed o result (lane_view count tells self.new) }
    {
        let done = self.judge(parts.len() as u32);
        fill_blocks(&mut parts[..done.landed as usize]);
        done
    }

    /// Makes one judgement, and moves no byte.
    pub fn judge(&mut self, blocks: u32) -> Done
        requires { 0 < blocks }
        ensures tells { Tells blocks (lane_view count tells self.old) result (lane_view count tells self.new) }
        ensures serves { (o : Opening) → Serves o (lane_view count tells self.old) → IsServed o result (lane_view count tells self.new) }
    {
        self.ask(blocks)
    }

    fn ask(&mut self, blocks: u32) -> Done
        requires { 0 < blocks }
        ensures { Tells blocks (lane_view count tells self.old) result (lane_view count tells self.new) }
    {
        let before = self.fate.faults();
        let verdict = self.fate.judge(blocks);
        let after = self.fate.faults();
        self.ops = self.ops.saturating_add(1);
        let (landed, failed) = match verdict {
            Verdict::Done => (blocks, false),
            Verdict::Failed { landed } => (landed, true),
        };
        Done {
            lane: self.number,
            blocks,
            landed,
            failed,
            before,
            after,
        }
    }

    /// The lane's number.
    pub fn number(&self) -> u32
        ensures { result ≡ (lane_view count tells self.now).number }
    {
        self.number
    }

    /// How many reads, writes and judgements the lane made.
    pub fn ops(&self) -> u64
        ensures { result ≡ (lane_view count tells self.now).ops }
    {
        self.ops
    }

    /// How many of them failed, as the fate counts.
    pub fn faults(&self) -> u64
        ensures { result ≡ (lane_view count tells self.now).count }
    {
        self.fate.faults()
    }
}
