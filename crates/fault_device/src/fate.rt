//! Who decides which transfers fail.
ghost use Rattle.std.specs.Prelude.{◌≡◌, ℕ, ◌<◌, ◌≤◌, Option, Result};
ghost use Rattle.fault_device.specs.Telling.{Telling};
ghost use Rattle.fault_device.specs.Judging.{ArmsTold, HasJudged, JudgesTold};

use std::alloc::AllocError;

/// What becomes of a transfer: all its blocks are moved, or it fails after the first `landed`.
#[derive(Clone, Copy, Debug)]
pub enum Verdict {
    Done,
    Failed { landed: u32 },
}

/// Who decides which transfers of a lane fail.
///
/// `count` is how many failed. `tells` is how many were judged and which are armed to fail, where the
/// fate tells it.
pub trait Fate: Drop {
    ghost count: { Self → ℕ };

    ghost tells: { Self → Option Telling };

    /// Lets the judgement of this number fail. Want of memory is the one error, and leaves all as it was.
    fn arm(&mut self, op: u64) -> Result<(), AllocError>
        ensures never_falls { count self.old ≤ count self.new }
        ensures told { ArmsTold op (count self.old) (tells self.old) result (count self.new) (tells self.new) };

    /// Judges a transfer of so many blocks. It fails only where the count rose, and then fewer blocks
    /// landed.
    fn judge(&mut self, blocks: u32) -> Verdict
        requires { 0 < blocks }
        ensures cause { HasJudged blocks (count self.old) result (count self.new) }
        ensures told { JudgesTold (count self.old) (tells self.old) result (count self.new) (tells self.new) };

    /// How many judgements failed.
    fn faults(&self) -> u64
        ensures { result ≡ count self.now };
}
