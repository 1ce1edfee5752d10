//! What the history of a stripe leaves of the bytes of a block is what the stamps in the block's journal leave, by the effects
//! that the script gives their calls. The laws are the contracts of functions that do nothing.
ghost use Rattle.std.specs.Prelude.{ℕ};
ghost use Rattle.iob_base.specs.declared.answer.Answer.{Answer};
ghost use Rattle.iob_base.specs.declared.stamp.FileId.{FileId};
ghost use Rattle.fault_device.specs.LaneView.{LaneView};
ghost use Rattle.mount_parts.specs.MountView.{MountView};
ghost use Rattle.mini_fs.specs.PassView.{PassView};
ghost use Rattle.call_traces.specs.Changes.{StampsTellContent};
ghost use Rattle.call_traces.specs.LeftContents.{CallsTellContent, RunsTellContent, TracedIsTold};
ghost use Rattle.call_traces.specs.ToldCalls.{AllocIsTold, PunchIsTold, ReadIsTold, TruncIsTold, UnstampedAreTold, WriteIsTold, ZeroIsTold};

/// Where no entry of a history changes a block in another way than its stamps there say, the history leaves of the block what
/// the effects of all its stamps there leave, one after the other.
pub fn stamps_tell_content()
    ensures { StampsTellContent }
{}

/// Each entry of a call changes the blocks as its stamps there say, where the script has this call under its number. So do
/// entries that leave no stamps, as those of a sync.
pub fn calls_are_told()
    ensures read { (m : MountView) (file : FileId) (call off : ℕ) (a b : LaneView) (p q : PassView) (answer : Answer) → ReadIsTold m file call off a b p q answer }
    ensures write { (m : MountView) (file : FileId) (call off : ℕ) (a b : LaneView) (p q : PassView) (answer : Answer) → WriteIsTold m file call off a b p q answer }
    ensures zero { (m : MountView) (file : FileId) (call off : ℕ) (a b : LaneView) (p q : PassView) (answer : Answer) → ZeroIsTold m file call off a b p q answer }
    ensures punch { (m : MountView) (file : FileId) (call off : ℕ) (a b : LaneView) (p q : PassView) (answer : Answer) → PunchIsTold m file call off a b p q answer }
    ensures alloc { (m : MountView) (file : FileId) (call off : ℕ) (a b : LaneView) (p q : PassView) (answer : Answer) → AllocIsTold m file call off a b p q answer }
    ensures trunc { (m : MountView) (file : FileId) (call off : ℕ) (a b : LaneView) (p q : PassView) (answer : Answer) → TruncIsTold m file call off a b p q answer }
    ensures unstamped { UnstampedAreTold }
{}

/// A call of a trace made at the stripe of a block only entries that change the block as their stamps say, where its own do.
pub fn traced_is_told()
    ensures { TracedIsTold }
{}

/// Where each call that a run made at a stripe is told, every beginning of the history there leaves of the block's bytes what
/// the effects of the stamps in its journal leave.
pub fn calls_tell_content()
    ensures { CallsTellContent }
{}

/// Where each call of a run at a file changes a block of it as told, the block's bytes at the end are what the effects of the
/// stamps in its journal leave of those that it had at first.
pub fn runs_tell_content()
    ensures { RunsTellContent }
{}
