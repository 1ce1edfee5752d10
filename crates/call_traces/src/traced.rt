//! Each call is one of a trace. The laws are the contract of a function that does nothing.
ghost use Rattle.std.specs.Prelude.{ℕ};
ghost use Rattle.iob_base.specs.declared.answer.Answer.{Answer};
ghost use Rattle.iob_base.specs.declared.stamp.FileId.{FileId};
ghost use Rattle.fault_device.specs.LaneView.{LaneView};
ghost use Rattle.mount_parts.specs.MountView.{MountView};
ghost use Rattle.mini_fs.specs.PassView.{PassView};
ghost use Rattle.call_traces.specs.TracedCalls.{AllocIsTraced, PunchIsTraced, ReadIsTraced, TruncIsTraced, WriteIsTraced, ZeroIsTraced};

/// What a call tells of itself makes it one of a trace.
pub fn calls_are_traced()
    ensures read { (m : MountView) (file : FileId) (call off : ℕ) (a b : LaneView) (p q : PassView) (answer : Answer) → ReadIsTraced m file call off a b p q answer }
    ensures write { (m : MountView) (file : FileId) (call off : ℕ) (a b : LaneView) (p q : PassView) (answer : Answer) → WriteIsTraced m file call off a b p q answer }
    ensures zero { (m : MountView) (file : FileId) (call off : ℕ) (a b : LaneView) (p q : PassView) (answer : Answer) → ZeroIsTraced m file call off a b p q answer }
    ensures punch { (m : MountView) (file : FileId) (call off : ℕ) (a b : LaneView) (p q : PassView) (answer : Answer) → PunchIsTraced m file call off a b p q answer }
    ensures alloc { (m : MountView) (file : FileId) (call off : ℕ) (a b : LaneView) (p q : PassView) (answer : Answer) → AllocIsTraced m file call off a b p q answer }
    ensures trunc { (m : MountView) (file : FileId) (call off : ℕ) (a b : LaneView) (p q : PassView) (answer : Answer) → TruncIsTraced m file call off a b p q answer }
{}
