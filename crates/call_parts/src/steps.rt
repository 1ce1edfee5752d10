//! Steps of calls add up. The laws are the contracts of a function that does nothing.
ghost use Rattle.std.specs.Prelude.{◌≡◌, All, IsTrue, Bool, ℕ, List, [], ◌++◌};
ghost use Rattle.iob_base.specs.declared.answer.Fault.{Fault};
ghost use Rattle.iob_base.specs.declared.stamp.FileId.{FileId};
ghost use Rattle.fault_device.specs.LaneView.{LaneView};
ghost use Rattle.range_core.specs.EntryStamps.{stamps_in};
ghost use Rattle.range_core.specs.declared.entry.Entry.{Entry};
ghost use Rattle.range_core.specs.declared.entry.Event.{Event};
ghost use Rattle.mount_parts.specs.MountView.{MountView};
ghost use Rattle.mini_fs.specs.Acts.{Act, own_entries};
ghost use Rattle.mini_fs.specs.PassView.{IsPassOf, PassView};
ghost use Rattle.call_parts.specs.Causes.{IsCaused};
ghost use Rattle.call_parts.specs.Reads.{bytes_read};
ghost use Rattle.call_parts.specs.Steps.{IsQuiet, Steps};

/// No act is a step of a call, and two steps are one. What may make some events may make more. What caused a fault of a part
/// of a call caused it in the whole. Entries of looks, promises and loans of the cache's pages leave no stamps and give no
/// bytes.
pub fn steps_add_up()
    ensures none { (m : MountView) (file : FileId) (may : Event → Bool) (lane : LaneView) (p : PassView) → IsPassOf m p → Steps m file may lane lane p p [] }
    ensures both { (m : MountView) (file : FileId) (may : Event → Bool) (a b c : LaneView) (p q r : PassView) (acts more : List Act) → Steps m file may a b p q acts → Steps m file may b c q r more → Steps m file may a c p r (acts ++ more) }
    ensures wider { (m : MountView) (file : FileId) (may might : Event → Bool) (a b : LaneView) (p q : PassView) (acts : List Act) → ((e : Event) → IsTrue (may e) → IsTrue (might e)) → Steps m file may a b p q acts → Steps m file might a b p q acts }
    ensures first { (m : MountView) (entries more : List Entry) (fault : Fault) → IsCaused m entries fault → IsCaused m (entries ++ more) fault }
    ensures later { (m : MountView) (entries more : List Entry) (fault : Fault) → IsCaused m more fault → IsCaused m (entries ++ more) fault }
    ensures stamps { (size : ℕ) (entries : List Entry) → All IsQuiet entries → stamps_in size entries ≡ [] }
    ensures bytes { (m : MountView) (p : PassView) (before acts : List Act) → All IsQuiet (own_entries acts) → bytes_read m p before acts ≡ [] }
{}
