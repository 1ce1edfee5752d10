//! How many bios a call needs that reads cold blocks into the cache. The law is the contract of a function that does nothing.
ghost use Rattle.std.specs.Prelude.{◌+◌, ◌<◌, ◌≤◌, All, IsTrue, Bool, ℕ, List};
ghost use Rattle.iob_base.specs.declared.stamp.FileId.{FileId};
ghost use Rattle.range_core.specs.declared.entry.Entry.{Entry};
ghost use Rattle.mount_parts.specs.MountView.{MountView};
ghost use Rattle.mini_fs.specs.Acts.{Act, own_entries};
ghost use Rattle.mini_fs.specs.CallActs.{loans_in};
ghost use Rattle.mini_fs.specs.PassView.{PassView};
ghost use Rattle.call_parts.specs.Budgets.{FallsBack, HasHappenedTo, IsAlone, LendsAmong, how_many, keeps_read};

/// A call that lends only blocks of a set to be read, and after a failed read only blocks before it, lends at most as many
/// runs as the set has blocks, where nobody else's entries stand between its own.
pub fn loans_are_few()
    ensures { (m : MountView) (file : FileId) (so : ℕ → Bool) (low n : ℕ) (p : PassView) (acts : List Act) → All (LendsAmong m file so low n) acts → All (λ (e : Entry). IsTrue (keeps_read e.event)) (own_entries acts) → FallsBack (own_entries acts) → IsAlone acts → ((b : ℕ) → low ≤ b → b < low + n → HasHappenedTo m file p acts b) → loans_in acts ≤ how_many so low n }
{}
