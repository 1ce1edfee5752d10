//! What calls leave of the space that they promised. The law is the contract of a function that does nothing.
ghost use Rattle.std.specs.Prelude.{◌≡◌, All, IsTrue, false, ℕ, List};
ghost use Rattle.range_core.specs.BlockStates.{BlockState, states_replayed};
ghost use Rattle.range_core.specs.declared.entry.Entry.{Entry};
ghost use Rattle.call_parts.specs.LeftPromises.{KeepsNoPromise, keeps_dirty, left_owed};

/// Where each promise of space to a block is followed by bytes for the block or by the promise's return, and a promised
/// block had bytes to be written before, it has some afterwards.
pub fn promises_are_settled()
    ensures { (size b : ℕ) (s : BlockState) (entries : List Entry) → All (λ (e : Entry). IsTrue (keeps_dirty e.event)) entries → left_owed size b false entries ≡ false → KeepsNoPromise s → KeepsNoPromise (states_replayed size b s entries) }
{}
