//! Where callers stay apart the order of the script decides each journal.
ghost use Rattle.std.specs.Prelude.{◌≡◌, [], ◌∷◌, false, ℕ, List};
ghost use Rattle.io_model.specs.Causes.{AreCaused};
ghost use Rattle.io_model.specs.Journals.{IsLawfulJournal};
ghost use Rattle.io_model.specs.OneOrder.{HasOneOrder, IsInScriptOrder};
ghost use Rattle.io_model.specs.Right.{RunIsRight};
ghost use Rattle.io_model.specs.RunText.{run_text};
ghost use Rattle.io_model.specs.Rows.Flaws.{HasOnly, Journals};
ghost use Rattle.io_model.specs.Rows.Parts.{fresh_lanes};
ghost use Rattle.io_model.specs.Rows.TwoCallersApart as two_callers_apart;
ghost use Rattle.io_model.specs.Rows.TwoDirectWritesInOnePhase as two_direct_writes;
ghost use Rattle.io_model.specs.declared.run.Run.{Run};
ghost use Rattle.io_model.specs.declared.script.Script.{Script};

/// Two callers of a phase have blocks of their own, one in another file, and each journal is in the order of the script.
#[tactic(auto, unfolding(crate::specs::Rows::Parts::printed))]
pub fn callers_apart_leave_one_order()
    ensures right { RunIsRight two_callers_apart.script two_callers_apart.makers two_callers_apart.run }
    ensures caused { AreCaused (fresh_lanes two_callers_apart.script) two_callers_apart.script two_callers_apart.run }
    ensures text { run_text two_callers_apart.script two_callers_apart.run false ≡ two_callers_apart.text }
    ensures apart { HasOneOrder two_callers_apart.script two_callers_apart.run }
    ensures in_order { IsInScriptOrder two_callers_apart.script two_callers_apart.run }
{}

/// The same calls, and one journal in another order.
pub fn another_order_of_callers_apart_is_not_right()
    ensures refused { HasOnly Journals two_callers_apart.script two_callers_apart.makers two_callers_apart.wrong_run }
    ensures apart { HasOneOrder two_callers_apart.script two_callers_apart.wrong_run }
    ensures out_of_order { IsInScriptOrder two_callers_apart.script two_callers_apart.wrong_run → ⊥ }
{}

/// Two callers of a phase that meet in a block have two orders: one right run is in that of the script, and one is not.
pub fn callers_that_meet_have_two_orders()
    ensures meet { HasOneOrder two_direct_writes.script two_direct_writes.run → ⊥ }
    ensures one { IsInScriptOrder two_direct_writes.script two_direct_writes.run }
    ensures other { IsInScriptOrder two_direct_writes.script two_direct_writes.other_run → ⊥ }
{}

/// Every run with lawful journals whose callers stay apart within a phase: the journal of each block is
/// the list of the calls that answered it, in the order of the script.
pub fn journals_have_one_order()
    ensures { (script : Script) (makers : List ℕ) (run : Run) → HasOneOrder script run → IsLawfulJournal script makers run → IsInScriptOrder script run }
{}
