//! The laws of generated scripts: callers stay apart, so the order of the script decides each journal.
ghost use Rattle.std.specs.Prelude.{◌≡◌, ℕ, List, IsTrue, length};
ghost use Rattle.std.specs.List.{list_all};
ghost use Rattle.io_model.specs.Fitting.{Fits};
ghost use Rattle.io_model.specs.Journals.{IsLawfulJournal};
ghost use Rattle.io_model.specs.OneOrder.{HasOneOrder, IsInScriptOrder};
ghost use Rattle.io_model.specs.Reads.{IsReadReply};
ghost use Rattle.io_model.specs.declared.run.Run.{Run};
ghost use Rattle.io_script.specs.Generated.{CALLS_GENERATED, generated};
ghost use Rattle.io_script.specs.GeneratedJournal.{AnswersWhole, HasGeneratedJournals, generated_stamps};
ghost use Rattle.io_script.specs.GeneratedReads.{known_summary};
ghost use Rattle.io_script.specs.Stripes.{keeps_to_stripe};
ghost use Rattle.io_script.specs.Summary.{stamps_in, summary_text};

/// The script of every number has 2048 calls, and each call keeps to the stripe that its caller has in
/// its phase.
pub fn generated_calls_keep_to_stripes()
    ensures many { (seed : ℕ) → length (generated seed).calls ≡ CALLS_GENERATED }
    ensures kept { (seed : ℕ) → IsTrue (list_all keeps_to_stripe (generated seed).calls) }
{}

/// In every phase of the script of every number no two callers meet in a block, in whatever run.
pub fn generated_callers_stay_apart()
    ensures { (seed : ℕ) (run : Run) → HasOneOrder (generated seed) run }
{}

/// Every run of the script of a number with lawful journals: the journal of each block is the list of
/// the calls that answered it, by phase, and in a phase by the number of the call.
pub fn generated_journals_have_one_order()
    ensures { (seed : ℕ) (makers : List ℕ) (run : Run) → IsLawfulJournal (generated seed) makers run → IsInScriptOrder (generated seed) run }
{}

/// Every run of the script of a number that fits it, has lawful journals, and whose data calls did all
/// that they were asked: each journal is known from the number alone, and so is how many stamps there
/// are.
pub fn generated_journals_are_known()
    ensures journals { (seed : ℕ) (makers : List ℕ) (run : Run) → Fits (generated seed) run → IsLawfulJournal (generated seed) makers run → AnswersWhole (generated seed) run
        → HasGeneratedJournals seed run }
    ensures stamps { (seed : ℕ) (makers : List ℕ) (run : Run) → Fits (generated seed) run → IsLawfulJournal (generated seed) makers run → AnswersWhole (generated seed) run
        → stamps_in run.ends.files ≡ generated_stamps seed }
{}

/// Every run of the script of a number that fits it, has lawful journals, whose reads gave what the
/// journals say, and whose calls did all that they were asked: its summary is known from the number
/// alone, but for how many blocks are free.
pub fn generated_summary_is_known()
    ensures { (seed : ℕ) (makers : List ℕ) (run : Run) → Fits (generated seed) run → IsLawfulJournal (generated seed) makers run → IsReadReply (generated seed) run
        → AnswersWhole (generated seed) run → summary_text seed run ≡ known_summary seed (length run.ends.free) }
{}
