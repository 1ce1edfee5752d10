//! The texts of runs on a file that has a size.
ghost use Rattle.std.specs.Prelude.{◌≡◌, false};
ghost use Rattle.io_model.specs.RunText.{run_text};
ghost use Rattle.io_model.specs.Rows.SizeTexts as size_texts;
ghost use Rattle.io_model.specs.Rows.SizesCutAndGrow as sizes_cut_and_grow;
ghost use Rattle.io_model.specs.Rows.TruncatePastTheEndIsRefused as truncate_past_the_end_is_refused;

/// The turns at a size stand in one line, and then the size that they left.
#[tactic(auto, unfolding(crate::specs::Rows::Parts::printed))]
pub fn prints_turns_at_a_size()
    ensures { run_text sizes_cut_and_grow.script sizes_cut_and_grow.run false ≡ size_texts.cut_and_grown }
{}

/// Where no call came to the size, it stands alone.
#[tactic(auto, unfolding(crate::specs::Rows::Parts::printed))]
pub fn prints_a_size_without_turns()
    ensures { run_text truncate_past_the_end_is_refused.script truncate_past_the_end_is_refused.run false ≡ size_texts.refused }
{}
