//! More runs that can be checked by hand: faults, writeback, the grain of direct calls, and sizes.
ghost use Rattle.std.specs.Prelude.{◌≡◌, [], ◌∷◌, false};
ghost use Rattle.io_model.specs.Causes.{AreCaused};
ghost use Rattle.io_model.specs.Right.{RunIsRight};
ghost use Rattle.io_model.specs.Rows.Parts.{fresh_lanes};
ghost use Rattle.io_model.specs.RunText.{run_text};
ghost use Rattle.io_model.specs.Rows.DroppedPageIsReadBack as dropped_page_is_read_back;
ghost use Rattle.io_model.specs.Rows.FailedWritebackIsRetried as failed_writeback_is_retried;
ghost use Rattle.io_model.specs.Rows.DirectReadFlushesFirst as direct_read_flushes_first;
ghost use Rattle.io_model.specs.Rows.DirectWriteDropsThePage as direct_write_drops_the_page;
ghost use Rattle.io_model.specs.Rows.WritebackErrorIsSeenAtClose as writeback_error_is_seen_at_close;
ghost use Rattle.io_model.specs.Rows.AllocatesAndPunches as allocates_and_punches;
ghost use Rattle.io_model.specs.Rows.DaxWriteThatFailsMapsNothing as dax_write_that_fails_maps_nothing;
ghost use Rattle.io_model.specs.Rows.TwoFaultsTwoReplies as two_faults_two_replies;
ghost use Rattle.io_model.specs.Rows.DirectReadFailsInItsSecondBio as direct_read_fails_in_its_second_bio;
ghost use Rattle.io_model.specs.Rows.DirectWriteBelowTheBlock as direct_write_below_the_block;
ghost use Rattle.io_model.specs.Rows.PartOfAMappedBlockIsKept as part_of_a_mapped_block_is_kept;
ghost use Rattle.io_model.specs.Rows.SizesCutAndGrow as sizes_cut_and_grow;
ghost use Rattle.io_model.specs.Rows.TruncatePastTheEndIsRefused as truncate_past_the_end_is_refused;

/// A page that was written back and dropped is read again from the device.
#[tactic(auto, unfolding(crate::specs::Rows::Parts::printed))]
pub fn dropped_page_is_read_back()
    ensures right { RunIsRight dropped_page_is_read_back.script (0 ∷ 0 ∷ 0 ∷ 0 ∷ []) dropped_page_is_read_back.run }
    ensures caused { AreCaused (fresh_lanes dropped_page_is_read_back.script) dropped_page_is_read_back.script dropped_page_is_read_back.run }
    ensures text { run_text dropped_page_is_read_back.script dropped_page_is_read_back.run false ≡ dropped_page_is_read_back.text }
{}

/// A block whose writeback failed is written by the next sync, and is mapped then.
#[tactic(auto, unfolding(crate::specs::Rows::Parts::printed))]
pub fn failed_writeback_is_retried()
    ensures right { RunIsRight failed_writeback_is_retried.script (0 ∷ 0 ∷ 0 ∷ []) failed_writeback_is_retried.run }
    ensures caused { AreCaused (fresh_lanes failed_writeback_is_retried.script) failed_writeback_is_retried.script failed_writeback_is_retried.run }
    ensures text { run_text failed_writeback_is_retried.script failed_writeback_is_retried.run false ≡ failed_writeback_is_retried.text }
{}

/// A direct read finds what was written through the cache.
#[tactic(auto, unfolding(crate::specs::Rows::Parts::printed))]
pub fn direct_read_flushes_first()
    ensures right { RunIsRight direct_read_flushes_first.script (0 ∷ 0 ∷ []) direct_read_flushes_first.run }
    ensures caused { AreCaused (fresh_lanes direct_read_flushes_first.script) direct_read_flushes_first.script direct_read_flushes_first.run }
    ensures text { run_text direct_read_flushes_first.script direct_read_flushes_first.run false ≡ direct_read_flushes_first.text }
{}

/// A cached read after a direct write finds its bytes.
#[tactic(auto, unfolding(crate::specs::Rows::Parts::printed))]
pub fn direct_write_drops_the_page()
    ensures right { RunIsRight direct_write_drops_the_page.script (0 ∷ 0 ∷ 0 ∷ []) direct_write_drops_the_page.run }
    ensures caused { AreCaused (fresh_lanes direct_write_drops_the_page.script) direct_write_drops_the_page.script direct_write_drops_the_page.run }
    ensures text { run_text direct_write_drops_the_page.script direct_write_drops_the_page.run false ≡ direct_write_drops_the_page.text }
{}

/// A failed writeback is told at the close, which wrote the block.
#[tactic(auto, unfolding(crate::specs::Rows::Parts::printed))]
pub fn writeback_error_is_seen_at_close()
    ensures right { RunIsRight writeback_error_is_seen_at_close.script (0 ∷ 0 ∷ 0 ∷ 0 ∷ []) writeback_error_is_seen_at_close.run }
    ensures caused { AreCaused (fresh_lanes writeback_error_is_seen_at_close.script) writeback_error_is_seen_at_close.script writeback_error_is_seen_at_close.run }
    ensures text { run_text writeback_error_is_seen_at_close.script writeback_error_is_seen_at_close.run false ≡ writeback_error_is_seen_at_close.text }
{}

/// Allocated space reads as zeros, and a punch gives a block of it back.
#[tactic(auto, unfolding(crate::specs::Rows::Parts::printed))]
pub fn allocates_and_punches()
    ensures right { RunIsRight allocates_and_punches.script (0 ∷ 0 ∷ 0 ∷ []) allocates_and_punches.run }
    ensures caused { AreCaused (fresh_lanes allocates_and_punches.script) allocates_and_punches.script allocates_and_punches.run }
    ensures text { run_text allocates_and_punches.script allocates_and_punches.run false ≡ allocates_and_punches.text }
{}

/// A write past the page cache that fails leaves unwritten space unwritten.
#[tactic(auto, unfolding(crate::specs::Rows::Parts::printed))]
pub fn dax_write_that_fails_maps_nothing()
    ensures right { RunIsRight dax_write_that_fails_maps_nothing.script (0 ∷ 0 ∷ []) dax_write_that_fails_maps_nothing.run }
    ensures caused { AreCaused (fresh_lanes dax_write_that_fails_maps_nothing.script) dax_write_that_fails_maps_nothing.script dax_write_that_fails_maps_nothing.run }
    ensures text { run_text dax_write_that_fails_maps_nothing.script dax_write_that_fails_maps_nothing.run false ≡ dax_write_that_fails_maps_nothing.text }
{}

/// Two faults of a lane are the causes of two replies.
#[tactic(auto, unfolding(crate::specs::Rows::Parts::printed))]
pub fn two_faults_two_replies()
    ensures right { RunIsRight two_faults_two_replies.script (0 ∷ 0 ∷ []) two_faults_two_replies.run }
    ensures caused { AreCaused (fresh_lanes two_faults_two_replies.script) two_faults_two_replies.script two_faults_two_replies.run }
    ensures text { run_text two_faults_two_replies.script two_faults_two_replies.run false ≡ two_faults_two_replies.text }
{}

/// A direct read that failed gives no bytes, although it sent blocks.
#[tactic(auto, unfolding(crate::specs::Rows::Parts::printed))]
pub fn direct_read_fails_in_its_second_bio()
    ensures right { RunIsRight direct_read_fails_in_its_second_bio.script (0 ∷ []) direct_read_fails_in_its_second_bio.run }
    ensures caused { AreCaused (fresh_lanes direct_read_fails_in_its_second_bio.script) direct_read_fails_in_its_second_bio.script direct_read_fails_in_its_second_bio.run }
    ensures text { run_text direct_read_fails_in_its_second_bio.script direct_read_fails_in_its_second_bio.run false ≡ direct_read_fails_in_its_second_bio.text }
{}

/// A direct write of a part of an unwritten block leaves zeros around it.
#[tactic(auto, unfolding(crate::specs::Rows::Parts::printed))]
pub fn direct_write_below_the_block()
    ensures right { RunIsRight direct_write_below_the_block.script (0 ∷ 0 ∷ 0 ∷ 0 ∷ []) direct_write_below_the_block.run }
    ensures caused { AreCaused (fresh_lanes direct_write_below_the_block.script) direct_write_below_the_block.script direct_write_below_the_block.run }
    ensures text { run_text direct_write_below_the_block.script direct_write_below_the_block.run false ≡ direct_write_below_the_block.text }
{}

/// A direct write of a part of a mapped block keeps the rest.
#[tactic(auto, unfolding(crate::specs::Rows::Parts::printed))]
pub fn part_of_a_mapped_block_is_kept()
    ensures right { RunIsRight part_of_a_mapped_block_is_kept.script (0 ∷ 0 ∷ []) part_of_a_mapped_block_is_kept.run }
    ensures caused { AreCaused (fresh_lanes part_of_a_mapped_block_is_kept.script) part_of_a_mapped_block_is_kept.script part_of_a_mapped_block_is_kept.run }
    ensures text { run_text part_of_a_mapped_block_is_kept.script part_of_a_mapped_block_is_kept.run false ≡ part_of_a_mapped_block_is_kept.text }
{}

/// Reads end at the size that they saw, a write raises it, and a cut zeroes from it on.
#[tactic(auto, unfolding(crate::specs::Rows::Parts::printed))]
pub fn sizes_cut_and_grow()
    ensures right { RunIsRight sizes_cut_and_grow.script (0 ∷ 0 ∷ 0 ∷ 0 ∷ 0 ∷ []) sizes_cut_and_grow.run }
    ensures caused { AreCaused (fresh_lanes sizes_cut_and_grow.script) sizes_cut_and_grow.script sizes_cut_and_grow.run }
{}

/// A cut to a size past the blocks of the file is refused.
#[tactic(auto, unfolding(crate::specs::Rows::Parts::printed))]
pub fn truncate_past_the_end_is_refused()
    ensures right { RunIsRight truncate_past_the_end_is_refused.script (0 ∷ []) truncate_past_the_end_is_refused.run }
    ensures caused { AreCaused (fresh_lanes truncate_past_the_end_is_refused.script) truncate_past_the_end_is_refused.script truncate_past_the_end_is_refused.run }
{}
