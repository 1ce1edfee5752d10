//! The definitions, tried on runs that can be checked by hand.
ghost use Rattle.std.specs.Prelude.{◌≡◌, [], ◌∷◌, true, false, codes};
ghost use Rattle.io_model.specs.Causes.{AreCaused};
ghost use Rattle.io_model.specs.Right.{RunIsRight};
ghost use Rattle.io_model.specs.Rows.Parts.{fresh_lanes};
ghost use Rattle.io_model.specs.Rows.ReadsOneMappedBlock as reads_one_mapped_block;
ghost use Rattle.io_model.specs.Rows.HoleAndUnwrittenReadZeros as hole_and_unwritten_read_zeros;
ghost use Rattle.io_model.specs.Rows.WriteIntoUnwrittenConvertsAtClose as write_into_unwritten_converts_at_close;
ghost use Rattle.io_model.specs.Rows.OneBioForThreeDirtyBlocks as one_bio_for_three_dirty_blocks;
ghost use Rattle.io_model.specs.Rows.PartialWriteReadsTheBlock as partial_write_reads_the_block;
ghost use Rattle.io_model.specs.Rows.FailedDirectWriteLandsAPrefix as failed_direct_write_lands_a_prefix;
ghost use Rattle.io_model.specs.Rows.FailedDirectWriteLeavesUnwritten as failed_direct_write_leaves_unwritten;
ghost use Rattle.io_model.specs.Rows.RunsOutOfSpace as runs_out_of_space;
ghost use Rattle.io_model.specs.Rows.EndsAtTheFilesEnd as ends_at_the_files_end;
ghost use Rattle.io_model.specs.Rows.DaxZeroesBeforeItMaps as dax_zeroes_before_it_maps;
ghost use Rattle.io_model.specs.Rows.PunchZeroesPartialEnds as punch_zeroes_partial_ends;
ghost use Rattle.io_model.specs.Rows.ClosingSyncFails as closing_sync_fails;
ghost use Rattle.io_model.specs.Rows.ShortReadAtAFault as short_read_at_a_fault;
ghost use Rattle.io_model.specs.Rows.TwoDirectWritesInOnePhase as two_direct_writes_in_one_phase;
ghost use Rattle.io_model.specs.Rows.UnalignedDirectCallsAreRefused as unaligned_direct_calls_are_refused;
ghost use Rattle.io_model.specs.Rows.PrintsTheImage as prints_the_image;
ghost use Rattle.io_model.specs.RunText.{run_text, page_runs, runs_text};

mod order;
mod owed;
mod refusals;
mod rows;
mod sizes;

/// A read of one mapped block gives the block's bytes, and leaves one stamp there.
#[tactic(auto, unfolding(crate::specs::Rows::Parts::printed))]
pub fn reads_one_mapped_block()
    ensures right { RunIsRight reads_one_mapped_block.script (0 ∷ []) reads_one_mapped_block.run }
    ensures caused { AreCaused (fresh_lanes reads_one_mapped_block.script) reads_one_mapped_block.script reads_one_mapped_block.run }
    ensures text { run_text reads_one_mapped_block.script reads_one_mapped_block.run false ≡ reads_one_mapped_block.text }
{}

/// Holes and unwritten blocks read as zeros, whatever bytes the device has there.
#[tactic(auto, unfolding(crate::specs::Rows::Parts::printed))]
pub fn hole_and_unwritten_read_zeros()
    ensures right { RunIsRight hole_and_unwritten_read_zeros.script (0 ∷ 0 ∷ []) hole_and_unwritten_read_zeros.run }
    ensures caused { AreCaused (fresh_lanes hole_and_unwritten_read_zeros.script) hole_and_unwritten_read_zeros.script hole_and_unwritten_read_zeros.run }
    ensures text { run_text hole_and_unwritten_read_zeros.script hole_and_unwritten_read_zeros.run false ≡ hole_and_unwritten_read_zeros.text }
{}

/// A write into unwritten space leaves zeros around its bytes, and the closing sync maps the block.
#[tactic(auto, unfolding(crate::specs::Rows::Parts::printed))]
pub fn write_into_unwritten_converts_at_close()
    ensures right { RunIsRight write_into_unwritten_converts_at_close.script (0 ∷ 0 ∷ []) write_into_unwritten_converts_at_close.run }
    ensures caused { AreCaused (fresh_lanes write_into_unwritten_converts_at_close.script) write_into_unwritten_converts_at_close.script write_into_unwritten_converts_at_close.run }
    ensures text { run_text write_into_unwritten_converts_at_close.script write_into_unwritten_converts_at_close.run false ≡ write_into_unwritten_converts_at_close.text }
{}

/// Three dirty blocks of a hole get space in order, and one transfer writes them.
#[tactic(auto, unfolding(crate::specs::Rows::Parts::printed))]
pub fn one_bio_for_three_dirty_blocks()
    ensures right { RunIsRight one_bio_for_three_dirty_blocks.script (0 ∷ []) one_bio_for_three_dirty_blocks.run }
    ensures caused { AreCaused (fresh_lanes one_bio_for_three_dirty_blocks.script) one_bio_for_three_dirty_blocks.script one_bio_for_three_dirty_blocks.run }
    ensures text { run_text one_bio_for_three_dirty_blocks.script one_bio_for_three_dirty_blocks.run false ≡ one_bio_for_three_dirty_blocks.text }
{}

/// A write of a part of a mapped block keeps the block's other bytes.
#[tactic(auto, unfolding(crate::specs::Rows::Parts::printed))]
pub fn partial_write_reads_the_block()
    ensures right { RunIsRight partial_write_reads_the_block.script (0 ∷ 0 ∷ []) partial_write_reads_the_block.run }
    ensures caused { AreCaused (fresh_lanes partial_write_reads_the_block.script) partial_write_reads_the_block.script partial_write_reads_the_block.run }
    ensures text { run_text partial_write_reads_the_block.script partial_write_reads_the_block.run false ≡ partial_write_reads_the_block.text }
{}

/// A direct write that failed has changed the mapped blocks that it moved, and no other.
#[tactic(auto, unfolding(crate::specs::Rows::Parts::printed))]
pub fn failed_direct_write_lands_a_prefix()
    ensures right { RunIsRight failed_direct_write_lands_a_prefix.script (0 ∷ 0 ∷ []) failed_direct_write_lands_a_prefix.run }
    ensures caused { AreCaused (fresh_lanes failed_direct_write_lands_a_prefix.script) failed_direct_write_lands_a_prefix.script failed_direct_write_lands_a_prefix.run }
    ensures text { run_text failed_direct_write_lands_a_prefix.script failed_direct_write_lands_a_prefix.run false ≡ failed_direct_write_lands_a_prefix.text }
{}

/// A direct write that failed leaves unwritten space unwritten, so its bytes are not seen there.
#[tactic(auto, unfolding(crate::specs::Rows::Parts::printed))]
pub fn failed_direct_write_leaves_unwritten()
    ensures right { RunIsRight failed_direct_write_leaves_unwritten.script (0 ∷ 0 ∷ []) failed_direct_write_leaves_unwritten.run }
    ensures caused { AreCaused (fresh_lanes failed_direct_write_leaves_unwritten.script) failed_direct_write_leaves_unwritten.script failed_direct_write_leaves_unwritten.run }
    ensures text { run_text failed_direct_write_leaves_unwritten.script failed_direct_write_leaves_unwritten.run false ≡ failed_direct_write_leaves_unwritten.text }
{}

/// An allocation that finds too little space takes none, and a write stops where the space ends.
#[tactic(auto, unfolding(crate::specs::Rows::Parts::printed))]
pub fn runs_out_of_space()
    ensures right { RunIsRight runs_out_of_space.script (0 ∷ 0 ∷ []) runs_out_of_space.run }
    ensures caused { AreCaused (fresh_lanes runs_out_of_space.script) runs_out_of_space.script runs_out_of_space.run }
    ensures text { run_text runs_out_of_space.script runs_out_of_space.run false ≡ runs_out_of_space.text }
{}

/// Calls are cut at the file's end, and a write that begins there is refused.
#[tactic(auto, unfolding(crate::specs::Rows::Parts::printed))]
pub fn ends_at_the_files_end()
    ensures right { RunIsRight ends_at_the_files_end.script (0 ∷ 0 ∷ 0 ∷ 0 ∷ 0 ∷ 0 ∷ []) ends_at_the_files_end.run }
    ensures caused { AreCaused (fresh_lanes ends_at_the_files_end.script) ends_at_the_files_end.script ends_at_the_files_end.run }
    ensures text { run_text ends_at_the_files_end.script ends_at_the_files_end.run false ≡ ends_at_the_files_end.text }
{}

/// A write past the page cache zeroes unwritten space before it maps it.
#[tactic(auto, unfolding(crate::specs::Rows::Parts::printed))]
pub fn dax_zeroes_before_it_maps()
    ensures right { RunIsRight dax_zeroes_before_it_maps.script (0 ∷ 0 ∷ 0 ∷ []) dax_zeroes_before_it_maps.run }
    ensures caused { AreCaused (fresh_lanes dax_zeroes_before_it_maps.script) dax_zeroes_before_it_maps.script dax_zeroes_before_it_maps.run }
    ensures text { run_text dax_zeroes_before_it_maps.script dax_zeroes_before_it_maps.run false ≡ dax_zeroes_before_it_maps.text }
{}

/// A punch gives whole blocks back and zeroes its part of the blocks at its ends.
#[tactic(auto, unfolding(crate::specs::Rows::Parts::printed))]
pub fn punch_zeroes_partial_ends()
    ensures right { RunIsRight punch_zeroes_partial_ends.script (0 ∷ 0 ∷ 0 ∷ 0 ∷ []) punch_zeroes_partial_ends.run }
    ensures caused { AreCaused (fresh_lanes punch_zeroes_partial_ends.script) punch_zeroes_partial_ends.script punch_zeroes_partial_ends.run }
    ensures text { run_text punch_zeroes_partial_ends.script punch_zeroes_partial_ends.run false ≡ punch_zeroes_partial_ends.text }
{}

/// A block whose closing writeback failed stays dirty and unwritten, and its page keeps the bytes.
#[tactic(auto, unfolding(crate::specs::Rows::Parts::printed))]
pub fn closing_sync_fails()
    ensures right { RunIsRight closing_sync_fails.script (0 ∷ []) closing_sync_fails.run }
    ensures caused { AreCaused (fresh_lanes closing_sync_fails.script) closing_sync_fails.script closing_sync_fails.run }
    ensures text { run_text closing_sync_fails.script closing_sync_fails.run false ≡ closing_sync_fails.text }
{}

/// A read that meets a fault counts the bytes before it, and stamps only their blocks.
#[tactic(auto, unfolding(crate::specs::Rows::Parts::printed))]
pub fn short_read_at_a_fault()
    ensures right { RunIsRight short_read_at_a_fault.script (0 ∷ []) short_read_at_a_fault.run }
    ensures caused { AreCaused (fresh_lanes short_read_at_a_fault.script) short_read_at_a_fault.script short_read_at_a_fault.run }
    ensures text { run_text short_read_at_a_fault.script short_read_at_a_fault.run false ≡ short_read_at_a_fault.text }
{}

/// Two callers write one block in one phase: where the first write is first, the second one's bytes stay.
#[tactic(auto, unfolding(crate::specs::Rows::Parts::printed))]
pub fn two_direct_writes_in_one_phase()
    ensures right { RunIsRight two_direct_writes_in_one_phase.script two_direct_writes_in_one_phase.makers two_direct_writes_in_one_phase.run }
    ensures caused { AreCaused (fresh_lanes two_direct_writes_in_one_phase.script) two_direct_writes_in_one_phase.script two_direct_writes_in_one_phase.run }
    ensures text { run_text two_direct_writes_in_one_phase.script two_direct_writes_in_one_phase.run false ≡ two_direct_writes_in_one_phase.text }
{}

/// In the other order the first write's bytes stay, and the run is as right.
#[tactic(auto, unfolding(crate::specs::Rows::Parts::printed))]
pub fn two_direct_writes_in_the_other_order()
    ensures right { RunIsRight two_direct_writes_in_one_phase.script two_direct_writes_in_one_phase.makers two_direct_writes_in_one_phase.other_run }
    ensures caused { AreCaused (fresh_lanes two_direct_writes_in_one_phase.script) two_direct_writes_in_one_phase.script two_direct_writes_in_one_phase.other_run }
    ensures text { run_text two_direct_writes_in_one_phase.script two_direct_writes_in_one_phase.other_run false ≡ two_direct_writes_in_one_phase.other_text }
{}

/// A direct call whose offset or segment is no multiple of the block size leaves no stamp, and its pages come back.
#[tactic(auto, unfolding(crate::specs::Rows::Parts::printed))]
pub fn unaligned_direct_calls_are_refused()
    ensures right { RunIsRight unaligned_direct_calls_are_refused.script (0 ∷ 0 ∷ []) unaligned_direct_calls_are_refused.run }
    ensures caused { AreCaused (fresh_lanes unaligned_direct_calls_are_refused.script) unaligned_direct_calls_are_refused.script unaligned_direct_calls_are_refused.run }
    ensures text { run_text unaligned_direct_calls_are_refused.script unaligned_direct_calls_are_refused.run false ≡ unaligned_direct_calls_are_refused.text }
{}

/// With the image the bytes of mapped blocks stand between the extents and the free blocks.
#[tactic(auto, unfolding(crate::specs::Rows::Parts::printed))]
pub fn prints_the_image()
    ensures { run_text write_into_unwritten_converts_at_close.script write_into_unwritten_converts_at_close.run true ≡ prints_the_image.text }
{}

/// Pages in their places are one run, pages out of place are more, and no pages are the first number and none.
#[tactic(auto, unfolding(crate::specs::Rows::Parts::printed))]
pub fn prints_pages_as_runs()
    ensures in_place { runs_text 2 (page_runs (2 ∷ 3 ∷ 4 ∷ [])) [] ≡ codes "2+3" }
    ensures one_missing { runs_text 2 (page_runs (2 ∷ 4 ∷ [])) [] ≡ codes "2+1,4+1" }
    ensures swapped { runs_text 2 (page_runs (3 ∷ 2 ∷ 4 ∷ 5 ∷ [])) [] ≡ codes "3+1,2+1,4+2" }
    ensures none { runs_text 2 (page_runs []) [] ≡ codes "2+0" }
{}
