//! Runs that are right but for one thing, and are not right for it.
ghost use Rattle.std.specs.Prelude.{[], ◌∷◌};
ghost use Rattle.io_model.specs.Rows.Flaws.{HasAll, HasOnly, Form, Makers, Journals, Reads, Contents, Pages, Partition, Causes};
ghost use Rattle.io_model.specs.Rows.ClosingSyncFails as closing_sync_fails;
ghost use Rattle.io_model.specs.Rows.FailedDirectWriteLandsAPrefix as failed_direct_write_lands_a_prefix;
ghost use Rattle.io_model.specs.Rows.HoleAndUnwrittenReadZeros as hole_and_unwritten_read_zeros;
ghost use Rattle.io_model.specs.Rows.OneBioForThreeDirtyBlocks as one_bio_for_three_dirty_blocks;
ghost use Rattle.io_model.specs.Rows.ReadsOneMappedBlock as reads_one_mapped_block;
ghost use Rattle.io_model.specs.Rows.ShortReadAtAFault as short_read_at_a_fault;
ghost use Rattle.io_model.specs.Rows.TwoDirectWritesInOnePhase as two_direct_writes;
ghost use Rattle.io_model.specs.Rows.WriteIntoUnwrittenConvertsAtClose as write_into_unwritten;
ghost use Rattle.io_model.specs.Rows.WrongRuns as wrong;

/// A byte that was read differs from the replay.
pub fn wrong_byte_read_is_not_right()
    ensures { HasOnly Reads reads_one_mapped_block.script (0 ∷ []) wrong.wrong_byte }
{}

/// A read shows what the device had in space that was never written.
pub fn stale_bytes_read_are_not_right()
    ensures { HasOnly Reads hole_and_unwritten_read_zeros.script (0 ∷ 0 ∷ []) wrong.stale_bytes }
{}

/// A read gives fewer bytes than it counts.
pub fn read_shorter_than_its_count_is_not_right()
    ensures { HasOnly Reads reads_one_mapped_block.script (0 ∷ []) wrong.byte_short }
{}

/// A call has no stamp in a block that it answered.
pub fn stamp_left_out_is_not_right()
    ensures { HasOnly Journals hole_and_unwritten_read_zeros.script (0 ∷ 0 ∷ []) wrong.stamp_left_out }
{}

/// A call has a stamp in a block that it touches and did not answer.
pub fn stamp_past_the_answer_is_not_right()
    ensures { HasOnly Journals short_read_at_a_fault.script (0 ∷ []) wrong.stamp_past_the_answer }
{}

/// A call stands twice in a journal.
pub fn stamp_twice_is_not_right()
    ensures { HasOnly Journals two_direct_writes.script two_direct_writes.makers wrong.stamp_twice }
{}

/// A stamp names a pass that did not make its call.
pub fn stamp_of_another_pass_is_not_right()
    ensures { HasOnly Journals two_direct_writes.script two_direct_writes.makers wrong.stamp_of_another_pass }
{}

/// Two stamps of one caller stand out of its order.
pub fn swapped_stamps_are_not_right()
    ensures { HasOnly Journals hole_and_unwritten_read_zeros.script (0 ∷ 0 ∷ []) wrong.swapped_stamps }
{}

/// A stamp of a later phase stands before one of an earlier phase.
pub fn later_phase_before_an_earlier_is_not_right()
    ensures { HasOnly Journals two_direct_writes.script two_direct_writes.makers wrong.later_phase_first }
{}

/// A call that was done left a mark of failure.
pub fn failed_mark_of_a_done_call_is_not_right()
    ensures { HasAll (Journals ∷ Causes ∷ []) two_direct_writes.script two_direct_writes.makers wrong.failed_mark_of_a_done_call }
{}

/// Two callers of one phase share a pass, and their stamps say so.
pub fn shared_pass_is_not_right()
    ensures { HasOnly Makers two_direct_writes.script (1 ∷ 1 ∷ 3 ∷ []) wrong.stamp_of_another_pass }
{}

/// A block is printed mapped, and its sector lacks the written bytes.
pub fn lost_write_is_not_right()
    ensures { HasOnly Contents write_into_unwritten.script (0 ∷ 0 ∷ []) wrong.lost_write }
{}

/// A block whose writeback failed is printed without its page.
pub fn lost_page_is_not_right()
    ensures { HasOnly Contents closing_sync_fails.script (0 ∷ []) wrong.lost_page }
{}

/// A page of the caller's did not come back.
pub fn missing_user_page_is_not_right()
    ensures { HasOnly Pages failed_direct_write_lands_a_prefix.script (0 ∷ 0 ∷ []) wrong.missing_user_page }
{}

/// The caller's pages came back in other places.
pub fn swapped_user_pages_are_not_right()
    ensures { HasOnly Pages failed_direct_write_lands_a_prefix.script (0 ∷ 0 ∷ []) wrong.swapped_user_pages }
{}

/// Two extents could be one.
pub fn split_extent_is_not_right()
    ensures { HasOnly Form one_bio_for_three_dirty_blocks.script (0 ∷ []) wrong.split_extent }
{}

/// A block that has space has no sector.
pub fn missing_sector_is_not_right()
    ensures { HasAll (Form ∷ Partition ∷ []) hole_and_unwritten_read_zeros.script (0 ∷ 0 ∷ []) wrong.missing_sector }
{}
