//! More runs that are right but for one thing: what replies, blocks of the device, bios and sizes owe.
ghost use Rattle.std.specs.Prelude.{[], ◌∷◌};
ghost use Rattle.io_model.specs.Rows.Flaws.{HasAll, HasOnly, Reads, Replies, Partition, Conversion, Space, Allocated, Clean, Floors, Sizes, Budget, Causes};
ghost use Rattle.io_model.specs.Rows.AllocatesAndPunches as allocates_and_punches;
ghost use Rattle.io_model.specs.Rows.ClosingSyncFails as closing_sync_fails;
ghost use Rattle.io_model.specs.Rows.HoleAndUnwrittenReadZeros as hole_and_unwritten_read_zeros;
ghost use Rattle.io_model.specs.Rows.MoreWrongRuns as wrong;
ghost use Rattle.io_model.specs.Rows.OneBioForThreeDirtyBlocks as one_bio_for_three_dirty_blocks;
ghost use Rattle.io_model.specs.Rows.ReadsOneMappedBlock as reads_one_mapped_block;
ghost use Rattle.io_model.specs.Rows.RunsOutOfSpace as runs_out_of_space;
ghost use Rattle.io_model.specs.Rows.SizesCutAndGrow as sizes_cut_and_grow;
ghost use Rattle.io_model.specs.Rows.TwoFaultsTwoReplies as two_faults_two_replies;
ghost use Rattle.io_model.specs.Rows.UnalignedDirectCallsAreRefused as unaligned;

/// A read inside the file counts no bytes, and tells no cause.
pub fn read_that_counts_nothing_is_not_right()
    ensures { HasOnly Replies reads_one_mapped_block.script (0 ∷ []) wrong.nothing_read }
{}

/// A read stops as if the file ended, inside the file.
pub fn end_inside_the_file_is_not_right()
    ensures { HasOnly Replies reads_one_mapped_block.script (0 ∷ []) wrong.early_end }
{}

/// A read counts more bytes than its range has.
pub fn more_bytes_than_the_range_are_not_right()
    ensures { HasAll (Reads ∷ Replies ∷ []) reads_one_mapped_block.script (0 ∷ []) wrong.too_many_bytes }
{}

/// An aligned call is refused as unaligned.
pub fn refusal_of_an_aligned_call_is_not_right()
    ensures { HasOnly Replies reads_one_mapped_block.script (0 ∷ []) wrong.aligned_call_refused }
{}

/// A direct write is refused as unaligned, and its bytes stand written.
pub fn refused_write_that_stands_written_is_not_right()
    ensures { HasOnly Replies unaligned.script (0 ∷ 0 ∷ []) wrong.refused_and_written }
{}

/// A close tells an error of a lane.
pub fn close_with_an_error_of_a_lane_is_not_right()
    ensures { HasOnly Replies reads_one_mapped_block.script (0 ∷ []) wrong.close_of_a_lane }
{}

/// An allocation is refused for want of space, and more was found than it wanted.
pub fn want_of_space_that_was_found_is_not_right()
    ensures { HasOnly Causes runs_out_of_space.script (0 ∷ 0 ∷ []) wrong.space_was_found }
{}

/// Two replies of a caller tell one fault of its lane.
pub fn one_fault_for_two_replies_is_not_right()
    ensures { HasOnly Causes two_faults_two_replies.script (0 ∷ 0 ∷ []) wrong.one_fault_two_replies }
{}

/// A close tells a failed writeback where no lane may fail.
pub fn close_with_an_error_without_cause_is_not_right()
    ensures { HasOnly Causes reads_one_mapped_block.script (0 ∷ []) wrong.close_without_cause }
{}

/// Blocks of the device are nowhere.
pub fn device_without_its_free_blocks_is_not_right()
    ensures { HasOnly Partition reads_one_mapped_block.script (0 ∷ []) wrong.nothing_free }
{}

/// Two blocks of a file are on one device block.
pub fn two_blocks_on_one_device_block_are_not_right()
    ensures { HasOnly Partition one_bio_for_three_dirty_blocks.script (0 ∷ []) wrong.shared_block }
{}

/// Allocated space is mapped, and nobody wrote it.
pub fn space_mapped_without_a_write_is_not_right()
    ensures { HasOnly Conversion allocates_and_punches.script (0 ∷ 0 ∷ 0 ∷ []) wrong.mapped_without_write }
{}

/// A hole is mapped, with zeros, and nobody wrote it.
pub fn mapped_hole_is_not_right()
    ensures { HasAll (Conversion ∷ Space ∷ []) hole_and_unwritten_read_zeros.script (0 ∷ 0 ∷ []) wrong.mapped_hole }
{}

/// A block is mapped although its only writeback failed.
pub fn block_mapped_after_its_writeback_failed_is_not_right()
    ensures { HasOnly Conversion closing_sync_fails.script (0 ∷ []) wrong.mapped_after_failure }
{}

/// A mapped block moved to another device block.
pub fn block_that_moved_is_not_right()
    ensures { HasOnly Space reads_one_mapped_block.script (0 ∷ []) wrong.moved_block }
{}

/// Unwritten space became a hole.
pub fn extent_that_vanished_is_not_right()
    ensures { HasOnly Space hole_and_unwritten_read_zeros.script (0 ∷ 0 ∷ []) wrong.vanished_extent }
{}

/// An allocation answers three blocks, and none has space.
pub fn allocation_without_space_is_not_right()
    ensures { HasOnly Allocated wrong.alloc_script (0 ∷ []) wrong.alloc_without_space }
{}

/// A block is dirty after a close that answered Ok.
pub fn dirty_block_after_a_good_close_is_not_right()
    ensures { HasOnly Clean closing_sync_fails.script (0 ∷ []) wrong.dirty_after_close }
{}

/// A sync counts three blocks, and made no bio.
pub fn sync_without_a_bio_is_not_right()
    ensures { HasOnly Floors wrong.sync_script (0 ∷ []) wrong.sync_without_bio }
{}

/// A read of one block made two bios, and no other caller acts.
pub fn more_bios_than_blocks_are_not_right()
    ensures { HasOnly Budget reads_one_mapped_block.script (0 ∷ []) wrong.two_bios_for_a_block }
{}

/// A file has another size than its last cut set.
pub fn size_that_no_call_set_is_not_right()
    ensures { HasOnly Sizes sizes_cut_and_grow.script (0 ∷ 0 ∷ 0 ∷ 0 ∷ 0 ∷ []) wrong.wrong_size }
{}
