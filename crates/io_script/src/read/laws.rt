//! The grammar, tried on texts that can be read by hand.
ghost use Rattle.std.specs.Prelude.{[], codes};
ghost use Rattle.io_model.specs.Rows.ReadsOneMappedBlock as reads_one_mapped_block;
ghost use Rattle.io_model.specs.Rows.HoleAndUnwrittenReadZeros as hole_and_unwritten_read_zeros;
ghost use Rattle.io_model.specs.Rows.WriteIntoUnwrittenConvertsAtClose as write_into_unwritten_converts_at_close;
ghost use Rattle.io_model.specs.Rows.OneBioForThreeDirtyBlocks as one_bio_for_three_dirty_blocks;
ghost use Rattle.io_model.specs.Rows.FailedDirectWriteLandsAPrefix as failed_direct_write_lands_a_prefix;
ghost use Rattle.io_model.specs.Rows.UnalignedDirectCallsAreRefused as unaligned_direct_calls_are_refused;
ghost use Rattle.io_model.specs.Rows.EndsAtTheFilesEnd as ends_at_the_files_end;
ghost use Rattle.io_model.specs.Rows.DaxZeroesBeforeItMaps as dax_zeroes_before_it_maps;
ghost use Rattle.io_model.specs.Rows.PunchZeroesPartialEnds as punch_zeroes_partial_ends;
ghost use Rattle.io_model.specs.Rows.TwoDirectWritesInOnePhase as two_direct_writes_in_one_phase;
ghost use Rattle.io_model.specs.Rows.SizesCutAndGrow as sizes_cut_and_grow;
ghost use Rattle.io_model.specs.Rows.TruncatePastTheEndIsRefused as truncate_past_the_end_is_refused;
ghost use Rattle.io_model.specs.Rows.DirectWriteBelowTheBlock as direct_write_below_the_block;
ghost use Rattle.io_script.specs.Grammar.{IsScript};
ghost use Rattle.io_script.specs.Texts.{small};

mod refusals;

/// A device with bytes of its own, a file with a mapped extent, and a read of it.
pub fn reads_one_mapped_block()
    ensures { IsScript (small (codes "data 2 000102030405060708090a0b0c0d0e0f\nfile f cached 4\next f 0 2 1 mapped\nphase\n0 pread f 0 16\n")) reads_one_mapped_block.script }
{}

/// Two extents of one file, of either state.
pub fn hole_and_unwritten_read_zeros()
    ensures { IsScript (small (codes "file f cached 3\next f 0 5 1 mapped\next f 2 6 1 unwritten\nphase\n0 pread f 14 4\n0 pread f 30 4\n")) hole_and_unwritten_read_zeros.script }
{}

/// Bytes as digits.
pub fn write_into_unwritten_converts_at_close()
    ensures { IsScript (small (codes "file f cached 2\next f 0 3 1 unwritten\nphase\n0 pwrite f 4 4142434445\n0 pread f 0 16\n")) write_into_unwritten_converts_at_close.script }
{}

/// A byte and how often.
pub fn one_bio_for_three_dirty_blocks()
    ensures { IsScript (small (codes "file f cached 4\nphase\n0 pwrite f 16 41x48\n")) one_bio_for_three_dirty_blocks.script }
{}

/// A fault line and a direct call.
pub fn failed_direct_write_lands_a_prefix()
    ensures { IsScript (small (codes "file f cached 4\next f 0 0 4 mapped\nfault 0 1\nphase\n0 dwrite f 0 41x64\n0 pread f 30 4\n")) failed_direct_write_lands_a_prefix.script }
{}

/// Two segments; the pages of the second direct call go on from those of the first.
pub fn unaligned_direct_calls_are_refused()
    ensures { IsScript (small (codes "file f cached 1\next f 0 5 1 mapped\nphase\n0 dwrite f 8 42x16\n0 dread f 0 8+8\n")) unaligned_direct_calls_are_refused.script }
{}

/// Writes past the file's end, and one of no bytes.
pub fn ends_at_the_files_end()
    ensures { IsScript (small (codes "file f cached 2\nphase\n0 pwrite f 31 41\n0 pwrite f 30 424344\n0 pwrite f 32 45\n0 pwrite f 32 -\n0 pread f 30 4\n0 pread f 40 1\n")) ends_at_the_files_end.script }
{}

/// A Dax file.
pub fn dax_zeroes_before_it_maps()
    ensures { IsScript (small (codes "file g dax 2\next g 0 4 1 unwritten\nphase\n0 xwrite g 1 414243\n0 xread g 0 5\n0 xwrite g 1 44\n")) dax_zeroes_before_it_maps.script }
{}

/// Calls with an offset and a length.
pub fn punch_zeroes_partial_ends()
    ensures { IsScript (small (codes "file f cached 3\next f 0 0 3 mapped\nphase\n0 punch f 8 32\n0 pread f 6 4\n0 zero f 44 2\n0 pread f 40 8\n")) punch_zeroes_partial_ends.script }
{}

/// Two callers in one phase, and a second phase.
pub fn two_direct_writes_in_one_phase()
    ensures { IsScript (small (codes "file f cached 1\next f 0 5 1 mapped\nphase\n0 dwrite f 0 41x16\n1 dwrite f 0 42x16\nphase\n2 dread f 0 16\n")) two_direct_writes_in_one_phase.script }
{}

/// A size line, and cuts.
pub fn sizes_cut_and_grow()
    ensures { IsScript (small (codes "file f cached 4\nsize f 5\next f 0 2 1 mapped\nphase\n0 pread f 0 16\n0 pwrite f 20 41\n0 pread f 0 24\n0 trunc f 3\n0 pread f 0 8\n")) sizes_cut_and_grow.script }
{}

/// A cut past the file's end is in the grammar.
pub fn truncate_past_the_end_is_refused()
    ensures { IsScript (small (codes "file f cached 4\nsize f 5\next f 0 2 1 mapped\nphase\n0 trunc f 65\n")) truncate_past_the_end_is_refused.script }
{}

/// The second version, with a grain below the block size.
pub fn direct_write_below_the_block()
    ensures { IsScript (codes "iomap 2\ndev 32 8 ee\nfolio 4\ngrain 16\nfile f cached 2\next f 0 3 1 unwritten\nphase\n0 dwrite f 16 41x16\n0 pread f 0 32\n0 dread f 16 16\n0 dwrite f 8 42x16\n") direct_write_below_the_block.script }
{}
