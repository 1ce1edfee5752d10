//! How a block comes by its space and its bytes over a history that can have happened, and what the calls show of it whose
//! work the history is. The laws are the contracts of functions that do nothing.
ghost use Rattle.call_traces.specs.BlockCalls.{NoneStrays, OneCallsStrayNot, QuietStrayNot};
ghost use Rattle.call_traces.specs.BlockEnds.{EndsConvert, EndsKeepSpace};
ghost use Rattle.call_traces.specs.BlockSpace.{AllocatedIsKept, CallsKeepAllocated, CallsKeepSpace, DirtyIsNoHole, SpaceWasGiven};
ghost use Rattle.call_traces.specs.BlockWrites.{CallsConvert, MappedWasPut, ReturnsAddUp};
ghost use Rattle.call_traces.specs.RunBlocks.{RunsConvert, RunsKeepSpace};
ghost use Rattle.call_traces.specs.TriedBlocks.{CallsWork, FailedWritesNothing, OtherFilesGiveNone, OthersStray};

/// What each entry of a call did to a block is the work of the script's calls, as is what did nothing to it that a call has
/// to answer for; and where no entry of a history strays from them, the history is their work.
pub fn none_strays()
    ensures call { OneCallsStrayNot }
    ensures quiet { QuietStrayNot }
    ensures history { NoneStrays }
{}

/// A block that has space after a history had it at first and was never wiped, or since it was wiped last its run was
/// allocated or a call wrote to it.
pub fn space_was_given()
    ensures { SpaceWasGiven }
{}

/// A dirty block is no hole.
pub fn dirty_is_no_hole()
    ensures { DirtyIsNoHole }
{}

/// A block keeps its space, and stays mapped where it was, unless a call gives it back, and it has other space only by an
/// allocation or a write that meets it.
pub fn calls_keep_space()
    ensures { CallsKeepSpace }
{}

/// A block whose run was allocated has space at the end, unless it was wiped after that, which the stamp of a call shows
/// that gives the block back.
pub fn allocated_is_kept()
    ensures entries { AllocatedIsKept }
    ensures calls { CallsKeepAllocated }
{}

/// A block that is mapped after a history was mapped at first and never wiped, or it was written to the device since it was
/// wiped last, by a write that did not fail.
pub fn mapped_was_put()
    ensures { MappedWasPut }
{}

/// The writebacks that came back are those that failed and those that did not.
pub fn returns_add_up()
    ensures { ReturnsAddUp }
{}

/// A block that is mapped was mapped at first and no call gave it back, or the journal shows a write that was done since
/// one did. Where all such writes went by way of the cache, a writeback came back that did not fail.
pub fn calls_convert()
    ensures { CallsConvert }
{}

/// At the end of a run each block shows these facts: of its space, of its dirty page, and of how it was mapped.
pub fn ends_show_calls()
    ensures space { EndsKeepSpace }
    ensures writes { EndsConvert }
{}

/// A run whose calls are those of a script keeps the space of its blocks: none is lost, moved or made without a call of its
/// own, and no dirty block is a hole.
pub fn runs_keep_space()
    ensures { RunsKeepSpace }
{}

/// Such a run maps no block but by a write that succeeded.
pub fn runs_convert()
    ensures { RunsConvert }
{}

/// What entries are the work of calls, tried on a write, a punch and an allocation of one block.
pub fn calls_can_work()
    ensures work { CallsWork }
    ensures stray { OthersStray }
    ensures files { OtherFilesGiveNone }
    ensures failed { FailedWritesNothing }
{}
