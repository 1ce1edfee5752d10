//! What the range truth says of loans, and the definitions tried on histories that can be checked by hand. Each law is a
//! function that does nothing.
ghost use Rattle.range_core.specs.Closing.{ClosedIsHome, ClosedKeepsShare, LoanComesHome, OwnEntriesAlone};
ghost use Rattle.range_core.specs.Conversions.{OnlyWritesMap};
ghost use Rattle.range_core.specs.Lasting.{MappedWasWritten, SectorsLast};
ghost use Rattle.range_core.specs.Loans.{LoanIsClaimed, OthersStayClaimed, ReturnFreesClaim};
ghost use Rattle.range_core.specs.Quiet.{RefusedIsQuiet};
ghost use Rattle.range_core.specs.RefusedAlike.{FilledIsWarm, HistoryRefuses};
ghost use Rattle.range_core.specs.StampedChanges.{OnlyStampsChange};
ghost use Rattle.range_core.specs.TriedHistories.{NothingAwayIsMet, OnlyLentComesBack, ReadCanHappen, RefusalsSayNothing, SectorsAreTakenOnce, StatesHinder, WriteCanHappen};
ghost use Rattle.range_core.specs.TriedParts.{FailedPartWriteMisses, LentPartIsAway, OnlyThatPartComesBack, PartWriteKeepsAround, PartWriteMaps, PartsCanBeWritten, PartsNeedTheirBlock};
ghost use Rattle.range_core.specs.TriedRefusals.{StaleComesFirst, AwayComesBeforeCold, WritebackHindersNoStore, WholeBlocksAreNotCold, SettledIsNotLent, DirtyIsNotReadDirectly, WornChangesNoKind, DirectLendsAreRefusedInOrder, LentPartHinders, PartLendsAreRefusedInOrder, PutsAreRefusedInOrder};
ghost use Rattle.range_core.specs.Tried.{StoreLeavesZerosAround, WritebackMaps, FailedWritebackMakesDirty, StoreMeanwhileStaysDirty, WipeLeavesAHole, StoreStampsEachBlock, FailedWriteLandsAPrefix, FailedWriteLeavesUnwritten, FailedReadMisses, PutLeavesZerosAround};
ghost use Rattle.range_core.specs.WrittenStamps.{WritesAreStamped};

/// A block at home that a seat borrows is away on exactly that seat's claim, whatever others claim.
pub fn loan_is_claimed()
    ensures { LoanIsClaimed }
{}

/// A block that comes back is claimed by nobody.
pub fn return_frees_claim()
    ensures { ReturnFreesClaim }
{}

/// Blocks that a claim does not name are claimed as before when it is made or given up.
pub fn others_stay_claimed()
    ensures { OthersStayClaimed }
{}

/// The history has as many entries under the number of a caller's own seat as that seat made, whatever others claim: seats
/// that carry its loans make none.
pub fn own_entries_alone()
    ensures { OwnEntriesAlone }
{}

/// A loan that is split off and joined again leaves the claims of a seat as they were.
pub fn loan_comes_home()
    ensures { LoanComesHome }
{}

/// Where a cell is closed and its one seat claims no blocks, each block is at home, which is what `Range::end` asks. The
/// range's seat at the pool then has the share that it had when the range was opened.
pub fn closed_is_home()
    ensures home { ClosedIsHome }
    ensures share { ClosedKeepsShare }
{}

/// An event that was refused leaves the contents, the kinds, the dirty bits, the journals and the counts as they were.
pub fn refused_is_quiet()
    ensures { RefusedIsQuiet }
{}

/// A block becomes mapped only where its page, or a caller's, came back from a write that did not fail, or where bytes went
/// straight to its sector after a judgement that passed. No other event maps a block.
pub fn only_writes_map()
    ensures { OnlyWritesMap }
{}

/// A block's content changes only by an entry that leaves a stamp on it, of a call that did its part or whose bytes landed.
pub fn only_stamps_change()
    ensures { OnlyStampsChange }
{}

/// In each entry of a write that came about, each block that it answered has its stamp, once, and no other block has one.
/// The stamp is done; or, of a direct write that failed, landed on a mapped block up to where it came, and else missed.
pub fn writes_are_stamped()
    ensures { WritesAreStamped }
{}

/// A store into a block that was never written leaves zeros around its bytes, and makes it dirty.
pub fn store_leaves_zeros_around()
    ensures { StoreLeavesZerosAround }
{}

/// A block becomes mapped where its writeback came back, is dirty again where that failed, and stays dirty where a store
/// changed it meanwhile.
pub fn writeback_maps()
    ensures maps { WritebackMaps }
    ensures failed { FailedWritebackMakesDirty }
    ensures stored { StoreMeanwhileStaysDirty }
{}

/// A wipe leaves a hole that reads as zeros.
pub fn wipe_leaves_a_hole()
    ensures { WipeLeavesAHole }
{}

/// A store stamps each block that it meets.
pub fn store_stamps_each_block()
    ensures { StoreStampsEachBlock }
{}

/// A direct write that failed has landed on the first blocks where they are mapped, and nowhere else.
pub fn failed_write_lands_a_prefix()
    ensures mapped { FailedWriteLandsAPrefix }
    ensures unwritten { FailedWriteLeavesUnwritten }
{}

/// A direct read that failed has missed all its blocks, and leaves them as they were.
pub fn failed_read_misses()
    ensures { FailedReadMisses }
{}

/// A write of a part of a block changes that part alone, maps a block that was never written, with zeros around the part,
/// and leaves the block as it was where it failed. While it is out, the block has no page.
pub fn part_write_keeps_around()
    ensures around { PartWriteKeepsAround }
    ensures maps { PartWriteMaps }
    ensures failed { FailedPartWriteMisses }
    ensures away { LentPartIsAway }
{}

/// Bytes that go straight to a hole leave zeros around them, and the block is mapped.
pub fn put_leaves_zeros_around()
    ensures { PutLeavesZerosAround }
{}

/// Events are refused in this order: for a sample of another cookie, for a block that is away, for one that hinders as it
/// is, and for want of cookies.
pub fn refusals_have_an_order()
    ensures stale { StaleComesFirst }
    ensures away { AwayComesBeforeCold }
    ensures worn { WornChangesNoKind }
    ensures direct { DirectLendsAreRefusedInOrder }
    ensures part { PartLendsAreRefusedInOrder }
    ensures put { PutsAreRefusedInOrder }
{}

/// A block hinders an event only where the event needs what it lacks.
pub fn only_what_hinders_refuses()
    ensures writeback { WritebackHindersNoStore }
    ensures part { LentPartHinders }
    ensures whole { WholeBlocksAreNotCold }
    ensures settled { SettledIsNotLent }
    ensures dirty { DirtyIsNotReadDirectly }
{}

/// Where a block is mapped after a history that can have happened, from a clean block at home, it was mapped at first and
/// never wiped, or a call that did its part wrote to it since it was wiped last.
pub fn mapped_was_written()
    ensures { MappedWasWritten }
{}

/// A block that has a sector keeps it, and stays mapped where it was, until it is wiped.
pub fn sectors_last()
    ensures { SectorsLast }
{}

/// Histories in which each entry found the block as those before it left it.
pub fn lawful_can_happen()
    ensures write { WriteCanHappen }
    ensures read { ReadCanHappen }
    ensures part { PartsCanBeWritten }
    ensures refused { RefusalsSayNothing }
{}

/// Histories in which one did not.
pub fn unlawful_cannot_happen()
    ensures lent { OnlyLentComesBack }
    ensures parts { OnlyThatPartComesBack }
    ensures needs { PartsNeedTheirBlock }
    ensures away { NothingAwayIsMet }
    ensures taken { SectorsAreTakenOnce }
    ensures states { StatesHinder }
{}

/// What each event is refused for at a range is a function of the range as it was opened and of its history.
pub fn history_refuses()
    ensures { HistoryRefuses }
{}

/// A block whose read came back whole is not cold, so a store finds it uptodate while no other event meets it.
pub fn filled_is_warm()
    ensures { FilledIsWarm }
{}
