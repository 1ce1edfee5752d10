//! What class exclusion means, whatever the word and the seats of a lock are between two steps, and what the calls add
//! to a seat's list of steps. Each law is a function that does nothing.
ghost use Rattle.inode_lock.specs.Exclusion.{ExclusiveIsAlone, HoldsShareAClass, WordTellsTheHolds, EachWordWasFound, FreeLockAdmitsAll};
ghost use Rattle.inode_lock.specs.Growth.{GrantTakesOnce, WinTakesOnce, RefusalTakesNothing, LeaveLeavesOnce, HoldTakesAndLeaves, StayGrowsNothing, GrowthAdds};

/// Where a seat holds the exclusive class, no other seat holds anything.
pub fn exclusive_is_alone()
    ensures { ExclusiveIsAlone }
{}

/// Any two seats that hold a class hold the same class.
pub fn holds_share_a_class()
    ensures { HoldsShareAClass }
{}

/// Where a seat holds a class, the word tells that class and how many seats hold it.
pub fn word_tells_the_holds()
    ensures { WordTellsTheHolds }
{}

/// Each word that a seat found is the one that the steps of all seats before its own had left.
pub fn each_word_was_found()
    ensures { EachWordWasFound }
{}

/// Where no seat holds a class, the word excludes none.
pub fn free_lock_admits_all()
    ensures { FreeLockAdmitsAll }
{}

/// What each call adds to its seat's list of steps, as counts of the takes that were granted and of the leaves.
pub fn calls_count_their_steps()
    ensures grant { GrantTakesOnce }
    ensures win { WinTakesOnce }
    ensures refusal { RefusalTakesNothing }
    ensures leave { LeaveLeavesOnce }
    ensures hold { HoldTakesAndLeaves }
    ensures stay { StayGrowsNothing }
    ensures adds { GrowthAdds }
{}
