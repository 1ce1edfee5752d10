//! What the words of the contracts say together.
ghost use Rattle.extent_map.specs.Longest.{LookupIsUnique};
ghost use Rattle.extent_map.specs.Merged.{MergedListIsUnique, MergedListSaysTheKinds};

/// There is one look-up of a block, so the clause of `lookup` leaves no choice.
pub fn lookup_is_unique()
    ensures { LookupIsUnique }
{}

/// There is one merged list for a list of kinds, so the clause of `extents` leaves no choice.
pub fn merged_list_is_unique()
    ensures { MergedListIsUnique }
{}

/// The first extent of a merged list that has a block says its kind.
pub fn merged_list_says_the_kinds()
    ensures { MergedListSaysTheKinds }
{}
