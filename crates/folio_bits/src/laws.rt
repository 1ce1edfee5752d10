//! What the rule of a countdown means, whatever its word and its seats are between two steps. Each law is a function that
//! does nothing.
ghost use Rattle.folio_bits.specs.Counting.{OneIsToldLast, LastIsToldAfterAll, SomebodyIsToldLast};

/// No two seats are told Last.
pub fn one_is_told_last()
    ensures { OneIsToldLast }
{}

/// Where a seat was told Last, no seat has anything left.
pub fn last_is_told_after_all()
    ensures { LastIsToldAfterAll }
{}

/// Where no seat has anything left, one of them was told Last.
pub fn somebody_is_told_last()
    ensures { SomebodyIsToldLast }
{}
