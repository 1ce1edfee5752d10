//! What the journals of blocks have of the calls of a run. The laws are the contracts of functions that do nothing.
ghost use Rattle.call_traces.specs.Journals.{JournalsHoldCalls, JournalsKeepOrder, JournalsWeighCalls};
ghost use Rattle.call_traces.specs.Orders.{AbsentStandsAnywhere, OrderIsKept};
ghost use Rattle.call_traces.specs.Runs.{RunsHoldCalls, RunsWeighCalls};
ghost use Rattle.call_traces.specs.ScriptTraces.{RunsHaveLawfulJournals};
ghost use Rattle.call_traces.specs.SeatTraces.{PhasesAtStripe};

/// Where each two calls stand the other way round of which one may not stand before the other, a test of calls holds of each
/// stamp of a journal beside each later one.
pub fn order_is_kept()
    ensures { OrderIsKept }
{}

/// Phases of calls add to what was seen at a stripe, and to what was made there what their calls made. What one call had seen
/// at its end a later one of its caller had seen when it began, and so had each call of a later phase.
pub fn phases_at_stripe()
    ensures { PhasesAtStripe }
{}

/// At the end of all phases the journal of each block weighs what the stamps of the calls weigh that answered the block,
/// however stamps are weighed.
pub fn journals_weigh_calls()
    ensures { JournalsWeighCalls }
{}

/// At the end of all phases the journal of each block has as many stamps of a number as calls of that number answered the
/// block: each call stands exactly where it answered, once.
pub fn journals_hold_calls()
    ensures { JournalsHoldCalls }
{}

/// Where one call comes before another at the stripe of a block, its stamps stand before the other's in the block's journal.
pub fn journals_keep_order()
    ensures { JournalsKeepOrder }
{}

/// At the end of a whole run the journal of each block weighs what the stamps of the calls weigh that answered the block,
/// however stamps are weighed.
pub fn runs_weigh_calls()
    ensures { RunsWeighCalls }
{}

/// A run whose trace is that of a script has lawful journals: at each block every call of the script that answered it, once,
/// of its maker, in the order of its caller and of the phases.
pub fn runs_have_lawful_journals()
    ensures { RunsHaveLawfulJournals }
{}

/// At the end of a whole run the journal of each block has as many stamps of a number as calls of that number answered the
/// block.
pub fn runs_hold_calls()
    ensures { RunsHoldCalls }
{}

/// A call without a stamp in a journal stands before each other one there, and behind it.
pub fn absent_stands_anywhere()
    ensures { AbsentStandsAnywhere }
{}
