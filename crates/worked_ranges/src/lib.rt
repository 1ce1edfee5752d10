//! Tests of a range by turns of its callers at a cell, with answers that are worked out by hand.
#![tactic(auto)]

#[cfg(test)]
mod closing;
#[cfg(test)]
mod range_bytes;
#[cfg(test)]
mod range_caller;
#[cfg(test)]
mod range_dax;
#[cfg(test)]
mod range_ground;
#[cfg(test)]
mod range_loans;
#[cfg(test)]
mod range_parts;
#[cfg(test)]
mod range_returns;
#[cfg(test)]
mod range_runs;
#[cfg(test)]
mod range_steps;
#[cfg(test)]
mod range_texts;
#[cfg(test)]
mod range_through;
#[cfg(test)]
mod range_tickets;
#[cfg(test)]
mod ranges;
