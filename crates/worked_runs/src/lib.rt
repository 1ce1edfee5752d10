//! Whole scripts, run and checked, with texts that are worked out by hand.
#![tactic(auto)]

#[cfg(test)]
mod generated;
#[cfg(test)]
mod limits;
#[cfg(test)]
mod replays;
#[cfg(test)]
mod scripts;
