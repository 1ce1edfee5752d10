//! Tests of the crates below a range: their public calls, with answers that are worked out by hand.
#![tactic(auto)]

#[cfg(test)]
mod bios;
#[cfg(test)]
mod iovs;
#[cfg(test)]
mod locks;
#[cfg(test)]
mod mappings;
#[cfg(test)]
mod maps;
#[cfg(test)]
mod pool;
#[cfg(test)]
mod sizes;
#[cfg(test)]
mod small;
#[cfg(test)]
mod turns;
