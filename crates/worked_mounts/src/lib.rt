//! Tests of a mount by calls of its passes, with answers that are worked out by hand.
//!
//! The tests of the calls above stand on the same mounts of one file, so these are public.
#![tactic(auto)]

#[cfg(test)]
mod borders;
#[cfg(test)]
mod callers;
#[cfg(test)]
mod full_queue;
#[cfg(test)]
mod mount_bios;
#[cfg(test)]
mod mount_ground;
#[cfg(test)]
mod mount_maps;
#[cfg(test)]
mod mount_passes;
#[cfg(test)]
mod mount_sizes;
#[cfg(test)]
mod mount_stores;
#[cfg(test)]
mod mount_texts;
#[cfg(test)]
mod mount_turns;
#[cfg(test)]
mod mount_writes;
#[cfg(test)]
mod mounts;
mod single;
#[cfg(test)]
mod two_files;

pub use single::{Begin, FILE, ended, file_left, started_on};
