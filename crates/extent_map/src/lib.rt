//! The extent map: a kind for each block of a file, kept as runs.
#![tactic(auto)]

mod edit;
mod kind;
mod laws;
mod map;
mod place;
mod plain;
mod seek;
mod walk;

pub use io_model::{Extent, Kind};
pub use laws::{lookup_is_unique, merged_list_is_unique, merged_list_says_the_kinds};
pub use map::ExtentMap;
pub use plain::PlainMap;
