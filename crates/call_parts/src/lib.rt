//! What the calls that go through the page cache have in common.
//!
//! - `budget`: how many bios a call needs that reads cold blocks
//! - `cold`: cold blocks are read into the cache
//! - `mapped`: a call maps the next part of its range, and ends a mapping
//! - `part`: how a range is cut into parts, each in one folio
//! - `progress`: how far a call has come
//! - `promise`: promises of space that a call made are settled
//! - `reply`: what a call replies that came so far
//! - `steps`: steps of a call add up
#![tactic(auto)]

mod budget;
mod cold;
mod mapped;
mod part;
mod progress;
mod promise;
mod reply;
mod steps;

pub use budget::loans_are_few;
pub use cold::{Fill, bios_of, fill_cold};
pub use mapped::{finish_mapping, mapping_fault, next_mapping};
pub use part::{file_end, part_end, read_to, sizes};
pub use progress::Progress;
pub use promise::promises_are_settled;
pub use reply::read_reply;
pub use steps::steps_add_up;
