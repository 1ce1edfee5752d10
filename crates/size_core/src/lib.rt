//! The size of a file in bytes, which callers see, raise and cut side by side.
//!
//! The size is the value of a turn cell. Each event is the change of one turn, and what `specs/SizeTruth.antt` says holds
//! between any two turns. A write makes room for its entry before it begins, so raising the size at its end takes no memory.
//!
//! - `claims`: what a seat at a size claims
//! - `sizes`: the size, its journal, and the events
//! - `entry`: what one turn is in the history
//! - `chronicle`: the size as the value of a turn cell, and how seats are cut
//! - `turns`: the events as changes of one turn
#![tactic(auto)]

mod chronicle;
mod claims;
mod entry;
mod sizes;
mod turns;

pub use chronicle::{NextCaller, SameCaller};
pub use claims::SizeClaims;
pub use entry::{SizeEntry, SizeEvent};
pub use io_model::{SizeMark, SizeStamp};
pub use sizes::Sizes;
pub use turns::{CutSize, ForgetRoom, GrowSize, ReadyRoom, SeeSize};
