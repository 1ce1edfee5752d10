//! The words that every layer shares: blocks, pages, stamps, answers, and the two traits of the outside.
#![tactic(auto)]

mod answer;
mod geometry;
mod items;
mod memory;
mod outside;
mod part;
mod sector;
mod stamp;
mod streams;

pub use answer::{Alignment, Answer, Fault, Reply, Status, Stop, Why};
pub use geometry::{BadGeometry, Geometry};
pub use items::Items;
pub use memory::{MemSink, MemSource};
pub use outside::{Failed, Sink, Source};
pub use part::{Part, Parts};
pub use sector::{Page, Sector, sectors};
pub use stamp::{FileId, Mark, Mode, Op, Stamp, Tag};
pub use streams::{StdSink, StdSource};

/// How many blocks of a file one range has: no mapping crosses a multiple of it.
pub const STRIPE: u64 = 64;

/// The cookie from which on an event that may be refused changes no kind any more: 2^64 - 2^32.
pub const WORN: u64 = 18446744069414584320;
