//! How dirty blocks of a file are written to the device, how clean pages leave the cache, and which failed writebacks a
//! caller has been told of.
//!
//! - `walk`: the dirty blocks of a part of a file are written
//! - `folio`: those of one folio
//! - `lend`: they are lent, run by run
//! - `back`: they are run, and come back
//! - `writing_back`, `syncing`, `flushing`: the calls that write dirty blocks
//! - `clean_pages`: the clean pages of a file are dropped
//! - `error_seen`: how many failed writebacks of each file a caller has been told of
#![tactic(auto)]

mod back;
mod clean_pages;
mod error_seen;
mod flushing;
mod folio;
mod lend;
mod syncing;
mod walk;
mod writing_back;

pub use clean_pages::drop_cache;
pub use error_seen::ErrorSeen;
pub use flushing::{Flushed, flush};
pub use syncing::sync;
pub use writing_back::write_back;
