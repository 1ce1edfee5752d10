//! Reads of files through the page cache.
//!
//! - `nowait`: the read that does not wait
//! - `reading`: the read that waits
//! - `waits`: the bytes of a range are read, mapping by mapping
//! - `warm`: one part is read, its cold blocks first
#![tactic(auto)]

mod nowait;
mod reading;
mod waits;
mod warm;

pub use nowait::pread_nowait;
pub use reading::pread;
