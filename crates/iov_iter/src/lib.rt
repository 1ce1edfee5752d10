//! The caller's memory of a call: segments of pages, moved through as one run of bytes.
#![tactic(auto)]

mod iov;
mod laws;
mod make;
mod pages;
mod pieces;
mod slot;
mod spot;

pub use iov::IovIter;
pub use laws::taken_pages_go_back;
