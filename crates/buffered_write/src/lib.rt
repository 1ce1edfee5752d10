//! Calls that change the bytes of files, through the page cache or in the sectors, the space of their blocks, and their size.
//!
//! - `clearing`: a range is made zeros, and the blocks that it covers whole become holes
//! - `part_reads`: how many blocks a range covers in part
//! - `punching`: the call that makes a range zeros and gives its whole blocks back
//! - `size_room`: turns at the size of a file, and room for the entry of a call there
//! - `space`: the blocks of a range get space
//! - `store_part`: one part of a write is stored, its cold block first
//! - `truncating`: the cut of a file to a size
//! - `writing`: the write
//! - `zero_part`: one part of a range becomes zeros
//! - `zeroing`: zeros are laid over a range
#![tactic(auto)]

mod clearing;
mod part_reads;
mod punching;
mod size_room;
mod space;
mod store_part;
mod truncating;
mod writing;
mod zero_part;
mod zeroing;

pub use part_reads::few_in_part;
pub use punching::punch;
pub use space::allocate;
pub use truncating::truncate;
pub use writing::pwrite;
pub use zeroing::zero_range;
