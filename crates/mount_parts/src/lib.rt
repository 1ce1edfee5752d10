//! The parts of a mount: files cut into stripes, whose ranges and sizes lie in turn cells, with the locks of the files and
//! the pool of the device. They are laid over a device at the start, and taken apart at the end.
//!
//! - `piece`, `cutting`: files cut into stripes, each with its file's mode and size
//! - `kinds`, `trimming`: past the size of a file the bytes of mapped blocks become zeros
//! - `opening`, `laying`: each stripe becomes a range in a cell, and all files are laid over a device and its pool
//! - `file`, `placing`: where files lie among the stripes and sizes of all files
//! - `first_locks`, `first_sizes`: the locks of files, and the cells of their sizes
//! - `laid`: all that a mount is made of at its start
//! - `ending`, `stripes`: a range is taken apart once its cell is closed, and those of many cells
//! - `size_end`, `size_ending`, `pool_ending`: what is left of sizes and of the pool, whose cells are closed
//! - `file_ending`: what is left of files is joined from what is left of their stripes and sizes
//! - `parts`, `apart`: a mount is taken apart
//! - `rest`: lists that are taken from the front
#![tactic(auto)]

mod apart;
mod cutting;
mod ending;
mod file;
mod file_ending;
mod first_locks;
mod first_sizes;
mod kinds;
mod laid;
mod laying;
mod opening;
mod parts;
mod piece;
mod placing;
mod pool_ending;
mod rest;
mod size_end;
mod size_ending;
mod stripes;
mod trimming;

pub use apart::take_apart;
pub use file::FilePlace;
pub use laid::{LaidFiles, lay_files};
pub use parts::Parts;
pub use rest::next_of;
