//! Mappings of file ranges, how a file system gives them, and how a call goes over a range mapping by mapping.
//!
//! - `mapping`: what a mapping says of a range of a file
//! - `ops`: what a file system gives: a begin that finds a mapping, and an end that closes it
//! - `iter`: a range of bytes, gone over mapping by mapping
#![tactic(auto)]

mod iter;
mod mapping;
mod ops;

pub use iter::IomapIter;
pub use mapping::{Flags, Iomap, IomapType, MapFlags};
pub use ops::{BeginFault, IomapOps};
