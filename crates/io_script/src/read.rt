//! The written form of a script: from its bytes to the script, or to the first thing that is wrong.

mod calls;
mod cause;
mod extents;
mod kinds;
mod laws;
mod lines;
mod marks;
mod numbers;
mod reader;
mod script;
mod segments;
mod sizes;
mod stage;
mod told;
mod words;

pub use cause::{Cause, ScriptFault};
pub use script::{Checked, TEXT_LIMIT, read_checked, read_script};
pub use told::{print_check, print_refusal};
