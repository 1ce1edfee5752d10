//! A device port whose transfers may fail, and the fate that says which do.
#![tactic(auto)]

mod fate;
mod fits;
mod lane;
mod listed;
mod moves;

pub use fate::{Fate, Verdict};
pub use fits::can_transfer;
pub use iob_base::Part;
pub use lane::{Done, Lane};
pub use listed::Listed;
