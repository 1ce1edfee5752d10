//! Files cut into stripes, each with its own extents and sectors, and the ends of stripes joined into the
//! end of their file.
#![tactic(auto)]

mod cutting;
mod joining;
mod kinds;
mod run_end;
mod runs;
mod stripe;
mod taking;
#[cfg(test)]
mod worked;

pub use cutting::cut_stripes;
pub use joining::join_ends;
pub use kinds::file_kinds;
pub use run_end::RunEnd;
pub use stripe::{STRIPE_BLOCKS, Stripe};
pub use taking::{Taken, hand_out};
