//! The space pool: each block of a device is free, or claimed by one seat.
#![tactic(auto)]

mod answer;
mod cell;
mod chronicle;
mod claims;
mod entry;
mod free;
mod laws;
mod lowest;
mod state;
mod turns;

pub use answer::{Counts, NoPool, NoSpace};
pub use cell::{PoolSeat, SpacePool};
pub use claims::PoolClaims;
pub use entry::PoolEntry;
pub use laws::history_tells_the_free;
pub use state::PoolState;
