//! A cell whose value changes by one change a turn.
//!
//! A gate, one word, says whether a turn runs. A turn wins the gate, moves the value out of its slot, applies one change,
//! moves the value back and frees the gate by a swap. That swap makes one entry of the cell's history. The history is not
//! stored: contracts alone see it. Each caller has a seat, with claims on the value, and has seen a beginning of the history.
#![tactic(auto)]

mod cell;
mod chronicle;
mod life;
mod parts;
mod plays;
mod seat;
mod turn;
mod view;

pub use cell::{NoCell, TurnCell};
pub use chronicle::{Change, Chronicle, Cut};
pub use seat::TurnSeat;
pub use turn::Busy;
