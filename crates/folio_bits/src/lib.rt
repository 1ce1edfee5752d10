//! The state of a folio's blocks, one bit a block, and a countdown that many threads share.
//!
//! - `bits`: which blocks of a folio are uptodate, and which are dirty
//! - `mask`: such a set as the bits of one word
//! - `countdown`: a number that its seats count down, and whose last one is told so
//! - `seats`: a seat before and after its one step
//! - `rule`: what the word tells of all seats, and what each kind of step tells
//! - `laws`: what the rule means, whatever the word and the seats are
#![tactic(auto)]

mod bits;
mod countdown;
mod laws;
mod mask;
mod rule;
mod seats;

pub use bits::FolioBits;
pub use countdown::{Countdown, Ended, Outcome};
pub use laws::{last_is_told_after_all, one_is_told_last, somebody_is_told_last};
pub use rule::{CountsDown, Known, Spent};
pub use seats::{CountSeat, SpentSeat};
