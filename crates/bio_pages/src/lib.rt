//! A transfer as a value: the bio, which carries its sectors and pages to a lane and back, also by way of another caller.
//!
//! - `bio`: the bio, and its run on a lane
//! - `shelf`, `shelf_seat`, `errands`: the slots to which the bios of one caller come back, and the calls on them
//! - `sent`, `queue`: a bio on its way, and the queue through which it goes
//! - `running`: bios are sent out, run for their senders, and awaited
//! - `list`, `settle`: a list of bios goes through both, and what failed on another lane is run once more
//! - `errand`, `shelf_rule`, `queue_rule`: what seats and passes know, for the proofs alone
#![tactic(auto)]

mod bio;
mod errand;
mod errands;
mod list;
mod queue;
mod queue_rule;
mod running;
mod sent;
mod settle;
mod shelf;
mod shelf_rule;
mod shelf_seat;

pub use bio::{Bio, run_bio};
pub use errand::Errand;
pub use list::{run_here, run_list};
pub use queue::{BioQueue, QueuePass};
pub use running::{await_last, send_out, serve};
pub use sent::Sent;
pub use shelf::{BioShelf, PutEnd};
pub use shelf_seat::ShelfSeat;
