//! The lock of an inode: holds of three classes, which exclude each other.
//!
//! Cached holds stand together, and so do direct holds. An exclusive hold stands alone.
//! One atomic word tells the class and the number of holds, and one rule ties it to what all seats know.
//!
//! - `word`: the classes, and how the word tells them
//! - `steps`: the steps that a seat can make, and what a seat knows
//! - `rule`: class exclusion as the rule of the word, and what each kind of step tells
//! - `seats`: the seat, the three holds, and the refusal
//! - `lock`: the lock, how it starts, and how seats are made
//! - `turns`: what the calls are made of: looks, takes, tries and leaves
//! - `sleep`: how a thread sleeps until a hold ends, and how it is woken
//! - `calls`: for each class a try, a wait and the end of a hold
//! - `laws`: what class exclusion means, whatever the word and the seats are
#![tactic(auto)]

mod calls;
mod laws;
mod lock;
mod rule;
mod seats;
mod sleep;
mod steps;
mod turns;
mod word;

pub use laws::{
    calls_count_their_steps, each_word_was_found, exclusive_is_alone, free_lock_admits_all,
    holds_share_a_class, word_tells_the_holds,
};
pub use lock::InodeLock;
pub use rule::Exclusion;
pub use seats::{CachedHold, DirectHold, ExclusiveHold, LockBusy, LockSeat};
pub use steps::{Known, Placed, Step};
pub use word::Class;
