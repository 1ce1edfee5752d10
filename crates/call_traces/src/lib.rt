//! What the calls of a whole run did at a mount, and what follows for what is left of it. Each law is the contract of a
//! function that does nothing.
//!
//! - `blocks`: the space of a block, and what was written of it
//! - `contents`: the bytes of blocks
//! - `laws`: the journals
//! - `traced`: the record of each call as one of a trace
#![tactic(auto)]

mod blocks;
mod contents;
mod laws;
mod traced;

pub use blocks::{
    allocated_is_kept, calls_can_work, calls_convert, calls_keep_space, dirty_is_no_hole,
    ends_show_calls, mapped_was_put, none_strays, returns_add_up, runs_convert, runs_keep_space,
    space_was_given,
};
pub use contents::{
    calls_are_told, calls_tell_content, runs_tell_content, stamps_tell_content, traced_is_told,
};
pub use laws::{
    absent_stands_anywhere, journals_hold_calls, journals_keep_order, journals_weigh_calls,
    order_is_kept, phases_at_stripe, runs_have_lawful_journals, runs_hold_calls, runs_weigh_calls,
};
pub use traced::calls_are_traced;
