//! The file system under the calls: a mount, and what callers on any threads go to it with.
//!
//! A mount has the blocks of its files in stripes, each the value of a turn cell, a lock for each file, and the size of a
//! file that has one as the value of a cell of its own. It holds no seat, so threads share it. A caller goes to it with a
//! pass, which has a seat at each cell and lock.
//!
//! - `mount`, `start`: the mount, and how it begins
//! - `pass`, `begun`, `call`: a caller's seats and numbers, the mapping that it began, and the number of its call
//! - `turn`, `size`: one turn of a pass, at a stripe and at a size
//! - `page_events`, `direct_events`, `dax_events`, `due_events`: the events of a range, each as one turn of a pass
//! - `looks`, `space_events`: turns that look at extents, promise space to blocks, take promises back and give sectors
//! - `mapping`: how a mount maps ranges of its files
//! - `acts`: what a pass did, one act after another
//! - `split`, `join`: how a pass is split for another caller, and how two passes are joined
//! - `ticket`: the seat that carries a loan, and the turns that lend and take back
//! - `lends`, `returns`: the events that lend on a ticket and take back from one
//! - `shelves`, `run_all`: the shelves of a pass, and how it runs its bios by way of the mount's queue
//! - `hold`, `locks`: a class of a file's lock, and how a pass takes and leaves it
//! - `crossing`: threads share a mount and its queues, and what a caller has goes from thread to thread
//! - `unmount`, `kept`: how a mount ends, and that its sectors are then those of its start
#![tactic(auto)]

mod acts;
mod begun;
mod call;
mod crossing;
mod dax_events;
mod direct_events;
mod due_events;
mod hold;
mod join;
mod kept;
mod lends;
mod locks;
mod looks;
mod mapping;
mod mount;
mod open_bios;
mod page_events;
mod pass;
mod returns;
mod run_all;
mod shelves;
mod size;
mod space_events;
mod split;
mod start;
mod ticket;
mod turn;
mod unmount;

pub use acts::{
    acts_add_up, acts_are_at_locks, acts_are_seen, acts_are_seen_at_sizes, acts_keep_shares,
    acts_keep_the_pass,
};
pub use begun::Begun;
pub use crossing::{
    bios_cross, mounts_are_shared, passes_cross, queue_passes_cross, queues_are_shared,
    sent_bios_cross, shelf_seats_cross, shelves_cross, tickets_cross,
};
pub use hold::{CachedHold, DirectHold, ExclusiveHold};
pub use kept::numbers_are_kept;
pub use locks::WordBusy;
pub use mount::Mount;
pub use mount_parts::FilePlace;
pub use pass::Pass;
pub use ticket::Ticket;
