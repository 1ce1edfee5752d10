//! The locks of files, and the first seat at each.
ghost use Rattle.std.specs.Prelude.{◌≡◌, IfOk, length};
ghost use Rattle.mount_parts.specs.Locks.{AreFresh};

use inode_lock::{InodeLock, LockSeat};
use std::alloc::{AllocError, Global};

/// So many locks that nobody holds, and the first seat at each. Want of memory is the only error.
pub(crate) fn open_locks(
    alloc: Global,
    count: usize,
) -> Result<(Vec<InodeLock>, Vec<Option<LockSeat>>), AllocError>
    ensures locks { IfOk result (λ r. length r.0.items ≡ count) }
    ensures seats { IfOk result (λ r. AreFresh r.0.items r.1.items) }
{
    let mut locks = Vec::new(alloc);
    let mut seats = Vec::new(alloc);
    for _ in 0..count {
        let (lock, seat) = InodeLock::start(alloc)?;
        locks.push(lock)?;
        seats.push(Some(seat))?;
    }
    Ok((locks, seats))
}
