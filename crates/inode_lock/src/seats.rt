//! The seat that a caller steps with, the three holds that it becomes, and the refusal that hands it back.
//! To a contract each is its `LockView`: the lock, the seat's number there, the class held, and all steps so far.
ghost use Rattle.std.specs.Prelude.{◌≡◌, Some, None};
ghost use Rattle.inode_lock.specs.declared.word.Class.TheVariants.{Cached, Direct, Exclusive};
ghost use Rattle.inode_lock.specs.View.{LockView, view_of};

use crate::steps::Known;
use std::marker::Model;

pub(crate) type Seat = atomic_table::Seat<(), Known>;

/// A place at a lock. It has no bytes, and one that is no longer needed is dropped.
///
/// Invariant: it holds no class.
#[derive(Drop)]
pub struct LockSeat {
    pub(crate) seat: Seat,
}

impl Model for LockSeat {
    ghost Value = { LockView };

    ghost view = { λ s. view_of s.seat };

    ghost invariant = { λ s. s.seat.me.0.holds ≡ None };
}

/// A seat that holds the cached class. It ends in `InodeLock::leave_cached` alone, since it has no `Drop`.
///
/// Invariant: it holds the cached class, and no other.
pub struct CachedHold {
    pub(crate) seat: Seat,
}

impl Model for CachedHold {
    ghost Value = { LockView };

    ghost view = { λ h. view_of h.seat };

    ghost invariant = { λ h. h.seat.me.0.holds ≡ Some Cached };
}

/// A seat that holds the direct class. It ends in `InodeLock::leave_direct` alone, since it has no `Drop`.
///
/// Invariant: it holds the direct class, and no other.
pub struct DirectHold {
    pub(crate) seat: Seat,
}

impl Model for DirectHold {
    ghost Value = { LockView };

    ghost view = { λ h. view_of h.seat };

    ghost invariant = { λ h. h.seat.me.0.holds ≡ Some Direct };
}

/// A seat that holds the exclusive class. It ends in `InodeLock::leave_exclusive` alone, since it has no `Drop`.
///
/// Invariant: it holds the exclusive class, and no other.
pub struct ExclusiveHold {
    pub(crate) seat: Seat,
}

impl Model for ExclusiveHold {
    ghost Value = { LockView };

    ghost view = { λ h. view_of h.seat };

    ghost invariant = { λ h. h.seat.me.0.holds ≡ Some Exclusive };
}

/// The class was not had. A word tells a class by 1 for cached, 2 for direct and 3 for exclusive, times 2^32, plus the
/// number of its holds.
#[derive(Drop)]
pub struct LockBusy {
    /// The seat, handed back.
    pub seat: LockSeat,
    /// The word that the look found.
    pub read: u64,
    /// That word again, where it excludes the class. Otherwise the other word, which the compare and exchange found.
    pub found: u64,
}
