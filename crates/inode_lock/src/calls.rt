//! The calls: for each class a try that does not wait, tries until the class is had, and the end of a hold.
ghost use Rattle.std.specs.Prelude.{◌≡◌, IfOk, IfErr};
ghost use Rattle.inode_lock.specs.declared.word.Class.TheVariants.{Cached, Direct, Exclusive};
ghost use Rattle.inode_lock.specs.Calls.{IsGranted, IsRefused, IsWon, IsLeft};

use crate::lock::InodeLock;
use crate::seats::{CachedHold, DirectHold, ExclusiveHold, LockBusy, LockSeat};
use crate::word::Class;
use std::sync::Wait;

/// The cached class.
impl InodeLock {
    /// Asks once for a cached hold. It does not wait, and takes no memory.
    ///
    /// `LockBusy` hands the seat back: the word that it looked at excludes the class, or another thread changed the
    /// word between the look and the take.
    pub fn try_cached(&self, seat: LockSeat) -> Result<CachedHold, LockBusy>
        requires { seat.lock ≡ self.now }
        ensures granted { IfOk result (IsGranted Cached seat) }
        ensures refused { IfErr result (λ busy. IsRefused Cached seat busy.read busy.found busy.seat) }
    {
        let LockSeat { mut seat } = seat;
        match self.attempt(&mut seat, Class::Cached) {
            Ok(()) => Ok(CachedHold { seat }),
            Err(refusal) => Err(refusal.with(seat)),
        }
    }

    /// Tries until it has a cached hold.
    pub fn cached<R: Wait>(&self, rt: &R, seat: LockSeat) -> CachedHold
        requires { seat.lock ≡ self.now }
        ensures { IsWon Cached seat result }
    {
        let LockSeat { mut seat } = seat;
        self.win(rt, &mut seat, Class::Cached);
        CachedHold { seat }
    }

    /// Ends a cached hold of this lock, and hands the seat back. The word that it found told cached.
    pub fn leave_cached(&self, hold: CachedHold) -> LockSeat
        requires { hold.lock ≡ self.now }
        ensures { IsLeft Cached hold result }
    {
        let CachedHold { mut seat } = hold;
        self.quit(&mut seat, Class::Cached);
        LockSeat { seat }
    }
}

/// The direct class.
impl InodeLock {
    /// Asks once for a direct hold. It does not wait, and takes no memory.
    ///
    /// `LockBusy` hands the seat back: the word that it looked at excludes the class, or another thread changed the
    /// word between the look and the take.
    pub fn try_direct(&self, seat: LockSeat) -> Result<DirectHold, LockBusy>
        requires { seat.lock ≡ self.now }
        ensures granted { IfOk result (IsGranted Direct seat) }
        ensures refused { IfErr result (λ busy. IsRefused Direct seat busy.read busy.found busy.seat) }
    {
        let LockSeat { mut seat } = seat;
        match self.attempt(&mut seat, Class::Direct) {
            Ok(()) => Ok(DirectHold { seat }),
            Err(refusal) => Err(refusal.with(seat)),
        }
    }

    /// Tries until it has a direct hold.
    pub fn direct<R: Wait>(&self, rt: &R, seat: LockSeat) -> DirectHold
        requires { seat.lock ≡ self.now }
        ensures { IsWon Direct seat result }
    {
        let LockSeat { mut seat } = seat;
        self.win(rt, &mut seat, Class::Direct);
        DirectHold { seat }
    }

    /// Ends a direct hold of this lock, and hands the seat back. The word that it found told direct.
    pub fn leave_direct(&self, hold: DirectHold) -> LockSeat
        requires { hold.lock ≡ self.now }
        ensures { IsLeft Direct hold result }
    {
        let DirectHold { mut seat } = hold;
        self.quit(&mut seat, Class::Direct);
        LockSeat { seat }
    }
}

/// The exclusive class.
impl InodeLock {
    /// Asks once for an exclusive hold. It does not wait, and takes no memory.
    ///
    /// `LockBusy` hands the seat back: the word that it looked at excludes the class, or another thread changed the
    /// word between the look and the take.
    pub fn try_exclusive(&self, seat: LockSeat) -> Result<ExclusiveHold, LockBusy>
        requires { seat.lock ≡ self.now }
        ensures granted { IfOk result (IsGranted Exclusive seat) }
        ensures refused { IfErr result (λ busy. IsRefused Exclusive seat busy.read busy.found busy.seat) }
    {
        let LockSeat { mut seat } = seat;
        match self.attempt(&mut seat, Class::Exclusive) {
            Ok(()) => Ok(ExclusiveHold { seat }),
            Err(refusal) => Err(refusal.with(seat)),
        }
    }

    /// Tries until it has an exclusive hold.
    pub fn exclusive<R: Wait>(&self, rt: &R, seat: LockSeat) -> ExclusiveHold
        requires { seat.lock ≡ self.now }
        ensures { IsWon Exclusive seat result }
    {
        let LockSeat { mut seat } = seat;
        self.win(rt, &mut seat, Class::Exclusive);
        ExclusiveHold { seat }
    }

    /// Ends an exclusive hold of this lock, and hands the seat back. The word that it found told this hold and no other.
    pub fn leave_exclusive(&self, hold: ExclusiveHold) -> LockSeat
        requires { hold.lock ≡ self.now }
        ensures { IsLeft Exclusive hold result }
    {
        let ExclusiveHold { mut seat } = hold;
        self.quit(&mut seat, Class::Exclusive);
        LockSeat { seat }
    }
}
