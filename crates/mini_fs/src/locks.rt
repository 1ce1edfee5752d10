//! How a pass takes a class of a file's lock, and leaves it.
ghost use Rattle.std.specs.Prelude.{◌≡◌, ◌<◌, Some, None, IfOk, IfErr, length, slice_get};
ghost use Rattle.inode_lock.specs.Calls.{IsGranted, IsRefused, IsWon, IsLeft};
ghost use Rattle.inode_lock.specs.declared.word.Class.TheVariants.{Cached, Direct, Exclusive};
ghost use Rattle.mini_fs.specs.Holds.{BringsBack, HoldsNone, IsHoldOf, StaysHome, TakesOut, with_lock};
ghost use Rattle.mount_parts.specs.MountView.{HasFile};
ghost use Rattle.mini_fs.specs.PassView.{IsPassOf};
ghost use Rattle.mini_fs.specs.Tickets.{KeepsTickets};

use crate::hold::{CachedHold, DirectHold, ExclusiveHold};
use crate::mount::Mount;
use crate::pass::Pass;
use inode_lock::{LockBusy, LockSeat};
use iob_base::FileId;
use std::sync::Wait;

/// The class was not had, and the pass holds none of the file.
#[derive(Drop)]
pub struct WordBusy {
    /// The word of the lock that the look of this call found.
    pub read: u64,
    /// That word again, where it excludes the class. Otherwise the other word, which the compare and exchange of this call found.
    pub found: u64,
}

// The seat of the pass at the lock of a file goes out.
fn seat_out(pass: &mut Pass, file: FileId) -> LockSeat
    requires { HoldsNone pass.old file }
    ensures seat { slice_get pass.old.locks file.0 ≡ Some (Some result) }
    ensures pass { pass.new ≡ with_lock pass.old file None }
{
    let Some(seat) = pass.locks[file.0 as usize].take() else {
        unreachable!()
    };
    seat
}

// The seat comes home.
fn seat_home(pass: &mut Pass, file: FileId, seat: LockSeat)
    requires { file.0 < length pass.old.locks }
    ensures { pass.new ≡ with_lock pass.old file (Some seat) }
{
    pass.locks[file.0 as usize] = Some(seat);
}

/// The cached class.
impl Mount {
    /// Tries until the pass has a cached hold of the file, of which it holds no class.
    pub fn cached<R: Wait>(&self, rt: &R, pass: &mut Pass, file: FileId) -> CachedHold
        requires of { IsPassOf self.now pass.old }
        requires file { HasFile self.now file }
        requires none { HoldsNone pass.old file }
        ensures of { IsPassOf self.now pass.new }
        ensures hold { IsHoldOf self.now pass.new result }
        ensures won { TakesOut (IsWon Cached) pass.old file pass.new result }
        ensures tickets { KeepsTickets pass.old pass.new }
    {
        let seat = seat_out(pass, file);
        let hold = self.lock(file).cached(rt, seat);
        let caller = pass.caller();
        CachedHold { file, caller, hold }
    }

    /// Asks once for a cached hold of the file, of which the pass holds no class. It does not wait.
    ///
    /// # Errors
    ///
    /// `WordBusy` where the word that the seat looked at excludes the class, or another thread changed the word between
    /// the look and the take. The pass then has the steps of this try, and all else is as before.
    pub fn try_cached(&self, pass: &mut Pass, file: FileId) -> Result<CachedHold, WordBusy>
        requires of { IsPassOf self.now pass.old }
        requires file { HasFile self.now file }
        requires none { HoldsNone pass.old file }
        ensures of { IsPassOf self.now pass.new }
        ensures hold { IfOk result (λ hold. IsHoldOf self.now pass.new hold) }
        ensures granted { IfOk result (λ hold. TakesOut (IsGranted Cached) pass.old file pass.new hold) }
        ensures refused { IfErr result (λ busy. StaysHome (λ before after. IsRefused Cached before busy.read busy.found after) pass.old file pass.new) }
        ensures tickets { KeepsTickets pass.old pass.new }
    {
        let seat = seat_out(pass, file);
        match self.lock(file).try_cached(seat) {
            Ok(hold) => {
                let caller = pass.caller();
                Ok(CachedHold { file, caller, hold })
            }
            Err(LockBusy { seat, read, found }) => {
                seat_home(pass, file, seat);
                Err(WordBusy { read, found })
            }
        }
    }

    /// Ends a cached hold of the pass. Its seat comes back to the lock of its file.
    pub fn leave_cached(&self, pass: &mut Pass, hold: CachedHold)
        requires of { IsPassOf self.now pass.old }
        requires hold { IsHoldOf self.now pass.old hold }
        ensures of { IsPassOf self.now pass.new }
        ensures left { BringsBack (IsLeft Cached) pass.old hold pass.new }
        ensures tickets { KeepsTickets pass.old pass.new }
    {
        let CachedHold {
            file,
            caller: _,
            hold,
        } = hold;
        self.is_laid_out();
        let seat = self.lock(file).leave_cached(hold);
        seat_home(pass, file, seat);
    }
}

/// The direct class.
impl Mount {
    /// Tries until the pass has a direct hold of the file, of which it holds no class.
    pub fn direct<R: Wait>(&self, rt: &R, pass: &mut Pass, file: FileId) -> DirectHold
        requires of { IsPassOf self.now pass.old }
        requires file { HasFile self.now file }
        requires none { HoldsNone pass.old file }
        ensures of { IsPassOf self.now pass.new }
        ensures hold { IsHoldOf self.now pass.new result }
        ensures won { TakesOut (IsWon Direct) pass.old file pass.new result }
        ensures tickets { KeepsTickets pass.old pass.new }
    {
        let seat = seat_out(pass, file);
        let hold = self.lock(file).direct(rt, seat);
        let caller = pass.caller();
        DirectHold { file, caller, hold }
    }

    /// Asks once for a direct hold of the file, of which the pass holds no class. It does not wait.
    ///
    /// # Errors
    ///
    /// `WordBusy` where the word that the seat looked at excludes the class, or another thread changed the word between
    /// the look and the take. The pass then has the steps of this try, and all else is as before.
    pub fn try_direct(&self, pass: &mut Pass, file: FileId) -> Result<DirectHold, WordBusy>
        requires of { IsPassOf self.now pass.old }
        requires file { HasFile self.now file }
        requires none { HoldsNone pass.old file }
        ensures of { IsPassOf self.now pass.new }
        ensures hold { IfOk result (λ hold. IsHoldOf self.now pass.new hold) }
        ensures granted { IfOk result (λ hold. TakesOut (IsGranted Direct) pass.old file pass.new hold) }
        ensures refused { IfErr result (λ busy. StaysHome (λ before after. IsRefused Direct before busy.read busy.found after) pass.old file pass.new) }
        ensures tickets { KeepsTickets pass.old pass.new }
    {
        let seat = seat_out(pass, file);
        match self.lock(file).try_direct(seat) {
            Ok(hold) => {
                let caller = pass.caller();
                Ok(DirectHold { file, caller, hold })
            }
            Err(LockBusy { seat, read, found }) => {
                seat_home(pass, file, seat);
                Err(WordBusy { read, found })
            }
        }
    }

    /// Ends a direct hold of the pass. Its seat comes back to the lock of its file.
    pub fn leave_direct(&self, pass: &mut Pass, hold: DirectHold)
        requires of { IsPassOf self.now pass.old }
        requires hold { IsHoldOf self.now pass.old hold }
        ensures of { IsPassOf self.now pass.new }
        ensures left { BringsBack (IsLeft Direct) pass.old hold pass.new }
        ensures tickets { KeepsTickets pass.old pass.new }
    {
        let DirectHold {
            file,
            caller: _,
            hold,
        } = hold;
        self.is_laid_out();
        let seat = self.lock(file).leave_direct(hold);
        seat_home(pass, file, seat);
    }
}

/// The exclusive class.
impl Mount {
    /// Tries until the pass has an exclusive hold of the file, of which it holds no class.
    pub fn exclusive<R: Wait>(&self, rt: &R, pass: &mut Pass, file: FileId) -> ExclusiveHold
        requires of { IsPassOf self.now pass.old }
        requires file { HasFile self.now file }
        requires none { HoldsNone pass.old file }
        ensures of { IsPassOf self.now pass.new }
        ensures hold { IsHoldOf self.now pass.new result }
        ensures won { TakesOut (IsWon Exclusive) pass.old file pass.new result }
        ensures tickets { KeepsTickets pass.old pass.new }
    {
        let seat = seat_out(pass, file);
        let hold = self.lock(file).exclusive(rt, seat);
        let caller = pass.caller();
        ExclusiveHold { file, caller, hold }
    }

    /// Asks once for an exclusive hold of the file, of which the pass holds no class. It does not wait.
    ///
    /// # Errors
    ///
    /// `WordBusy` where the word that the seat looked at excludes the class, or another thread changed the word between
    /// the look and the take. The pass then has the steps of this try, and all else is as before.
    pub fn try_exclusive(&self, pass: &mut Pass, file: FileId) -> Result<ExclusiveHold, WordBusy>
        requires of { IsPassOf self.now pass.old }
        requires file { HasFile self.now file }
        requires none { HoldsNone pass.old file }
        ensures of { IsPassOf self.now pass.new }
        ensures hold { IfOk result (λ hold. IsHoldOf self.now pass.new hold) }
        ensures granted { IfOk result (λ hold. TakesOut (IsGranted Exclusive) pass.old file pass.new hold) }
        ensures refused { IfErr result (λ busy. StaysHome (λ before after. IsRefused Exclusive before busy.read busy.found after) pass.old file pass.new) }
        ensures tickets { KeepsTickets pass.old pass.new }
    {
        let seat = seat_out(pass, file);
        match self.lock(file).try_exclusive(seat) {
            Ok(hold) => {
                let caller = pass.caller();
                Ok(ExclusiveHold { file, caller, hold })
            }
            Err(LockBusy { seat, read, found }) => {
                seat_home(pass, file, seat);
                Err(WordBusy { read, found })
            }
        }
    }

    /// Ends an exclusive hold of the pass. Its seat comes back to the lock of its file.
    pub fn leave_exclusive(&self, pass: &mut Pass, hold: ExclusiveHold)
        requires of { IsPassOf self.now pass.old }
        requires hold { IsHoldOf self.now pass.old hold }
        ensures of { IsPassOf self.now pass.new }
        ensures left { BringsBack (IsLeft Exclusive) pass.old hold pass.new }
        ensures tickets { KeepsTickets pass.old pass.new }
    {
        let ExclusiveHold {
            file,
            caller: _,
            hold,
        } = hold;
        self.is_laid_out();
        let seat = self.lock(file).leave_exclusive(hold);
        seat_home(pass, file, seat);
    }
}
