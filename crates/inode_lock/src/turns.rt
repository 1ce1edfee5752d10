//! What the calls are made of: a look, a take, one try of both, tries without end, and a leave.
ghost use Rattle.std.specs.Prelude.{◌≡◌, ◌==◌, [], ◌∷◌, false, None, Some, IfErr, OnOk};
ghost use Rattle.inode_lock.specs.Word.{excludes};
ghost use Rattle.inode_lock.specs.Steps.{held_after};
ghost use Rattle.inode_lock.specs.View.{view_of, onward};
ghost use Rattle.inode_lock.specs.declared.steps.Step.TheVariants.{Look, Take};
ghost use Rattle.inode_lock.specs.Calls.{IsGranted, IsRefused, IsWon, IsLeft};

use crate::lock::InodeLock;
use crate::rule::{
    LeavesCached, LeavesDirect, LeavesExclusive, Looks, TakesCached, TakesDirect, TakesExclusive,
};
use crate::seats::{LockBusy, LockSeat, Seat};
use crate::word::Class;
use std::sync::Wait;

// Why a try failed: the word that its look found, and the last word that it found.
#[derive(Clone, Copy)]
pub(crate) struct Refusal {
    read: u64,
    found: u64,
}

impl Refusal {
    // With the seat, which holds nothing.
    pub(crate) fn with(self, seat: Seat) -> LockBusy
        requires { seat.me.0.holds ≡ None }
        ensures seat { result.seat ≡ view_of seat }
        ensures words { (result.read ≡ self.read) × (result.found ≡ self.found) }
    {
        let Refusal { read, found } = self;
        let seat = LockSeat { seat };
        LockBusy { seat, read, found }
    }
}

impl InodeLock {
    // A load of the word.
    fn look(&self, seat: &mut Seat) -> u64
        requires { seat.old.table_id ≡ self.now }
        ensures same { (seat.new.table_id ≡ seat.old.table_id) × (seat.new.id ≡ seat.old.id) }
        ensures told { view_of seat.new ≡ onward (view_of seat.old) (Look result ∷ []) seat.old.me.0.holds }
    {
        self.table.shared.load::<Looks>(seat, 0)
    }

    // Asks for a hold of the class where the word is `read`, and returns the word found.
    fn ask(&self, seat: &mut Seat, class: Class, read: u64) -> u64
        requires lock { seat.old.table_id ≡ self.now }
        requires idle { seat.old.me.0.holds ≡ None }
        requires admits { excludes class read ≡ false }
        ensures same { (seat.new.table_id ≡ seat.old.table_id) × (seat.new.id ≡ seat.old.id) }
        ensures told { view_of seat.new ≡ onward (view_of seat.old) (Take class result (result == read) ∷ []) (held_after class (result == read) seat.old.me.0.holds) }
    {
        let shared = &self.table.shared;
        let joined = class.joined(read);
        match class {
            Class::Cached => shared.compare_exchange::<TakesCached>(seat, 0, read, joined),
            Class::Direct => shared.compare_exchange::<TakesDirect>(seat, 0, read, joined),
            Class::Exclusive => shared.compare_exchange::<TakesExclusive>(seat, 0, read, joined),
        }
    }

    // One try: a look, and where the word admits the class, a take.
    pub(crate) fn attempt(&self, seat: &mut Seat, class: Class) -> Result<(), Refusal>
        requires lock { seat.old.table_id ≡ self.now }
        requires idle { seat.old.me.0.holds ≡ None }
        ensures ok { OnOk result (IsGranted class (view_of seat.old) (view_of seat.new)) }
        ensures err { IfErr result (λ r. IsRefused class (view_of seat.old) r.read r.found (view_of seat.new)) }
    {
        let read = self.look(seat);
        if class.is_excluded_by(read) {
            return Err(Refusal { read, found: read });
        }
        let found = self.ask(seat, class, read);
        if found == read {
            Ok(())
        } else {
            Err(Refusal { read, found })
        }
    }

    // Tries until the class is had.
    pub(crate) fn win<R: Wait>(&self, rt: &R, seat: &mut Seat, class: Class)
        requires lock { seat.old.table_id ≡ self.now }
        requires idle { seat.old.me.0.holds ≡ None }
        ensures { IsWon class (view_of seat.old) (view_of seat.new) }
    {
        for _ in rt.forever() {
            match self.attempt(seat, class) {
                Ok(()) => return,
                Err(refusal) => self.rest(rt, class, refusal.found),
            }
        }
        unreachable!()
    }

    // Ends a hold of the class, and wakes those that it may let in.
    pub(crate) fn quit(&self, seat: &mut Seat, class: Class)
        requires lock { seat.old.table_id ≡ self.now }
        requires holds { seat.old.me.0.holds ≡ Some class }
        ensures { IsLeft class (view_of seat.old) (view_of seat.new) }
    {
        let found = self.give_up(seat, class);
        self.wake(found);
    }

    // Counts a hold of the class down, and returns the word found.
    fn give_up(&self, seat: &mut Seat, class: Class) -> u64
        requires lock { seat.old.table_id ≡ self.now }
        requires holds { seat.old.me.0.holds ≡ Some class }
        ensures { IsLeft class (view_of seat.old) (view_of seat.new) }
    {
        let shared = &self.table.shared;
        match class {
            Class::Cached => shared.fetch_sub::<LeavesCached>(seat, 0, 1),
            Class::Direct => shared.fetch_sub::<LeavesDirect>(seat, 0, 1),
            Class::Exclusive => shared.fetch_sub::<LeavesExclusive>(seat, 0, 1),
        }
    }
}
