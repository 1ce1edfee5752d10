//! The lock itself: how it starts, and how seats are made.
ghost use Rattle.std.specs.Prelude.{◌≡◌, ℕ, IfOk};
ghost use Rattle.atomic_table.specs.Seated.{TableId, table_id_coded};
ghost use Rattle.inode_lock.specs.View.{fresh, split_off};

use crate::rule::{Exclusion, Forks};
use crate::seats::LockSeat;
use crate::steps::Known;
use atomic_table::Table;
use std::alloc::{AllocError, Global};
use std::marker::Model;
use std::sync::atomic::AtomicU64;

/// A lock of three classes. To a contract it is what tells it from every other lock.
///
/// Invariant: it has one word, which tells a class and the number of its holds.
#[derive(Drop)]
pub struct InodeLock {
    pub(crate) table: Table<(), Known, (), Exclusion, Global>,
    // How many threads sleep until a hold ends.
    pub(crate) sleepers: AtomicU64,
}

impl Model for InodeLock {
    ghost Value = { TableId };

    ghost coded = { table_id_coded };

    ghost view = { λ l. l.table.shared.table_id };

    ghost invariant = { λ l. l.table.shared.table_id.words ≡ 1 };
}

impl InodeLock {
    /// A lock that nobody holds, and its first seat. It fails for want of memory alone.
    pub fn start(alloc: Global) -> Result<(InodeLock, LockSeat), AllocError>
        ensures { IfOk result (λ made. made.1 ≡ fresh made.0 0) }
    {
        let (table, seat) = Table::of_words(alloc, &[0], &())?;
        let sleepers = AtomicU64::new(0);
        Ok((InodeLock { table, sleepers }, LockSeat { seat }))
    }

    /// Makes another seat of this lock, which has made no step yet. The split is a step of the first. It takes no memory.
    pub fn split(&self, seat: &mut LockSeat) -> LockSeat
        requires { seat.old.lock ≡ self.now }
        ensures split { seat.new ≡ split_off seat.old }
        ensures made { (number : ℕ) × (result ≡ fresh self.now number) }
    {
        LockSeat {
            seat: self.table.shared.split_seat::<Forks>(&mut seat.seat),
        }
    }
}
