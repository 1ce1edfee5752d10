//! Class exclusion, as the rule of the word, and what each kind of step tells the seat that makes it.
//! The types are for the proofs alone.
ghost use Rattle.inode_lock.specs.Exclusion.{ClassesExclude};
ghost use Rattle.inode_lock.specs.Steps.{newcomer, forked};
ghost use Rattle.inode_lock.specs.Tells.{Looked, Asked, Left};
ghost use Rattle.inode_lock.specs.declared.word.Class.TheVariants.{Cached, Direct, Exclusive};

use crate::steps::Known;
use atomic_table::{Play, Split, TableRule};

/// The rule of a lock's word: the word tells a class and how many seats hold it, no seat holds another class, one seat at
/// most holds the exclusive class, and each word that a seat found was the lock's word in that place.
pub struct Exclusion;

impl TableRule<(), Known, ()> for Exclusion {
    ghost holds = { λ _. ClassesExclude };

    ghost first = { λ _. newcomer };
}

pub(crate) struct Looks;

impl Play<(), Known> for Looks {
    ghost then = { Looked };
}

pub(crate) struct TakesCached;

impl Play<(), Known> for TakesCached {
    ghost then = { Asked Cached };
}

pub(crate) struct TakesDirect;

impl Play<(), Known> for TakesDirect {
    ghost then = { Asked Direct };
}

pub(crate) struct TakesExclusive;

impl Play<(), Known> for TakesExclusive {
    ghost then = { Asked Exclusive };
}

pub(crate) struct LeavesCached;

impl Play<(), Known> for LeavesCached {
    ghost then = { Left Cached };
}

pub(crate) struct LeavesDirect;

impl Play<(), Known> for LeavesDirect {
    ghost then = { Left Direct };
}

pub(crate) struct LeavesExclusive;

impl Play<(), Known> for LeavesExclusive {
    ghost then = { Left Exclusive };
}

pub(crate) struct Forks;

impl Split<Known> for Forks {
    ghost left = { forked };

    ghost right = { λ v. newcomer };
}
