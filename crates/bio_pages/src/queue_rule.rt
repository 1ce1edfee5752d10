//! The rule of a queue of bios, and what a push and a pop tell. The types are for the proofs alone.
ghost use Rattle.std.specs.Prelude.{◌≡◌};
ghost use Rattle.bio_pages.specs.QueueRule.{Queued, nothing_passed, with_put, with_got, Stood, WasPushed};

use crate::sent::Sent;
use crossbeam_queue::protocol::{Lesson, Outcome, Protocol, Split};
use std::collections::LinkedList;

/// What a pass pushed and popped. No value of it is made.
pub struct Passed<T> {
    pub pushed: LinkedList<Sent<T>>,
    pub popped: LinkedList<Sent<T>>,
}

/// The rule: what was pushed, in the order of the queue, is what was popped and then what the queue holds.
pub struct InOrder;

impl<T> Protocol<Sent<T>, Passed<T>> for InOrder {
    ghost holds = { Queued };

    ghost first = { nothing_passed };
}

pub(crate) struct Puts;

impl<T> Outcome<Sent<T>, Passed<T>> for Puts {
    ghost then = { λ v x w. w ≡ with_put v x };
}

impl<T> Lesson<Sent<T>, Passed<T>> for Puts {
    ghost fact = { λ v items. Stood items v };
}

pub(crate) struct Gets;

impl<T> Outcome<Sent<T>, Passed<T>> for Gets {
    ghost then = { λ v x w. (w ≡ with_got v x) × WasPushed w };
}

impl<T> Lesson<Sent<T>, Passed<T>> for Gets {
    ghost fact = { λ v items. Stood items v };
}

// A new pass, which has passed nothing.
pub(crate) struct Anew;

impl<T> Split<Passed<T>> for Anew {
    ghost left = { λ v. v };

    ghost right = { λ _. nothing_passed };
}
