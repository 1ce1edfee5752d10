//! A queue through which bios go from caller to caller.
ghost use Rattle.std.specs.Prelude.{◌≡◌, ◌<◌, [], Ok, IfOk, MatchResult, MatchOption};
ghost use Rattle.bio_pages.specs.Queue.{QueueView, PassView, queue_view_coded, queue_view, pass_view, new_pass, with_pushed, with_popped, found_full, found_empty, HeldAll, HeldNone, CameThrough};

use crate::queue_rule::{Anew, Gets, InOrder, Passed, Puts};
use crate::sent::Sent;
use crossbeam_queue::{Pass, RuledArrayQueue};
use std::alloc::{AllocError, Global};
use std::marker::Model;
use std::sync::Wait;

/// A queue of bios, in order, for any number of callers. To a contract it is its `QueueView`: what tells it from every other
/// queue, and how many bios it has room for.
///
/// # Invariants
///
/// What was pushed, in the order of the queue, is what was popped and then what the queue holds.
#[derive(Drop)]
pub struct BioQueue<T> {
    queue: RuledArrayQueue<Sent<T>, Passed<T>, InOrder>,
}

impl<T> Model for BioQueue<T> {
    ghost Value = { QueueView };

    ghost coded = { queue_view_coded };

    ghost view = { λ q. queue_view q.queue };
}

/// A caller's pass at a queue. To a contract it is its `PassView`: the queue, the bios that it pushed and those that it
/// popped, in order, and how many of its steps found the queue full, or empty.
///
/// # Invariants
///
/// No place of the queue is out with it.
#[derive(Drop)]
pub struct QueuePass<T> {
    pass: Pass<Sent<T>, Passed<T>>,
    full: u64,
    empty: u64,
}

impl<T> Model for QueuePass<T> {
    ghost Value = { PassView T };

    ghost view = { λ p. pass_view p.pass p.full p.empty };

    ghost invariant = { λ p. p.pass.me.1 ≡ [] };
}

impl<T> BioQueue<T> {
    /// An empty queue with room for so many bios, and its first pass. It fails for want of memory alone.
    pub fn start(alloc: Global, capacity: u32) -> Result<(BioQueue<T>, QueuePass<T>), AllocError>
        requires { 0 < capacity }
        ensures queue { IfOk result (λ made. made.0.capacity ≡ capacity) }
        ensures pass { IfOk result (λ made. made.1 ≡ new_pass made.0.queue) }
    {
        let (queue, pass) = RuledArrayQueue::ruled(alloc, capacity as usize)?;
        Ok((
            BioQueue { queue },
            QueuePass {
                pass,
                full: 0,
                empty: 0,
            },
        ))
    }

    /// Makes another pass, which has passed nothing. It takes no memory, and does not fail.
    pub fn split(&self, pass: &mut QueuePass<T>) -> Result<QueuePass<T>, AllocError>
        requires { pass.old.queue ≡ self.now.queue }
        ensures kept { pass.new ≡ pass.old }
        ensures made { result ≡ Ok (new_pass self.now.queue) }
    {
        let pass = self.queue.another::<Anew>(&mut pass.pass);
        Ok(QueuePass {
            pass,
            full: 0,
            empty: 0,
        })
    }

    /// Pushes a bio at the back.
    ///
    /// # Errors
    ///
    /// The bio comes back where a step of this call found the queue full. The pass counts it, and nothing was pushed.
    pub fn push<R: Wait>(
        &self,
        rt: &R,
        pass: &mut QueuePass<T>,
        sent: Sent<T>,
    ) -> Result<(), Sent<T>>
        requires { pass.old.queue ≡ self.now.queue }
        ensures { MatchResult result
            (λ _. pass.new ≡ with_pushed pass.old sent)
            (λ back. (back ≡ sent) × (pass.new ≡ found_full pass.old) × HeldAll self.now pass.old) }
    {
        match self.queue.push_as::<Puts, R>(rt, &mut pass.pass, sent) {
            Ok(()) => Ok(()),
            Err(back) => {
                pass.full = pass.full.saturating_add(1);
                Err(back)
            }
        }
    }

    /// Pops the bio at the front. It was pushed, and is given to nobody else.
    ///
    /// `None` where a step of this call found the queue empty. The pass counts it.
    pub fn pop<R: Wait>(&self, rt: &R, pass: &mut QueuePass<T>) -> Option<Sent<T>>
        requires { pass.old.queue ≡ self.now.queue }
        ensures { MatchOption result
            ((pass.new ≡ found_empty pass.old) × HeldNone pass.old)
            (λ sent. (pass.new ≡ with_popped pass.old sent) × CameThrough pass.new) }
    {
        match self.queue.pop_as::<Gets, R>(rt, &mut pass.pass) {
            Some(sent) => Some(sent),
            None => {
                pass.empty = pass.empty.saturating_add(1);
                None
            }
        }
    }
}
