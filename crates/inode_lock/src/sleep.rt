//! Sleep and wake: a thread that waits for a class sleeps on the word, and a leave that may let others in wakes it.
//! Neither is a step of a seat.
//!
//! A thread counts itself as a sleeper before it sleeps, and the system lets it sleep only while the word tells as many
//! holds as it found, which is at least one. So a later leave ends the last of them, finds the sleeper counted, and
//! wakes it.
use crate::lock::InodeLock;
use crate::word::{Class, count_in, lets_others_in};
use std::sync::Wait;
use std::sync::atomic::Ordering::SeqCst;

impl InodeLock {
    // Sleeps while the word stays as it was found, where it excludes the class. It may return early.
    pub(crate) fn rest<R: Wait>(&self, rt: &R, class: Class, found: u64) {
        if class.is_excluded_by(found) {
            self.sleepers.fetch_add(1, SeqCst);
            self.table.shared.park(rt, 0, count_in(found));
            self.sleepers.fetch_sub(1, SeqCst);
        }
    }

    // Wakes the sleepers after a leave that found this word.
    pub(crate) fn wake(&self, found: u64) {
        if lets_others_in(found) && self.sleepers.load(SeqCst) > 0 {
            self.table.shared.wake_all(0);
        }
    }
}
