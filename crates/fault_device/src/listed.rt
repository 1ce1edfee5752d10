//! The fate in memory, which fails at the judgements that it is told.
ghost use Rattle.std.specs.Prelude.{◌≡◌, ◌<◌, Some};
ghost use Rattle.fault_device.specs.Judging.{HasJudged, JudgesAsTold, half_where};
ghost use Rattle.fault_device.specs.Telling.{is_next_armed};

use crate::fate::{Fate, Verdict};
use std::alloc::{AllocError, Global};
use std::collections::BTreeSet;
use std::marker::Model;

/// A fate that fails exactly at the judgements whose numbers, from 1, are armed: half of the blocks then
/// land, rounded down. Numbers end at 2^64 - 2, and a later judgement does not fail.
///
/// The armed numbers lie in a tree, so to arm one and to judge take logarithmic time.
///
/// Invariant: the tree has the numbers of the list.
#[derive(Debug, Drop)]
pub struct Listed {
    // In the order in which they were armed.
    armed: Vec<u64>,
    numbers: BTreeSet<u64>,
    judged: u64,
    failed: u64,
}

impl Model for Listed {
    ghost use Rattle.fault_device.specs.Listing.{ListedView, HasNumbers};

    ghost Value = { ListedView };

    ghost view = { λ s. record { count = s.failed; judged = s.judged; armed = s.armed.items } };

    ghost invariant = { λ s. HasNumbers s.numbers s.armed.items };
}

impl Listed {
    ghost use Rattle.fault_device.specs.Listing.{FRESH, telling_of};

    /// A fate that judged nothing yet and has no number armed. It takes no memory.
    pub fn new(alloc: Global) -> Listed
        ensures { result ≡ FRESH }
    {
        Listed {
            armed: Vec::new(alloc),
            numbers: BTreeSet::new(alloc),
            judged: 0,
            failed: 0,
        }
    }

    // Whether the next judgement is armed.
    fn fails_next(&self) -> bool
        ensures { result ≡ is_next_armed (telling_of self.now) }
    {
        if self.judged >= u64::MAX - 1 {
            return false;
        }
        let next = self.judged + 1;
        self.numbers.contains(&next)
    }
}

impl Fate for Listed {
    ghost use Rattle.fault_device.specs.Listing.{telling_of};

    ghost count = { λ s. s.count };

    ghost tells = { λ s. Some (telling_of s) };

    fn arm(&mut self, op: u64) -> Result<(), AllocError> {
        self.armed.reserve(1)?;
        if self.numbers.insert(op).is_err() {
            return Err(AllocError);
        }
        self.armed.push_reserved(op);
        Ok(())
    }

    fn judge(&mut self, blocks: u32) -> Verdict
        requires { 0 < blocks }
        ensures cause { HasJudged blocks self.old.count result self.new.count }
        ensures told { JudgesAsTold (telling_of self.old) self.old.count result self.new.count (Some (telling_of self.new)) }
        ensures half { result ≡ half_where (is_next_armed (telling_of self.old)) blocks }
    {
        let fails = self.fails_next();
        self.judged = self.judged.saturating_add(1);
        if fails {
            self.failed = self.failed.saturating_add(1);
            return Verdict::Failed { landed: blocks / 2 };
        }
        Verdict::Done
    }

    fn faults(&self) -> u64 {
        self.failed
    }
}
