//! Lanes by which one caller waits until another has had its turns.
ghost use Rattle.std.specs.Prelude.{◌≡◌, ◌≤◌, ◌<◌, None, Option};
ghost use Rattle.fault_device.specs.Judging.{ArmsTold, HasJudged, JudgesTold};

use fault_device::{Fate, Lane, Listed, Verdict};
use std::alloc::{AllocError, Global};
use std::sync::atomic::{AtomicU64, Ordering};
use std::sync::{Arc, Wait};

/// A word that two callers share.
pub(crate) type Gate = Arc<AtomicU64, Global>;

// A transfer stands before the gate, and the gate is open.
const BEFORE: u64 = 1;

const OPEN: u64 = 2;

/// A gate before which nobody stands yet.
pub(crate) fn gate(alloc: Global) -> Result<Gate, AllocError> {
    Ok(Arc::new(alloc, AtomicU64::new(0))?)
}

/// Waits until a transfer stands before the gate.
pub(crate) fn await_transfer(rt: &impl Wait, gate: &Gate) {
    for _ in rt.forever() {
        if gate.load(Ordering::SeqCst) == BEFORE {
            return;
        }
    }
}

/// Opens the gate, for the transfer before it and all later ones.
pub(crate) fn open(gate: &Gate) {
    gate.store(OPEN, Ordering::SeqCst);
}

// Stands before the gate until it is open.
fn stand_before(gate: &Gate) {
    if gate.load(Ordering::SeqCst) != OPEN {
        gate.store(BEFORE, Ordering::SeqCst);
    }
    for _ in 0..u64::MAX {
        if gate.load(Ordering::SeqCst) == OPEN {
            return;
        }
    }
}

// A fate that judges as its list says, but only once the gate is open.
#[derive(Drop)]
struct Held {
    gate: Gate,
    listed: Listed,
}

impl Fate for Held {
    ghost count = { λ s. s.listed.count };

    ghost tells = { λ s. None };

    fn arm(&mut self, op: u64) -> Result<(), AllocError> {
        self.listed.arm(op)
    }

    fn judge(&mut self, blocks: u32) -> Verdict {
        stand_before(&self.gate);
        self.listed.judge(blocks)
    }

    fn faults(&self) -> u64 {
        self.listed.faults()
    }
}

/// A lane whose transfers stand before the gate until it is open. Want of memory is the only error.
pub(crate) fn held_lane(alloc: Global, number: u32, gate: &Gate) -> Result<Lane, AllocError> {
    let held = Held {
        gate: Arc::try_clone(gate)?,
        listed: Listed::new(alloc),
    };
    Ok(Lane::new(number, Box::new(alloc, held)?))
}

// A fate that opens the gate, and lets every transfer be done.
#[derive(Drop)]
struct Opener {
    gate: Gate,
}

impl Fate for Opener {
    ghost count = { λ s. 0 };

    ghost tells = { λ s. None };

    fn arm(&mut self, op: u64) -> Result<(), AllocError> {
        let _ = op;
        Ok(())
    }

    fn judge(&mut self, blocks: u32) -> Verdict {
        let _ = blocks;
        open(&self.gate);
        Verdict::Done
    }

    fn faults(&self) -> u64 {
        0
    }
}

/// A lane whose transfers open the gate. Want of memory is the only error.
pub(crate) fn opening_lane(alloc: Global, number: u32, gate: &Gate) -> Result<Lane, AllocError> {
    let gate = Arc::try_clone(gate)?;
    Ok(Lane::new(number, Box::new(alloc, Opener { gate })?))
}
