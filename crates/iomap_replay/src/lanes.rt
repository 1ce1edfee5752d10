//! The lanes of a replay, over the fates that it is handed.
ghost use Rattle.std.specs.Prelude.{◌≡◌, ◌≤◌, ◌<◌, [], ◌∷◌, IfOk, map, length, vec_len};
ghost use Rattle.fault_device.specs.Opening.{opening_of};
ghost use Rattle.io_model.specs.Causes.{AreCaused};
ghost use Rattle.io_model.specs.Right.{RunIsRight};
ghost use Rattle.iomap_replay.specs.Jobs.{IsJobOf};
ghost use Rattle.iomap_replay.specs.Starts.{idle_end, starts_of};

use crate::job::Job;
use crate::run::run_script;
use fault_device::{Fate, Lane};
use io_model::{LaneEnd, Run, Script};
use std::alloc::{AllocError, Global};

/// The ends of lanes that have nothing to do, numbered from 1 on. Want of memory is the only error.
fn idle_lanes(alloc: Global, fates: Vec<Box<dyn Fate + Send>>) -> Result<Vec<LaneEnd>, AllocError>
    requires { length fates.items ≤ 65536 }
    ensures many { IfOk result (λ ends. length ends.items ≡ length fates.items) }
    ensures idle { IfOk result (λ ends. ends.items ≡ map (λ f. idle_end (count f)) fates.items) }
{
    let mut left = fates;
    let mut ends = Vec::new(alloc);
    let mut number = 1u32;
    while !left.is_empty() {
        let lane = Lane::new(number, left.remove(0));
        ends.push(LaneEnd {
            ops: lane.ops(),
            faults: lane.faults(),
        })?;
        number += 1;
    }
    Ok(ends)
}

/// Runs a script of the one form over these fates: the first is that of lane 0. Want of memory outside
/// the call's reply is the only error.
pub fn play(
    alloc: Global,
    script: &Script,
    job: &Job,
    fates: Vec<Box<dyn Fate + Send>>,
) -> Result<Run, AllocError>
    requires job { IsJobOf script.now job.now }
    requires seventeen { length fates.items ≡ 17 }
    ensures right { IfOk result (RunIsRight script.now (0 ∷ [])) }
    ensures caused { IfOk result (λ run. AreCaused (starts_of script.now (map (λ f. opening_of (count f) (tells f)) fates.items)) script.now run) }
{
    let mut fates = fates;
    let first = fates.remove(0);
    let others = idle_lanes(alloc, fates)?;
    let mut lane = Lane::new(0, first);
    run_script(alloc, script, job, &mut lane, others)
}
