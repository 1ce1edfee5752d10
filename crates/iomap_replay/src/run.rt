//! The run of a script of one read.
ghost use Rattle.std.specs.Prelude.{◌≡◌, List, [], ◌∷◌, IfOk, length, map};
ghost use Rattle.std.specs.List.{list_any};
ghost use Rattle.io_model.specs.Causes.{AreCaused};
ghost use Rattle.io_model.specs.Contents.{device_bytes};
ghost use Rattle.io_model.specs.Right.{RunIsRight};
ghost use Rattle.io_model.specs.RunText.{has_error, is_error};
ghost use Rattle.iomap_replay.specs.Devices.{SameNumbers, blocks_beside, first_number};
ghost use Rattle.iomap_replay.specs.Jobs.{IsJobOf};
ghost use Rattle.iomap_replay.specs.Runs.{quiet_close as quiet_close_answer, one_run};
ghost use Rattle.iomap_replay.specs.Starts.{idle_end, starts_of};
ghost use Rattle.fault_device.specs.LaneView.{lane_seen};
ghost use Rattle.fault_device.specs.Opening.{Opening, Serves};

use crate::job::Job;
use crate::range::{open_range, sectors_of, start_pool};
use crate::read::read_once;
use fault_device::Lane;
use io_model::{CallEnd, FileEnd, LaneEnd, Run, Script, Unmounted};
use iob_base::{Answer, Items, Reply, Sector, Stop};
use range_core::RangeEnd;
use std::alloc::{AllocError, Global};

/// The close of a file that has nothing dirty.
fn quiet_close() -> Answer
    ensures { result ≡ quiet_close_answer }
{
    Answer {
        reply: Reply::Ok {
            count: 0,
            stop: Stop::Whole,
        },
        bios: 0,
    }
}

/// The run of one call on one file. Want of memory is the only error.
fn assemble_run(
    alloc: Global,
    end: CallEnd,
    file: FileEnd,
    free: Vec<Sector>,
    lanes: Vec<LaneEnd>,
) -> Result<Run, AllocError>
    ensures { IfOk result (λ run. run ≡ one_run end file free.items lanes.items) }
{
    Ok(Run {
        calls: Items::from_vec(vec![in alloc; end]?),
        closes: Items::from_vec(vec![in alloc; quiet_close()]?),
        ends: Unmounted {
            files: Items::from_vec(vec![in alloc; file]?),
            free: Items::from_vec(free),
        },
        lanes: Items::from_vec(lanes),
    })
}

/// Runs a script of the one form on lane 0. `others` are the ends of the other lanes, which have
/// nothing to do. Want of memory outside the call's reply is the only error.
pub fn run_script(
    alloc: Global,
    script: &Script,
    job: &Job,
    lane: &mut Lane,
    others: Vec<LaneEnd>,
) -> Result<Run, AllocError>
    requires job { IsJobOf script.now job.now }
    requires lanes { length others.items ≡ 16 }
    ensures right { IfOk result (RunIsRight script.now (0 ∷ [])) }
    ensures free { IfOk result (λ run. SameNumbers run.ends.free (blocks_beside (device_bytes script.now) (first_number job.now.extent.kind) job.now.extent.length job.now.device.blocks)) }
    ensures caused { (o : Opening) (rest : List Opening) → Serves o (lane_seen count tells lane.old) → (lane_seen count tells lane.old).number ≡ 0
        → others.items ≡ map (λ o. idle_end o.count) rest → IfOk result (λ run. AreCaused (starts_of script.now (o ∷ rest)) script.now run) }
{
    let (own, free) = sectors_of(alloc, script, job)?;
    let (pool, seat) = start_pool(alloc, script, job, &own, free)?;
    let mut range = open_range(alloc, script, job, own, seat)?;
    let end = read_once(alloc, script, job, &mut range, lane)?;
    let ended = range.end()?;
    let RangeEnd {
        extents,
        blocks,
        seat,
    } = ended;
    let free = pool.close(seat);
    let mut lanes = others;
    lanes.insert(
        0,
        LaneEnd {
            ops: lane.ops(),
            faults: lane.faults(),
        },
    )?;
    let file = FileEnd {
        extents,
        blocks,
        size: None,
        sizes: Items::new(alloc),
    };
    assemble_run(alloc, end, file, free, lanes)
}

/// Whether a reply is an error.
fn is_error_reply(reply: &Reply) -> bool
    ensures { result ≡ is_error reply.now }
{
    matches!(reply, Reply::Err { .. })
}

/// Whether a call answered an error.
fn has_failed_call(calls: &[CallEnd]) -> bool
    ensures { result ≡ list_any (λ end. is_error end.answer.reply) calls.now }
{
    calls.iter().any(|end| is_error_reply(&end.answer.reply))
}

/// Whether a close answered an error.
fn has_failed_close(closes: &[Answer]) -> bool
    ensures { result ≡ list_any (λ close. is_error close.reply) closes.now }
{
    closes.iter().any(|close| is_error_reply(&close.reply))
}

/// Whether a printed reply, of a call or a close, is an error.
pub fn has_error_reply(run: &Run) -> bool
    ensures { result ≡ has_error run.now }
{
    has_failed_call(run.calls.as_slice()) || has_failed_close(run.closes.as_slice())
}
