//! Runs of one caller's calls at one file, from the start of the mount to its end.
ghost use Rattle.std.specs.Prelude.{◌≡◌, ◌^◌};
ghost use Rattle.worked_mounts.specs.Alone.{IsAlone, share_of};
ghost use Rattle.worked_mounts.specs.Begins.{MayBegin};

use crate::call_texts::expect_text;
use crate::calls::{Answered, expect_answers};
use crate::ends::{append_close, append_lane, append_left};
use crate::files::{lane, started};
use crate::page_calls::sync_file;
use io_model::Extent;
use mini_fs::{Mount, Pass};
use std::alloc::{AllocError, Global};
use std::process::Abort;
use std::sync::Wait;
use worked_mounts::{Begin, ended};
use writeback_ioend::ErrorSeen;

/// The number of the lane on which the file is synced at the end of a run.
const LAST: u32 = 16;

/// A run at a file. The transfers fail that are listed: each fault is a lane's number and that of a transfer there, from 1.
/// Each call, on lane 0, answers with its text. At last the file is synced, and this is left.
#[derive(Clone, Copy)]
pub(crate) struct Run {
    pub faults: &'static [(u32, u64)],
    pub calls: &'static [Answered],
    pub left: &'static str,
}

/// What is left of the mount, whose only pass has the whole share, behind a text. Want of memory is the only error.
pub(crate) fn append_end(text: &mut Vec<u8>, mount: Mount, pass: Pass) -> Result<(), AllocError>
    requires alone { IsAlone mount pass }
    requires whole { share_of pass ≡ 2 ^ 63 }
{
    append_left(text, &ended(mount, pass)?)
}

// One caller makes the calls of a run at a file with these extents. Want of memory is the only error.
fn expect_run<R: Abort + Wait>(
    rt: &R,
    alloc: Global,
    begin: Begin,
    extents: &[Extent],
    run: Run,
) -> Result<(), AllocError>
    requires { MayBegin begin.device begin.blocks begin.size begin.cookie extents.now }
{
    let (mount, mut pass) = started(alloc, begin, extents)?;
    let mut seen = ErrorSeen::new(alloc, 1)?;
    let mut first = lane(alloc, 0, run.faults)?;
    expect_answers(rt, &mount, &mut pass, &mut seen, &mut first, run.calls)?;
    let mut last = lane(alloc, LAST, run.faults)?;
    let close = sync_file(rt, &mount, &mut pass, &mut seen, &mut last)?;
    let mut text = Vec::new(alloc);
    append_close(&mut text, close.as_slice())?;
    append_end(&mut text, mount, pass)?;
    append_lane(&mut text, &first)?;
    append_lane(&mut text, &last)?;
    expect_text(rt, text.as_slice(), run.left);
    Ok(())
}

/// Each of these runs, at a file of its own with these extents. Want of memory is the only error.
pub(crate) fn expect_runs<R: Abort + Wait>(
    rt: &R,
    alloc: Global,
    begin: Begin,
    extents: &[Extent],
    runs: &[Run],
) -> Result<(), AllocError>
    requires { MayBegin begin.device begin.blocks begin.size begin.cookie extents.now }
{
    for run in runs {
        expect_run(rt, alloc, begin, extents, *run)?;
    }
    Ok(())
}
