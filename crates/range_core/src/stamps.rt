//! The stamps that events leave, and where they go at the end.
ghost use Rattle.std.specs.Prelude.{◌≡◌, ◌<◌, All, IfOk, OnOk, length, map, vec_len};
ghost use Rattle.range_core.specs.RangeView.{IsOfRange};
ghost use Rattle.range_core.specs.StampRuns.{expanded};
ghost use Rattle.range_core.specs.Stamps.{bare_end, done_by, journaled, stamp_added, stamps_from};

use crate::cell::Cell;
use crate::log::StampLog;
use crate::stamp_run::StampRun;
use io_model::BlockEnd;
use iob_base::{Items, Mark, Stamp, Tag};
use std::alloc::{AllocError, Global};

/// The stamp of a call that did its part.
pub(crate) fn stamp_done(by: Tag) -> Stamp
    ensures { result ≡ done_by by }
{
    Stamp {
        caller: by.caller,
        call: by.call,
        mark: Mark::Done,
    }
}

/// The ends of these blocks, with the stamps that the log has for each.
pub(crate) fn end_blocks(
    alloc: Global,
    first: u64,
    cells: Vec<Cell>,
    log: &StampLog,
) -> Result<Vec<BlockEnd>, AllocError>
    requires { All (IsOfRange first (length cells.items)) log.now.items }
    ensures { IfOk result (λ ends. ends.items ≡ journaled first log.now.items (map bare_end cells.items)) }
{
    let mut ends = bare_ends(alloc, cells)?;
    write_journals(&mut ends, first, log.runs())?;
    Ok(ends)
}

fn bare_ends(alloc: Global, cells: Vec<Cell>) -> Result<Vec<BlockEnd>, AllocError>
    ensures { IfOk result (λ ends. ends.items ≡ map bare_end cells.items) }
{
    let mut ends = Vec::with_capacity(alloc, cells.len())?;
    for cell in cells {
        ends.push(end_of(alloc, cell))?;
    }
    Ok(ends)
}

fn end_of(alloc: Global, cell: Cell) -> BlockEnd
    ensures { result ≡ bare_end cell }
{
    let Cell {
        sector,
        page,
        dirty,
        ..
    } = cell;
    BlockEnd {
        sector,
        dirty: if dirty { page } else { None },
        journal: Items::new(alloc),
    }
}

fn write_journals(ends: &mut Vec<BlockEnd>, first: u64, runs: &[StampRun]) -> Result<(), AllocError>
    requires { All (IsOfRange first (length ends.old.items)) (expanded runs.now) }
    ensures { OnOk result (ends.new.items ≡ journaled first (expanded runs.now) ends.old.items) }
{
    for run in runs {
        write_run(ends, first, *run)?;
    }
    Ok(())
}

/// Adds the stamp of a run to the journal of each of its blocks.
fn write_run(ends: &mut Vec<BlockEnd>, first: u64, stamped: StampRun) -> Result<(), AllocError>
    requires { All (IsOfRange first (length ends.old.items)) (stamps_from stamped.first stamped.count stamped.stamp) }
    ensures { OnOk result (ends.new.items ≡ journaled first (stamps_from stamped.first stamped.count stamped.stamp) ends.old.items) }
{
    for i in 0..stamped.count {
        let at = stamped.first - first + i;
        write_stamp(ends, at as usize, stamped.stamp)?;
    }
    Ok(())
}

fn write_stamp(ends: &mut Vec<BlockEnd>, at: usize, stamp: Stamp) -> Result<(), AllocError>
    requires { at < vec_len ends.old }
    ensures { OnOk result (ends.new.items ≡ stamp_added at stamp ends.old.items) }
{
    let end = &mut ends[at];
    end.journal.push(stamp)?;
    Ok(())
}
