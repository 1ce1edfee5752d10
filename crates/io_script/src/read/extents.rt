//! The lines of extents and of data.
ghost use Rattle.std.specs.Prelude.{◌≡◌, ◌+◌, ◌<◌, ◌≤◌, false, length, nat_le, OnOk};
ghost use Rattle.io_script.specs.GrammarLines.{extent_cause, with_extent, with_one_extent, overlaps, data_cause, with_data, with_one_block, kind_with};
ghost use Rattle.io_script.specs.Reading.{said, is_early, IsReader, Takes};
ghost use Rattle.io_script.specs.Seen.{seen};
ghost use Rattle.io_script.specs.SoFar.{file_at, device_start};

use crate::read::cause::Cause;
use crate::read::kinds::{State, state_named};
use crate::read::lines::find_file;
use crate::read::marks::{PLACES, has_mark, mark_run};
use crate::read::numbers::{number, value};
use crate::read::reader::{LineFault, Reader};
use crate::read::segments::{is_a_segment, segment, segment_size};
use crate::read::stage::Stage;
use crate::read::words::Words;
use io_model::{Extent, Kind};
use iob_base::Items;
use std::alloc::{AllocError, Global};

/// Whether a run of blocks from `first` on ends at or before `end`.
fn ends_by(first: u64, n: u64, end: u64) -> bool
    ensures { result ≡ nat_le (first + n) end }
{
    match first.checked_add(n) {
        None => false,
        Some(last) => last <= end,
    }
}

/// The kind of an extent's blocks.
fn kind_of_state(state: State, dev: u32) -> Kind
    ensures { result ≡ kind_with state dev }
{
    match state {
        State::Written => Kind::Mapped(dev),
        State::Fresh => Kind::Unwritten(dev),
    }
}

/// Whether blocks of file `i` or of the device are those of an earlier extent.
fn is_overlap(r: &Reader, i: usize, block: u64, dev: u64, n: u64) -> bool
    requires reader { IsReader r.now }
    requires file { i < length r.now.files.items }
    requires blocks { block + n ≤ (file_at r.now.files.items i).blocks }
    requires device { dev + n ≤ r.now.device_blocks }
    ensures { result ≡ overlaps (said r.now) i block dev n }
{
    if has_mark(&r.placed, i * PLACES + block as usize, n as usize) {
        return true;
    }
    has_mark(&r.taken, dev as usize, n as usize)
}

/// Adds an extent to file `i` and marks its blocks, which on the device begin at `dev`.
fn add_extent(r: &mut Reader, i: usize, extent: Extent, dev: usize) -> Result<(), AllocError>
    requires reader { IsReader r.old }
    requires described { is_early r.old.stage ≡ false }
    requires file { i < length r.old.files.items }
    requires blocks { extent.block + extent.length ≤ (file_at r.old.files.items i).blocks }
    requires start { device_start extent ≡ dev }
    requires device { dev + extent.length ≤ r.old.device_blocks }
    ensures said { OnOk result (said r.new ≡ with_one_extent (said r.old) i extent) }
    ensures reader { OnOk result (IsReader r.new) }
{
    r.files[i].extents.push(extent)?;
    mark_run(
        &mut r.placed,
        i * PLACES + extent.block as usize,
        extent.length as usize,
    );
    mark_run(&mut r.taken, dev, extent.length as usize);
    Ok(())
}

/// `ext <name> <block> <dev> <n> <state>`.
pub fn take_extent(r: &mut Reader, w: &Words) -> Result<(), LineFault>
    requires { IsReader r.old }
    ensures { Takes (extent_cause (said r.old) (seen w.now)) (with_extent (said r.old) (seen w.now)) result r.new }
{
    let state = state_named(w.sixth);
    if !w.sixth.is_empty() && state.is_none() {
        return Err(LineFault::Because(Cause::BadWord));
    }
    if !matches!(r.stage, Stage::Files) {
        return Err(LineFault::Because(Cause::BadOrder));
    }
    if w.count != 6 {
        return Err(LineFault::Because(Cause::BadCount));
    }
    let (Some(block), Some(dev)) = (number(w.third), number(w.fourth)) else {
        return Err(LineFault::Because(Cause::BadNumber));
    };
    let n = value(w.fifth);
    if n < 1 {
        return Err(LineFault::Because(Cause::BadNumber));
    }
    let Some(i) = find_file(&r.names, w.second) else {
        return Err(LineFault::Because(Cause::BadName));
    };
    if !ends_by(block, n, r.files[i].blocks) || !ends_by(dev, n, u64::from(r.device_blocks)) {
        return Err(LineFault::Because(Cause::BadBlock));
    }
    if is_overlap(r, i, block, dev, n) {
        return Err(LineFault::Because(Cause::Overlap));
    }
    let extent = Extent {
        block,
        length: n,
        kind: kind_of_state(state.unwrap_or(State::Written), dev as u32),
    };
    add_extent(r, i, extent, dev as usize)?;
    Ok(())
}

/// Adds the bytes of a device block and marks it.
fn add_data(r: &mut Reader, d: u32, bytes: Items<u8>) -> Result<(), AllocError>
    requires reader { IsReader r.old }
    requires described { is_early r.old.stage ≡ false }
    requires device { d < r.old.device_blocks }
    ensures said { OnOk result (said r.new ≡ with_one_block (said r.old) (d, bytes)) }
    ensures reader { OnOk result (IsReader r.new) }
{
    r.blocks.push((d, bytes))?;
    r.given[d as usize] = true;
    Ok(())
}

/// `data <dev> <segment>`.
pub fn take_data(alloc: Global, r: &mut Reader, w: &Words) -> Result<(), LineFault>
    requires { IsReader r.old }
    ensures { Takes (data_cause (said r.old) (seen w.now)) (with_data (said r.old) (seen w.now)) result r.new }
{
    if !matches!(r.stage, Stage::Files) {
        return Err(LineFault::Because(Cause::BadOrder));
    }
    if w.count != 3 {
        return Err(LineFault::Because(Cause::BadCount));
    }
    let Some(d) = number(w.second) else {
        return Err(LineFault::Because(Cause::BadNumber));
    };
    if !is_a_segment(w.third) || segment_size(w.third) != u64::from(r.geometry.block_size()) {
        return Err(LineFault::Because(Cause::BadBytes));
    }
    if d >= u64::from(r.device_blocks) {
        return Err(LineFault::Because(Cause::BadBlock));
    }
    if r.given[d as usize] {
        return Err(LineFault::Because(Cause::Overlap));
    }
    let bytes = segment(alloc, w.third)?;
    add_data(r, d as u32, bytes)?;
    Ok(())
}
