//! The lines that say what there is before the first call, but extents and data.
ghost use Rattle.std.specs.Prelude.{◌≡◌, ◌+◌, ◌<◌, ◌≤◌, [], true, false, length, if◌then◌else◌, IsTrue, OnOk};
ghost use Rattle.iob_base.specs.Geometry.{is_block_size, is_folio_blocks, is_grain};
ghost use Rattle.iob_base.specs.Layout.{layout, layout_with_grain};
ghost use Rattle.io_script.specs.GrammarLines.{device_cause, with_device, with_one_device, folio_cause, with_folio, grain_cause, with_grain, file_cause, with_file, with_one_file, known_file, place_of, fault_cause, with_fault, phase_cause, with_phase};
ghost use Rattle.io_script.specs.Reading.{said, is_early, IsReader, Takes};
ghost use Rattle.io_script.specs.Seen.{seen};

use crate::read::cause::Cause;
use crate::read::kinds::mode_named;
use crate::read::marks::{add_marks, no_marks};
use crate::read::numbers::{is_a_name, ranged, value};
use crate::read::reader::{LineFault, Reader};
use crate::read::segments::fill_byte;
use crate::read::stage::Stage;
use crate::read::words::Words;
use io_model::FileSpec;
use iob_base::{Geometry, Items, Mode};
use std::alloc::{AllocError, Global};

/// How many bytes a device may have.
const DEVICE_BYTES: u64 = 16777216;

/// How many files there may be.
const FILES: usize = 64;

/// How many blocks all files together may have.
const FILE_BLOCKS: u64 = 131072;

/// How many fault lines there may be.
const FAULTS: usize = 65536;

/// How many phases there may be.
const PHASES: u32 = 1024;

/// The geometry of sizes that were tried already.
fn geometry_of(block_size: u32, folio: u32) -> Geometry
    requires size { IsTrue (is_block_size block_size) }
    requires blocks { IsTrue (is_folio_blocks folio) }
    ensures { result ≡ layout block_size folio }
{
    Geometry::new(block_size, folio).unwrap()
}

/// The geometry of sizes and a grain that were tried already.
fn geometry_with_grain(block_size: u32, folio: u32, grain: u32) -> Geometry
    requires size { IsTrue (is_block_size block_size) }
    requires blocks { IsTrue (is_folio_blocks folio) }
    requires grain { IsTrue (is_grain block_size grain) }
    ensures { result ≡ layout_with_grain block_size folio grain }
{
    Geometry::with_grain(block_size, folio, grain).unwrap()
}

/// Whether a block may have so many bytes.
fn is_a_block_size(n: u64) -> bool
    ensures value { result ≡ is_block_size n }
    ensures small { result ≡ true → n ≤ 4096 }
{
    matches!(n, 16 | 32 | 64 | 128 | 256 | 512 | 1024 | 2048 | 4096)
}

/// Takes in what the device is, none of whose blocks is taken.
fn set_device(
    alloc: Global,
    r: &mut Reader,
    geometry: Geometry,
    blocks: u32,
    fill: u8,
) -> Result<(), AllocError>
    requires reader { IsReader r.old }
    requires early { is_early r.old.stage ≡ true }
    ensures said { OnOk result (said r.new ≡ with_one_device (said r.old) geometry blocks fill) }
    ensures reader { OnOk result (IsReader r.new) }
{
    let taken = no_marks(alloc, blocks as usize)?;
    let given = no_marks(alloc, blocks as usize)?;
    r.stage = Stage::Folio;
    r.geometry = geometry;
    r.device_blocks = blocks;
    r.fill = fill;
    r.taken = taken;
    r.given = given;
    Ok(())
}

/// `dev <block size> <blocks> <fill>`.
pub fn take_device(alloc: Global, r: &mut Reader, w: &Words) -> Result<(), LineFault>
    requires { IsReader r.old }
    ensures { Takes (device_cause (said r.old) (seen w.now)) (with_device (said r.old) (seen w.now)) result r.new }
{
    if !matches!(r.stage, Stage::Device) {
        return Err(LineFault::Because(Cause::BadOrder));
    }
    if w.count != 4 {
        return Err(LineFault::Because(Cause::BadCount));
    }
    let size = value(w.second);
    if !is_a_block_size(size) {
        return Err(LineFault::Because(Cause::BadNumber));
    }
    let Some(blocks) = ranged(1, 65536, w.third) else {
        return Err(LineFault::Because(Cause::BadNumber));
    };
    let Some(fill) = fill_byte(w.fourth) else {
        return Err(LineFault::Because(Cause::BadBytes));
    };
    if size * blocks > DEVICE_BYTES {
        return Err(LineFault::Because(Cause::TooMuch));
    }
    set_device(alloc, r, geometry_of(size as u32, 1), blocks as u32, fill)?;
    Ok(())
}

/// `folio <blocks>`.
pub fn take_folio(r: &mut Reader, w: &Words) -> Result<(), LineFault>
    requires { IsReader r.old }
    ensures { Takes (folio_cause (said r.old) (seen w.now)) (with_folio (said r.old) (seen w.now)) result r.new }
{
    if !matches!(r.stage, Stage::Folio) {
        return Err(LineFault::Because(Cause::BadOrder));
    }
    if w.count != 2 {
        return Err(LineFault::Because(Cause::BadCount));
    }
    let blocks = value(w.second);
    if !matches!(blocks, 1 | 2 | 4 | 8 | 16 | 32) {
        return Err(LineFault::Because(Cause::BadNumber));
    }
    r.geometry = geometry_of(r.geometry.block_size(), blocks as u32);
    r.stage = after_folio(r.is_fine);
    Ok(())
}

/// What stands after the folio line.
fn after_folio(is_fine: bool) -> Stage
    ensures { result ≡ (if is_fine then Stage.Grain else Stage.Files) }
{
    if is_fine { Stage::Grain } else { Stage::Files }
}

/// `grain <bytes>`.
pub fn take_grain(r: &mut Reader, w: &Words) -> Result<(), LineFault>
    requires { IsReader r.old }
    ensures { Takes (grain_cause (said r.old) (seen w.now)) (with_grain (said r.old) (seen w.now)) result r.new }
{
    if !matches!(r.stage, Stage::Grain) {
        return Err(LineFault::Because(Cause::BadOrder));
    }
    if w.count != 2 {
        return Err(LineFault::Because(Cause::BadCount));
    }
    let grain = value(w.second);
    let size = r.geometry.block_size();
    if !is_a_block_size(grain) || grain > u64::from(size) {
        return Err(LineFault::Because(Cause::BadNumber));
    }
    r.geometry = geometry_with_grain(size, r.geometry.folio_blocks(), grain as u32);
    r.stage = Stage::Files;
    Ok(())
}

/// The place of the file of a name, where a word is one.
pub fn find_file(names: &[Items<u8>], name: &[u8]) -> Option<usize>
    ensures { result ≡ known_file names.now name.now }
{
    if !is_a_name(name) {
        return None;
    }
    place(names, name)
}

/// The place of a name in a list of names.
fn place(names: &[Items<u8>], name: &[u8]) -> Option<usize>
    ensures { result ≡ place_of name.now names.now }
{
    names.iter().position(|n| n.as_slice() == name)
}

/// Adds a file without extents.
fn add_file(r: &mut Reader, name: Items<u8>, file: FileSpec) -> Result<(), AllocError>
    requires reader { IsReader r.old }
    requires described { is_early r.old.stage ≡ false }
    requires room { length r.old.names.items < 64 }
    requires blocks { r.old.file_blocks + file.blocks ≤ 131072 }
    requires small { file.blocks ≤ 65536 }
    requires empty { file.extents ≡ [] }
    ensures said { OnOk result (said r.new ≡ with_one_file (said r.old) name file) }
    ensures reader { OnOk result (IsReader r.new) }
{
    let blocks = file.blocks;
    add_marks(&mut r.placed)?;
    r.names.push(name)?;
    r.files.push(file)?;
    r.file_blocks += blocks;
    Ok(())
}

/// `file <name> <mode> <blocks>`.
pub fn take_file(alloc: Global, r: &mut Reader, w: &Words) -> Result<(), LineFault>
    requires { IsReader r.old }
    ensures { Takes (file_cause (said r.old) (seen w.now)) (with_file (said r.old) (seen w.now)) result r.new }
{
    let mode = mode_named(w.third);
    if !w.third.is_empty() && mode.is_none() {
        return Err(LineFault::Because(Cause::BadWord));
    }
    if !matches!(r.stage, Stage::Files) {
        return Err(LineFault::Because(Cause::BadOrder));
    }
    if w.count != 4 {
        return Err(LineFault::Because(Cause::BadCount));
    }
    let Some(blocks) = ranged(1, 65536, w.fourth) else {
        return Err(LineFault::Because(Cause::BadNumber));
    };
    if !is_a_name(w.second) || place(&r.names, w.second).is_some() {
        return Err(LineFault::Because(Cause::BadName));
    }
    if r.names.len() >= FILES || r.file_blocks + blocks > FILE_BLOCKS {
        return Err(LineFault::Because(Cause::TooMuch));
    }
    let name = Items::from_slice(alloc, w.second)?;
    let file = FileSpec {
        mode: mode.unwrap_or(Mode::Cached),
        blocks,
        size: None,
        extents: Items::new(alloc),
    };
    add_file(r, name, file)?;
    Ok(())
}

/// `fault <lane> <op>`.
pub fn take_fault(r: &mut Reader, w: &Words) -> Result<(), LineFault>
    requires { IsReader r.old }
    ensures { Takes (fault_cause (said r.old) (seen w.now)) (with_fault (said r.old) (seen w.now)) result r.new }
{
    if !matches!(r.stage, Stage::Files) {
        return Err(LineFault::Because(Cause::BadOrder));
    }
    if w.count != 3 {
        return Err(LineFault::Because(Cause::BadCount));
    }
    let Some(lane) = ranged(0, 16, w.second) else {
        return Err(LineFault::Because(Cause::BadNumber));
    };
    let Some(op) = ranged(1, 4294967295, w.third) else {
        return Err(LineFault::Because(Cause::BadNumber));
    };
    if r.faults.len() >= FAULTS {
        return Err(LineFault::Because(Cause::TooMuch));
    }
    r.faults.push((lane as u32, op))?;
    Ok(())
}

/// `phase`.
pub fn take_phase(r: &mut Reader, w: &Words) -> Result<(), LineFault>
    requires { IsReader r.old }
    ensures { Takes (phase_cause (said r.old) (seen w.now)) (with_phase (said r.old)) result r.new }
{
    if !matches!(r.stage, Stage::Files | Stage::Calls) {
        return Err(LineFault::Because(Cause::BadOrder));
    }
    if w.count != 1 {
        return Err(LineFault::Because(Cause::BadCount));
    }
    if r.phases >= PHASES {
        return Err(LineFault::Because(Cause::TooMuch));
    }
    r.stage = Stage::Calls;
    r.phases += 1;
    Ok(())
}
