//! A whole script, line by line.
ghost use Rattle.std.specs.Prelude.{◌≡◌, ◌||◌, [], Some, None, codes, IfOk, IfErr};
ghost use Rattle.std.specs.Str.{bytes_eq};
ghost use Rattle.io_script.specs.Grammar.{IsScript, IsFaultOf, is_second, is_header, common_cause, line_cause, unended_cause, end_cause, last_cause, IsRefusal, with_line, next_said, cause_by_kind, with_kind, kind_cause};
ghost use Rattle.io_script.specs.GrammarWords.{words, fields_of};
ghost use Rattle.io_script.specs.Reading.{said, IsReader, Takes, IsFaultAt};
ghost use Rattle.io_script.specs.Checking.{IsChecked};
ghost use Rattle.io_script.specs.Seen.{seen};
ghost use Rattle.io_script.specs.SoFar.{script_so_far};

use crate::read::calls::take_call;
use crate::read::cause::{Cause, ScriptFault};
use crate::read::extents::{take_data, take_extent};
use crate::read::kinds::{LineKind, line_kind};
use crate::read::lines::{take_device, take_fault, take_file, take_folio, take_grain, take_phase};
use crate::read::reader::{LineFault, Reader};
use crate::read::sizes::take_size;
use crate::read::stage::Stage;
use crate::read::words::{Words, cut, has_unprintable, is_kept_line, words_of};
use io_model::Script;
use std::alloc::Global;

/// A script, and how many phase lines it has. The script tells only the phases of its calls.
#[derive(Drop)]
pub struct Checked {
    pub script: Script,
    pub phases: u32,
}

/// How many bytes a script may have.
pub const TEXT_LIMIT: usize = 16777216;

/// Whether a word is that of the second version, which has a grain line.
fn is_second_version(word: &[u8]) -> bool
    ensures { result ≡ is_second word.now }
{
    word == b"2".as_slice()
}

/// Whether a word is that of a version.
fn is_version(word: &[u8]) -> bool
    ensures { result ≡ (bytes_eq word.now (codes "1") || is_second word.now) }
{
    word == b"1".as_slice() || is_second_version(word)
}

/// Whether a line is `iomap 1` or `iomap 2`.
fn is_header_line(w: &Words) -> bool
    ensures { result ≡ is_header (seen w.now) }
{
    w.count == 2 && w.first == b"iomap".as_slice() && is_version(w.second)
}

/// The cause that a kept line has, whatever its kind.
fn common(stage: Stage, line: &[u8], w: &Words) -> Option<Cause>
    requires { seen w.now ≡ fields_of (words line.now) }
    ensures { result ≡ common_cause stage line.now }
{
    if matches!(stage, Stage::Header) && !is_header_line(w) {
        return Some(Cause::NoHeader);
    }
    if has_unprintable(line) {
        return Some(Cause::BadByte);
    }
    None
}

/// A line by its kind, after the header.
fn take_kind(alloc: Global, r: &mut Reader, kind: LineKind, w: &Words) -> Result<(), LineFault>
    requires { IsReader r.old }
    ensures { Takes (cause_by_kind kind (said r.old) (seen w.now)) (with_kind kind (said r.old) (seen w.now)) result r.new }
{
    match kind {
        LineKind::Header => Err(LineFault::Because(Cause::BadOrder)),
        LineKind::Device => take_device(alloc, r, w),
        LineKind::Folio => take_folio(r, w),
        LineKind::Grain => take_grain(r, w),
        LineKind::File => take_file(alloc, r, w),
        LineKind::Size => take_size(r, w),
        LineKind::Extent => take_extent(r, w),
        LineKind::Data => take_data(alloc, r, w),
        LineKind::Fault => take_fault(r, w),
        LineKind::Phase => take_phase(r, w),
        LineKind::Call => take_call(alloc, r, w),
        LineKind::Unknown => Err(LineFault::Because(Cause::BadWord)),
    }
}

/// A kept line that has none of the causes of every kept line.
fn take_kept(alloc: Global, r: &mut Reader, w: &Words) -> Result<(), LineFault>
    requires { IsReader r.old }
    ensures { Takes (kind_cause (said r.old) (seen w.now)) (with_line (said r.old) (seen w.now)) result r.new }
{
    if matches!(r.stage, Stage::Header) {
        r.stage = Stage::Device;
        r.is_fine = is_second_version(w.second);
        return Ok(());
    }
    take_kind(alloc, r, line_kind(w.first), w)
}

/// A line that has its end.
fn take_line(alloc: Global, r: &mut Reader, line: &[u8]) -> Result<(), LineFault>
    requires { IsReader r.old }
    ensures { Takes (line_cause (said r.old) line.now) (next_said (said r.old) line.now) result r.new }
{
    if !is_kept_line(line) {
        return Ok(());
    }
    let w = words_of(line);
    if let Some(cause) = common(r.stage, line, &w) {
        return Err(LineFault::Because(cause));
    }
    take_kept(alloc, r, &w)
}

/// What is wrong with bytes that no line end follows.
fn unended(r: &Reader, line: &[u8]) -> Cause
    ensures { unended_cause (said r.now) line.now ≡ Some result }
{
    if !is_kept_line(line) {
        return Cause::NoEnd;
    }
    common(r.stage, line, &words_of(line)).unwrap_or(Cause::NoEnd)
}

/// What is missing at the end of the input.
fn missing(r: &Reader) -> Option<Cause>
    ensures { result ≡ end_cause (said r.now) }
{
    match r.stage {
        Stage::Header => Some(Cause::NoHeader),
        Stage::Device | Stage::Folio | Stage::Grain => Some(Cause::BadOrder),
        Stage::Files | Stage::Calls => None,
    }
}

/// The script after its last line end, or what is wrong there.
fn conclude(reader: Reader, line: u64, left: &[u8]) -> Result<Checked, ScriptFault>
    ensures script { IfOk result (λ checked. (left.now ≡ []) × (end_cause (said reader) ≡ None)
        × (checked.script ≡ script_so_far (said reader)) × (checked.phases ≡ (said reader).phases)) }
    ensures fault { IfErr result (IsRefusal line (last_cause (said reader) left.now)) }
{
    if !left.is_empty() {
        let cause = unended(&reader, left);
        return Err(ScriptFault::Refused { line, cause });
    }
    if let Some(cause) = missing(&reader) {
        return Err(ScriptFault::Refused { line, cause });
    }
    let phases = reader.phases;
    let script = reader.finish();
    Ok(Checked { script, phases })
}

/// Why a script is not read whose line of this number was not taken.
fn fault_at(line: u64, fault: LineFault) -> ScriptFault
    ensures { IsFaultAt line fault result }
{
    match fault {
        LineFault::Because(cause) => ScriptFault::Refused { line, cause },
        LineFault::NoMemory => ScriptFault::NoMemory,
    }
}

/// The script that `bytes` are, with the number of its phase lines. It is refused as by `read_script`.
pub fn read_checked(alloc: Global, bytes: &[u8]) -> Result<Checked, ScriptFault>
    ensures script { IfOk result (IsChecked bytes.now) }
    ensures fault { IfErr result (IsFaultOf bytes.now) }
{
    if bytes.len() > TEXT_LIMIT {
        let cause = Cause::TooMuch;
        return Err(ScriptFault::Refused { line: 0, cause });
    }
    let mut reader = Reader::new(alloc);
    let mut line: u64 = 1;
    let mut left = bytes;
    while let Some((piece, after)) = cut(left, b'\n') {
        if let Err(fault) = take_line(alloc, &mut reader, piece) {
            return Err(fault_at(line, fault));
        }
        left = after;
        line += 1;
    }
    conclude(reader, line, left)
}

/// The script that `bytes` are, in the written form of `docs/FORMATS.md`.
///
/// `Refused` comes exactly where they are no script, with the first line that has a cause and the
/// lowest cause there. `NoMemory` comes where no memory could be had.
pub fn read_script(alloc: Global, bytes: &[u8]) -> Result<Script, ScriptFault>
    ensures script { IfOk result (IsScript bytes.now) }
    ensures fault { IfErr result (IsFaultOf bytes.now) }
{
    let Checked { script, phases: _ } = read_checked(alloc, bytes)?;
    Ok(script)
}
