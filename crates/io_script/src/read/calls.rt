//! Call lines.
ghost use Rattle.std.specs.Prelude.{◌≡◌, ◌≤◌, ◌+◌, ◌*◌, Some, None, true, IsTrue, IfOk, OnOk, length};
ghost use Rattle.std.specs.List.{sum};
ghost use Rattle.iob_base.specs.Geometry.{is_block_size};
ghost use Rattle.io_script.specs.Calling.{IsTotals, IsNamed, with_one_call};
ghost use Rattle.io_script.specs.GrammarCalls.{shape_of, has_numbers, has_segments, words_of_shape, sizes_of, read_by, written_by, asked_in, length_in, end_in, blocks_between, pages_for, pages_of, is_too_much, named_cause, with_named, unnamed_cause, call_cause, with_call, verb_of};
ghost use Rattle.io_script.specs.GrammarKinds.{call_name_of};
ghost use Rattle.io_script.specs.GrammarNumbers.{value_of};
ghost use Rattle.io_script.specs.Reading.{said, IsReader, Takes};
ghost use Rattle.io_script.specs.Seen.{seen};

use crate::read::cause::Cause;
use crate::read::kinds::{CallName, Shape, call_name};
use crate::read::lines::find_file;
use crate::read::numbers::{number, ranged, value};
use crate::read::reader::{LineFault, Reader};
use crate::read::segments::{
    count_parts, has_numbers_alone, has_segments_alone, lengths, segment_sizes, segments,
};
use crate::read::stage::Stage;
use crate::read::words::Words;
use io_model::{Call, Verb};
use iob_base::{FileId, Items, Mode};
use std::alloc::{AllocError, Global};

/// How many calls there may be.
const CALLS: usize = 65536;

/// How many segments a call may have.
const SEGMENTS: usize = 16;

/// How many bytes one call may ask.
const ASKED: u128 = 16777216;

/// How many bytes all reads may ask, and all writes.
const ASKED_TOGETHER: u64 = 67108864;

/// How many blocks all data calls together may meet.
const MET: u128 = 4194304;

/// How many words the call line has.
fn words_wanted(shape: Shape) -> usize
    ensures { result ≡ words_of_shape shape }
{
    match shape {
        Shape::Bare => 3,
        Shape::Sizing => 4,
        Shape::Reading | Shape::Writing | Shape::Ranging => 5,
    }
}

/// Whether the numbers after the name are numbers.
fn has_its_numbers(shape: Shape, w: &Words) -> bool
    ensures { result ≡ has_numbers shape (seen w.now) }
{
    match shape {
        Shape::Bare => true,
        Shape::Writing | Shape::Sizing => number(w.fourth).is_some(),
        Shape::Ranging => number(w.fourth).is_some() && number(w.fifth).is_some(),
        Shape::Reading => number(w.fourth).is_some() && has_numbers_alone(w.fifth),
    }
}

/// Whether the segments are not too many, and those of bytes are of their form.
fn has_its_segments(shape: Shape, w: &Words) -> bool
    ensures { result ≡ has_segments shape (seen w.now) }
{
    match shape {
        Shape::Bare | Shape::Ranging | Shape::Sizing => true,
        Shape::Reading => count_parts(w.fifth) <= SEGMENTS,
        Shape::Writing => count_parts(w.fifth) <= SEGMENTS && has_segments_alone(w.fifth),
    }
}

/// The lengths of the segments. Want of memory is the only error.
fn sizes(alloc: Global, shape: Shape, w: &Words) -> Result<Vec<u64>, AllocError>
    ensures value { IfOk result (λ v. v.items ≡ sizes_of shape (seen w.now).fifth) }
    ensures few { has_segments shape (seen w.now) ≡ true → IfOk result (λ v. length v.items ≤ 16) }
{
    match shape {
        Shape::Bare | Shape::Ranging | Shape::Sizing => Ok(Vec::new(alloc)),
        Shape::Reading => lengths(alloc, w.fifth),
        Shape::Writing => segment_sizes(alloc, w.fifth),
    }
}

/// All lengths together.
fn total(sizes: &[u64]) -> u128
    requires { length sizes.now ≤ 16 }
    ensures { result ≡ sum sizes.now }
{
    let mut all: u128 = 0;
    for n in sizes {
        all += u128::from(*n);
    }
    all
}

/// The blocks of so many bytes that are met from one byte up to another.
fn blocks_met(size: u32, low: u64, high: u128) -> u128
    requires size { IsTrue (is_block_size size) }
    requires high { high ≤ 79228162514264337593543950336 }
    ensures { result ≡ blocks_between size low high }
{
    let size = u128::from(size);
    let low = u128::from(low);
    if low < high {
        (high - 1) / size - low / size + 1
    } else {
        0
    }
}

/// The pages that segments need, each its own.
fn pages_needed(size: u32, sizes: &[u64]) -> u64
    requires size { IsTrue (is_block_size size) }
    requires few { length sizes.now ≤ 16 }
    requires asked { sum sizes.now ≤ 16777216 }
    ensures value { result ≡ pages_for size sizes.now }
    ensures small { result ≤ 33554432 }
{
    let size = u128::from(size);
    let mut all: u128 = 0;
    for n in sizes {
        all += (u128::from(*n) + (size - 1)) / size;
    }
    all as u64
}

/// What the bytes asked so far, the blocks met and the pages become with one more call.
#[derive(Clone, Copy)]
pub struct Totals {
    pub read: u64,
    pub written: u64,
    pub met: u64,
    pub pages: u64,
}

/// What a call's segments read.
fn read_part(shape: Shape, asked: u64) -> u64
    ensures value { result ≡ read_by shape asked }
    ensures small { result ≤ asked }
{
    match shape {
        Shape::Reading => asked,
        Shape::Writing | Shape::Ranging | Shape::Sizing | Shape::Bare => 0,
    }
}

/// What a call's segments write.
fn written_part(shape: Shape, asked: u64) -> u64
    ensures value { result ≡ written_by shape asked }
    ensures small { result ≤ asked }
{
    match shape {
        Shape::Writing => asked,
        Shape::Reading | Shape::Ranging | Shape::Sizing | Shape::Bare => 0,
    }
}

/// How long the range of a data call is.
fn range_length(name: CallName, asked: u64, w: &Words) -> u128
    requires asked { asked ≡ asked_in name (seen w.now) }
    ensures value { result ≡ length_in name (seen w.now) }
    ensures small { result ≤ 18446744073709551615 }
{
    if name.is_zeroing() {
        u128::from(value(w.fifth))
    } else {
        u128::from(asked)
    }
}

/// Where the range of a data call ends in a file of so many blocks: a cut goes from its size to the
/// file's end.
fn range_end(name: CallName, size: u32, blocks: u64, asked: u64, w: &Words) -> u128
    requires size { IsTrue (is_block_size size) }
    requires asked { asked ≡ asked_in name (seen w.now) }
    ensures value { result ≡ end_in name size blocks (seen w.now) }
    ensures small { result ≤ 79228162514264337593543950336 }
{
    let end = u128::from(blocks) * u128::from(size);
    if name.is_cutting() {
        return end;
    }
    (u128::from(value(w.fourth)) + range_length(name, asked, w)).min(end)
}

/// The user pages of a call.
fn pages_by(name: CallName, size: u32, sizes: &[u64]) -> u64
    requires size { IsTrue (is_block_size size) }
    requires few { length sizes.now ≤ 16 }
    requires asked { sum sizes.now ≤ 16777216 }
    ensures value { result ≡ pages_of name size sizes.now }
    ensures small { result ≤ 33554432 }
{
    if name.is_direct() {
        pages_needed(size, sizes)
    } else {
        0
    }
}

/// The totals with one more call of a file of so many blocks. `None` comes where a limit is passed.
fn totals_with(r: &Reader, name: CallName, w: &Words, sizes: &[u64], blocks: u64) -> Option<Totals>
    requires reader { IsReader r.now }
    requires sizes { sizes.now ≡ sizes_of (shape_of name) (seen w.now).fifth }
    requires few { length sizes.now ≤ 16 }
    ensures { IsTotals (said r.now) name (seen w.now) blocks result }
{
    if r.calls.len() >= CALLS {
        return None;
    }
    let asked = total(sizes);
    if asked > ASKED {
        return None;
    }
    let asked = asked as u64;
    let read = r.read + read_part(name.shape(), asked);
    if read > ASKED_TOGETHER {
        return None;
    }
    let written = r.written + written_part(name.shape(), asked);
    if written > ASKED_TOGETHER {
        return None;
    }
    let size = r.geometry.block_size();
    let end = range_end(name, size, blocks, asked, w);
    let met = u128::from(r.met) + blocks_met(size, value(w.fourth), end);
    if met > MET {
        return None;
    }
    Some(Totals {
        read,
        written,
        met: met as u64,
        pages: r.pages + pages_by(name, size, sizes),
    })
}

/// What a call does. Want of memory is the only error.
fn verb(alloc: Global, name: CallName, w: &Words) -> Result<Verb, AllocError>
    ensures { IfOk result (λ v. v ≡ verb_of name (value_of w.now.fourth.now) w.now.fifth.now) }
{
    let off = value(w.fourth);
    match name {
        CallName::Pread => {
            let lengths = Items::from_vec(lengths(alloc, w.fifth)?);
            Ok(Verb::Pread { off, lengths })
        }
        CallName::Dread => {
            let lengths = Items::from_vec(lengths(alloc, w.fifth)?);
            Ok(Verb::Dread { off, lengths })
        }
        CallName::Xread => {
            let lengths = Items::from_vec(lengths(alloc, w.fifth)?);
            Ok(Verb::Xread { off, lengths })
        }
        CallName::Pwrite => {
            let segments = Items::from_vec(segments(alloc, w.fifth)?);
            Ok(Verb::Pwrite { off, segments })
        }
        CallName::Dwrite => {
            let segments = Items::from_vec(segments(alloc, w.fifth)?);
            Ok(Verb::Dwrite { off, segments })
        }
        CallName::Xwrite => {
            let segments = Items::from_vec(segments(alloc, w.fifth)?);
            Ok(Verb::Xwrite { off, segments })
        }
        CallName::Zero => Ok(Verb::Zero {
            off,
            length: value(w.fifth),
        }),
        CallName::Punch => Ok(Verb::Punch {
            off,
            length: value(w.fifth),
        }),
        CallName::Alloc => Ok(Verb::Alloc {
            off,
            length: value(w.fifth),
        }),
        CallName::Wb => Ok(Verb::Wb {
            from: off,
            blocks: value(w.fifth),
        }),
        CallName::Trunc => Ok(Verb::Trunc { size: off }),
        CallName::Sync => Ok(Verb::Sync),
        CallName::Drop => Ok(Verb::Drop),
    }
}

/// The file that a call line names.
#[derive(Clone, Copy)]
pub struct NamedFile {
    pub place: usize,
    pub mode: Mode,
    pub blocks: u64,
    pub sized: bool,
}

/// The file that the third word names.
fn named_file(r: &Reader, w: &Words) -> Option<NamedFile>
    requires { IsReader r.now }
    ensures { IsNamed (said r.now) (seen w.now) result }
{
    let place = find_file(&r.names, w.third)?;
    let file = &r.files[place];
    Some(NamedFile {
        place,
        mode: file.mode,
        blocks: file.blocks,
        sized: file.size.is_some(),
    })
}

/// Adds a call with the sums that it makes.
fn add_call(r: &mut Reader, call: Call, t: Totals) -> Result<(), AllocError>
    requires reader { IsReader r.old }
    requires few { length r.old.calls.items + 1 ≤ 65536 }
    requires read { t.read ≤ 67108864 }
    requires written { t.written ≤ 67108864 }
    requires met { t.met ≤ 4194304 }
    requires pages { t.pages ≤ r.old.pages + 33554432 }
    ensures said { OnOk result (said r.new ≡ with_one_call (said r.old) call t) }
    ensures reader { OnOk result (IsReader r.new) }
{
    r.calls.push(call)?;
    r.read = t.read;
    r.written = t.written;
    r.met = t.met;
    r.pages = t.pages;
    Ok(())
}

/// `<caller> <call name> <file name> ..`, of a call of this name.
fn take_named(alloc: Global, r: &mut Reader, name: CallName, w: &Words) -> Result<(), LineFault>
    requires { IsReader r.old }
    ensures { Takes (named_cause (said r.old) name (seen w.now)) (with_named (said r.old) name (seen w.now)) result r.new }
{
    if !matches!(r.stage, Stage::Calls) {
        return Err(LineFault::Because(Cause::BadOrder));
    }
    if w.count != words_wanted(name.shape()) {
        return Err(LineFault::Because(Cause::BadCount));
    }
    let Some(caller) = ranged(0, 15, w.first) else {
        return Err(LineFault::Because(Cause::BadNumber));
    };
    if !has_its_numbers(name.shape(), w) {
        return Err(LineFault::Because(Cause::BadNumber));
    }
    if !has_its_segments(name.shape(), w) {
        return Err(LineFault::Because(Cause::BadBytes));
    }
    let Some(file) = named_file(r, w) else {
        return Err(LineFault::Because(Cause::BadName));
    };
    if !name.is_of_mode(file.mode) || !name.is_of_size(file.sized) {
        return Err(LineFault::Because(Cause::BadMode));
    }
    let sizes = sizes(alloc, name.shape(), w)?;
    let Some(t) = totals_with(r, name, w, &sizes, file.blocks) else {
        return Err(LineFault::Because(Cause::TooMuch));
    };
    let call = Call {
        phase: r.phases,
        caller: caller as u32,
        file: FileId(file.place as u32),
        first_page: r.pages,
        verb: verb(alloc, name, w)?,
    };
    add_call(r, call, t)?;
    Ok(())
}

/// A call line whose second word is no call name.
fn take_unnamed(r: &Reader, w: &Words) -> Cause
    requires { call_name_of w.now.second.now ≡ None }
    ensures { unnamed_cause (said r.now) (seen w.now) ≡ Some result }
{
    if !w.second.is_empty() {
        return Cause::BadWord;
    }
    if !matches!(r.stage, Stage::Calls) {
        return Cause::BadOrder;
    }
    Cause::BadCount
}

/// `<caller> <call name> <file name> ..`.
pub fn take_call(alloc: Global, r: &mut Reader, w: &Words) -> Result<(), LineFault>
    requires { IsReader r.old }
    ensures { Takes (call_cause (said r.old) (seen w.now)) (with_call (said r.old) (seen w.now)) result r.new }
{
    match call_name(w.second) {
        None => Err(LineFault::Because(take_unnamed(r, w))),
        Some(name) => take_named(alloc, r, name, w),
    }
}
