//! The numbers of runs and scripts, which their types bound. To read one is to know its bound, so these
//! functions only read.
ghost use Rattle.std.specs.Prelude.{◌<◌, ◌^◌, length};
ghost use Rattle.std.specs.List.{All};
ghost use Rattle.hex.specs.Hex.{IsBytes};
ghost use Rattle.io_script.specs.Ranges.{
  IsAnswerInRange,
  IsBlockInRange,
  IsCallInRange,
  IsExtentInRange,
  IsFaultInRange,
  IsFileInRange,
  IsKindInRange,
  IsLaneInRange,
  IsPageInRange,
  IsReplyInRange,
  IsRunInRange,
  IsScriptInRange,
  IsSectorInRange,
  IsSizeInRange,
  IsSizeMarkInRange,
  IsSizeStampInRange,
  IsStopInRange,
  IsWord,
};

use io_model::{
    BlockEnd, Call, CallEnd, Extent, FileEnd, Kind, LaneEnd, Run, Script, SizeMark, SizeStamp,
};
use iob_base::{Alignment, Answer, Fault, Page, Reply, Sector, Stamp, Stop};

/// What of a direct call does not fit the block size.
fn numbers_of_alignment(part: Alignment)
    ensures { IsFaultInRange (Fault.NotAligned part) }
{
    match part {
        Alignment::Offset(_n) => {}
        Alignment::Segment {
            index: _index,
            length: _length,
        } => {}
    }
}

/// A fault.
fn numbers_of_fault(fault: Fault)
    ensures { IsFaultInRange fault }
{
    match fault {
        Fault::Eio {
            lane: _lane,
            before: _before,
            after: _after,
        } => {}
        Fault::SyncEio {
            seen: _seen,
            count: _count,
        } => {}
        Fault::Again(_why) => {}
        Fault::NoMemory => {}
        Fault::NotAligned(part) => numbers_of_alignment(part),
        Fault::TooFar {
            offset: _offset,
            end: _end,
        } => {}
        Fault::NoSpace {
            wanted: _wanted,
            found: _found,
        } => {}
        Fault::Worn { cookie: _cookie } => {}
    }
}

/// How a call stopped.
fn numbers_of_stop(stop: Stop)
    ensures { IsStopInRange stop }
{
    match stop {
        Stop::Whole => {}
        Stop::End => {}
        Stop::Fault(fault) => numbers_of_fault(fault),
    }
}

/// A reply.
fn numbers_of_reply(reply: Reply)
    ensures { IsReplyInRange reply }
{
    match reply {
        Reply::Ok {
            count: _count,
            stop,
        } => numbers_of_stop(stop),
        Reply::Err { fault, sent: _sent } => numbers_of_fault(fault),
    }
}

/// An answer.
fn numbers_of_answer(answer: Answer)
    ensures { IsAnswerInRange answer }
{
    let _bios = answer.bios;
    numbers_of_reply(answer.reply)
}

/// Bytes.
fn numbers_of_bytes(bytes: &[u8])
    ensures { IsBytes bytes.now }
{}

/// The numbers of pages.
fn numbers_of_pages(pages: &[u64])
    ensures all { All IsWord pages.now }
    ensures long { IsWord (length pages.now) }
{
    let _long = pages.len();
}

/// The end of a call.
fn numbers_of_call(end: &CallEnd)
    ensures { IsCallInRange end.now }
{
    numbers_of_answer(end.answer);
    numbers_of_bytes(end.got.as_slice());
    numbers_of_pages(end.pages.as_slice())
}

/// A lane.
fn numbers_of_lane(lane: LaneEnd)
    ensures { IsLaneInRange lane }
{
    let _ops = lane.ops;
    let _faults = lane.faults;
}

/// A kind of block.
fn numbers_of_kind(kind: Kind)
    ensures { IsKindInRange kind }
{
    match kind {
        Kind::Hole => {}
        Kind::Delalloc => {}
        Kind::Unwritten(_d) => {}
        Kind::Mapped(_d) => {}
    }
}

/// An extent.
fn numbers_of_extent(extent: Extent)
    ensures { IsExtentInRange extent }
{
    let _block = extent.block;
    let _length = extent.length;
    numbers_of_kind(extent.kind)
}

/// The sector of a block, where it has one.
fn numbers_of_sector(sector: &Option<Sector>)
    ensures { IsSectorInRange sector.now }
{
    match sector {
        None => {}
        Some(sector) => numbers_of_bytes(sector.bytes()),
    }
}

/// The page of a block, where it is dirty.
fn numbers_of_page(page: &Option<Page>)
    ensures { IsPageInRange page.now }
{
    match page {
        None => {}
        Some(page) => numbers_of_bytes(page.bytes.as_slice()),
    }
}

/// A stamp.
fn numbers_of_stamp(stamp: Stamp)
    ensures { IsWord stamp.call }
{
    let _call = stamp.call;
}

/// A journal.
fn numbers_of_stamps(stamps: &[Stamp])
    ensures { All (λ st. IsWord st.call) stamps.now }
{
    for stamp in stamps {
        numbers_of_stamp(*stamp);
    }
}

/// A block.
fn numbers_of_block(block: &BlockEnd)
    ensures { IsBlockInRange block.now }
{
    numbers_of_sector(&block.sector);
    numbers_of_page(&block.dirty);
    numbers_of_stamps(block.journal.as_slice())
}

/// The extents of a file.
fn numbers_of_extents(extents: &[Extent])
    ensures { All IsExtentInRange extents.now }
{
    for extent in extents {
        numbers_of_extent(*extent);
    }
}

/// The blocks of a file.
fn numbers_of_blocks(blocks: &[BlockEnd])
    ensures all { All IsBlockInRange blocks.now }
    ensures long { IsWord (length blocks.now) }
{
    for i in 0..blocks.len() {
        numbers_of_block(&blocks[i]);
    }
}

/// The size of a file, where it has one.
fn numbers_of_size(size: Option<u64>)
    ensures { IsSizeInRange size }
{
    match size {
        None => {}
        Some(_size) => {}
    }
}

/// What a call did at a size.
fn numbers_of_size_mark(mark: SizeMark)
    ensures { IsSizeMarkInRange mark }
{
    match mark {
        SizeMark::See { found: _found } => {}
        SizeMark::Grow { to: _to } => {}
        SizeMark::Cut { to: _to } => {}
    }
}

/// A turn at a size.
fn numbers_of_size_stamp(stamp: SizeStamp)
    ensures { IsSizeStampInRange stamp }
{
    let _call = stamp.call;
    numbers_of_size_mark(stamp.mark)
}

/// The turns at a size.
fn numbers_of_size_stamps(stamps: &[SizeStamp])
    ensures { All IsSizeStampInRange stamps.now }
{
    for stamp in stamps {
        numbers_of_size_stamp(*stamp);
    }
}

/// A file.
fn numbers_of_file(end: &FileEnd)
    ensures { IsFileInRange end.now }
{
    numbers_of_extents(end.extents.as_slice());
    numbers_of_size(end.size);
    numbers_of_size_stamps(end.sizes.as_slice());
    numbers_of_blocks(end.blocks.as_slice())
}

/// The ends of the calls.
fn numbers_of_calls(ends: &[CallEnd])
    ensures { All IsCallInRange ends.now }
{
    for i in 0..ends.len() {
        numbers_of_call(&ends[i]);
    }
}

/// The closes.
fn numbers_of_answers(answers: &[Answer])
    ensures { All IsAnswerInRange answers.now }
{
    for answer in answers {
        numbers_of_answer(*answer);
    }
}

/// The files.
fn numbers_of_files(ends: &[FileEnd])
    ensures { All IsFileInRange ends.now }
{
    for i in 0..ends.len() {
        numbers_of_file(&ends[i]);
    }
}

/// The lanes.
fn numbers_of_lanes(lanes: &[LaneEnd])
    ensures { All IsLaneInRange lanes.now }
{
    for lane in lanes {
        numbers_of_lane(*lane);
    }
}

/// The numbers of a run have 64 bits and its bytes 8: its types have no others.
pub fn numbers_of_a_run(run: &Run)
    ensures { IsRunInRange run.now }
{
    numbers_of_calls(run.calls.as_slice());
    numbers_of_answers(run.closes.as_slice());
    numbers_of_files(run.ends.files.as_slice());
    let _free = run.ends.free.len();
    numbers_of_lanes(run.lanes.as_slice())
}

/// The first page of a call.
fn number_of_first_page(call: &Call)
    ensures { IsWord call.now.first_page }
{
    let _first = call.first_page;
}

/// The first pages of calls.
fn numbers_of_first_pages(calls: &[Call])
    ensures { All (λ call. IsWord call.first_page) calls.now }
{
    for i in 0..calls.len() {
        number_of_first_page(&calls[i]);
    }
}

/// The numbers of a script's pages have 64 bits: its types have no others.
pub fn numbers_of_a_script(script: &Script)
    ensures { IsScriptInRange script.now }
{
    numbers_of_first_pages(script.calls.as_slice())
}
