//! The one read.
ghost use Rattle.std.specs.Prelude.{◌≡◌, ◌-◌, ◌*◌, ◌/◌, ◌%◌, ◌+◌, ◌≤◌, false, [], ◌∷◌, All, IfOk, length, take, drop, replicate};
ghost use Rattle.io_model.specs.Fitting.{is_again};
ghost use Rattle.iob_base.specs.declared.answer.Reply.TheVariants.{Err as Failed};
ghost use Rattle.iob_base.specs.Parting.{bare_part, pages_of};
ghost use Rattle.iomap_replay.specs.Causes.{IsCausedReply};
ghost use Rattle.iomap_replay.specs.Jobs.{IsJobOf};
ghost use Rattle.iomap_replay.specs.OneRead.{blank, bytes_of, IsOpened, IsOutcome, IsWholeEnd};
ghost use Rattle.fault_device.specs.LaneView.{lane_seen};
ghost use Rattle.fault_device.specs.Opening.{Opening, Serves};

use crate::blocks::{begin_of, count_of};
use crate::job::Job;
use fault_device::Lane;
use io_model::{CallEnd, Script};
use iob_base::{Answer, Fault, Items, Page, Part, Parts, Reply, Stop, Tag};
use range_core::{EventFault, Range};
use std::alloc::{AllocError, Global};

/// A page of zeros, of a block's length. Want of memory is the only error.
fn blank_page(alloc: Global, size: u32) -> Result<Page, AllocError>
    ensures { IfOk result (λ p. p ≡ blank size) }
{
    let bytes = vec![in alloc; 0u8; size as usize]?;
    Ok(Page {
        number: 0,
        bytes: Items::from_vec(bytes),
    })
}

/// A list of so many pages of zeros, as one transfer takes. Want of memory is the only error.
fn blank_pages(alloc: Global, size: u32, n: usize) -> Result<Parts, AllocError>
    requires { n ≤ 16 }
    ensures { IfOk result (λ parts. pages_of parts ≡ replicate n (blank size)) }
{
    let parts = blank_parts(alloc, size, n)?;
    Ok(parts)
}

fn blank_parts(alloc: Global, size: u32, n: usize) -> Result<Parts, AllocError>
    requires { n ≤ 16 }
    ensures { IfOk result (λ parts. parts ≡ replicate n (bare_part (blank size))) }
{
    let mut parts = Parts::new(alloc)?;
    for _ in 0..n {
        parts.push_page(blank_page(alloc, size)?);
    }
    Ok(parts)
}

/// The end of a read that failed.
fn failed_end(alloc: Global, fault: Fault, bios: u64) -> CallEnd
    ensures reply { result.answer.reply ≡ Failed fault 0 }
    ensures bios { result.answer.bios ≡ bios }
    ensures got { result.got ≡ [] }
    ensures pages { result.pages ≡ [] }
{
    CallEnd {
        answer: Answer {
            reply: Reply::Err { fault, sent: 0 },
            bios,
        },
        got: Items::new(alloc),
        pages: Items::new(alloc),
    }
}

/// So many bytes of the pages of these parts, joined, from a place of the first page on. Want of memory is the only
/// error.
fn bytes_from(alloc: Global, parts: &[Part], place: usize, n: usize) -> Result<Vec<u8>, AllocError>
    requires { All (λ p. place ≤ length p.bytes) (pages_of parts.now) }
    ensures { IfOk result (λ bytes. bytes.items ≡ take n (drop place (bytes_of (pages_of parts.now)))) }
{
    let mut bytes = Vec::new(alloc);
    let [first, others @ ..] = parts else {
        return Ok(bytes);
    };
    bytes.extend_from_slice(&first.page.bytes.as_slice()[place..])?;
    for part in others {
        bytes.extend_from_slice(part.page.bytes.as_slice())?;
    }
    bytes.truncate(n);
    Ok(bytes)
}

/// The end of a read whose range begins at a place of the first of these pages. Want of memory is the
/// only error.
fn whole_end(alloc: Global, parts: &[Part], place: usize, n: usize) -> Result<CallEnd, AllocError>
    requires begins { All (λ p. place ≤ length p.bytes) (pages_of parts.now) }
    requires ends { place + n ≤ length (bytes_of (pages_of parts.now)) }
    ensures { IfOk result (λ end. IsWholeEnd end n (take n (drop place (bytes_of (pages_of parts.now))))) }
{
    let got = bytes_from(alloc, parts, place, n)?;
    Ok(CallEnd {
        answer: Answer {
            reply: Reply::Ok {
                count: n as u64,
                stop: Stop::Whole,
            },
            bios: 1,
        },
        got: Items::from_vec(got),
        pages: Items::new(alloc),
    })
}

/// Reads the range of the call, by one event. Want of memory outside it is the only error.
#[tactic(auto, using(crate::proofs::ReadRun::still_serves))]
pub fn read_once(
    alloc: Global,
    script: &Script,
    job: &Job,
    range: &mut Range,
    lane: &mut Lane,
) -> Result<CallEnd, AllocError>
    requires job { IsJobOf script.now job.now }
    requires opened { IsOpened script.now job.now range.old }
    ensures outcome { IfOk result (λ end. IsOutcome script.now job.now end range.old range.new) }
    ensures caused { (o : Opening) → Serves o (lane_seen count tells lane.old)
        → IfOk result (λ end. IsCausedReply o (lane_seen count tells lane.old).number (lane_seen count tells lane.new).count end.answer.reply) }
    ensures serves { (o : Opening) → Serves o (lane_seen count tells lane.old) → Serves o (lane_seen count tells lane.new) }
{
    let size = job.device.block_size;
    let block = begin_of(size, &job.asked);
    let mut pages = blank_pages(alloc, size, count_of(size, &job.asked))?;
    let by = Tag { caller: 0, call: 1 };
    match range.direct_now(by, lane, block, &mut pages) {
        Ok(_) => {
            let place = (job.asked.off % u64::from(size)) as usize;
            whole_end(alloc, pages.as_slice(), place, job.asked.length as usize)
        }
        Err(EventFault::Poison { done }) => {
            let fault = Fault::Eio {
                lane: done.lane,
                before: done.before,
                after: done.after,
            };
            Ok(failed_end(alloc, fault, 1))
        }
        Err(_) => Ok(failed_end(alloc, Fault::NoMemory, 0)),
    }
}
