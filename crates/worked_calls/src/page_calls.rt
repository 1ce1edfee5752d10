//! The calls that write the pages of the file to the device and drop them, and the turn by which a block becomes a hole.
ghost use Rattle.std.specs.Prelude.{◌≡◌, length};
ghost use Rattle.worked_calls.specs.Stands.{IsReady, Stays};

use crate::call_texts::{done_text, flushed_text};
use crate::data_calls::next_number;
use fault_device::Lane;
use iob_base::{Answer, Reply, Stop, Tag};
use mini_fs::{Mount, Pass};
use std::alloc::AllocError;
use std::process::Abort;
use std::sync::Wait;
use worked_mounts::FILE;
use writeback_ioend::{ErrorSeen, drop_cache, flush, sync, write_back};

/// Makes a hole of a block, as a punch of this number does in one turn. Want of memory is the only error.
pub(crate) fn wipe<R: Abort + Wait>(
    rt: &R,
    mount: &Mount,
    pass: &mut Pass,
    number: u32,
    block: u64,
) -> Result<Vec<u8>, AllocError>
    requires { IsReady mount.now pass.old }
    ensures { Stays mount.now pass.old pass.new }
{
    let by = Tag {
        caller: pass.caller(),
        call: number,
    };
    assert!(rt; block < mount.blocks(FILE), "a block of the file");
    mount.is_laid_out();
    let wiped = mount.wipe(rt, pass, FILE, by, block, 1);
    let answer = Answer {
        reply: Reply::Ok {
            count: wiped.unwrap_or(0),
            stop: Stop::Whole,
        },
        bios: 0,
    };
    done_text(mount.allocator(), answer)
}

/// Writes the dirty blocks of a run. Want of memory is the only error.
pub(crate) fn write_run<R: Abort + Wait>(
    rt: &R,
    mount: &Mount,
    pass: &mut Pass,
    lane: &mut Lane,
    from: u64,
    blocks: u64,
) -> Result<Vec<u8>, AllocError>
    requires { IsReady mount.now pass.old }
    ensures { Stays mount.now pass.old pass.new }
{
    mount.is_laid_out();
    let call = next_number(rt, pass);
    let answer = write_back(rt, mount, pass, lane, call, FILE, from, blocks);
    done_text(mount.allocator(), answer)
}

/// Writes all dirty blocks, and tells of failed writebacks that the caller was not told of. Want of memory is the only error.
pub(crate) fn sync_file<R: Abort + Wait>(
    rt: &R,
    mount: &Mount,
    pass: &mut Pass,
    seen: &mut ErrorSeen,
    lane: &mut Lane,
) -> Result<Vec<u8>, AllocError>
    requires ready { IsReady mount.now pass.old }
    requires counted { length seen.old ≡ 1 }
    ensures stays { Stays mount.now pass.old pass.new }
    ensures counted { length seen.new ≡ 1 }
{
    mount.is_laid_out();
    let call = next_number(rt, pass);
    let answer = sync(rt, mount, pass, seen, lane, call, FILE);
    done_text(mount.allocator(), answer)
}

/// Writes the dirty blocks of a run, as another call does inside. Want of memory is the only error.
pub(crate) fn flush_run<R: Abort + Wait>(
    rt: &R,
    mount: &Mount,
    pass: &mut Pass,
    lane: &mut Lane,
    from: u64,
    blocks: u64,
) -> Result<Vec<u8>, AllocError>
    requires { IsReady mount.now pass.old }
    ensures { Stays mount.now pass.old pass.new }
{
    mount.is_laid_out();
    let flushed = flush(rt, mount, pass, lane, FILE, from, blocks);
    flushed_text(mount.allocator(), flushed)
}

/// Drops the clean pages. Want of memory is the only error.
pub(crate) fn drop_pages<R: Abort + Wait>(
    rt: &R,
    mount: &Mount,
    pass: &mut Pass,
) -> Result<Vec<u8>, AllocError>
    requires { IsReady mount.now pass.old }
    ensures { Stays mount.now pass.old pass.new }
{
    mount.is_laid_out();
    let call = next_number(rt, pass);
    let answer = drop_cache(rt, mount, pass, call, FILE);
    done_text(mount.allocator(), answer)
}
