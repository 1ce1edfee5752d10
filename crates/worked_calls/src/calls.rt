//! The calls of a caller at the one file of a mount.
ghost use Rattle.std.specs.Prelude.{◌≡◌, length};
ghost use Rattle.worked_calls.specs.Stands.{IsReady, Stays};

use crate::call_texts::expect_text;
use crate::data_calls::{cut, give_space, punch_bytes, read, write, zero};
use crate::page_calls::{drop_pages, flush_run, sync_file, wipe, write_run};
use fault_device::Lane;
use mini_fs::{Mount, Pass};
use std::alloc::AllocError;
use std::process::Abort;
use std::sync::Wait;
use writeback_ioend::ErrorSeen;

/// A call, with its place in the file and its length or its bytes. A wipe is the turn by which a punch with this number makes
/// a hole of a block, without the class that the punch takes.
#[derive(Clone, Copy)]
pub(crate) enum Call {
    Pread { off: u64, bytes: u64 },
    Pwrite { off: u64, bytes: &'static [u8] },
    Zero { off: u64, bytes: u64 },
    Punch { off: u64, bytes: u64 },
    Alloc { off: u64, bytes: u64 },
    Trunc { size: u64 },
    Wipe { number: u32, block: u64 },
    Wb { from: u64, blocks: u64 },
    Sync,
    Flush { from: u64, blocks: u64 },
    Drop,
}

/// A call, and the text of its answer.
pub(crate) type Answered = (Call, &'static str);

/// Makes a call, the next one of its pass, and gives its answer as text. Want of memory is the only error.
pub(crate) fn make_call<R: Abort + Wait>(
    rt: &R,
    mount: &Mount,
    pass: &mut Pass,
    seen: &mut ErrorSeen,
    lane: &mut Lane,
    call: Call,
) -> Result<Vec<u8>, AllocError>
    requires ready { IsReady mount.now pass.old }
    requires counted { length seen.old ≡ 1 }
    ensures stays { Stays mount.now pass.old pass.new }
    ensures counted { length seen.new ≡ 1 }
{
    match call {
        Call::Pread { off, bytes } => read(rt, mount, pass, lane, off, bytes),
        Call::Pwrite { off, bytes } => write(rt, mount, pass, lane, off, bytes),
        Call::Zero { off, bytes } => zero(rt, mount, pass, lane, off, bytes),
        Call::Punch { off, bytes } => punch_bytes(rt, mount, pass, lane, off, bytes),
        Call::Alloc { off, bytes } => give_space(rt, mount, pass, lane, off, bytes),
        Call::Trunc { size } => cut(rt, mount, pass, lane, size),
        Call::Wipe { number, block } => wipe(rt, mount, pass, number, block),
        Call::Wb { from, blocks } => write_run(rt, mount, pass, lane, from, blocks),
        Call::Sync => sync_file(rt, mount, pass, seen, lane),
        Call::Flush { from, blocks } => flush_run(rt, mount, pass, lane, from, blocks),
        Call::Drop => drop_pages(rt, mount, pass),
    }
}

/// Makes calls in order, each of which answers with its text. Want of memory is the only error.
pub(crate) fn expect_answers<R: Abort + Wait>(
    rt: &R,
    mount: &Mount,
    pass: &mut Pass,
    seen: &mut ErrorSeen,
    lane: &mut Lane,
    calls: &[Answered],
) -> Result<(), AllocError>
    requires ready { IsReady mount.now pass.old }
    requires counted { length seen.old ≡ 1 }
    ensures stays { Stays mount.now pass.old pass.new }
    ensures counted { length seen.new ≡ 1 }
{
    for (call, want) in calls {
        let text = make_call(rt, mount, pass, seen, lane, *call)?;
        expect_text(rt, text.as_slice(), want);
    }
    Ok(())
}
