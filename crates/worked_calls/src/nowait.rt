//! Reads that do not wait.
ghost use Rattle.worked_calls.specs.Stands.{IsReady, Stays};

use crate::buffers::buffer;
use crate::call_texts::expect_text;
use crate::calls::{Call, expect_answers};
use crate::data_calls::next_number;
use crate::ends::append_lane;
use crate::files::{lane, started};
use crate::runs::append_end;
use buffered_read::pread_nowait;
use io_model::{Extent, Kind};
use iob_base::{Answer, Fault, Reply, Stop, Why};
use mini_fs::{Mount, Pass};
use std::alloc::{AllocError, Global};
use std::process::Abort;
use std::sync::Wait;
use std::test::Fail;
use worked_mounts::{Begin, FILE};
use writeback_ioend::ErrorSeen;

// A file of a block that is on the device, and a hole.
const TWO: Begin = Begin {
    device: 8,
    blocks: 2,
    size: None,
    cookie: 0,
};

const FIRST_MAPPED: [Extent; 1] = [Extent {
    block: 0,
    length: 1,
    kind: Kind::Mapped(5),
}];

// Tries to read the first block without waiting. Want of memory is the only error.
fn try_read<R: Abort + Wait>(rt: &R, mount: &Mount, pass: &mut Pass) -> Result<Answer, AllocError>
    requires { IsReady mount.now pass.old }
    ensures { Stays mount.now pass.old pass.new }
{
    let mut iov = buffer(rt, mount.allocator(), 16)?;
    let call = next_number(rt, pass);
    assert!(rt; !mount.sized(FILE), "a file without a size");
    mount.is_laid_out();
    let hold = mount.cached(rt, pass, FILE);
    let answer = pread_nowait(mount, pass, &hold, call, FILE, 0, &mut iov);
    mount.leave_cached(pass, hold);
    Ok(answer)
}

// The first block is not in the cache.
fn expect_cold(rt: &impl Abort, answer: Answer) {
    assert!(rt;
        matches!(
            answer.reply,
            Reply::Err {
                fault: Fault::Again(Why::Cold { block: 0 }),
                sent: 0
            }
        ),
        "the block is cold"
    );
    assert_eq!(rt; answer.bios, 0);
}

// All of it was read.
fn expect_whole(rt: &impl Abort, answer: Answer) {
    assert!(rt;
        matches!(
            answer.reply,
            Reply::Ok {
                count: 16,
                stop: Stop::Whole
            }
        ),
        "the block is read"
    );
    assert_eq!(rt; answer.bios, 0);
}

// A block that is not in the cache hinders the read, and nothing is sent. Once another read has brought the block in, it is
// read.
fn try_cold_and_warm<R: Abort + Wait>(rt: &R, alloc: Global) -> Result<(), AllocError> {
    let (mount, mut pass) = started(alloc, TWO, &FIRST_MAPPED)?;
    let mut seen = ErrorSeen::new(alloc, 1)?;
    let mut lane = lane(alloc, 0, &[])?;
    expect_cold(rt, try_read(rt, &mount, &mut pass)?);
    let calls = [(Call::Pread { off: 0, bytes: 2 }, "ok 2 eeee bios 1")];
    expect_answers(rt, &mount, &mut pass, &mut seen, &mut lane, &calls)?;
    expect_whole(rt, try_read(rt, &mount, &mut pass)?);
    let left = "journal f 0 2 3
map f 0 1 mapped 5
free 7
lane 0 ops 1 faults 0
";
    let mut text = Vec::new(alloc);
    append_end(&mut text, mount, pass)?;
    append_lane(&mut text, &lane)?;
    expect_text(rt, text.as_slice(), left);
    Ok(())
}

#[test]
fn calls_that_do_not_wait(rt: HostRuntime) -> Result<(), Fail> {
    try_cold_and_warm(&rt, rt.alloc())?;
    Ok(())
}
