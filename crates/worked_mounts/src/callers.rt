//! Two callers on threads of their own, and a caller without a shelf for its bios.
ghost use Rattle.std.specs.Prelude.{◌≡◌, ◌<◌, IfOk};
ghost use Rattle.worked_mounts.specs.Alone.{IsAlone, share_of};

use crate::mount_ground::started;
use crate::mount_passes::{join, join_all, split, split_all};
use crate::mount_texts::{block_text, extents_text};
use crate::mount_writes::write_through;
use crate::single::{Begin, FILE, ended, file_left};
use fault_device::{Lane, Listed};
use io_model::{Extent, FileEnd, Kind};
use mini_fs::{Mount, Pass};
use std::alloc::{AllocError, Global};
use std::process::Abort;
use std::sync::Wait;
use std::test::Fail;
use std::thread;
use std::thread::Threads;

// A file of two stripes, without a size.
const TWO_STRIPES: Begin = Begin {
    device: 2,
    blocks: 128,
    size: None,
    cookie: 0,
};

// The first block of each stripe has space that was never written.
const UNWRITTEN: [Extent; 2] = [
    Extent {
        block: 0,
        length: 1,
        kind: Kind::Unwritten(0),
    },
    Extent {
        block: 64,
        length: 1,
        kind: Kind::Unwritten(1),
    },
];

/// A device that lets no transfer fail, until one is armed.
pub(crate) fn lane(alloc: Global, number: u32) -> Result<Lane, AllocError> {
    Ok(Lane::new(number, Box::new(alloc, Listed::new(alloc))?))
}

// A caller's one call: it lays bytes over a block and writes the block to the device, on a lane of this number.
fn caller<R: Abort + Wait>(
    rt: &R,
    mount: &Mount,
    mut pass: Pass,
    number: u32,
    call: u32,
    block: u64,
    bytes: &[u8],
) -> Result<Pass, AllocError>
    requires alone { IsAlone mount.now pass }
    requires share { 1 < share_of pass }
    ensures alone { IfOk result (λ after. IsAlone mount.now after) }
    ensures share { IfOk result (λ after. share_of after ≡ share_of pass) }
{
    let mut lane = lane(mount.allocator(), number)?;
    let done = write_through(rt, mount, &mut pass, &mut lane, FILE, call, block, bytes)?;
    assert_eq!(rt; (done.lane, done.landed, done.failed), (number, 1, false));
    Ok(pass)
}

// Two callers write to the first blocks of two stripes, each on a thread and a lane of its own.
fn call_both<R: Abort + Threads + Wait + Sync>(
    rt: &R,
    mount: &Mount,
    first: Pass,
    other: Pass,
) -> Result<(Pass, Pass), AllocError>
    requires first { IsAlone mount.now first × (1 < share_of first) }
    requires other { IsAlone mount.now other × (1 < share_of other) }
    ensures first { IfOk result (λ r. IsAlone mount.now r.0 × (share_of r.0 ≡ share_of first)) }
    ensures other { IfOk result (λ r. IsAlone mount.now r.1 × (share_of r.1 ≡ share_of other)) }
{
    let (mine, theirs) = thread::join(
        rt,
        move ||
            requires { IsAlone mount.now first × (1 < share_of first) }
            ensures { IfOk result (λ after. IsAlone mount.entry.now after × (share_of after ≡ share_of first)) }
        { caller(rt, mount, first, 0, 3, 0, b"the-first-caller") },
        move ||
            requires { IsAlone mount.now other × (1 < share_of other) }
            ensures { IfOk result (λ after. IsAlone mount.entry.now after × (share_of after ≡ share_of other)) }
        { caller(rt, mount, other, 1, 5, 64, b"the-other-caller") },
    );
    Ok((mine?, theirs?))
}

// What two callers on two threads leave of the file.
fn write_by_two<R: Abort + Threads + Wait + Sync>(rt: &R, alloc: Global) -> Result<FileEnd, Fail> {
    let (mount, mut pass) = started(alloc, TWO_STRIPES, &UNWRITTEN)?;
    let other = split(rt, &mount, &mut pass)?;
    let (mut pass, other) = call_both(rt, &mount, pass, other)?;
    join(rt, &mount, &mut pass, other);
    file_left(ended(mount, pass)?).ok_or_else(|| Fail::from("there is a file"))
}

/// The block of this number, and its journal, are as this text.
pub(crate) fn expect_block(
    rt: &impl Abort,
    alloc: Global,
    end: &FileEnd,
    block: usize,
    want: &str,
) -> Result<(), Fail> {
    let block = end
        .blocks
        .as_slice()
        .get(block)
        .ok_or("a block of the file")?;
    assert_eq!(rt; block_text(alloc, block)?.as_str(), want);
    Ok(())
}

// Each caller's bytes are on the device, its block is mapped and clean, and its call left one stamp.
#[test]
fn two_callers_on_two_threads(rt: HostRuntime) -> Result<(), Fail> {
    let alloc = rt.alloc();
    let left = write_by_two(&rt, alloc)?;
    assert_eq!(rt;
        extents_text(alloc, left.extents.as_slice())?.as_str(),
        "0+1 mapped 0, 1+63 hole, 64+1 mapped 1, 65+63 hole"
    );
    expect_block(&rt, alloc, &left, 0, "0 the-first-caller, 0.3 done")?;
    expect_block(&rt, alloc, &left, 64, "1 the-other-caller, 1.5 done")?;
    Ok(())
}

// A file of three blocks, without a size.
const THREE_BLOCKS: Begin = Begin {
    device: 3,
    blocks: 3,
    size: None,
    cookie: 0,
};

const THREE_UNWRITTEN: [Extent; 1] = [Extent {
    block: 0,
    length: 3,
    kind: Kind::Unwritten(0),
}];

// A caller writes three blocks once others have all shelves of the mount.
fn write_without_shelf<R: Abort + Wait>(rt: &R, alloc: Global) -> Result<FileEnd, Fail> {
    let (mount, mut pass) = started(alloc, THREE_BLOCKS, &THREE_UNWRITTEN)?;
    let others = split_all(rt, alloc, &mount, &mut pass, 31)?;
    let other = split(rt, &mount, &mut pass)?;
    let other = caller(rt, &mount, other, 7, 1, 0, b"the-first-block!")?;
    let other = caller(rt, &mount, other, 8, 2, 1, b"the-second-block")?;
    let other = caller(rt, &mount, other, 9, 3, 2, b"the-third-block!")?;
    join(rt, &mount, &mut pass, other);
    join_all(rt, &mount, &mut pass, others);
    file_left(ended(mount, pass)?).ok_or_else(|| Fail::from("there is a file"))
}

// A mount has 32 shelves, and each split gives one on where there is another. So after 31 splits the next pass gets none, and
// its bios never go through the queue: each is run by its sender, and comes back with its bytes written.
#[test]
fn bios_run_without_a_shelf(rt: HostRuntime) -> Result<(), Fail> {
    let alloc = rt.alloc();
    let left = write_without_shelf(&rt, alloc)?;
    assert_eq!(rt;
        extents_text(alloc, left.extents.as_slice())?.as_str(),
        "0+3 mapped 0"
    );
    expect_block(&rt, alloc, &left, 0, "0 the-first-block!, 32.1 done")?;
    expect_block(&rt, alloc, &left, 1, "1 the-second-block, 32.2 done")?;
    expect_block(&rt, alloc, &left, 2, "2 the-third-block!, 32.3 done")?;
    Ok(())
}
