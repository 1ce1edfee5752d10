//! Reads through the page cache.
use crate::calls::Call;
use crate::runs::{Run, expect_runs};
use io_model::{Extent, Kind};
use std::test::Fail;
use worked_mounts::Begin;

// A file of three blocks on a device of eight: mapped, a hole, and space that was never written.
const THREE_KINDS: Begin = Begin {
    device: 8,
    blocks: 3,
    size: None,
    cookie: 0,
};

const KINDS: [Extent; 2] = [
    Extent {
        block: 0,
        length: 1,
        kind: Kind::Mapped(5),
    },
    Extent {
        block: 2,
        length: 1,
        kind: Kind::Unwritten(6),
    },
];

// The second read meets no block that is on the device, and sends no bio.
const READS: Run = Run {
    faults: &[],
    calls: &[
        (Call::Pread { off: 14, bytes: 4 }, "ok 4 eeee0000 bios 1"),
        (Call::Pread { off: 30, bytes: 4 }, "ok 4 00000000 bios 0"),
    ],
    left: "close f ok 0 bios 0
journal f 0 1
journal f 1 1 2
journal f 2 2
map f 0 1 mapped 5
map f 2 1 unwritten 6
free 6
lane 0 ops 1 faults 0
",
};

#[test]
fn hole_and_unwritten_read_zeros(rt: HostRuntime) -> Result<(), Fail> {
    expect_runs(&rt, rt.alloc(), THREE_KINDS, &KINDS, &[READS])?;
    Ok(())
}

// A file of eight blocks, two folios, that are all of the device.
const EIGHT: Begin = Begin {
    device: 8,
    blocks: 8,
    size: None,
    cookie: 0,
};

const ALL_MAPPED: [Extent; 1] = [Extent {
    block: 0,
    length: 8,
    kind: Kind::Mapped(0),
}];

// The read goes by folios, and the bio of the second one fails.
const SHORT: Run = Run {
    faults: &[(0, 2)],
    calls: &[(
        Call::Pread { off: 60, bytes: 8 },
        "ok 4 eeeeeeee short EIO lane 0 rose 0 1 bios 2",
    )],
    left: "close f ok 0 bios 0
journal f 3 1
map f 0 8 mapped 0
free 0
lane 0 ops 2 faults 1
",
};

#[test]
fn short_read_at_a_fault(rt: HostRuntime) -> Result<(), Fail> {
    expect_runs(&rt, rt.alloc(), EIGHT, &ALL_MAPPED, &[SHORT])?;
    Ok(())
}
