//! Ranges that become zeros.
use crate::calls::Call;
use crate::runs::{Run, expect_runs};
use io_model::{Extent, Kind};
use std::test::Fail;
use worked_mounts::Begin;

// A file of three blocks of the device.
const THREE: Begin = Begin {
    device: 8,
    blocks: 3,
    size: None,
    cookie: 0,
};

const ALL_MAPPED: [Extent; 1] = [Extent {
    block: 0,
    length: 3,
    kind: Kind::Mapped(0),
}];

// The punch covers the second block whole, which becomes a hole, and half of each of the two beside it, which are read for it
// and keep their space. What is in the cache is zeroed without a bio.
const PUNCHED: Run = Run {
    faults: &[],
    calls: &[
        (Call::Punch { off: 8, bytes: 32 }, "ok 32 bios 2"),
        (Call::Pread { off: 6, bytes: 4 }, "ok 4 eeee0000 bios 0"),
        (Call::Zero { off: 44, bytes: 2 }, "ok 2 bios 0"),
        (
            Call::Pread { off: 40, bytes: 8 },
            "ok 8 eeeeeeee0000eeee bios 0",
        ),
    ],
    left: "close f ok 2 bios 2
journal f 0 1 2
journal f 1 1
journal f 2 1 3 4
map f 0 1 mapped 0
map f 2 1 mapped 2
free 6
lane 0 ops 2 faults 0
lane 16 ops 2 faults 0
",
};

// The read of the third block fails, and the punch ends before it.
const SHORT: Run = Run {
    faults: &[(0, 2)],
    calls: &[(
        Call::Punch { off: 8, bytes: 32 },
        "ok 24 short EIO lane 0 rose 0 1 bios 2",
    )],
    left: "close f ok 1 bios 1
journal f 0 1
journal f 1 1
map f 0 1 mapped 0
map f 2 1 mapped 2
free 6
lane 0 ops 2 faults 1
lane 16 ops 1 faults 0
",
};

#[test]
fn punched_and_zeroed_bytes_read_as_zeros(rt: HostRuntime) -> Result<(), Fail> {
    expect_runs(&rt, rt.alloc(), THREE, &ALL_MAPPED, &[PUNCHED, SHORT])?;
    Ok(())
}
