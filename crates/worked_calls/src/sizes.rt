//! A file with a size.
use crate::calls::Call;
use crate::runs::{Run, expect_runs};
use io_model::{Extent, Kind};
use std::test::Fail;
use worked_mounts::Begin;

// A file of four blocks, of whose 64 bytes 5 are its size.
const SIZED: Begin = Begin {
    device: 8,
    blocks: 4,
    size: Some(5),
    cookie: 0,
};

const FIRST_MAPPED: [Extent; 1] = [Extent {
    block: 0,
    length: 1,
    kind: Kind::Mapped(2),
}];

// A read is cut at the size, a write past it makes it larger, and what lies between reads as zeros. A cut makes zeros of what
// lies behind it, up to the end of the block that had the last byte.
const GROWN_AND_CUT: Run = Run {
    faults: &[],
    calls: &[
        (
            Call::Pread { off: 0, bytes: 16 },
            "ok 5 eeeeeeeeee short END bios 1",
        ),
        (
            Call::Pwrite {
                off: 20,
                bytes: b"A",
            },
            "ok 1 bios 0",
        ),
        (
            Call::Pread { off: 0, bytes: 24 },
            "ok 21 eeeeeeeeee00000000000000000000000000000041 short END bios 0",
        ),
        (Call::Trunc { size: 3 }, "ok 29 bios 0"),
        (
            Call::Pread { off: 0, bytes: 8 },
            "ok 3 eeeeee short END bios 0",
        ),
    ],
    left: "close f ok 1 bios 1
journal f 0 1 3 4 5
journal f 1 2 3 4
sizes f 1S5 2G21 3S21 4S21 4C3 5S3
size f 3
map f 0 1 mapped 2
free 7
lane 0 ops 1 faults 0
lane 16 ops 1 faults 0
",
};

// The file has no such byte in its blocks, and nothing is done.
const TOO_FAR: Run = Run {
    faults: &[],
    calls: &[(
        Call::Trunc { size: 65 },
        "err EFBIG offset 65 end 64 bios 0",
    )],
    left: "close f ok 0 bios 0
size f 5
map f 0 1 mapped 2
free 7
",
};

#[test]
fn sizes_cut_and_grow(rt: HostRuntime) -> Result<(), Fail> {
    let runs = [GROWN_AND_CUT, TOO_FAR];
    expect_runs(&rt, rt.alloc(), SIZED, &FIRST_MAPPED, &runs)?;
    Ok(())
}
