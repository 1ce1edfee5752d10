//! Writes through the page cache, which a sync brings to the device at the end of each run.
use crate::calls::Call;
use crate::runs::{Run, expect_runs};
use io_model::{Extent, Kind};
use std::test::Fail;
use worked_mounts::Begin;

// A file of four holes on a device of eight blocks.
const HOLES: Begin = Begin {
    device: 8,
    blocks: 4,
    size: None,
    cookie: 0,
};

// Whole blocks are written without a read, and get space when they are written back, in one bio.
const WHOLE: Run = Run {
    faults: &[],
    calls: &[(
        Call::Pwrite {
            off: 16,
            bytes: &[b'A'; 48],
        },
        "ok 48 bios 0",
    )],
    left: "close f ok 3 bios 1
journal f 1 1
journal f 2 1
journal f 3 1
map f 1 3 mapped 0
free 5
lane 16 ops 1 faults 0
",
};

#[test]
fn whole_blocks_are_written_without_a_bio(rt: HostRuntime) -> Result<(), Fail> {
    expect_runs(&rt, rt.alloc(), HOLES, &[], &[WHOLE])?;
    Ok(())
}

// A file of one block of the device.
const ONE: Begin = Begin {
    device: 8,
    blocks: 1,
    size: None,
    cookie: 0,
};

const MAPPED: [Extent; 1] = [Extent {
    block: 0,
    length: 1,
    kind: Kind::Mapped(5),
}];

// The bytes beside those written are the block's own, and the page stays in the cache.
const PARTIAL: Run = Run {
    faults: &[],
    calls: &[
        (
            Call::Pwrite {
                off: 2,
                bytes: b"AB",
            },
            "ok 2 bios 1",
        ),
        (Call::Pread { off: 0, bytes: 6 }, "ok 6 eeee4142eeee bios 0"),
    ],
    left: "close f ok 1 bios 1
journal f 0 1 2
map f 0 1 mapped 5
free 7
lane 0 ops 1 faults 0
lane 16 ops 1 faults 0
",
};

// Without the block's own bytes nothing is written.
const UNREAD: Run = Run {
    faults: &[(0, 1)],
    calls: &[(
        Call::Pwrite {
            off: 2,
            bytes: b"AB",
        },
        "err EIO lane 0 rose 0 1 bios 1",
    )],
    left: "close f ok 0 bios 0
map f 0 1 mapped 5
free 7
lane 0 ops 1 faults 1
",
};

#[test]
fn partial_write_reads_the_block(rt: HostRuntime) -> Result<(), Fail> {
    expect_runs(&rt, rt.alloc(), ONE, &MAPPED, &[PARTIAL, UNREAD])?;
    Ok(())
}

// A file of eight holes on a device of four blocks.
const LITTLE: Begin = Begin {
    device: 4,
    blocks: 8,
    size: None,
    cookie: 0,
};

// Space that is given reads as zeros, and a punch takes it back.
const GIVEN: Run = Run {
    faults: &[],
    calls: &[
        (Call::Alloc { off: 0, bytes: 48 }, "ok 3 bios 0"),
        (Call::Punch { off: 16, bytes: 16 }, "ok 16 bios 0"),
        (
            Call::Pread { off: 0, bytes: 20 },
            "ok 20 0000000000000000000000000000000000000000 bios 0",
        ),
    ],
    left: "close f ok 0 bios 0
journal f 0 3
journal f 1 2 3
map f 0 1 unwritten 0
map f 2 1 unwritten 2
free 2
",
};

// An allocation gives a stripe all that it asks or nothing. A write goes as far as space goes.
const WANTING: Run = Run {
    faults: &[],
    calls: &[
        (
            Call::Alloc { off: 0, bytes: 80 },
            "err ENOSPC wanted 5 found 4 bios 0",
        ),
        (
            Call::Pwrite {
                off: 16,
                bytes: &[b'C'; 80],
            },
            "ok 64 short ENOSPC wanted 1 found 0 bios 0",
        ),
    ],
    left: "close f ok 4 bios 2
journal f 1 2
journal f 2 2
journal f 3 2
journal f 4 2
map f 1 4 mapped 0
free 0
lane 16 ops 2 faults 0
",
};

#[test]
fn space_is_given_and_taken_and_ends(rt: HostRuntime) -> Result<(), Fail> {
    expect_runs(&rt, rt.alloc(), LITTLE, &[], &[GIVEN, WANTING])?;
    Ok(())
}

// A file of two holes.
const TWO: Begin = Begin {
    device: 8,
    blocks: 2,
    size: None,
    cookie: 0,
};

const AT_THE_END: Run = Run {
    faults: &[],
    calls: &[
        (
            Call::Pwrite {
                off: 31,
                bytes: b"A",
            },
            "ok 1 bios 0",
        ),
        (
            Call::Pwrite {
                off: 30,
                bytes: b"BCD",
            },
            "ok 2 short END bios 0",
        ),
        (
            Call::Pwrite {
                off: 32,
                bytes: b"E",
            },
            "err EFBIG offset 32 end 32 bios 0",
        ),
        (
            Call::Pwrite {
                off: 32,
                bytes: b"",
            },
            "ok 0 bios 0",
        ),
        (
            Call::Pread { off: 30, bytes: 4 },
            "ok 2 4243 short END bios 0",
        ),
        (Call::Pread { off: 40, bytes: 1 }, "ok 0 - short END bios 0"),
    ],
    left: "close f ok 1 bios 1
journal f 1 1 2 5
map f 1 1 mapped 0
free 7
lane 16 ops 1 faults 0
",
};

#[test]
fn ends_at_the_files_end(rt: HostRuntime) -> Result<(), Fail> {
    expect_runs(&rt, rt.alloc(), TWO, &[], &[AT_THE_END])?;
    Ok(())
}
