//! Dirty pages that are written to the device, or are not because a transfer fails.
use crate::calls::Call;
use crate::runs::{Run, expect_runs};
use io_model::{Extent, Kind};
use std::test::Fail;
use worked_mounts::Begin;

// A file of two blocks, of which the first one has space that was never written.
const TWO: Begin = Begin {
    device: 8,
    blocks: 2,
    size: None,
    cookie: 0,
};

const UNWRITTEN: [Extent; 1] = [Extent {
    block: 0,
    length: 1,
    kind: Kind::Unwritten(3),
}];

// The bytes beside those written are zeros, and the space is mapped once it is written.
const CONVERTED: Run = Run {
    faults: &[],
    calls: &[
        (
            Call::Pwrite {
                off: 4,
                bytes: b"ABCDE",
            },
            "ok 5 bios 0",
        ),
        (
            Call::Pread { off: 0, bytes: 16 },
            "ok 16 00000000414243444500000000000000 bios 0",
        ),
    ],
    left: "close f ok 1 bios 1
journal f 0 1 2
map f 0 1 mapped 3
free 7
lane 16 ops 1 faults 0
",
};

#[test]
fn unwritten_space_is_mapped_once_written(rt: HostRuntime) -> Result<(), Fail> {
    expect_runs(&rt, rt.alloc(), TWO, &UNWRITTEN, &[CONVERTED])?;
    Ok(())
}

// A file of one block.
const ONE: Begin = Begin {
    device: 8,
    blocks: 1,
    size: None,
    cookie: 0,
};

// The first sync tells of the failed writeback, which left the block dirty. The second one writes it.
const TOLD: Run = Run {
    faults: &[(0, 1)],
    calls: &[
        (
            Call::Pwrite {
                off: 0,
                bytes: &[b'A'; 16],
            },
            "ok 16 bios 0",
        ),
        (Call::Sync, "err EIO seen 0 count 1 bios 1"),
        (Call::Sync, "ok 1 bios 1"),
    ],
    left: "close f ok 0 bios 0
journal f 0 1
map f 0 1 mapped 3
free 7
lane 0 ops 2 faults 1
",
};

#[test]
fn failed_sync_is_told_once(rt: HostRuntime) -> Result<(), Fail> {
    expect_runs(&rt, rt.alloc(), ONE, &UNWRITTEN, &[TOLD])?;
    Ok(())
}

// A page that was written is clean and can be dropped, and is read from the device again.
const DROPPED: Run = Run {
    faults: &[],
    calls: &[
        (
            Call::Pwrite {
                off: 0,
                bytes: &[b'A'; 16],
            },
            "ok 16 bios 0",
        ),
        (Call::Sync, "ok 1 bios 1"),
        (Call::Drop, "ok 1 bios 0"),
        (Call::Pread { off: 0, bytes: 4 }, "ok 4 41414141 bios 1"),
    ],
    left: "close f ok 0 bios 0
journal f 0 1 4
map f 0 1 mapped 0
free 7
lane 0 ops 2 faults 0
",
};

// A page whose writeback failed stays in the cache. Who wrote it back is not told, but who syncs.
const KEPT: Run = Run {
    faults: &[(0, 1)],
    calls: &[
        (
            Call::Pwrite {
                off: 0,
                bytes: &[b'A'; 16],
            },
            "ok 16 bios 0",
        ),
        (Call::Wb { from: 0, blocks: 1 }, "ok 0 bios 1"),
        (Call::Drop, "ok 0 bios 0"),
        (Call::Pread { off: 0, bytes: 2 }, "ok 2 4141 bios 0"),
    ],
    left: "close f err EIO seen 0 count 1 bios 1
journal f 0 1 4
map f 0 1 mapped 0
free 7
lane 0 ops 1 faults 1
lane 16 ops 1 faults 0
",
};

// Where the last sync fails the page is left, and its space is not mapped.
const LEFT: Run = Run {
    faults: &[(16, 1)],
    calls: &[(
        Call::Pwrite {
            off: 0,
            bytes: &[b'A'; 16],
        },
        "ok 16 bios 0",
    )],
    left: "close f err EIO seen 0 count 1 bios 1
journal f 0 1
map f 0 1 unwritten 0
dirty f 0 41414141414141414141414141414141
free 7
lane 16 ops 1 faults 1
",
};

#[test]
fn pages_stay_until_they_are_written(rt: HostRuntime) -> Result<(), Fail> {
    let runs = [DROPPED, KEPT, LEFT];
    expect_runs(&rt, rt.alloc(), ONE, &[], &runs)?;
    Ok(())
}

// A file of two folios of four holes each.
const TWO_FOLIOS: Begin = Begin {
    device: 8,
    blocks: 8,
    size: None,
    cookie: 0,
};

// A flush writes the dirty blocks of its run alone. It tells of the first transfer that failed, goes on behind it, and does
// not try it again.
const FLUSHED: Run = Run {
    faults: &[(0, 2)],
    calls: &[
        (
            Call::Pwrite {
                off: 0,
                bytes: &[b'A'; 128],
            },
            "ok 128 bios 0",
        ),
        (Call::Flush { from: 1, blocks: 2 }, "flushed bios 1"),
        (
            Call::Flush { from: 3, blocks: 9 },
            "err EIO lane 0 rose 0 1 bios 2",
        ),
    ],
    left: "close f err EIO seen 0 count 1 bios 2
journal f 0 1
journal f 1 1
journal f 2 1
journal f 3 1
journal f 4 1
journal f 5 1
journal f 6 1
journal f 7 1
map f 0 1 mapped 7
map f 1 7 mapped 0
free 0
lane 0 ops 3 faults 1
lane 16 ops 2 faults 0
",
};

#[test]
fn flush_writes_its_run(rt: HostRuntime) -> Result<(), Fail> {
    expect_runs(&rt, rt.alloc(), TWO_FOLIOS, &[], &[FLUSHED])?;
    Ok(())
}

// A file of 4,096 holes, 64 stripes.
const LARGE: Begin = Begin {
    device: 8,
    blocks: 4096,
    size: None,
    cookie: 0,
};

// One block is dirty, far behind the first one, and is all that is written.
const ONE_DIRTY: Run = Run {
    faults: &[],
    calls: &[
        (
            Call::Pwrite {
                off: 48_000,
                bytes: &[b'A'; 16],
            },
            "ok 16 bios 0",
        ),
        (
            Call::Wb {
                from: 0,
                blocks: 4096,
            },
            "ok 1 bios 1",
        ),
        (Call::Sync, "ok 0 bios 0"),
        (
            Call::Pwrite {
                off: 48_015,
                bytes: b"B",
            },
            "ok 1 bios 0",
        ),
        (Call::Sync, "ok 1 bios 1"),
    ],
    left: "close f ok 0 bios 0
journal f 3000 1 4
map f 3000 1 mapped 0
free 7
lane 0 ops 2 faults 0
",
};

#[test]
fn one_dirty_block_of_many_is_written(rt: HostRuntime) -> Result<(), Fail> {
    expect_runs(&rt, rt.alloc(), LARGE, &[], &[ONE_DIRTY])?;
    Ok(())
}
