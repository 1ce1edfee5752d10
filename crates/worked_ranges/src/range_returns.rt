//! What was lent to one of two callers comes back after its transfer, with the turns of the other one in between.
use crate::range_runs::{CACHED, Run, play};
use crate::range_steps::Step;
use iob_base::Op;
use std::test::Fail;

// Blocks are read into the cache for one caller, and are away for the other.
const READ_IN: Run = Run {
    begin: CACHED,
    fails: &[],
    lines: &[
        (0, Step::LendReadRun(0, 2), "ticket 0, 0+2"),
        (1, Step::Fetch(0, 4), "Away { block: 0, ticket: 0 }"),
        (1, Step::SampleRun(0, 6), "cookie 0, errors 0, 0+2 mapped 2"),
        (
            1,
            Step::Store(16, b"0123456789abcdef"),
            "Away { block: 1, ticket: 0 }",
        ),
        (1, Step::LendReadRun(1, 1), "Away { block: 1, ticket: 0 }"),
        (
            1,
            Step::LendDirect(Op::Write, 0, b"xy"),
            "Away { block: 0, ticket: 0 } | xxxxxxxxxxxxxxxx | yyyyyyyyyyyyyyyy",
        ),
        (
            1,
            Step::DirectNowRun(0, b"#"),
            "Away { block: 0, ticket: 0 } | ################",
        ),
        (1, Step::Drop(0, 6), "0"),
        (0, Step::Back, "done, 2 of 2"),
        (1, Step::Fetch(12, 20), "mnopABCD"),
    ],
};

// The read fails after the first of two blocks, and none of them is uptodate. The next one does not fail.
const READ_IN_FAILS: Run = Run {
    begin: CACHED,
    fails: &[1],
    lines: &[
        (0, Step::LendReadRun(0, 6), "ticket 0, 0+2"),
        (1, Step::SampleRun(0, 6), "cookie 0, errors 0, 0+2 mapped 2"),
        (
            1,
            Step::Store(0, b"0123456789abcdef"),
            "Away { block: 0, ticket: 0 }",
        ),
        (0, Step::Back, "failed, 1 of 2"),
        (1, Step::Fetch(0, 4), "Cold { block: 0 }"),
        (1, Step::LendReadRun(0, 6), "ticket 1, 0+2"),
        (1, Step::Back, "done, 2 of 2"),
        (0, Step::Fetch(0, 32), "abcdefghijklmnopABCDEFGHIJKLMNOP"),
    ],
};

#[test]
fn reads_into_the_cache_come_back(rt: HostRuntime) -> Result<(), Fail> {
    for run in [&READ_IN, &READ_IN_FAILS] {
        play(&rt, rt.alloc(), run)?;
    }
    Ok(())
}

// Dirty blocks are written for one caller. The other one stores into one of them meanwhile, and it stays dirty.
const WRITTEN: Run = Run {
    begin: CACHED,
    fails: &[],
    lines: &[
        (0, Step::SampleRun(0, 6), "cookie 0, errors 0, 0+2 mapped 2"),
        (0, Step::Store(0, b"0123456789abcdef"), "ok"),
        (0, Step::Store(16, b"ghijklmnopqrstuv"), "ok"),
        (0, Step::LendWritebackRun(0, 6), "ticket 0, 0+2"),
        (1, Step::Fetch(12, 20), "cdefghij"),
        (1, Step::SampleRun(0, 6), "cookie 0, errors 0, 0+2 mapped 2"),
        (1, Step::Store(14, b"XY"), "ok"),
        (
            1,
            Step::LendWritebackRun(0, 1),
            "Away { block: 0, ticket: 0 }",
        ),
        (1, Step::Drop(0, 2), "0"),
        (0, Step::Back, "done, 2 of 2, 2 written"),
        (1, Step::Fetch(12, 20), "cdXYghij"),
        (
            1,
            Step::DirectNowRun(0, b"##"),
            "Dirty { block: 0 } | ################ | ################",
        ),
        (1, Step::Drop(0, 2), "1"),
        (1, Step::DirectNowRun(1, b"#"), "read 1 | ghijklmnopqrstuv"),
        (1, Step::LendWritebackRun(0, 6), "ticket 1, 0+1"),
        (1, Step::Back, "done, 1 of 1, 1 written"),
        (1, Step::Drop(0, 2), "1"),
        (
            0,
            Step::DirectNowRun(0, b"##"),
            "read 2 | 0123456789abcdXY | ghijklmnopqrstuv",
        ),
    ],
};

// The write fails after the first of two blocks: both are dirty again, the failure is counted, and no byte is lost.
const WRITTEN_FAILS: Run = Run {
    begin: CACHED,
    fails: &[1],
    lines: &[
        (0, Step::SampleRun(0, 6), "cookie 0, errors 0, 0+2 mapped 2"),
        (0, Step::Store(0, b"0123456789abcdef"), "ok"),
        (0, Step::Store(16, b"ghijklmnopqrstuv"), "ok"),
        (0, Step::LendWritebackRun(0, 6), "ticket 0, 0+2"),
        (1, Step::SampleRun(0, 6), "cookie 0, errors 0, 0+2 mapped 2"),
        (1, Step::Store(14, b"XY"), "ok"),
        (0, Step::Back, "failed, 1 of 2, 0 written"),
        (1, Step::SampleRun(0, 6), "cookie 0, errors 1, 0+2 mapped 2"),
        (1, Step::Drop(0, 2), "0"),
        (1, Step::Fetch(12, 20), "cdXYghij"),
        (1, Step::LendWritebackRun(0, 6), "ticket 1, 0+2"),
        (1, Step::Back, "done, 2 of 2, 2 written"),
        (0, Step::Drop(0, 2), "2"),
        (
            0,
            Step::DirectNowRun(0, b"##"),
            "read 2 | 0123456789abcdXY | ghijklmnopqrstuv",
        ),
    ],
};

// Space that was never written is mapped by the write that does not fail, and a sample from before it is stale then.
const CONVERTED: Run = Run {
    begin: CACHED,
    fails: &[1],
    lines: &[
        (
            0,
            Step::SampleRun(2, 1),
            "cookie 0, errors 0, 2+1 unwritten 5",
        ),
        (0, Step::Store(37, b"mid"), "ok"),
        (0, Step::LendWritebackRun(2, 1), "ticket 0, 2+1"),
        (0, Step::Back, "failed, 0 of 1, 0 written"),
        (
            0,
            Step::SampleRun(2, 1),
            "cookie 0, errors 1, 2+1 unwritten 5",
        ),
        (0, Step::LendWritebackRun(2, 1), "ticket 1, 2+1"),
        (
            1,
            Step::SampleRun(2, 1),
            "cookie 0, errors 1, 2+1 unwritten 5",
        ),
        (0, Step::Back, "done, 1 of 1, 1 written"),
        (1, Step::Store(32, b"late"), "Stale { sample: 0, now: 1 }"),
        (1, Step::SampleRun(2, 1), "cookie 1, errors 1, 2+1 mapped 5"),
        (1, Step::Drop(2, 1), "1"),
        (1, Step::DirectNowRun(2, b"#"), "read 1 | .....mid........"),
    ],
};

// The other caller stores into such space while it is away: its bytes are kept where the write fails, and where it does
// not, and the block is written once more for them.
const CONVERTED_UNDER_STORES: Run = Run {
    begin: CACHED,
    fails: &[1],
    lines: &[
        (
            0,
            Step::SampleRun(2, 1),
            "cookie 0, errors 0, 2+1 unwritten 5",
        ),
        (
            1,
            Step::SampleRun(2, 1),
            "cookie 0, errors 0, 2+1 unwritten 5",
        ),
        (0, Step::Store(37, b"mid"), "ok"),
        (0, Step::LendWritebackRun(2, 1), "ticket 0, 2+1"),
        (1, Step::Store(32, b"late"), "ok"),
        (0, Step::Back, "failed, 0 of 1, 0 written"),
        (
            0,
            Step::SampleRun(2, 1),
            "cookie 0, errors 1, 2+1 unwritten 5",
        ),
        (1, Step::Drop(2, 1), "0"),
        (1, Step::Fetch(32, 48), "late.mid........"),
        (0, Step::LendWritebackRun(2, 1), "ticket 1, 2+1"),
        (1, Step::Store(37, b"MID!"), "ok"),
        (0, Step::Back, "done, 1 of 1, 1 written"),
        (1, Step::Store(32, b"x"), "Stale { sample: 0, now: 1 }"),
        (1, Step::SampleRun(2, 1), "cookie 1, errors 1, 2+1 mapped 5"),
        (1, Step::Drop(2, 1), "0"),
        (1, Step::Fetch(32, 48), "late.MID!......."),
        (1, Step::LendWritebackRun(2, 1), "ticket 2, 2+1"),
        (1, Step::Back, "done, 1 of 1, 1 written"),
        (0, Step::SampleRun(2, 1), "cookie 1, errors 1, 2+1 mapped 5"),
        (0, Step::Drop(2, 1), "1"),
        (0, Step::DirectNowRun(2, b"#"), "read 1 | late.MID!......."),
    ],
};

#[test]
fn writes_of_dirty_blocks_come_back(rt: HostRuntime) -> Result<(), Fail> {
    for run in [
        &WRITTEN,
        &WRITTEN_FAILS,
        &CONVERTED,
        &CONVERTED_UNDER_STORES,
    ] {
        play(&rt, rt.alloc(), run)?;
    }
    Ok(())
}

// A direct read that fails after the first of two blocks, and one that does not.
const DIRECT_READS: Run = Run {
    begin: CACHED,
    fails: &[1],
    lines: &[
        (0, Step::SampleRun(0, 6), "cookie 0, errors 0, 0+2 mapped 2"),
        (0, Step::LendDirect(Op::Read, 0, b"##"), "ticket 0, 0+2"),
        (1, Step::Fetch(16, 20), "Away { block: 1, ticket: 0 }"),
        (1, Step::SampleRun(0, 6), "cookie 0, errors 0, 0+2 mapped 2"),
        (
            1,
            Step::Store(0, b"0123456789abcdef"),
            "Away { block: 0, ticket: 0 }",
        ),
        (
            0,
            Step::Back,
            "failed, 1 of 2 | abcdefghijklmnop | ################",
        ),
        (1, Step::LendDirect(Op::Read, 0, b"##"), "ticket 1, 0+2"),
        (
            0,
            Step::Store(0, b"0123456789abcdef"),
            "Away { block: 0, ticket: 1 }",
        ),
        (
            1,
            Step::Back,
            "done, 2 of 2 | abcdefghijklmnop | ABCDEFGHIJKLMNOP",
        ),
        (0, Step::LendReadRun(0, 6), "ticket 2, 0+2"),
        (0, Step::Back, "done, 2 of 2"),
        (0, Step::Fetch(12, 20), "mnopABCD"),
    ],
};

// A direct write of blocks that are in the cache: their pages are gone after it.
const DIRECT_WRITES: Run = Run {
    begin: CACHED,
    fails: &[],
    lines: &[
        (0, Step::LendReadRun(0, 6), "ticket 0, 0+2"),
        (0, Step::Back, "done, 2 of 2"),
        (0, Step::SampleRun(0, 6), "cookie 0, errors 0, 0+2 mapped 2"),
        (0, Step::LendDirect(Op::Write, 0, b"yz"), "ticket 1, 0+2"),
        (1, Step::SampleRun(0, 6), "cookie 0, errors 0, 0+2 mapped 2"),
        (
            1,
            Step::Store(0, b"0123456789abcdef"),
            "Away { block: 0, ticket: 1 }",
        ),
        (
            0,
            Step::Back,
            "done, 2 of 2 | yyyyyyyyyyyyyyyy | zzzzzzzzzzzzzzzz",
        ),
        (1, Step::Fetch(12, 20), "Cold { block: 0 }"),
        (1, Step::LendReadRun(0, 6), "ticket 2, 0+2"),
        (1, Step::Back, "done, 2 of 2"),
        (1, Step::Fetch(12, 20), "yyyyzzzz"),
    ],
};

// Direct writes that fail: of mapped blocks the first half has the bytes, and space that was never written stays so.
const DIRECT_WRITES_FAIL: Run = Run {
    begin: CACHED,
    fails: &[1, 2],
    lines: &[
        (0, Step::SampleRun(0, 6), "cookie 0, errors 0, 0+2 mapped 2"),
        (0, Step::LendDirect(Op::Write, 0, b"yz"), "ticket 0, 0+2"),
        (1, Step::SampleRun(0, 6), "cookie 0, errors 0, 0+2 mapped 2"),
        (
            1,
            Step::Store(0, b"0123456789abcdef"),
            "Away { block: 0, ticket: 0 }",
        ),
        (
            1,
            Step::SampleRun(2, 6),
            "cookie 0, errors 0, 2+1 unwritten 5",
        ),
        (1, Step::LendDirect(Op::Write, 2, b"w"), "ticket 1, 2+1"),
        (0, Step::Fetch(32, 36), "Away { block: 2, ticket: 1 }"),
        (
            0,
            Step::Back,
            "failed, 1 of 2 | yyyyyyyyyyyyyyyy | zzzzzzzzzzzzzzzz",
        ),
        (1, Step::Back, "failed, 0 of 1 | wwwwwwwwwwwwwwww"),
        (1, Step::LendReadRun(0, 6), "ticket 2, 0+2"),
        (1, Step::Back, "done, 2 of 2"),
        (0, Step::Fetch(12, 20), "yyyyABCD"),
        (
            0,
            Step::SampleRun(2, 1),
            "cookie 0, errors 0, 2+1 unwritten 5",
        ),
        (0, Step::Fetch(32, 36), "...."),
    ],
};

// A direct write of space that was never written maps it, and a sample from before it is stale then.
const DIRECT_CONVERTS: Run = Run {
    begin: CACHED,
    fails: &[],
    lines: &[
        (
            0,
            Step::SampleRun(2, 1),
            "cookie 0, errors 0, 2+1 unwritten 5",
        ),
        (
            1,
            Step::SampleRun(2, 1),
            "cookie 0, errors 0, 2+1 unwritten 5",
        ),
        (0, Step::LendDirect(Op::Write, 2, b"w"), "ticket 0, 2+1"),
        (1, Step::Store(32, b"late"), "Away { block: 2, ticket: 0 }"),
        (0, Step::Back, "done, 1 of 1 | wwwwwwwwwwwwwwww"),
        (1, Step::Store(32, b"late"), "Stale { sample: 0, now: 1 }"),
        (1, Step::SampleRun(2, 1), "cookie 1, errors 0, 2+1 mapped 5"),
        (1, Step::Store(32, b"late"), "Cold { block: 2 }"),
        (1, Step::DirectNowRun(2, b"#"), "read 1 | wwwwwwwwwwwwwwww"),
        (1, Step::LendReadRun(2, 1), "ticket 1, 2+1"),
        (1, Step::Back, "done, 1 of 1"),
        (1, Step::Store(32, b"late"), "ok"),
        (0, Step::Fetch(32, 48), "latewwwwwwwwwwww"),
    ],
};

#[test]
fn pages_of_a_caller_come_back(rt: HostRuntime) -> Result<(), Fail> {
    for run in [
        &DIRECT_READS,
        &DIRECT_WRITES,
        &DIRECT_WRITES_FAIL,
        &DIRECT_CONVERTS,
    ] {
        play(&rt, rt.alloc(), run)?;
    }
    Ok(())
}
