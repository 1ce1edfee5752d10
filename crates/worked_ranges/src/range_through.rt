//! Bytes are moved straight from and to the sectors of a file.
use crate::range_ground::Begin;
use crate::range_runs::{DAX, Run, play};
use crate::range_steps::Step;
use iob_base::{Mode, WORN};
use std::test::Fail;

// Blocks that are mapped are read and written with one judgement a turn. Those that were never written, and holes, read
// as zeros, and are mapped by a write, with zeros around its bytes.
const STRAIGHT: Run = Run {
    begin: DAX,
    fails: &[],
    lines: &[
        (0, Step::SampleRun(0, 6), "cookie 0, errors 0, 0+2 mapped 2"),
        (0, Step::DaxGet(12, 20), "mnopABCD"),
        (0, Step::DaxPut(14, b"xyz"), "ok"),
        (0, Step::DaxGet(12, 20), "mnxyzBCD"),
        (0, Step::DaxZero(15, 17), "ok"),
        (0, Step::DaxGet(12, 20), "mnx..BCD"),
        (
            0,
            Step::SampleRun(2, 6),
            "cookie 0, errors 0, 2+1 unwritten 5",
        ),
        (0, Step::DaxGet(32, 36), "...."),
        (0, Step::DaxZero(32, 40), "ok"),
        (0, Step::DaxPut(37, b"mid"), "ok"),
        (0, Step::DaxGet(32, 48), "Stale { sample: 0, now: 1 }"),
        (0, Step::DaxZero(32, 48), "Stale { sample: 0, now: 1 }"),
        (0, Step::DaxPut(32, b"late"), "Stale { sample: 0, now: 1 }"),
        (0, Step::SampleRun(2, 6), "cookie 1, errors 0, 2+1 mapped 5"),
        (0, Step::DaxGet(32, 48), ".....mid........"),
        (0, Step::SampleRun(3, 6), "cookie 1, errors 0, 3+3 hole"),
        (0, Step::DaxPut(60, b"acrossx"), "ok"),
        (0, Step::SampleRun(3, 6), "cookie 2, errors 0, 3+2 mapped 0"),
        (0, Step::DaxGet(56, 72), "....acrossx....."),
        (0, Step::LendWritebackRun(0, 1), "Settled { block: 0 }"),
    ],
};

// Judgements that fail: no byte is moved, and what was reserved goes back.
const STRAIGHT_FAILS: Run = Run {
    begin: DAX,
    fails: &[1, 2, 3],
    lines: &[
        (0, Step::SampleRun(0, 6), "cookie 0, errors 0, 0+2 mapped 2"),
        (
            0,
            Step::DaxGet(0, 4),
            "Poison { done: Done { lane: 3, blocks: 1, landed: 0, failed: true, before: 0, after: 1 } }",
        ),
        (
            0,
            Step::DaxZero(0, 4),
            "Poison { done: Done { lane: 3, blocks: 1, landed: 0, failed: true, before: 1, after: 2 } }",
        ),
        (
            0,
            Step::DaxPut(12, b"xxxxxxxx"),
            "Poison { done: Done { lane: 3, blocks: 2, landed: 1, failed: true, before: 2, after: 3 } }",
        ),
        (0, Step::DaxGet(0, 32), "abcdefghijklmnopABCDEFGHIJKLMNOP"),
    ],
};

// What is no mapped block asks for no judgement: the first one, which fails, is that of a mapped block.
const STRAIGHT_UNJUDGED: Run = Run {
    begin: DAX,
    fails: &[1],
    lines: &[
        (
            0,
            Step::SampleRun(2, 6),
            "cookie 0, errors 0, 2+1 unwritten 5",
        ),
        (0, Step::DaxGet(32, 36), "...."),
        (0, Step::DaxZero(32, 40), "ok"),
        (0, Step::SampleRun(3, 6), "cookie 0, errors 0, 3+3 hole"),
        (0, Step::DaxGet(60, 68), "........"),
        (0, Step::DaxZero(60, 68), "ok"),
        (0, Step::SampleRun(0, 6), "cookie 0, errors 0, 0+2 mapped 2"),
        (
            0,
            Step::DaxGet(0, 4),
            "Poison { done: Done { lane: 3, blocks: 1, landed: 0, failed: true, before: 0, after: 1 } }",
        ),
        (0, Step::DaxGet(0, 4), "abcd"),
    ],
};

// A write into space that was never written is judged. Where that fails it stays so, and reads as zeros.
const STRAIGHT_UNMAPPED: Run = Run {
    begin: DAX,
    fails: &[1],
    lines: &[
        (
            0,
            Step::SampleRun(2, 6),
            "cookie 0, errors 0, 2+1 unwritten 5",
        ),
        (
            0,
            Step::DaxPut(37, b"mid"),
            "Poison { done: Done { lane: 3, blocks: 1, landed: 0, failed: true, before: 0, after: 1 } }",
        ),
        (
            0,
            Step::SampleRun(2, 6),
            "cookie 0, errors 0, 2+1 unwritten 5",
        ),
        (0, Step::DaxGet(32, 48), "................"),
        (0, Step::DaxPut(37, b"mid"), "ok"),
        (0, Step::SampleRun(2, 6), "cookie 1, errors 0, 2+1 mapped 5"),
        (0, Step::DaxGet(32, 48), ".....mid........"),
    ],
};

const SCARCE: Begin = Begin {
    mode: Mode::Dax,
    cookie: 0,
    scarce: true,
};

const STRAIGHT_FULL: Run = Run {
    begin: SCARCE,
    fails: &[1],
    lines: &[
        (0, Step::SampleRun(3, 6), "cookie 0, errors 0, 3+3 hole"),
        (
            0,
            Step::DaxPut(63, b"0123456789abcdefgh"),
            "NoSpace { wanted: 3, found: 2 }",
        ),
        (
            0,
            Step::DaxPut(63, b"xy"),
            "Poison { done: Done { lane: 3, blocks: 2, landed: 1, failed: true, before: 0, after: 1 } }",
        ),
        (0, Step::SampleRun(3, 6), "cookie 0, errors 0, 3+3 hole"),
        (0, Step::DaxPut(63, b"xy"), "ok"),
        (0, Step::SampleRun(3, 6), "cookie 1, errors 0, 3+2 mapped 0"),
        (0, Step::DaxGet(62, 66), ".xy."),
    ],
};

const USED_UP: Begin = Begin {
    mode: Mode::Dax,
    cookie: WORN,
    scarce: false,
};

const STRAIGHT_USED_UP: Run = Run {
    begin: USED_UP,
    fails: &[],
    lines: &[
        (
            0,
            Step::SampleRun(3, 6),
            "cookie 18446744069414584320, errors 0, 3+3 hole",
        ),
        (
            0,
            Step::DaxPut(48, b"x"),
            "Worn { cookie: 18446744069414584320 }",
        ),
        (0, Step::DaxGet(48, 52), "...."),
        (
            0,
            Step::SampleRun(0, 6),
            "cookie 18446744069414584320, errors 0, 0+2 mapped 2",
        ),
        (0, Step::DaxPut(0, b"xyz"), "ok"),
        (0, Step::DaxGet(0, 6), "xyzdef"),
    ],
};

#[test]
fn sectors_are_read_and_written_straight(rt: HostRuntime) -> Result<(), Fail> {
    for run in [
        &STRAIGHT,
        &STRAIGHT_FAILS,
        &STRAIGHT_UNJUDGED,
        &STRAIGHT_UNMAPPED,
        &STRAIGHT_FULL,
        &STRAIGHT_USED_UP,
    ] {
        play(&rt, rt.alloc(), run)?;
    }
    Ok(())
}
