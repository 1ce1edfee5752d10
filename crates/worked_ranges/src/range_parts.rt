//! A part of a block is written past the page cache, and what is around it is kept.
use crate::range_ground::Begin;
use crate::range_runs::{CACHED, Run, play};
use crate::range_steps::Step;
use iob_base::{Mode, WORN};
use std::test::Fail;

// A block that was never written has zeros around the part, and is mapped.
const PART_OF_UNWRITTEN: Run = Run {
    begin: CACHED,
    fails: &[],
    lines: &[
        (
            0,
            Step::SampleRun(2, 1),
            "cookie 0, errors 0, 2+1 unwritten 5",
        ),
        (0, Step::LendPart(36, 40, b'w'), "ticket 0, 2+1"),
        (1, Step::Fetch(32, 36), "Away { block: 2, ticket: 0 }"),
        (
            1,
            Step::SampleRun(2, 1),
            "cookie 0, errors 0, 2+1 unwritten 5",
        ),
        (1, Step::Store(32, b"late"), "Away { block: 2, ticket: 0 }"),
        (0, Step::Back, "done, 1 of 1 | ....wwww........"),
        (1, Step::SampleRun(2, 1), "cookie 1, errors 0, 2+1 mapped 5"),
        (1, Step::DirectNowRun(2, b"#"), "read 1 | ....wwww........"),
    ],
};

// A mapped block is read first, and has its own bytes around the part. Its page is gone after the write.
const PART_OF_MAPPED: Run = Run {
    begin: CACHED,
    fails: &[],
    lines: &[
        (0, Step::SampleRun(0, 6), "cookie 0, errors 0, 0+2 mapped 2"),
        (
            0,
            Step::LendPart(20, 24, b'w'),
            "Cold { block: 1 } | wwwwwwwwwwwwwwww",
        ),
        (0, Step::LendReadRun(1, 1), "ticket 0, 1+1"),
        (0, Step::Back, "done, 1 of 1"),
        (0, Step::LendPart(20, 24, b'w'), "ticket 1, 1+1"),
        (1, Step::Fetch(16, 20), "Away { block: 1, ticket: 1 }"),
        (0, Step::Back, "done, 1 of 1 | ABCDwwwwIJKLMNOP"),
        (1, Step::Fetch(16, 20), "Cold { block: 1 }"),
        (1, Step::DirectNowRun(1, b"#"), "read 1 | ABCDwwwwIJKLMNOP"),
        (1, Step::SampleRun(0, 6), "cookie 0, errors 0, 0+2 mapped 2"),
    ],
};

#[test]
fn part_of_a_block_is_written_and_around_it_kept(rt: HostRuntime) -> Result<(), Fail> {
    for run in [&PART_OF_UNWRITTEN, &PART_OF_MAPPED] {
        play(&rt, rt.alloc(), run)?;
    }
    Ok(())
}

// Writes that fail leave a mapped block its old bytes, and one that was never written as it was.
const PART_FAILS: Run = Run {
    begin: CACHED,
    fails: &[2, 3],
    lines: &[
        (0, Step::LendReadRun(1, 1), "ticket 0, 1+1"),
        (0, Step::Back, "done, 1 of 1"),
        (0, Step::SampleRun(0, 6), "cookie 0, errors 0, 0+2 mapped 2"),
        (0, Step::LendPart(20, 24, b'w'), "ticket 1, 1+1"),
        (0, Step::Back, "failed, 0 of 1 | ABCDwwwwIJKLMNOP"),
        (
            0,
            Step::SampleRun(2, 1),
            "cookie 0, errors 0, 2+1 unwritten 5",
        ),
        (0, Step::LendPart(36, 40, b'w'), "ticket 2, 2+1"),
        (0, Step::Back, "failed, 0 of 1 | ....wwww........"),
        (1, Step::DirectNowRun(1, b"#"), "read 1 | ABCDEFGHIJKLMNOP"),
        (
            1,
            Step::SampleRun(2, 1),
            "cookie 0, errors 0, 2+1 unwritten 5",
        ),
        (1, Step::Fetch(32, 48), "................"),
    ],
};

#[test]
fn failed_part_of_a_block_changes_nothing(rt: HostRuntime) -> Result<(), Fail> {
    play(&rt, rt.alloc(), &PART_FAILS)?;
    Ok(())
}

// The sample is asked first, then where the block is, and then how it is; each refusal gives the page back.
const PART_REFUSED: Run = Run {
    begin: CACHED,
    fails: &[],
    lines: &[
        (0, Step::SampleRun(0, 6), "cookie 0, errors 0, 0+2 mapped 2"),
        (1, Step::LendReadRun(0, 2), "ticket 0, 0+2"),
        (
            0,
            Step::LendPart(4, 8, b'w'),
            "Away { block: 0, ticket: 0 } | wwwwwwwwwwwwwwww",
        ),
        (1, Step::Back, "done, 2 of 2"),
        (0, Step::Store(0, b"0123456789abcdef"), "ok"),
        (
            0,
            Step::LendPart(4, 8, b'w'),
            "Dirty { block: 0 } | wwwwwwwwwwwwwwww",
        ),
        (
            1,
            Step::SampleRun(2, 1),
            "cookie 0, errors 0, 2+1 unwritten 5",
        ),
        (1, Step::LendPart(32, 40, b'y'), "ticket 1, 2+1"),
        (1, Step::Back, "done, 1 of 1 | yyyyyyyy........"),
        (
            0,
            Step::LendPart(4, 8, b'w'),
            "Stale { sample: 0, now: 1 } | wwwwwwwwwwwwwwww",
        ),
    ],
};

// No cookie is left for a block that was never written.
const WORN_OUT: Run = Run {
    begin: Begin {
        mode: Mode::Cached,
        cookie: WORN,
        scarce: false,
    },
    fails: &[],
    lines: &[
        (
            0,
            Step::SampleRun(2, 1),
            "cookie 18446744069414584320, errors 0, 2+1 unwritten 5",
        ),
        (
            0,
            Step::LendPart(36, 40, b'w'),
            "Worn { cookie: 18446744069414584320 } | wwwwwwwwwwwwwwww",
        ),
        (
            0,
            Step::SampleRun(0, 6),
            "cookie 18446744069414584320, errors 0, 0+2 mapped 2",
        ),
        (
            0,
            Step::LendPart(4, 8, b'w'),
            "Cold { block: 0 } | wwwwwwwwwwwwwwww",
        ),
        (0, Step::LendReadRun(0, 1), "ticket 0, 0+1"),
        (0, Step::Back, "done, 1 of 1"),
        (0, Step::LendPart(4, 8, b'w'), "ticket 1, 0+1"),
        (0, Step::Back, "done, 1 of 1 | abcdwwwwijklmnop"),
    ],
};

#[test]
fn loans_of_a_part_are_refused_in_order(rt: HostRuntime) -> Result<(), Fail> {
    for run in [&PART_REFUSED, &WORN_OUT] {
        play(&rt, rt.alloc(), run)?;
    }
    Ok(())
}
