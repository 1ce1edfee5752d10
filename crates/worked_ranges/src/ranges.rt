//! Turns at a range of six blocks: two mapped ones, `abcdefghijklmnop` and `ABCDEFGHIJKLMNOP`, one that was never
//! written, and three holes. A folio has four of them, and a block 16 bytes.
use crate::range_ground::Begin;
use crate::range_runs::{CACHED, Run, SCARCE, play};
use crate::range_steps::Step;
use iob_base::{Mode, Op, WORN};
use std::test::Fail;

// Kinds as samples tell them, and reads through the page cache: a hole and space that was never written read as zeros,
// mapped blocks have to be read first, and a page that is dropped as well.
const READS: Run = Run {
    begin: CACHED,
    fails: &[],
    lines: &[
        (0, Step::SampleRun(0, 6), "cookie 0, errors 0, 0+2 mapped 2"),
        (0, Step::SampleRun(1, 6), "cookie 0, errors 0, 1+1 mapped 3"),
        (
            0,
            Step::SampleRun(2, 6),
            "cookie 0, errors 0, 2+1 unwritten 5",
        ),
        (0, Step::SampleRun(3, 2), "cookie 0, errors 0, 3+2 hole"),
        (0, Step::SampleRun(3, 6), "cookie 0, errors 0, 3+3 hole"),
        (0, Step::Fetch(40, 52), "............"),
        (0, Step::Fetch(12, 20), "Cold { block: 0 }"),
        (0, Step::LendReadRun(2, 1), "Settled { block: 2 }"),
        (0, Step::LendReadRun(0, 6), "ticket 0, 0+2"),
        (0, Step::Back, "done, 2 of 2"),
        (0, Step::LendReadRun(0, 1), "Settled { block: 0 }"),
        (0, Step::Fetch(12, 20), "mnopABCD"),
        (0, Step::Drop(1, 2), "2"),
        (0, Step::Drop(0, 6), "2"),
        (0, Step::Drop(0, 6), "0"),
        (0, Step::Fetch(12, 20), "Cold { block: 0 }"),
    ],
};

// Stores: a block that is covered whole need not be read, there are zeros around bytes in space that was never written,
// and what is dirty is neither dropped nor passed by.
const STORES: Run = Run {
    begin: CACHED,
    fails: &[],
    lines: &[
        (0, Step::SampleRun(0, 6), "cookie 0, errors 0, 0+2 mapped 2"),
        (0, Step::Store(4, b"xy"), "Cold { block: 0 }"),
        (0, Step::Store(16, b"0123456789abcdef"), "ok"),
        (0, Step::Fetch(16, 32), "0123456789abcdef"),
        (0, Step::Store(14, b"xyz"), "Cold { block: 0 }"),
        (0, Step::LendReadRun(0, 6), "ticket 0, 0+1"),
        (0, Step::Back, "done, 1 of 1"),
        (0, Step::Store(14, b"xyz"), "ok"),
        (0, Step::Fetch(12, 20), "mnxyz123"),
        (
            0,
            Step::SampleRun(2, 1),
            "cookie 0, errors 0, 2+1 unwritten 5",
        ),
        (0, Step::Store(37, b"mid"), "ok"),
        (0, Step::Fetch(32, 48), ".....mid........"),
        (0, Step::Drop(0, 6), "0"),
        (
            0,
            Step::DirectNowRun(0, b"#"),
            "Dirty { block: 0 } | ################",
        ),
        (0, Step::DirectNowRun(3, b"#"), "read 1 | ................"),
        (0, Step::SampleRun(0, 2), "cookie 0, errors 0, 0+2 mapped 2"),
        (
            0,
            Step::LendDirect(Op::Read, 0, b"##"),
            "Dirty { block: 0 } | ################ | ################",
        ),
        (
            0,
            Step::LendDirect(Op::Write, 1, b"w"),
            "Dirty { block: 1 } | wwwwwwwwwwwwwwww",
        ),
    ],
};

// Promises of space: a promise with nothing to write is taken back.
const PROMISES: Run = Run {
    begin: CACHED,
    fails: &[],
    lines: &[
        (0, Step::SampleRun(3, 6), "cookie 0, errors 0, 3+3 hole"),
        (0, Step::Reserve(2), "cookie 1, errors 0, 3+2 delalloc"),
        (0, Step::Reserve(1), "Stale { sample: 0, now: 1 }"),
        (0, Step::SampleRun(3, 6), "cookie 1, errors 0, 3+2 delalloc"),
        (0, Step::Store(50, b"hello"), "ok"),
        (0, Step::Fetch(48, 64), "..hello........."),
        (0, Step::Unreserve(2, 4), "1"),
        (0, Step::SampleRun(3, 6), "cookie 2, errors 0, 3+1 delalloc"),
        (0, Step::SampleRun(4, 6), "cookie 2, errors 0, 4+2 hole"),
        (0, Step::Unreserve(2, 4), "0"),
        (0, Step::SampleRun(5, 1), "cookie 2, errors 0, 5+1 hole"),
    ],
};

// The same with two free sectors: fewer are promised than were asked for, and then none.
const FULL: Run = Run {
    begin: SCARCE,
    fails: &[],
    lines: &[
        (0, Step::SampleRun(3, 6), "cookie 0, errors 0, 3+3 hole"),
        (0, Step::Reserve(3), "cookie 1, errors 0, 3+2 delalloc"),
        (0, Step::SampleRun(5, 1), "cookie 1, errors 0, 5+1 hole"),
        (0, Step::Reserve(1), "NoSpace { wanted: 1, found: 0 }"),
        (0, Step::Unreserve(4, 1), "1"),
        (0, Step::SampleRun(5, 1), "cookie 2, errors 0, 5+1 hole"),
        (0, Step::Reserve(1), "cookie 3, errors 0, 5+1 delalloc"),
    ],
};

// Sectors for what was promised and stored, the lowest ones in order of blocks, and then a write of it.
const ATTACHED: Run = Run {
    begin: CACHED,
    fails: &[],
    lines: &[
        (0, Step::SampleRun(3, 6), "cookie 0, errors 0, 3+3 hole"),
        (0, Step::Reserve(3), "cookie 1, errors 0, 3+3 delalloc"),
        (0, Step::SampleRun(3, 6), "cookie 1, errors 0, 3+3 delalloc"),
        (0, Step::Store(48, b"three"), "ok"),
        (0, Step::Store(80, b"five"), "ok"),
        (0, Step::LendWritebackRun(3, 1), "Unattached { block: 3 }"),
        (0, Step::LendWritebackRun(4, 1), "Settled { block: 4 }"),
        (0, Step::Attach(2, 4), "2"),
        (
            0,
            Step::SampleRun(3, 6),
            "cookie 2, errors 0, 3+1 unwritten 0",
        ),
        (0, Step::SampleRun(4, 6), "cookie 2, errors 0, 4+1 delalloc"),
        (
            0,
            Step::SampleRun(5, 6),
            "cookie 2, errors 0, 5+1 unwritten 1",
        ),
        (0, Step::Attach(2, 4), "0"),
        (0, Step::LendWritebackRun(3, 3), "ticket 0, 3+1"),
        (0, Step::Back, "done, 1 of 1, 1 written"),
        (0, Step::SampleRun(3, 6), "cookie 3, errors 0, 3+1 mapped 0"),
        (0, Step::LendWritebackRun(3, 1), "Settled { block: 3 }"),
        (0, Step::Drop(3, 1), "1"),
        (0, Step::DirectNowRun(3, b"#"), "read 1 | three..........."),
    ],
};

// Sectors for blocks that have none, whether space was promised to them or not.
const PREALLOCATED: Run = Run {
    begin: CACHED,
    fails: &[],
    lines: &[
        (0, Step::Preallocate(2, 3), "2"),
        (
            0,
            Step::SampleRun(3, 6),
            "cookie 1, errors 0, 3+2 unwritten 0",
        ),
        (0, Step::Preallocate(0, 5), "0"),
        (0, Step::Fetch(48, 64), "................"),
        (0, Step::SampleRun(5, 1), "cookie 1, errors 0, 5+1 hole"),
        (0, Step::Reserve(1), "cookie 2, errors 0, 5+1 delalloc"),
        (0, Step::Preallocate(5, 1), "1"),
        (
            0,
            Step::SampleRun(5, 1),
            "cookie 3, errors 0, 5+1 unwritten 4",
        ),
    ],
};

const PREALLOCATED_FULL: Run = Run {
    begin: SCARCE,
    fails: &[],
    lines: &[
        (
            0,
            Step::Preallocate(3, 3),
            "NoSpace { wanted: 3, found: 2 }",
        ),
        (0, Step::SampleRun(3, 6), "cookie 0, errors 0, 3+3 hole"),
        (0, Step::Preallocate(3, 2), "2"),
        (
            0,
            Step::SampleRun(3, 6),
            "cookie 1, errors 0, 3+2 unwritten 0",
        ),
    ],
};

// Holes are made: the sectors go back, and can be taken again, but not read.
const WIPED: Run = Run {
    begin: CACHED,
    fails: &[],
    lines: &[
        (0, Step::LendReadRun(0, 6), "ticket 0, 0+2"),
        (1, Step::Wipe(0, 4), "Away { block: 0, ticket: 0 }"),
        (0, Step::Back, "done, 2 of 2"),
        (1, Step::Wipe(0, 4), "3"),
        (0, Step::SampleRun(0, 6), "cookie 1, errors 0, 0+6 hole"),
        (0, Step::Fetch(0, 20), "...................."),
        (0, Step::Wipe(0, 6), "0"),
        (0, Step::Preallocate(0, 2), "2"),
        (0, Step::Preallocate(2, 4), "4"),
        (
            0,
            Step::SampleRun(0, 6),
            "cookie 3, errors 0, 0+6 unwritten 0",
        ),
        (
            0,
            Step::DirectNowRun(2, b"##"),
            "read 2 | ................ | ................",
        ),
    ],
};

// So do promises, also those of blocks with something to write.
const WIPED_PROMISES: Run = Run {
    begin: SCARCE,
    fails: &[],
    lines: &[
        (0, Step::SampleRun(3, 6), "cookie 0, errors 0, 3+3 hole"),
        (0, Step::Reserve(2), "cookie 1, errors 0, 3+2 delalloc"),
        (0, Step::SampleRun(3, 6), "cookie 1, errors 0, 3+2 delalloc"),
        (0, Step::Store(48, b"gone"), "ok"),
        (0, Step::Wipe(3, 2), "2"),
        (0, Step::Fetch(48, 52), "...."),
        (0, Step::SampleRun(3, 6), "cookie 2, errors 0, 3+3 hole"),
        (0, Step::Reserve(2), "cookie 3, errors 0, 3+2 delalloc"),
    ],
};

// Zeros over bytes. Blocks that read as zeros already stay as they are.
const ZEROS: Run = Run {
    begin: CACHED,
    fails: &[],
    lines: &[
        (0, Step::SampleRun(0, 6), "cookie 0, errors 0, 0+2 mapped 2"),
        (0, Step::StoreZeros(4, 8), "Cold { block: 0 }"),
        (0, Step::LendReadRun(0, 6), "ticket 0, 0+2"),
        (1, Step::SampleRun(0, 6), "cookie 0, errors 0, 0+2 mapped 2"),
        (1, Step::StoreZeros(4, 8), "Away { block: 0, ticket: 0 }"),
        (0, Step::Back, "done, 2 of 2"),
        (0, Step::StoreZeros(12, 20), "ok"),
        (0, Step::Fetch(8, 24), "ijkl........EFGH"),
        (0, Step::Drop(0, 6), "0"),
        (0, Step::SampleRun(3, 6), "cookie 0, errors 0, 3+3 hole"),
        (0, Step::StoreZeros(50, 60), "ok"),
        (0, Step::Drop(0, 6), "0"),
        (0, Step::SampleRun(3, 6), "cookie 0, errors 0, 3+3 hole"),
        (1, Step::Preallocate(3, 1), "1"),
        (0, Step::StoreZeros(50, 60), "Stale { sample: 0, now: 1 }"),
    ],
};

// Transfers of a caller's own pages, and reads inside a turn. The lane's third judgement fails.
const PAST_THE_CACHE: Run = Run {
    begin: CACHED,
    fails: &[3],
    lines: &[
        (
            0,
            Step::DirectNowRun(0, b"###"),
            "read 2 | abcdefghijklmnop | ABCDEFGHIJKLMNOP | ################",
        ),
        (0, Step::DirectNowRun(2, b"#"), "read 1 | ................"),
        (0, Step::SampleRun(0, 6), "cookie 0, errors 0, 0+2 mapped 2"),
        (0, Step::LendDirect(Op::Read, 0, b"##"), "ticket 0, 0+2"),
        (
            0,
            Step::Back,
            "done, 2 of 2 | abcdefghijklmnop | ABCDEFGHIJKLMNOP",
        ),
        (
            0,
            Step::DirectNowRun(1, b"#"),
            "Poison { done: Done { lane: 3, blocks: 1, landed: 0, failed: true, before: 0, after: 1 } } | ################",
        ),
        (0, Step::DirectNowRun(1, b"#"), "read 1 | ABCDEFGHIJKLMNOP"),
        (
            0,
            Step::SampleRun(2, 6),
            "cookie 0, errors 0, 2+1 unwritten 5",
        ),
        (
            0,
            Step::LendDirect(Op::Read, 2, b"#"),
            "zeros | ................",
        ),
        (0, Step::LendDirect(Op::Write, 2, b"y"), "ticket 1, 2+1"),
        (0, Step::Back, "done, 1 of 1 | yyyyyyyyyyyyyyyy"),
        (
            0,
            Step::LendDirect(Op::Write, 2, b"z"),
            "Stale { sample: 0, now: 1 } | zzzzzzzzzzzzzzzz",
        ),
        (0, Step::SampleRun(2, 6), "cookie 1, errors 0, 2+1 mapped 5"),
        (0, Step::DirectNowRun(2, b"#"), "read 1 | yyyyyyyyyyyyyyyy"),
        (0, Step::SampleRun(3, 6), "cookie 1, errors 0, 3+3 hole"),
        (
            0,
            Step::LendDirect(Op::Read, 4, b"##"),
            "zeros | ................ | ................",
        ),
    ],
};

// A read of three blocks takes two runs, as the third block has no bytes of its own. The judgement of the first run
// fails, and the second run has none. Asked for again, the first run is read.
const FIRST_RUN_FAILS: Run = Run {
    begin: CACHED,
    fails: &[1],
    lines: &[
        (
            0,
            Step::DirectNowRun(0, b"###"),
            "Poison { done: Done { lane: 3, blocks: 2, landed: 1, failed: true, before: 0, after: 1 } } | ################ | ################ | ################",
        ),
        (0, Step::DirectNowRun(2, b"#"), "read 1 | ................"),
        (
            0,
            Step::DirectNowRun(0, b"###"),
            "read 2 | abcdefghijklmnop | ABCDEFGHIJKLMNOP | ################",
        ),
    ],
};

#[test]
fn events_answer_and_are_refused(rt: HostRuntime) -> Result<(), Fail> {
    for run in [
        &READS,
        &STORES,
        &ZEROS,
        &PROMISES,
        &FULL,
        &PAST_THE_CACHE,
        &FIRST_RUN_FAILS,
    ] {
        play(&rt, rt.alloc(), run)?;
    }
    Ok(())
}

#[test]
fn sectors_are_taken_and_given_back(rt: HostRuntime) -> Result<(), Fail> {
    for run in [
        &ATTACHED,
        &PREALLOCATED,
        &PREALLOCATED_FULL,
        &WIPED,
        &WIPED_PROMISES,
    ] {
        play(&rt, rt.alloc(), run)?;
    }
    Ok(())
}

// The other caller changes a kind between a sample and its use.
const OVERTAKEN: Run = Run {
    begin: CACHED,
    fails: &[],
    lines: &[
        (0, Step::SampleRun(3, 6), "cookie 0, errors 0, 3+3 hole"),
        (1, Step::SampleRun(3, 6), "cookie 0, errors 0, 3+3 hole"),
        (1, Step::Reserve(1), "cookie 1, errors 0, 3+1 delalloc"),
        (0, Step::Reserve(3), "Stale { sample: 0, now: 1 }"),
        (0, Step::SampleRun(4, 6), "cookie 1, errors 0, 4+2 hole"),
        (1, Step::Preallocate(4, 1), "1"),
        (0, Step::Reserve(2), "Stale { sample: 1, now: 2 }"),
        (
            0,
            Step::SampleRun(4, 6),
            "cookie 2, errors 0, 4+1 unwritten 0",
        ),
        (
            0,
            Step::SampleRun(2, 6),
            "cookie 2, errors 0, 2+1 unwritten 5",
        ),
        (
            1,
            Step::SampleRun(2, 6),
            "cookie 2, errors 0, 2+1 unwritten 5",
        ),
        (1, Step::LendDirect(Op::Write, 2, b"y"), "ticket 0, 2+1"),
        (1, Step::Back, "done, 1 of 1 | yyyyyyyyyyyyyyyy"),
        (0, Step::Store(32, b"late"), "Stale { sample: 2, now: 3 }"),
        (0, Step::DirectNowRun(2, b"#"), "read 1 | yyyyyyyyyyyyyyyy"),
        (0, Step::SampleRun(2, 1), "cookie 3, errors 0, 2+1 mapped 5"),
    ],
};

// One cookie before they are used up.
const LAST: Begin = Begin {
    mode: Mode::Cached,
    cookie: WORN - 1,
    scarce: false,
};

// The cookies are used up: an event that could be refused changes no kind any more. What changes none goes on, and so does
// an event without refusal.
const USED_UP: Run = Run {
    begin: LAST,
    fails: &[],
    lines: &[
        (
            0,
            Step::SampleRun(3, 6),
            "cookie 18446744069414584319, errors 0, 3+3 hole",
        ),
        (
            0,
            Step::Reserve(2),
            "cookie 18446744069414584320, errors 0, 3+2 delalloc",
        ),
        (
            0,
            Step::SampleRun(5, 1),
            "cookie 18446744069414584320, errors 0, 5+1 hole",
        ),
        (0, Step::Reserve(1), "Worn { cookie: 18446744069414584320 }"),
        (
            0,
            Step::SampleRun(5, 1),
            "cookie 18446744069414584320, errors 0, 5+1 hole",
        ),
        (
            0,
            Step::Preallocate(5, 1),
            "Worn { cookie: 18446744069414584320 }",
        ),
        (0, Step::Preallocate(0, 3), "0"),
        (0, Step::Wipe(0, 1), "Worn { cookie: 18446744069414584320 }"),
        (0, Step::Wipe(5, 1), "0"),
        (
            0,
            Step::SampleRun(3, 6),
            "cookie 18446744069414584320, errors 0, 3+2 delalloc",
        ),
        (0, Step::Store(48, b"x"), "ok"),
        (
            0,
            Step::Attach(3, 1),
            "Worn { cookie: 18446744069414584320 }",
        ),
        (0, Step::Attach(4, 1), "0"),
        (
            0,
            Step::SampleRun(2, 1),
            "cookie 18446744069414584320, errors 0, 2+1 unwritten 5",
        ),
        (
            0,
            Step::LendDirect(Op::Write, 2, b"y"),
            "Worn { cookie: 18446744069414584320 } | yyyyyyyyyyyyyyyy",
        ),
        (0, Step::Store(32, b"kept"), "ok"),
        (
            0,
            Step::LendWritebackRun(2, 1),
            "Worn { cookie: 18446744069414584320 }",
        ),
        (0, Step::Fetch(32, 40), "kept...."),
        (0, Step::Unreserve(3, 2), "1"),
        (
            0,
            Step::SampleRun(4, 6),
            "cookie 18446744069414584321, errors 0, 4+2 hole",
        ),
    ],
};

#[test]
fn samples_go_stale_and_cookies_are_used_up(rt: HostRuntime) -> Result<(), Fail> {
    for run in [&OVERTAKEN, &USED_UP] {
        play(&rt, rt.alloc(), run)?;
    }
    Ok(())
}
