//! Calls of two callers that meet at one file.
ghost use Rattle.std.specs.Prelude.{◌≡◌, None, IfOk};
ghost use Rattle.worked_mounts.specs.Begins.{MayBegin};
ghost use Rattle.worked_calls.specs.Stands.{IsReady, Stays};

use crate::call_texts::expect_text;
use crate::calls::{Answered, Call, expect_answers};
use crate::files::{arm_all, lane, started};
use crate::held::{Gate, await_transfer, gate, held_lane, open, opening_lane};
use crate::passes::{join, split};
use crate::runs::append_end;
use io_model::{Extent, Kind};
use mini_fs::{Mount, Pass};
use std::alloc::{AllocError, Global};
use std::process::Abort;
use std::sync::Wait;
use std::test::Fail;
use std::thread;
use std::thread::Threads;
use worked_mounts::Begin;
use writeback_ioend::ErrorSeen;

/// Calls of two callers. `before` are those of the first one alone, and `after` too. Between them the other caller makes the
/// calls `held` on lane 1, whose transfers wait, and fail where they are listed. Once the first transfer waits, the first
/// caller makes the calls `meanwhile` on lane 0. With the first transfer there, or behind all of them, the other's goes on.
#[derive(Clone, Copy)]
struct Meeting {
    before: &'static [Answered],
    held: &'static [Answered],
    faults: &'static [(u32, u64)],
    meanwhile: &'static [Answered],
    after: &'static [Answered],
    left: &'static str,
}

// What both callers have in common: the mount, the gate before which the transfers of the other one wait, and the calls.
#[derive(Drop)]
struct Scene {
    mount: Mount,
    gate: Gate,
    meeting: Meeting,
}

// The other caller makes its calls, whose transfers wait before the gate. Want of memory is the only error.
fn call_held_up<R: Abort + Wait>(rt: &R, scene: &Scene, mut pass: Pass) -> Result<Pass, AllocError>
    requires { IsReady scene.now.mount pass }
    ensures { IfOk result (λ after. Stays scene.now.mount pass after) }
{
    let mount = &scene.mount;
    let alloc = mount.allocator();
    let mut seen = ErrorSeen::new(alloc, 1)?;
    let mut lane = held_lane(alloc, 1, &scene.gate)?;
    arm_all(&mut lane, scene.meeting.faults)?;
    expect_answers(
        rt,
        mount,
        &mut pass,
        &mut seen,
        &mut lane,
        scene.meeting.held,
    )?;
    Ok(pass)
}

// The first caller makes its calls once a transfer of the other one waits before the gate. Want of memory is the only error.
fn call_meanwhile<R: Abort + Wait>(
    rt: &R,
    scene: &Scene,
    mut pass: Pass,
) -> Result<Pass, AllocError>
    requires { IsReady scene.now.mount pass }
    ensures { IfOk result (λ after. Stays scene.now.mount pass after) }
{
    let mount = &scene.mount;
    let alloc = mount.allocator();
    let mut seen = ErrorSeen::new(alloc, 1)?;
    let mut lane = opening_lane(alloc, 0, &scene.gate)?;
    await_transfer(rt, &scene.gate);
    expect_answers(
        rt,
        mount,
        &mut pass,
        &mut seen,
        &mut lane,
        scene.meeting.meanwhile,
    )?;
    open(&scene.gate);
    Ok(pass)
}

// Both callers, each on a thread of its own. Want of memory is the only error.
fn call_both<R: Abort + Threads + Wait + Sync>(
    rt: &R,
    scene: &Scene,
    first: Pass,
    other: Pass,
) -> Result<(Pass, Pass), AllocError>
    requires first { IsReady scene.now.mount first }
    requires other { IsReady scene.now.mount other }
    ensures first { IfOk result (λ r. Stays scene.now.mount first r.0) }
    ensures other { IfOk result (λ r. Stays scene.now.mount other r.1) }
{
    let (mine, theirs) = thread::join(
        rt,
        move ||
            requires { IsReady scene.now.mount first }
            ensures { IfOk result (λ after. Stays scene.entry.now.mount first after) }
        { call_meanwhile(rt, scene, first) },
        move ||
            requires { IsReady scene.now.mount other }
            ensures { IfOk result (λ after. Stays scene.entry.now.mount other after) }
        { call_held_up(rt, scene, other) },
    );
    Ok((mine?, theirs?))
}

// A caller makes calls on lane 0 of its own, without faults. Want of memory is the only error.
fn call_alone<R: Abort + Wait>(
    rt: &R,
    mount: &Mount,
    pass: &mut Pass,
    calls: &[Answered],
) -> Result<(), AllocError>
    requires { IsReady mount.now pass.old }
    ensures { Stays mount.now pass.old pass.new }
{
    let alloc = mount.allocator();
    let mut seen = ErrorSeen::new(alloc, 1)?;
    let mut lane = lane(alloc, 0, &[])?;
    expect_answers(rt, mount, pass, &mut seen, &mut lane, calls)
}

// Two callers meet at a file without a size, and this is left of it. Want of memory is the only error.
fn expect_meeting<R: Abort + Threads + Wait + Sync>(
    rt: &R,
    alloc: Global,
    begin: Begin,
    extents: &[Extent],
    meeting: Meeting,
) -> Result<(), AllocError>
    requires may { MayBegin begin.device begin.blocks begin.size begin.cookie extents.now }
    requires sizeless { begin.size ≡ None }
{
    let (mount, mut pass) = started(alloc, begin, extents)?;
    call_alone(rt, &mount, &mut pass, meeting.before)?;
    let other = split(rt, &mount, &mut pass)?;
    let scene = Scene {
        mount,
        gate: gate(alloc)?,
        meeting,
    };
    let (mut pass, other) = call_both(rt, &scene, pass, other)?;
    let mount = scene.mount;
    join(rt, &mount, &mut pass, other);
    call_alone(rt, &mount, &mut pass, meeting.after)?;
    let mut text = Vec::new(alloc);
    append_end(&mut text, mount, pass)?;
    expect_text(rt, text.as_slice(), meeting.left);
    Ok(())
}

// A file of two blocks of the device.
const TWO: Begin = Begin {
    device: 8,
    blocks: 2,
    size: None,
    cookie: 0,
};

const MAPPED: [Extent; 1] = [Extent {
    block: 0,
    length: 2,
    kind: Kind::Mapped(2),
}];

// The write has begun a mapping of both blocks. Once the first one is read the mapping is stale, and the write begins anew:
// the second block is a hole then, and its bytes behind those written are zeros, not those of the device.
const HOLE_MEANWHILE: Meeting = Meeting {
    before: &[],
    held: &[
        (
            Call::Pwrite {
                off: 8,
                bytes: b"0123456789abcdef",
            },
            "ok 16 bios 1",
        ),
        (
            Call::Pread { off: 0, bytes: 32 },
            "ok 32 eeeeeeeeeeeeeeee303132333435363738396162636465660000000000000000 bios 0",
        ),
    ],
    faults: &[],
    meanwhile: &[(
        Call::Wipe {
            number: 7,
            block: 1,
        },
        "ok 1 bios 0",
    )],
    after: &[],
    left: "journal f 0 1 2
journal f 1 7 1 2
map f 0 1 mapped 2
map f 1 1 delalloc
dirty f 0 eeeeeeeeeeeeeeee3031323334353637
dirty f 1 38396162636465660000000000000000
free 7
",
};

#[test]
fn write_meets_a_punch_between_begin_and_store(rt: HostRuntime) -> Result<(), Fail> {
    expect_meeting(&rt, rt.alloc(), TWO, &MAPPED, HOLE_MEANWHILE)?;
    Ok(())
}

// A file of four holes in one folio.
const FOUR: Begin = Begin {
    device: 8,
    blocks: 4,
    size: None,
    cookie: 0,
};

// While the third block is out, a writeback passes it by. The sync writes the first one, which lets the other's transfer go
// on, and waits for the third one, which is clean then.
const WAITS: Meeting = Meeting {
    before: &[(
        Call::Pwrite {
            off: 32,
            bytes: &[b'A'; 16],
        },
        "ok 16 bios 0",
    )],
    held: &[(Call::Wb { from: 2, blocks: 1 }, "ok 1 bios 1")],
    faults: &[],
    meanwhile: &[
        (
            Call::Pwrite {
                off: 0,
                bytes: &[b'B'; 16],
            },
            "ok 16 bios 0",
        ),
        (Call::Wb { from: 2, blocks: 1 }, "ok 0 bios 0"),
        (Call::Sync, "ok 1 bios 1"),
        (Call::Drop, "ok 2 bios 0"),
    ],
    after: &[],
    left: "journal f 0 2
journal f 2 1
map f 0 1 mapped 1
map f 2 1 mapped 0
free 6
",
};

// The same where the other's transfer fails: the third block comes back dirty, the sync writes it itself, and tells of the
// failure.
const WRITES_ITSELF: Meeting = Meeting {
    held: &[(Call::Wb { from: 2, blocks: 1 }, "ok 0 bios 1")],
    faults: &[(1, 1)],
    meanwhile: &[
        (
            Call::Pwrite {
                off: 0,
                bytes: &[b'B'; 16],
            },
            "ok 16 bios 0",
        ),
        (Call::Wb { from: 2, blocks: 1 }, "ok 0 bios 0"),
        (Call::Sync, "err EIO seen 0 count 1 bios 2"),
        (Call::Drop, "ok 2 bios 0"),
    ],
    ..WAITS
};

#[test]
fn sync_waits_for_the_writeback_of_another(rt: HostRuntime) -> Result<(), Fail> {
    for meeting in [WAITS, WRITES_ITSELF] {
        expect_meeting(&rt, rt.alloc(), FOUR, &[], meeting)?;
    }
    Ok(())
}

// A file of one hole.
const ONE: Begin = Begin {
    device: 8,
    blocks: 1,
    size: None,
    cookie: 0,
};

// The block counts as written, with the bytes of before the store, and is dirty for the store. It is written again.
const STORE_MEANWHILE: Meeting = Meeting {
    before: &[(
        Call::Pwrite {
            off: 0,
            bytes: &[b'A'; 16],
        },
        "ok 16 bios 0",
    )],
    held: &[(Call::Wb { from: 0, blocks: 1 }, "ok 1 bios 1")],
    faults: &[],
    meanwhile: &[(
        Call::Pwrite {
            off: 2,
            bytes: b"BC",
        },
        "ok 2 bios 0",
    )],
    after: &[
        (Call::Drop, "ok 0 bios 0"),
        (Call::Wb { from: 0, blocks: 1 }, "ok 1 bios 1"),
        (Call::Drop, "ok 1 bios 0"),
        (Call::Pread { off: 0, bytes: 6 }, "ok 6 414142434141 bios 1"),
    ],
    left: "journal f 0 1 2 6
map f 0 1 mapped 0
free 7
",
};

#[test]
fn store_while_a_block_is_out_leaves_it_dirty(rt: HostRuntime) -> Result<(), Fail> {
    expect_meeting(&rt, rt.alloc(), ONE, &[], STORE_MEANWHILE)?;
    Ok(())
}
