//! Mappings that go stale, and cookies that are used up.
use crate::mount_ground::started;
use crate::mount_maps::{begin, end};
use crate::mount_stores::store;
use crate::mount_texts::{block_text, extents_text, mapping_text, sample_text};
use crate::mount_turns::{look, place};
use crate::single::{Begin, FILE, ended, file_left};
use io_model::FileEnd;
use iob_base::WORN;
use iomap_core::BeginFault;
use range_core::EventFault;
use std::alloc::{AllocError, Global};
use std::process::Abort;
use std::sync::Wait;
use std::test::Fail;

// Two holes, on a device of eight blocks.
const HOLES: Begin = Begin {
    device: 8,
    blocks: 2,
    size: None,
    cookie: 0,
};

// A hole whose cookie may not rise any more.
const WORN_HOLE: Begin = Begin {
    device: 2,
    blocks: 1,
    size: None,
    cookie: WORN,
};

// The file of a mount at its end: its extents, and each of its blocks.
fn expect_left(
    rt: &impl Abort,
    alloc: Global,
    end: &FileEnd,
    extents: &str,
    blocks: &[&str],
) -> Result<(), AllocError> {
    assert_eq!(rt;
        extents_text(alloc, end.extents.as_slice())?.as_str(),
        extents
    );
    assert_eq!(rt; end.blocks.len(), blocks.len());
    for (block, want) in end.blocks.as_slice().iter().zip(blocks.iter()) {
        assert_eq!(rt; block_text(alloc, block)?.as_str(), *want);
    }
    Ok(())
}

// The turns of a caller whose mapping goes stale, and what is left of the file.
fn go_stale<R: Abort + Wait>(rt: &R, alloc: Global) -> Result<FileEnd, Fail> {
    let (mount, mut pass) = started(alloc, HOLES, &[])?;
    let pass_mut = &mut pass;
    let iomap = begin(rt, &mount, pass_mut, FILE, 0, 16)?;
    assert_eq!(rt;
        mapping_text(alloc, &iomap)?.as_str(),
        "cookie 1, 0+16 delalloc, new"
    );
    assert!(rt; matches!(place(rt, &mount, pass_mut, 0, 1), Ok(1)));
    let stored = store(rt, &mount, pass_mut, 1, &iomap, 0, b"0123456789abcdef")?;
    assert!(rt; matches!(stored, Err(EventFault::Stale { sample: 1, now: 2 })));
    end(rt, &mount, pass_mut, iomap, 0);
    Ok(file_left(ended(mount, pass)?).ok_or("there is a file")?)
}

// A store with a mapping that went stale changes nothing, and the sector that the block took meanwhile stays.
#[test]
fn stale_mapping_is_refused(rt: HostRuntime) -> Result<(), Fail> {
    let left = go_stale(&rt, rt.alloc())?;
    expect_left(
        &rt,
        rt.alloc(),
        &left,
        "0+1 unwritten 0, 1+1 hole",
        &["0 a~~~~~~~~~~~~~~~", "no sector"],
    )?;
    Ok(())
}

// The turns of a caller that asks for space once the cookie is used up, and what is left of the file.
fn ask_worn<R: Abort + Wait>(rt: &R, alloc: Global) -> Result<FileEnd, Fail> {
    let (mount, mut pass) = started(alloc, WORN_HOLE, &[])?;
    let pass_mut = &mut pass;
    let begun = begin(rt, &mount, pass_mut, FILE, 0, 16);
    assert!(rt; matches!(begun, Err(BeginFault::Worn { cookie: WORN })));
    let placed = place(rt, &mount, pass_mut, 0, 1);
    assert!(rt; matches!(placed, Err(EventFault::Worn { cookie: WORN })));
    let seen = look(rt, &mount, pass_mut, 0, 1);
    assert_eq!(rt;
        sample_text(alloc, seen)?.as_str(),
        "cookie 18446744069414584320, 0+1 hole"
    );
    Ok(file_left(ended(mount, pass)?).ok_or("there is a file")?)
}

// Where the cookie may not rise any more, no kind of a block changes, and looks go on.
#[test]
fn worn_cookie_is_answered(rt: HostRuntime) -> Result<(), Fail> {
    let left = ask_worn(&rt, rt.alloc())?;
    expect_left(&rt, rt.alloc(), &left, "0+1 hole", &["no sector"])?;
    Ok(())
}
