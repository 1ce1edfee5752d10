//! The size of the file of a mount, by turns of a pass.
ghost use Rattle.std.specs.Prelude.{◌≡◌, ◌≤◌, OnOk};
ghost use Rattle.mini_fs.specs.Mappings.{file_end};
ghost use Rattle.mini_fs.specs.SizeTurns.{HasSize};
ghost use Rattle.worked_mounts.specs.Alone.{HasRoom, IsAlone, only_file, share_of};

use crate::mount_ground::started;
use crate::single::{Begin, FILE, ended, file_left};
use io_model::{FileEnd, SizeMark, SizeStamp};
use iob_base::Tag;
use mini_fs::{Mount, Pass};
use size_core::{CutSize, ForgetRoom, GrowSize, ReadyRoom, SeeSize};
use std::alloc::{AllocError, Global};
use std::process::Abort;
use std::sync::Wait;
use std::test::Fail;

// A file of four holes, of whose 64 bytes 5 are its size.
const SIZED: Begin = Begin {
    device: 8,
    blocks: 4,
    size: Some(5),
    cookie: 0,
};

// The file has a size, and its blocks reach so far.
fn expect_size(rt: &impl Abort, mount: &Mount, pass: &Pass, to: u64)
    requires { IsAlone mount.now pass.now }
    ensures sized { HasSize mount.now only_file }
    ensures within { to ≤ file_end mount.now only_file }
{
    assert!(rt; mount.sized(FILE), "the file has a size");
    assert!(rt; to / 16 < mount.blocks(FILE), "a byte of the file");
}

// A call that sees the size.
fn see<R: Abort + Wait>(
    rt: &R,
    mount: &Mount,
    pass: &mut Pass,
    call: u32,
) -> Result<u64, AllocError>
    requires { IsAlone mount.now pass.old }
    ensures alone { IsAlone mount.now pass.new }
    ensures share { share_of pass.new ≡ share_of pass.old }
{
    expect_size(rt, mount, pass, 0);
    let by = Tag {
        caller: pass.caller(),
        call,
    };
    mount.size_turn(rt, pass, FILE, &mut SeeSize { by })
}

// Makes room for an entry.
fn make_room<R: Abort + Wait>(rt: &R, mount: &Mount, pass: &mut Pass) -> Result<(), AllocError>
    requires alone { IsAlone mount.now pass.old }
    requires sized { HasSize mount.now only_file }
    ensures alone { IsAlone mount.now pass.new }
    ensures share { share_of pass.new ≡ share_of pass.old }
    ensures room { OnOk result (HasRoom mount.now pass.new) }
{
    mount.size_turn(rt, pass, FILE, &mut ReadyRoom {})
}

// A call of a write that ends at `to`: it makes room first, and raises the size last.
fn grow<R: Abort + Wait>(
    rt: &R,
    mount: &Mount,
    pass: &mut Pass,
    call: u32,
    to: u64,
) -> Result<(), AllocError>
    requires { IsAlone mount.now pass.old }
    ensures alone { IsAlone mount.now pass.new }
    ensures share { share_of pass.new ≡ share_of pass.old }
{
    expect_size(rt, mount, pass, to);
    let by = Tag {
        caller: pass.caller(),
        call,
    };
    make_room(rt, mount, pass)?;
    mount.is_laid_out();
    mount.size_turn(rt, pass, FILE, &mut GrowSize { by, to });
    Ok(())
}

// A call of a truncation to `to`: it makes room, and sets the size last.
fn cut<R: Abort + Wait>(
    rt: &R,
    mount: &Mount,
    pass: &mut Pass,
    call: u32,
    to: u64,
) -> Result<(), AllocError>
    requires { IsAlone mount.now pass.old }
    ensures alone { IsAlone mount.now pass.new }
    ensures share { share_of pass.new ≡ share_of pass.old }
{
    expect_size(rt, mount, pass, to);
    let by = Tag {
        caller: pass.caller(),
        call,
    };
    make_room(rt, mount, pass)?;
    mount.is_laid_out();
    mount.size_turn(rt, pass, FILE, &mut CutSize { by, to });
    Ok(())
}

// A call of a write that comes to nothing: it makes room and gives it up.
fn give_up<R: Abort + Wait>(rt: &R, mount: &Mount, pass: &mut Pass) -> Result<(), AllocError>
    requires { IsAlone mount.now pass.old }
    ensures alone { IsAlone mount.now pass.new }
    ensures share { share_of pass.new ≡ share_of pass.old }
{
    expect_size(rt, mount, pass, 0);
    make_room(rt, mount, pass)?;
    mount.size_turn(rt, pass, FILE, &mut ForgetRoom {});
    Ok(())
}

// A read, two writes, one that comes to nothing, a truncation and a read. What is left of the file.
fn change_size<R: Abort + Wait>(rt: &R, alloc: Global) -> Result<FileEnd, Fail> {
    let (mount, mut pass) = started(alloc, SIZED, &[])?;
    let pass_mut = &mut pass;
    let first = see(rt, &mount, pass_mut, 1)?;
    grow(rt, &mount, pass_mut, 2, 40)?;
    grow(rt, &mount, pass_mut, 3, 21)?;
    give_up(rt, &mount, pass_mut)?;
    let second = see(rt, &mount, pass_mut, 4)?;
    cut(rt, &mount, pass_mut, 5, 3)?;
    let third = see(rt, &mount, pass_mut, 6)?;
    assert_eq!(rt; (first, second, third), (5, 40, 3));
    Ok(file_left(ended(mount, pass)?).ok_or("there is a file")?)
}

// The caller and the call of an entry, and what it entered as a letter and a number of bytes.
fn shown(stamp: &SizeStamp) -> (u32, u32, char, u64) {
    let SizeStamp { caller, call, mark } = *stamp;
    match mark {
        SizeMark::See { found } => (caller, call, 'S', found),
        SizeMark::Grow { to } => (caller, call, 'G', to),
        SizeMark::Cut { to } => (caller, call, 'C', to),
    }
}

// A write past the size raises it, one below it does not, and a truncation cuts it. Each enters what it did, but for the
// write that comes to nothing.
#[test]
fn size_grows_and_is_cut(rt: HostRuntime) -> Result<(), Fail> {
    let left = change_size(&rt, rt.alloc())?;
    assert_eq!(rt; left.size, Some(3));
    let wanted = [
        (0, 1, 'S', 5),
        (0, 2, 'G', 40),
        (0, 3, 'G', 21),
        (0, 4, 'S', 40),
        (0, 5, 'C', 3),
        (0, 6, 'S', 3),
    ];
    assert_eq!(rt; left.sizes.len(), wanted.len());
    for (stamp, want) in left.sizes.as_slice().iter().zip(wanted.iter()) {
        assert_eq!(rt; shown(stamp), *want);
    }
    Ok(())
}
