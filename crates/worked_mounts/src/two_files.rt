//! Two files lie one after the other over a device. Bytes are written to blocks of both, and each ends with its own blocks and
//! its own size.
ghost use Rattle.std.specs.Prelude.{[], ◌∷◌, ◌≡◌, ◌^◌, ◌<◌, IfOk, OnOk};
ghost use Rattle.iob_base.specs.Layout.{layout};
ghost use Rattle.worked_mounts.specs.Alone.{IsAlone, share_of};
ghost use Rattle.worked_mounts.specs.Begins.{IsDevice, MayHold};
ghost use Rattle.worked_mounts.specs.Others.{HasOther};

use crate::callers::{expect_block, lane};
use crate::mount_ground::device;
use crate::mount_texts::extents_text;
use crate::mount_writes::write_through;
use crate::single::{FILE, ended, file};
use fault_device::Lane;
use io_model::{Extent, FileSpec, Kind, Unmounted};
use iob_base::{FileId, Geometry, Sector};
use mini_fs::{Mount, Pass};
use std::alloc::{AllocError, Global};
use std::process::Abort;
use std::sync::Wait;
use std::test::Fail;

// The second file.
const OTHER: FileId = FileId(1);

// How many blocks the device has.
const DEVICE: u32 = 40;

// Each file has space over the border of its two stripes.
const FIRST: [Extent; 1] = [Extent {
    block: 60,
    length: 8,
    kind: Kind::Mapped(3),
}];

const SECOND: [Extent; 2] = [
    Extent {
        block: 0,
        length: 3,
        kind: Kind::Mapped(20),
    },
    Extent {
        block: 63,
        length: 3,
        kind: Kind::Mapped(30),
    },
];

// A mount of two files, and its first pass. Want of memory is the only error.
fn started_with(
    alloc: Global,
    geometry: Geometry,
    device: Vec<Sector>,
    first: FileSpec,
    second: FileSpec,
) -> Result<(Mount, Pass), AllocError>
    requires geometry { geometry ≡ layout 16 4 }
    requires device { IsDevice 40 device.items }
    requires may { MayHold 40 (first ∷ second ∷ []) }
    ensures alone { IfOk result (λ r. IsAlone r.0 r.1) }
    ensures whole { IfOk result (λ r. share_of r.1 ≡ 2 ^ 63) }
    ensures other { IfOk result (λ r. HasOther r.0) }
{
    let mut files = Vec::with_capacity(alloc, 2)?;
    files.push_reserved(first);
    files.push_reserved(second);
    let (mount, pass) = Mount::start(alloc, geometry, device, files, 0)?;
    mount.is_laid_out();
    Ok((mount, pass))
}

// Four calls, each of which writes to a block of its own: in both files, one in each stripe. Want of memory is the only error.
fn write_to_both<R: Abort + Wait>(
    rt: &R,
    mount: &Mount,
    pass: &mut Pass,
    lane: &mut Lane,
) -> Result<(), AllocError>
    requires alone { IsAlone mount.now pass.old }
    requires share { 1 < share_of pass.old }
    requires other { HasOther mount.now }
    ensures alone { OnOk result (IsAlone mount.now pass.new) }
    ensures share { OnOk result (share_of pass.new ≡ share_of pass.old) }
{
    write_through(rt, mount, pass, lane, FILE, 1, 60, b"first-file-first")?;
    write_through(rt, mount, pass, lane, OTHER, 2, 64, b"other-file-later")?;
    write_through(rt, mount, pass, lane, FILE, 3, 64, b"first-file-later")?;
    write_through(rt, mount, pass, lane, OTHER, 4, 0, b"other-file-first")?;
    Ok(())
}

// What is left of two files after that. Want of memory is the only error.
fn left_of<R: Abort + Wait>(
    rt: &R,
    alloc: Global,
    first: FileSpec,
    second: FileSpec,
) -> Result<Unmounted, AllocError>
    requires { MayHold 40 (first ∷ second ∷ []) }
{
    let Ok(geometry) = Geometry::new(16, 4) else {
        unreachable!()
    };
    let device = device(alloc, geometry, DEVICE)?;
    let (mount, mut pass) = started_with(alloc, geometry, device, first, second)?;
    let mut lane = lane(alloc, 0)?;
    write_to_both(rt, &mount, &mut pass, &mut lane)?;
    ended(mount, pass)
}

// What is left of a file without a size, and of one whose size ends in its last block, both of two stripes.
fn two_left<R: Abort + Wait>(rt: &R, alloc: Global) -> Result<Unmounted, AllocError> {
    let first = file(alloc, 70, None, &FIRST)?;
    let second = file(alloc, 66, Some(1044), &SECOND)?;
    left_of(rt, alloc, first, second)
}

// The blocks of each file come back with their sectors, its journals, and the bytes that were written to it. The size of the
// second one ends behind four bytes of its last block: the bytes from there on became zeros.
#[test]
fn two_files_end_apart(rt: HostRuntime) -> Result<(), Fail> {
    let alloc = rt.alloc();
    let left = two_left(&rt, alloc)?;
    let [first, second] = left.files.as_slice() else {
        return Err(Fail::from("there are two files"));
    };
    assert_eq!(rt;
        extents_text(alloc, first.extents.as_slice())?.as_str(),
        "0+60 hole, 60+8 mapped 3, 68+2 hole"
    );
    assert_eq!(rt; (first.blocks.len(), first.size), (70, None));
    expect_block(&rt, alloc, first, 60, "3 first-file-first, 0.1 done")?;
    expect_block(&rt, alloc, first, 63, "6 g~~~~~~~~~~~~~~~")?;
    expect_block(&rt, alloc, first, 64, "7 first-file-later, 0.3 done")?;
    assert_eq!(rt;
        extents_text(alloc, second.extents.as_slice())?.as_str(),
        "0+3 mapped 20, 3+60 hole, 63+3 mapped 30"
    );
    assert_eq!(rt; (second.blocks.len(), second.size), (66, Some(1044)));
    expect_block(&rt, alloc, second, 0, "20 other-file-first, 0.4 done")?;
    expect_block(&rt, alloc, second, 2, "22 w~~~~~~~~~~~~~~~")?;
    expect_block(&rt, alloc, second, 64, "31 other-file-later, 0.2 done")?;
    expect_block(&rt, alloc, second, 65, "32 g~~~............")?;
    assert_eq!(rt; left.free.len(), 26);
    Ok(())
}
