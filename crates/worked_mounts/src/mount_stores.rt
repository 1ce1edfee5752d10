//! Bytes of a caller's memory are laid over blocks of a mapping.
ghost use Rattle.std.specs.Prelude.{◌≡◌, ◌+◌, ◌-◌, ◌/◌, ◌<◌, ◌≤◌, false, IfOk, length};
ghost use Rattle.iob_base.specs.declared.stamp.Mode.TheVariants.{Cached};
ghost use Rattle.mount_parts.specs.MountView.{file_at};
ghost use Rattle.range_core.specs.Kinds.{is_hole};
ghost use Rattle.worked_mounts.specs.Alone.{HasMapping, IsAlone, IsSeen, KeepsMapping, share_of};
ghost use Rattle.worked_mounts.specs.Buffers.{IsBuffer};

use io_model::{Extent, Kind};
use iob_base::{FileId, Tag};
use iomap_core::Iomap;
use iov_iter::IovIter;
use mini_fs::{Mount, Pass};
use range_core::{EventFault, Sample};
use std::alloc::{AllocError, Global};
use std::process::Abort;
use std::sync::Wait;

// The caller's memory, with these bytes first.
fn buffer(alloc: Global, bytes: &[u8]) -> Result<IovIter, AllocError>
    requires { length bytes.now ≤ 64 }
    ensures start { IfOk result (λ iov. iov.place ≡ 0) }
    ensures buffer { IfOk result (λ iov. IsBuffer iov) }
{
    let mut iov = IovIter::zeroed(alloc, 16, 7, &[64])?;
    iov.write_at(0, bytes);
    Ok(iov)
}

// Bytes of one folio.
fn expect_folio(rt: &impl Abort, from: u64, to: u64)
    ensures some { from < to }
    ensures folio { from / 16 / 4 ≡ (to - 1) / 16 / 4 }
{
    assert!(rt; from < to, "some bytes");
    assert_eq!(rt; from / 16 / 4, (to - 1) / 16 / 4, "bytes of one folio");
}

// Bytes of blocks of an extent that is no hole.
fn expect_covered(rt: &impl Abort, extent: Extent, from: u64, to: u64)
    requires { from < to }
    ensures low { extent.block ≤ from / 16 }
    ensures high { (to - 1) / 16 < extent.block + extent.length }
    ensures space { is_hole extent.kind ≡ false }
{
    assert!(rt; extent.block <= from / 16, "bytes of the extent");
    assert!(rt;
        (to - 1) / 16 - extent.block < extent.length,
        "bytes of the extent"
    );
    match extent.kind {
        Kind::Hole => panic!(rt; "no hole"),
        Kind::Delalloc | Kind::Unwritten(_) | Kind::Mapped(_) => {}
    }
}

// The turn that lays the bytes of a buffer over blocks of the mapping.
fn store_turn<R: Abort + Wait>(
    rt: &R,
    mount: &Mount,
    pass: &mut Pass,
    file: FileId,
    by: Tag,
    seen: Sample,
    from: u64,
    to: u64,
    iov: &mut IovIter,
) -> Result<(), EventFault>
    requires alone { IsAlone mount.now pass.old }
    requires cached { (file_at mount.now file).mode ≡ Cached }
    requires seen { IsSeen mount.now file pass.old seen }
    requires start { iov.old.place ≡ 0 }
    requires buffer { IsBuffer iov.old }
    ensures alone { IsAlone mount.now pass.new }
    ensures share { share_of pass.new ≡ share_of pass.old }
    ensures mapping { KeepsMapping mount.now pass.old pass.new }
{
    expect_folio(rt, from, to);
    expect_covered(rt, seen.extent, from, to);
    let _ = iov.count();
    mount.is_laid_out();
    mount.store(rt, pass, file, by, seen, from, to, iov)
}

/// Lays bytes over blocks of the mapping, from one place of the file on, for the call of this number.
pub(crate) fn store<R: Abort + Wait>(
    rt: &R,
    mount: &Mount,
    pass: &mut Pass,
    call: u32,
    iomap: &Iomap,
    from: u64,
    bytes: &[u8],
) -> Result<Result<(), EventFault>, AllocError>
    requires alone { IsAlone mount.now pass.old }
    requires mapping { HasMapping mount.now pass.old iomap.now }
    ensures alone { IsAlone mount.now pass.new }
    ensures share { share_of pass.new ≡ share_of pass.old }
    ensures mapping { KeepsMapping mount.now pass.old pass.new }
{
    assert!(rt; bytes.len() <= 64, "bytes of one folio");
    assert!(rt; from <= 1 << 20, "bytes of the file");
    let seen = mount.seen(pass, iomap);
    let by = Tag {
        caller: pass.caller(),
        call,
    };
    let mut iov = buffer(mount.allocator(), bytes)?;
    let to = from + bytes.len() as u64;
    let file = iomap.file;
    Ok(store_turn(rt, mount, pass, file, by, seen, from, to, &mut iov))
}
