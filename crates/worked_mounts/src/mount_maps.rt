//! Mappings of a cached file of a mount.
ghost use Rattle.std.specs.Prelude.{◌≡◌, ◌*◌, ◌<◌, ◌≤◌, IfOk};
ghost use Rattle.iob_base.specs.declared.stamp.Mode.TheVariants.{Cached};
ghost use Rattle.mount_parts.specs.MountView.{HasFile, file_at};
ghost use Rattle.mini_fs.specs.Mappings.{file_end};
ghost use Rattle.worked_mounts.specs.Alone.{HasMapping, IsAlone, share_of};

use iob_base::FileId;
use iomap_core::{BeginFault, Flags, Iomap, IomapOps};
use mini_fs::{Mount, Pass};
use std::process::Abort;
use std::sync::Wait;

// Bytes are to be written through the page cache.
const WRITE: Flags = Flags {
    write: true,
    zero: false,
    report: false,
    direct: false,
    overwrite_only: false,
    dax: false,
};

// A byte of the file.
fn expect_byte(rt: &impl Abort, mount: &Mount, pass: &Pass, file: FileId, pos: u64)
    requires alone { IsAlone mount.now pass.now }
    requires exists { HasFile mount.now file }
    ensures { pos < file_end mount.now file }
{
    assert!(rt; pos / 16 < mount.blocks(file), "a byte of the file");
}

/// Begins a mapping to write bytes of the file.
pub(crate) fn begin<R: Abort + Wait>(
    rt: &R,
    mount: &Mount,
    pass: &mut Pass,
    file: FileId,
    pos: u64,
    length: u64,
) -> Result<Iomap, BeginFault>
    requires alone { IsAlone mount.now pass.old }
    requires exists { HasFile mount.now file }
    requires cached { (file_at mount.now file).mode ≡ Cached }
    ensures alone { IsAlone mount.now pass.new }
    ensures share { share_of pass.new ≡ share_of pass.old }
    ensures mapping { IfOk result (HasMapping mount.now pass.new) }
{
    expect_byte(rt, mount, pass, file, pos);
    assert!(rt; 1 <= length, "some bytes");
    mount.begin(rt, pass, file, pos, length, WRITE)
}

/// Ends the mapping, of which so many bytes were written.
pub(crate) fn end<R: Abort + Wait>(
    rt: &R,
    mount: &Mount,
    pass: &mut Pass,
    iomap: Iomap,
    written: u64,
)
    requires alone { IsAlone mount.now pass.old }
    requires mapping { HasMapping mount.now pass.old iomap }
    ensures alone { IsAlone mount.now pass.new }
    ensures share { share_of pass.new ≡ share_of pass.old }
{
    assert!(rt; written <= iomap.length, "bytes of the mapping");
    mount.end(rt, pass, iomap, written);
}
