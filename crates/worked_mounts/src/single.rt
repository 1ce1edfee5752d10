//! A mount of one cached file of blocks of 16 bytes, in folios of four, from its start to its end.
ghost use Rattle.std.specs.Prelude.{◌≡◌, ◌^◌, [], None, IfOk, length};
ghost use Rattle.iob_base.specs.Layout.{layout};
ghost use Rattle.worked_mounts.specs.Alone.{IsAlone, share_of};
ghost use Rattle.worked_mounts.specs.Begins.{IsDevice, MayBegin, file_with};

use io_model::{Extent, FileEnd, FileSpec, Unmounted};
use iob_base::{FileId, Geometry, Items, Mode, Sector};
use mini_fs::{Mount, Pass};
use std::alloc::{AllocError, Global};

/// The one file.
pub const FILE: FileId = FileId(0);

/// How the mount begins.
#[derive(Clone, Copy)]
pub struct Begin {
    /// How many blocks the device has.
    pub device: u32,
    /// How many blocks the file has.
    pub blocks: u64,
    /// The size of the file in bytes, where it has one.
    pub size: Option<u64>,
    /// The cookie of each range.
    pub cookie: u64,
}

/// A cached file as it is before the first call. Want of memory is the only error.
pub(crate) fn file(
    alloc: Global,
    blocks: u64,
    size: Option<u64>,
    extents: &[Extent],
) -> Result<FileSpec, AllocError>
    ensures { IfOk result (λ f. f ≡ file_with blocks size extents.now) }
{
    Ok(FileSpec {
        mode: Mode::Cached,
        blocks,
        size,
        extents: Items::from_slice(alloc, extents)?,
    })
}

/// A mount of one cached file over this device, whose blocks have 16 bytes, in folios of four, and its first pass, which
/// has the whole share. Want of memory is the only error.
pub fn started_on(
    alloc: Global,
    geometry: Geometry,
    device: Vec<Sector>,
    begin: Begin,
    extents: &[Extent],
) -> Result<(Mount, Pass), AllocError>
    requires geometry { geometry ≡ layout 16 4 }
    requires device { IsDevice begin.device device.items }
    requires may { MayBegin begin.device begin.blocks begin.size begin.cookie extents.now }
    ensures alone { IfOk result (λ r. IsAlone r.0 r.1) }
    ensures whole { IfOk result (λ r. share_of r.1 ≡ 2 ^ 63) }
    ensures one { IfOk result (λ r. length r.0.files ≡ 1) }
    ensures spare { IfOk result (λ r. r.1.spare ≡ 4294967295) }
    ensures sizes { IfOk result (λ r. begin.size ≡ None → r.0.sizes ≡ []) }
{
    let mut files = Vec::with_capacity(alloc, 1)?;
    files.push_reserved(file(alloc, begin.blocks, begin.size, extents)?);
    let (mount, pass) = Mount::start(alloc, geometry, device, files, begin.cookie)?;
    mount.is_laid_out();
    Ok((mount, pass))
}

/// What is left of the mount. Want of memory is the only error.
pub fn ended(mount: Mount, pass: Pass) -> Result<Unmounted, AllocError>
    requires alone { IsAlone mount pass }
    requires whole { share_of pass ≡ 2 ^ 63 }
{
    mount.unmount(pass)
}

/// What is left of the file.
pub fn file_left(left: Unmounted) -> Option<FileEnd> {
    let Unmounted { files, free: _ } = left;
    let mut files = files.into_vec();
    files.pop()
}
