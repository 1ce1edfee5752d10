//! How the range of a call is cut into parts, each in one folio.
ghost use Rattle.std.specs.Prelude.{◌≡◌, ◌<◌, IsTrue};
ghost use Rattle.iob_base.specs.Geometry.{is_block_size, is_folio_blocks};
ghost use Rattle.mount_parts.specs.MountView.{HasFile};
ghost use Rattle.mini_fs.specs.Mappings.{file_end};
ghost use Rattle.call_parts.specs.Parts.{part_end, read_to};

use iob_base::{FileId, Geometry};
use mini_fs::Mount;

/// Where a call on so many bytes from an offset on ends, in a file that ends at `end`.
pub fn read_to(end: u64, off: u64, asked: u64) -> u64
    ensures { result ≡ read_to end off asked }
{
    off.saturating_add(asked).min(end).max(off)
}

/// Where the part that begins at `at` ends: with its folio, or with the range.
pub fn part_end(geometry: Geometry, to: u64, at: u64) -> u64
    requires { at < to }
    ensures { result ≡ part_end geometry to at }
{
    let folio = u64::from(geometry.block_size()) * u64::from(geometry.folio_blocks());
    let left = folio - at % folio;
    at + left.min(to - at)
}

/// The sizes of the mount's blocks and folios.
pub fn sizes(mount: &Mount) -> Geometry
    ensures is { result ≡ mount.now.geometry }
    ensures blocks { IsTrue (is_block_size mount.now.geometry.block_size) }
    ensures folios { IsTrue (is_folio_blocks mount.now.geometry.folio_blocks) }
{
    mount.geometry()
}

/// Where the bytes of a file end.
pub fn file_end(mount: &Mount, file: FileId) -> u64
    requires { HasFile mount.now file }
    ensures is { result ≡ file_end mount.now file }
    ensures blocks { IsTrue (is_block_size mount.now.geometry.block_size) }
    ensures folios { IsTrue (is_folio_blocks mount.now.geometry.folio_blocks) }
{
    mount.is_laid_out();
    mount.blocks(file) * u64::from(sizes(mount).block_size())
}
