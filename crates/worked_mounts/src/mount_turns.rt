//! The turns of a pass at the one file of a mount.
ghost use Rattle.std.specs.Prelude.{◌≡◌, ◌+◌, ◌%◌, ◌<◌, ◌≤◌};
ghost use Rattle.mount_parts.specs.MountView.{HasFile, file_at};
ghost use Rattle.worked_mounts.specs.Alone.{IsAlone, KeepsMapping, share_of};

use crate::single::FILE;
use iob_base::FileId;
use mini_fs::{Mount, Pass};
use range_core::{EventFault, Sample};
use std::process::Abort;
use std::sync::Wait;

/// Blocks of a file that lie in one stripe.
pub(crate) fn expect_run(rt: &impl Abort, mount: &Mount, file: FileId, block: u64, blocks: u64)
    requires { HasFile mount.now file }
    ensures some { 0 < blocks }
    ensures within { block + blocks ≤ (file_at mount.now file).blocks }
    ensures stripe { block % 64 + blocks ≤ 64 }
{
    let all = mount.blocks(file);
    assert!(rt; 0 < blocks, "some blocks");
    assert!(rt; block < all, "a block of the file");
    assert!(rt; blocks <= all - block, "blocks of the file");
    assert!(rt; blocks <= 64 - block % 64, "blocks of one stripe");
}

/// Looks at the extent of a block.
pub(crate) fn look<R: Abort + Wait>(
    rt: &R,
    mount: &Mount,
    pass: &mut Pass,
    block: u64,
    most: u64,
) -> Sample
    requires { IsAlone mount.now pass.old }
    ensures alone { IsAlone mount.now pass.new }
    ensures share { share_of pass.new ≡ share_of pass.old }
    ensures mapping { KeepsMapping mount.now pass.old pass.new }
{
    expect_run(rt, mount, FILE, block, 1);
    assert!(rt; 0 < most, "some blocks");
    mount.is_laid_out();
    mount.sample(rt, pass, FILE, block, most)
}

/// Gives sectors to blocks that have none.
pub(crate) fn place<R: Abort + Wait>(
    rt: &R,
    mount: &Mount,
    pass: &mut Pass,
    block: u64,
    blocks: u64,
) -> Result<u64, EventFault>
    requires { IsAlone mount.now pass.old }
    ensures alone { IsAlone mount.now pass.new }
    ensures share { share_of pass.new ≡ share_of pass.old }
    ensures mapping { KeepsMapping mount.now pass.old pass.new }
{
    expect_run(rt, mount, FILE, block, blocks);
    mount.is_laid_out();
    mount.preallocate(rt, pass, FILE, block, blocks)
}
