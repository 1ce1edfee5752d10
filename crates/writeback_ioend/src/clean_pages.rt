//! The clean pages of a file leave the cache.
ghost use Rattle.std.specs.Prelude.{◌≡◌, ◌<◌};
ghost use Rattle.mount_parts.specs.MountView.{HasFile, file_at, stripes_of};
ghost use Rattle.mini_fs.specs.Calls.{LeavesPass, MayCall};
ghost use Rattle.mini_fs.specs.PassView.{IsPassOf};
ghost use Rattle.mini_fs.specs.Tickets.{KeepsTickets};
ghost use Rattle.writeback_ioend.specs.DropsCache.{DropsCache, DropsStripe, DropsStripes, blocks_from};

use iob_base::{Answer, FileId, Reply, STRIPE, Stop};
use mini_fs::{Mount, Pass};
use std::sync::Wait;

// How many blocks the stripe of a file from a block on has.
pub(crate) fn blocks_from(mount: &Mount, file: FileId, from: u64) -> u64
    requires { HasFile mount.now file }
    ensures { result ≡ blocks_from (file_at mount.now file).blocks from }
{
    STRIPE.min(mount.blocks(file).saturating_sub(from))
}

// Drops the clean pages of one stripe of a file.
fn drop_stripe<R: Wait>(rt: &R, mount: &Mount, pass: &mut Pass, file: FileId, stripe: u64) -> u64
    requires of { IsPassOf mount.now pass.old }
    requires file { HasFile mount.now file }
    requires stripe { stripe < stripes_of (file_at mount.now file).blocks }
    ensures of { IsPassOf mount.now pass.new }
    ensures dropped { DropsStripe mount.now file stripe pass.old pass.new result }
    ensures tickets { KeepsTickets pass.old pass.new }
{
    mount.is_laid_out();
    let from = stripe * STRIPE;
    let blocks = blocks_from(mount, file, from);
    mount.drop_clean(rt, pass, file, from, blocks)
}

// Drops the clean pages of a file, one turn a stripe.
fn drop_stripes<R: Wait>(rt: &R, mount: &Mount, pass: &mut Pass, file: FileId) -> u64
    requires of { IsPassOf mount.now pass.old }
    requires file { HasFile mount.now file }
    ensures of { IsPassOf mount.now pass.new }
    ensures dropped { DropsStripes mount.now file (stripes_of (file_at mount.now file).blocks) pass.old pass.new result }
    ensures tickets { KeepsTickets pass.old pass.new }
{
    mount.is_laid_out();
    let mut pages = 0;
    for stripe in 0..mount.blocks(file).div_ceil(STRIPE) {
        pages += drop_stripe(rt, mount, pass, file, stripe);
    }
    pages
}

/// Each block of a file that is uptodate, clean and at home loses its page. It answers how many did. Each stripe of the file
/// has one turn. It takes no memory and no class, leaves no stamp, and refuses nothing.
pub fn drop_cache<R: Wait>(
    rt: &R,
    mount: &Mount,
    pass: &mut Pass,
    call: u32,
    file: FileId,
) -> Answer
    requires { MayCall mount.now file call pass.old }
    ensures dropped { DropsCache mount.now file pass.old pass.new result }
    ensures pass { LeavesPass mount.now file call pass.old pass.new }
{
    pass.start_call(call);
    let count = drop_stripes(rt, mount, pass, file);
    Answer {
        reply: Reply::Ok {
            count,
            stop: Stop::Whole,
        },
        bios: 0,
    }
}
