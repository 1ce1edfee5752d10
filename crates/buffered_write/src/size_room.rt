//! A call makes room for its entry at the size of a file first, and uses it last.
ghost use Rattle.std.specs.Prelude.{◌≡◌, ◌-◌, ◌≤◌};
ghost use Rattle.mini_fs.specs.Mappings.{file_end};
ghost use Rattle.mini_fs.specs.PassView.{IsPassOf};
ghost use Rattle.mini_fs.specs.SizeTurns.{HasSize};
ghost use Rattle.mini_fs.specs.Tickets.{KeepsTickets};
ghost use Rattle.buffered_write.specs.Cuts.{SawSize, settled};
ghost use Rattle.buffered_write.specs.Grows.{HasRoom, MadeRoom, TurnedAtSize, grown};

use iob_base::{Fault, FileId, Tag};
use mini_fs::{Mount, Pass};
use size_core::{CutSize, ForgetRoom, GrowSize, ReadyRoom, SeeSize};
use std::alloc::AllocError;
use std::sync::Wait;

// Makes room for one entry at the size of a file that has one.
pub(crate) fn make_room<R: Wait>(
    rt: &R,
    mount: &Mount,
    pass: &mut Pass,
    file: FileId,
) -> Result<(), AllocError>
    requires of { IsPassOf mount.now pass.old }
    requires sized { HasSize mount.now file }
    ensures of { IsPassOf mount.now pass.new }
    ensures made { MadeRoom mount.now file pass.old pass.new result }
    ensures tickets { KeepsTickets pass.old pass.new }
{
    mount.size_turn(rt, pass, file, &mut ReadyRoom {})
}

// Raises the size to where the bytes end that were written from one place up to another, or gives the room up where there
// are none.
pub(crate) fn use_room<R: Wait>(
    rt: &R,
    mount: &Mount,
    pass: &mut Pass,
    file: FileId,
    by: Tag,
    from: u64,
    at: u64,
)
    requires of { IsPassOf mount.now pass.old }
    requires sized { HasSize mount.now file }
    requires room { HasRoom mount.now file pass.old }
    requires order { from ≤ at }
    requires within { at ≤ file_end mount.now file }
    ensures of { IsPassOf mount.now pass.new }
    ensures used { TurnedAtSize mount.now file (grown by from (at - from)) pass.old pass.new }
    ensures tickets { KeepsTickets pass.old pass.new }
{
    mount.is_laid_out();
    if from < at {
        return mount.size_turn(rt, pass, file, &mut GrowSize { by, to: at });
    }
    mount.size_turn(rt, pass, file, &mut ForgetRoom {})
}

// Looks at the size of a file that has one.
pub(crate) fn see_size<R: Wait>(
    rt: &R,
    mount: &Mount,
    pass: &mut Pass,
    file: FileId,
    by: Tag,
) -> Result<u64, AllocError>
    requires of { IsPassOf mount.now pass.old }
    requires sized { HasSize mount.now file }
    ensures of { IsPassOf mount.now pass.new }
    ensures seen { SawSize mount.now file by pass.old pass.new result }
    ensures tickets { KeepsTickets pass.old pass.new }
{
    mount.is_laid_out();
    mount.size_turn(rt, pass, file, &mut SeeSize { by })
}

// Sets the size, or gives the room up where a fault stopped what was to be done before.
pub(crate) fn settle_room<R: Wait>(
    rt: &R,
    mount: &Mount,
    pass: &mut Pass,
    file: FileId,
    by: Tag,
    to: u64,
    fault: Option<Fault>,
)
    requires of { IsPassOf mount.now pass.old }
    requires sized { HasSize mount.now file }
    requires room { HasRoom mount.now file pass.old }
    requires within { to ≤ file_end mount.now file }
    ensures of { IsPassOf mount.now pass.new }
    ensures settled { TurnedAtSize mount.now file (settled by to fault) pass.old pass.new }
    ensures tickets { KeepsTickets pass.old pass.new }
{
    mount.is_laid_out();
    match fault {
        None => mount.size_turn(rt, pass, file, &mut CutSize { by, to }),
        Some(_) => mount.size_turn(rt, pass, file, &mut ForgetRoom {}),
    }
}
