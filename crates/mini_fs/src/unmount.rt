//! A mount ends.
ghost use Rattle.std.specs.Prelude.{IfOk, map};
ghost use Rattle.mount_parts.specs.Unmounts.{Unmounts};
ghost use Rattle.mini_fs.specs.PassView.{IsPassOf};
ghost use Rattle.mini_fs.specs.Splits.{HoldsNothing};
ghost use Rattle.mini_fs.specs.Wholes.{HasWhole, seat_of_size};

use crate::mount::Mount;
use crate::pass::Pass;
use io_model::Unmounted;
use mount_parts::{Parts, take_apart};
use std::alloc::AllocError;

impl Mount {
    /// Takes the mount apart: what is left of each file, in order, and the sectors that no file has, in the order of their
    /// numbers. The pass has the whole share at each stripe and size, as it has once every other pass was joined into it and
    /// every ticket was closed, and holds no class.
    ///
    /// # Errors
    ///
    /// Want of memory, which drops the mount and the pass.
    pub fn unmount(self, pass: Pass) -> Result<Unmounted, AllocError>
        requires of { IsPassOf self pass }
        requires whole { HasWhole pass }
        requires none { HoldsNothing pass }
        ensures ok { IfOk result (λ u. Unmounts self pass.stripes (map seat_of_size pass.sizes) u) }
    {
        let Mount {
            alloc,
            geometry,
            files,
            stripes,
            sizes,
            locks,
            pool,
            idle,
            queue,
        } = self;
        let Pass {
            stripes: seats,
            sizes: size_seats,
            locks: lock_seats,
            caller: _,
            spare: _,
            last: _,
            begun: _,
            bios,
        } = pass;
        drop(lock_seats);
        drop(bios);
        drop(queue);
        let parts = Parts {
            geometry,
            files,
            stripes,
            sizes,
            locks,
            pool,
            idle,
        };
        take_apart(alloc, parts, seats, size_seats)
    }
}
