//! A turn of a pass at the size of a file.
ghost use Rattle.std.specs.Prelude.{◌≡◌};
ghost use Rattle.mini_fs.specs.PassView.{IsPassOf};
ghost use Rattle.mini_fs.specs.SizeTurns.{HasSize, LeavesSizeNumbers, ReadyAtSize, TurnsAtSize, size_at};
ghost use Rattle.mini_fs.specs.Tickets.{KeepsTickets};

use crate::mount::Mount;
use crate::pass::Pass;
use iob_base::FileId;
use size_core::Sizes;
use std::sync::Wait;
use turn_cell::Change;

impl Mount {
    /// One turn of the pass at the size of a file that has one, by a change that leaves the numbers of the pass's seat, and
    /// what the change answers. It tries until it wins the gate.
    ///
    /// Inside a call that seat may count a room from one turn to the next.
    pub fn size_turn<C: Change<Sizes>, R: Wait>(
        &self,
        rt: &R,
        pass: &mut Pass,
        file: FileId,
        change: &mut C,
    ) -> C::Out
        requires of { IsPassOf self.now pass.old }
        requires sized { HasSize self.now file }
        requires ready { ReadyAtSize (C.ready change.old) self.now pass.old (size_at self.now file) }
        requires leaves { LeavesSizeNumbers C.does change.old }
        ensures of { IsPassOf self.now pass.new }
        ensures turned { TurnsAtSize (λ opening history value claims next left entry. C.does change.old opening history value claims change.new next left result entry) self.now (size_at self.now file) pass.old pass.new }
        ensures tickets { KeepsTickets pass.old pass.new }
    {
        let at = self.size(file);
        let cell = self.size_cell(at);
        cell.turn(rt, &mut pass.sizes[at], change)
    }
}
