//! A range is taken apart once its cell is closed.
ghost use Rattle.std.specs.Prelude.{◌≡◌, ◌^◌, None, IfOk, OnOk};
ghost use Rattle.turn_cell.specs.Seats.{IsSeatOf, cell_view, seat_claims, seat_view};
ghost use Rattle.mount_parts.specs.Ends.{EndsRange, EndsSpace, SawAll};

use range_core::{Range, RangeEnd, closed_is_home};
use std::alloc::AllocError;
use turn_cell::{TurnCell, TurnSeat};

/// What is left of a range: its cell is closed by a seat that has the whole share and claims no blocks. Each block ends as
/// the history that the seat has seen leaves it, which is the whole history; the seat made each entry of it, once.
///
/// The range's seat at the pool comes back with its share, and claims the numbers of the blocks' sectors.
///
/// # Errors
///
/// Want of memory, which drops the range.
pub(crate) fn close_range(
    cell: TurnCell<Range>,
    seat: TurnSeat<Range>,
) -> Result<RangeEnd, AllocError>
    requires cell { IsSeatOf cell seat }
    requires whole { (seat_view seat).share ≡ 2 ^ 63 }
    requires free { (seat_claims seat).held ≡ None }
    ensures saw { OnOk result (SawAll (seat_view seat)) }
    ensures ends { IfOk result (λ end. EndsRange (cell_view cell).opening (seat_view seat).seen end.extents end.blocks) }
    ensures space { IfOk result (λ end. EndsSpace (cell_view cell).opening end.blocks (seat_view end.seat) (seat_claims end.seat).facts) }
{
    closed_is_home();
    let range = cell.close(seat);
    range.is_kept();
    range.end()
}
