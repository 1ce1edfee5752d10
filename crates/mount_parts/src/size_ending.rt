//! The sizes of files are taken apart once their cells are closed.
ghost use Rattle.std.specs.Prelude.{◌≡◌, ◌^◌, All, IfOk, map};
ghost use Rattle.crossbeam_utils.specs.Padded.{padded_value};
ghost use Rattle.turn_cell.specs.Seats.{IsSeatOf, cell_view, seat_view};
ghost use Rattle.mount_parts.specs.SizeEnds.{AreSizeEnds, IsSizeEnd};

use crate::rest::next_of;
use crate::size_end::SizeEnd;
use crossbeam_utils::CachePadded;
use iob_base::Items;
use size_core::Sizes;
use std::alloc::{AllocError, Global};
use turn_cell::{TurnCell, TurnSeat};

// What is left of a size: its cell is closed by a seat that has the whole share. It is as the history that the seat has seen
// leaves it, which is the whole history; the seat made each entry of it, once.
fn close_size(cell: TurnCell<Sizes>, seat: TurnSeat<Sizes>) -> SizeEnd
    requires cell { IsSeatOf cell seat }
    requires whole { (seat_view seat).share ≡ 2 ^ 63 }
    ensures { IsSizeEnd (cell_view cell) (seat_view seat) result }
{
    let sizes = cell.close(seat);
    let (size, stamps) = sizes.end();
    SizeEnd {
        size,
        stamps: Items::from_vec(stamps),
    }
}

// Closes each of these cells by the seat in its place, which has the whole share: what is left of each size, in order. Want
// of memory, which drops the cells and the seats, is the only error.
pub(crate) fn close_sizes(
    alloc: Global,
    cells: Vec<CachePadded<TurnCell<Sizes>>>,
    seats: Vec<TurnSeat<Sizes>>,
) -> Result<Vec<SizeEnd>, AllocError>
    requires cells { map (λ s. (seat_view s).cell) seats.items ≡ map (λ c. (cell_view (padded_value c)).cell) cells.items }
    requires whole { All (λ s. (seat_view s).share ≡ 2 ^ 63) seats.items }
    ensures { IfOk result (λ ends. AreSizeEnds (map (λ c. cell_view (padded_value c)) cells.items) (map seat_view seats.items) ends.items) }
{
    let mut ends = Vec::new(alloc);
    let count = cells.len();
    let mut cells = cells.into_iter();
    let mut seats = seats.into_iter();
    for _ in 0..count {
        let padded = next_of(&mut cells);
        let cell = padded.into_inner();
        let seat = next_of(&mut seats);
        let end = close_size(cell, seat);
        ends.push(end)?;
    }
    Ok(ends)
}
