//! The stripes of a mount are taken apart.
ghost use Rattle.std.specs.Prelude.{◌≡◌, ◌^◌, All, IfOk, map};
ghost use Rattle.crossbeam_utils.specs.Padded.{padded_value};
ghost use Rattle.turn_cell.specs.Seats.{cell_view, seat_claims, seat_view};
ghost use Rattle.mount_parts.specs.Ends.{AreEnds, ClaimsNoBlocks, range_end};

use crate::ending::close_range;
use crate::rest::next_of;
use crossbeam_utils::CachePadded;
use range_core::{Range, RangeEnd};
use std::alloc::{AllocError, Global};
use turn_cell::{TurnCell, TurnSeat};

/// Closes each of these cells by the seat in its place, which has the whole share and claims no blocks, and takes its range
/// apart: what is left of each, in order.
///
/// # Errors
///
/// Want of memory, which drops the cells and the seats.
pub(crate) fn close_ranges(
    alloc: Global,
    cells: Vec<CachePadded<TurnCell<Range>>>,
    seats: Vec<TurnSeat<Range>>,
) -> Result<Vec<RangeEnd>, AllocError>
    requires cells { map (λ s. (seat_view s).cell) seats.items ≡ map (λ c. (cell_view (padded_value c)).cell) cells.items }
    requires whole { All (λ s. (seat_view s).share ≡ 2 ^ 63) seats.items }
    requires free { All (λ s. ClaimsNoBlocks (seat_claims s)) seats.items }
    ensures { IfOk result (λ ends. AreEnds (map (λ c. cell_view (padded_value c)) cells.items) (map seat_view seats.items) (map (λ e. range_end e.extents e.blocks (seat_view e.seat) (seat_claims e.seat)) ends.items)) }
{
    let mut ends = Vec::new(alloc);
    let count = cells.len();
    let mut cells = cells.into_iter();
    let mut seats = seats.into_iter();
    for _ in 0..count {
        let padded = next_of(&mut cells);
        let cell = padded.into_inner();
        let seat = next_of(&mut seats);
        let end = close_range(cell, seat)?;
        ends.push(end)?;
    }
    Ok(ends)
}
