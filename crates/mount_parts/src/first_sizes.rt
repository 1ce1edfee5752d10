//! The sizes of files that have one, each in a cell of its own, and the first seat at each.
ghost use Rattle.std.specs.Prelude.{◌≡◌, ◌*◌, ◌≤◌, ◌^◌, ◌++◌, All, IfOk, IfSome, OnOk, map};
ghost use Rattle.crossbeam_utils.specs.Padded.{padded_value};
ghost use Rattle.file_stripes.specs.Files.{IsFile};
ghost use Rattle.turn_cell.specs.Seats.{cell_view, seat_claims, seat_view};
ghost use Rattle.turn_cell.specs.Views.{first_seat};
ghost use Rattle.size_core.specs.ClaimsView.{first_claims};
ghost use Rattle.size_core.specs.SizesView.{fresh_sizes};
ghost use Rattle.mount_parts.specs.FirstSizes.{MayHaveSize, first_sizes, size_from};
ghost use Rattle.mount_parts.specs.Pieces.{is_first_at};

use crossbeam_utils::CachePadded;
use io_model::FileSpec;
use iob_base::Geometry;
use size_core::{SizeClaims, Sizes};
use std::alloc::{AllocError, Global};
use turn_cell::{NoCell, TurnCell, TurnSeat};

/// The cells of sizes, and the first seat at each.
#[derive(Drop)]
pub(crate) struct OpenedSizes {
    pub cells: Vec<CachePadded<TurnCell<Sizes>>>,
    pub seats: Vec<TurnSeat<Sizes>>,
}

// The cell of a size that is at most the declared end, and the first seat there. Want of memory is the only error.
fn open_size(
    alloc: Global,
    size: u64,
    end: u64,
) -> Result<(TurnCell<Sizes>, TurnSeat<Sizes>), AllocError>
    requires { size ≤ end }
    ensures cell { IfOk result (λ r. (cell_view r.0).opening ≡ fresh_sizes size end) }
    ensures seat { IfOk result (λ r. seat_view r.1 ≡ first_seat (cell_view r.0).cell (2 ^ 63)) }
    ensures own { IfOk result (λ r. seat_claims r.1 ≡ first_claims) }
{
    match TurnCell::start(alloc, Sizes::new(alloc, size, end), SizeClaims::first()) {
        Ok(made) => Ok(made),
        Err(NoCell { value, claims: _ }) => {
            drop(value);
            Err(AllocError)
        }
    }
}

// Adds the cell of a file's size, where it has one, and the first seat there, behind those of other files.
fn add_size(
    alloc: Global,
    size: Option<u64>,
    end: u64,
    opened: &mut OpenedSizes,
) -> Result<(), AllocError>
    requires within { IfSome size (λ n. n ≤ end) }
    requires seats { map seat_view opened.old.seats.items ≡ map (λ c. is_first_at (cell_view (padded_value c))) opened.old.cells.items }
    requires own { All (λ s. seat_claims s ≡ first_claims) opened.old.seats.items }
    ensures cells { OnOk result (map (λ c. (cell_view (padded_value c)).opening) opened.new.cells.items ≡ map (λ c. (cell_view (padded_value c)).opening) opened.old.cells.items ++ size_from size end) }
    ensures seats { OnOk result (map seat_view opened.new.seats.items ≡ map (λ c. is_first_at (cell_view (padded_value c))) opened.new.cells.items) }
    ensures own { OnOk result (All (λ s. seat_claims s ≡ first_claims) opened.new.seats.items) }
{
    let Some(size) = size else {
        return Ok(());
    };
    let (cell, seat) = open_size(alloc, size, end)?;
    opened.cells.push(CachePadded::new(cell))?;
    opened.seats.push(seat)?;
    Ok(())
}

/// The cells of the sizes of those files that have one, in order of files, and the first seat at each. Want of memory is the
/// only error.
pub(crate) fn open_sizes(
    alloc: Global,
    geometry: Geometry,
    files: &[FileSpec],
) -> Result<OpenedSizes, AllocError>
    requires files { All IsFile files.now }
    requires sized { All (MayHaveSize geometry.block_size) files.now }
    ensures cells { IfOk result (λ o. map (λ c. (cell_view (padded_value c)).opening) o.cells.items ≡ first_sizes geometry.block_size files.now) }
    ensures seats { IfOk result (λ o. map seat_view o.seats.items ≡ map (λ c. is_first_at (cell_view (padded_value c))) o.cells.items) }
    ensures own { IfOk result (λ o. All (λ s. seat_claims s ≡ first_claims) o.seats.items) }
{
    let mut opened = OpenedSizes {
        cells: Vec::new(alloc),
        seats: Vec::new(alloc),
    };
    for i in 0..files.len() {
        let end = files[i].blocks * geometry.block_size() as u64;
        add_size(alloc, files[i].size, end, &mut opened)?;
    }
    Ok(opened)
}
