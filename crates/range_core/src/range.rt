//! A range: how it begins and ends. Each event stands in a module of its own below.
ghost use Rattle.std.specs.Prelude.{◌≡◌, ◌+◌, ◌≤◌, [], ◌∷◌, Some, None, All, IfOk, IsTrue, length, map};
ghost use Rattle.io_model.specs.Fitting.{is_merged_from};
ghost use Rattle.turn_cell.specs.Seats.{seat_claims, seat_view};

mod attach;
mod dax_get;
mod dax_put;
mod dax_zero;
mod direct_now;
mod drop_clean;
mod fetch;
mod find_due;
mod lend_direct;
mod lend_part;
mod lend_read;
mod lend_writeback;
mod reserve;
mod sample;
mod store;
mod store_zeros;
mod survey;
mod wipe;

use crate::cell::Cell;
use crate::end::RangeEnd;
use crate::log::StampLog;
use crate::merge::merge_kinds;
use crate::open::build_cells;
use crate::spare::Spare;
use crate::stamps::end_blocks;
pub use attach::{AttachRun, PreallocateRun};
pub use dax_get::DaxGetRun;
pub use dax_put::DaxPutRun;
pub use dax_zero::DaxZeroRun;
pub use direct_now::DirectNowRun;
pub use drop_clean::DropCleanRun;
pub use fetch::FetchRun;
pub use find_due::{FindDueRun, Found};
use io_model::Extent;
use iob_base::{Geometry, Items, Mode, Sector};
pub use lend_direct::{DirectBackRun, LendDirectRun};
pub use lend_part::LendPartRun;
pub use lend_read::{FillBackRun, LendReadRun};
pub use lend_writeback::{LendWritebackRun, WrittenBackRun};
pub use reserve::{ReserveRun, UnreserveRun};
pub use sample::SampleRun;
use space_pool::PoolSeat;
use std::alloc::{AllocError, Global};
use std::marker::Model;
pub use store::StoreRun;
pub use store_zeros::StoreZerosRun;
pub use survey::{Survey, SurveyRun};
pub use wipe::WipeRun;

/// A run of blocks of one file. Contracts see it as a `RangeView`.
///
/// # Invariants
///
/// Each block has its sector exactly where its kind has space and no ticket has it, and each stamp is of a block of the
/// range. The seat at the pool claims exactly the sectors of the blocks, here and away, and has reserved one for each
/// block that has space only promised to it. There is room for two runs of stamps more for each block that is away. At
/// most 16 pages that blocks no more have are kept for later ones, which nothing outside can see.
#[derive(Drop)]
pub struct Range {
    geometry: Geometry,
    mode: Mode,
    first: u64,
    cells: Vec<Cell>,
    log: StampLog,
    cookie: u64,
    errors: u64,
    tickets: u64,
    seat: PoolSeat,
    spare: Spare,
}

impl Model for Range {
    ghost use Rattle.std.specs.Prelude.{◌+◌, ◌*◌, ◌≤◌};
    ghost use Rattle.turn_cell.specs.Seats.{seat_claims, seat_view};
    ghost use Rattle.turn_cell.specs.Stakes.{total};
    ghost use Rattle.range_core.specs.BlockTruth.{is_gone};
    ghost use Rattle.range_core.specs.RangeView.{RangeView, IsSound, range_view};

    ghost Value = { RangeView };

    ghost view = { λ r. range_view r.geometry r.mode r.first r.cells.items r.log.items r.cookie r.errors r.tickets (seat_view r.seat) (seat_claims r.seat).facts };

    ghost invariant = { λ r. IsSound (range_view r.geometry r.mode r.first r.cells.items r.log.items r.cookie r.errors r.tickets (seat_view r.seat) (seat_claims r.seat).facts) × (r.log.used + 2 * total is_gone r.cells.items ≤ r.log.capacity) };
}

impl Range {
    ghost use Rattle.range_core.specs.Kinds.{kinds_from};
    ghost use Rattle.range_core.specs.Opening.{CanOpen};
    ghost use Rattle.range_core.specs.ClaimsView.{first_claims};
    ghost use Rattle.range_core.specs.RangeTruth.{RangeTruth};
    ghost use Rattle.range_core.specs.RangeView.{IsSound, range_of};
    ghost use Rattle.range_core.specs.Stamps.{bare_end, journaled};

    /// The range of `blocks` blocks from the file block `first`, which end at most at 65,536, with the kinds that the extents give, and
    /// holes elsewhere. The extents lie in the range and have space. The sectors are theirs, in order of blocks, and the
    /// seat at the pool claims just these. The cookie is the one that the first samples tell, at most `WORN`. With mode
    /// `Dax` the range caches nothing.
    ///
    /// # Errors
    ///
    /// Want of memory, which drops what was handed in.
    pub fn new(
        alloc: Global,
        geometry: Geometry,
        mode: Mode,
        first: u64,
        blocks: u64,
        extents: Vec<Extent>,
        sectors: Vec<Sector>,
        seat: PoolSeat,
        cookie: u64,
    ) -> Result<Range, AllocError>
        requires { CanOpen geometry.block_size first blocks extents.items sectors.items (seat_claims seat).facts cookie }
        ensures ok { IfOk result (λ r. r ≡ range_of geometry mode first blocks extents.items sectors.items (seat_view seat) (seat_claims seat).facts cookie) }
        ensures home { IfOk result (λ r. All (λ c. c.away ≡ None) r.cells) }
        ensures truth { IfOk result (λ r. RangeTruth r r [] ((Some first_claims, []) ∷ [])) }
    {
        let spare = Spare::empty(alloc)?;
        let cells = build_cells(alloc, extents.as_slice(), first, blocks, sectors)?;
        Ok(Range {
            geometry,
            mode,
            first,
            cells,
            log: StampLog::new(alloc),
            cookie,
            errors: 0,
            tickets: 0,
            seat,
            spare,
        })
    }

    /// What every range keeps. It does nothing.
    pub fn is_kept(&self)
        ensures { IsSound self.now }
    {
        let _ = &self.geometry;
    }

    /// Takes the range apart, where no block is away. Want of memory drops it.
    pub fn end(self) -> Result<RangeEnd, AllocError>
        requires { All (λ c. c.away ≡ None) self.cells }
        ensures merged { IfOk result (λ e. IsTrue (is_merged_from self.first (self.first + length self.cells) e.extents)) }
        ensures kinds { IfOk result (λ e. kinds_from e.extents self.first (length self.cells) ≡ map (λ c. c.kind) self.cells) }
        ensures blocks { IfOk result (λ e. e.blocks ≡ journaled self.first self.log (map bare_end self.cells)) }
        ensures seat { IfOk result (λ e. seat_view e.seat ≡ self.seat) }
        ensures space { IfOk result (λ e. (seat_claims e.seat).facts ≡ self.space) }
    {
        let Range {
            geometry: _,
            mode: _,
            first,
            cells,
            log,
            cookie: _,
            errors: _,
            tickets: _,
            seat,
            spare: _,
        } = self;
        let alloc = log.allocator();
        let extents = merge_kinds(alloc, first, cells.as_slice())?;
        let blocks = end_blocks(alloc, first, cells, &log)?;
        Ok(RangeEnd {
            extents: Items::from_vec(extents),
            blocks: Items::from_vec(blocks),
            seat,
        })
    }
}
