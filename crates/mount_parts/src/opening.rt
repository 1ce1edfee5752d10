//! Stripes of files become ranges, each with a seat at the pool, in cells of their own.
ghost use Rattle.std.specs.Prelude.{◌≡◌, ◌<◌, ◌≤◌, ◌^◌, [], ◌∷◌, Some, All, IfOk, OnOk, length, map};
ghost use Rattle.iob_base.specs.declared.TheConstants.{WORN};
ghost use Rattle.crossbeam_utils.specs.Padded.{padded_value};
ghost use Rattle.file_stripes.specs.Taking.{IsWhole, sector_numbers};
ghost use Rattle.turn_cell.specs.Seats.{cell_view, seat_claims, seat_view};
ghost use Rattle.turn_cell.specs.Views.{first_seat, kept_part};
ghost use Rattle.space_pool.specs.Claims.{with_part_gone};
ghost use Rattle.space_pool.specs.Pool.{AreDistinct, CanPart};
ghost use Rattle.space_pool.specs.Seats.{pool_cell};
ghost use Rattle.range_core.specs.ClaimsView.{first_claims};
ghost use Rattle.range_core.specs.Opening.{ClaimsSectors};
ghost use Rattle.range_core.specs.RangeTruth.{RangeTruth};
ghost use Rattle.mount_parts.specs.Pieces.{AreOpened, IsOpenedWith, IsPiece, KeepsFor, blocks_of, is_first_at, range_with, sectors_of};

use crate::piece::Piece;
use crate::rest::next_of;
use crate::trimming::trim_blocks;
use crossbeam_utils::CachePadded;
use file_stripes::Stripe;
use iob_base::{Geometry, WORN};
use range_core::{Claims, Range};
use space_pool::{PoolSeat, SpacePool};
use std::alloc::{AllocError, Global};
use turn_cell::{NoCell, TurnCell, TurnSeat};

/// The cells of stripes, and the first seat at each.
#[derive(Drop)]
pub(crate) struct Opened {
    pub cells: Vec<CachePadded<TurnCell<Range>>>,
    pub seats: Vec<TurnSeat<Range>>,
}

// The range of a stripe, with its seat at the pool.
fn range_of_piece(
    alloc: Global,
    geometry: Geometry,
    cookie: u64,
    piece: Piece,
    seat: PoolSeat,
) -> Result<Range, AllocError>
    requires piece { IsPiece piece }
    requires whole { All (IsWhole geometry.block_size) piece.stripe.sectors }
    requires claims { ClaimsSectors geometry.block_size piece.stripe.blocks piece.stripe.sectors (seat_claims seat).facts }
    requires cookie { cookie ≤ WORN }
    ensures range { IfOk result (λ r. r ≡ range_with geometry cookie piece (seat_view seat) (seat_claims seat).facts) }
    ensures truth { IfOk result (λ r. RangeTruth r r [] ((Some first_claims, []) ∷ [])) }
{
    let Piece { mode, size, stripe } = piece;
    let Stripe {
        first,
        blocks,
        extents,
        sectors,
    } = stripe;
    let extents = extents.into_vec();
    let sectors = trim_blocks(
        alloc,
        geometry.block_size(),
        size,
        extents.as_slice(),
        first,
        blocks,
        sectors.into_vec(),
    )?;
    Range::new(
        alloc, geometry, mode, first, blocks, extents, sectors, seat, cookie,
    )
}

// The cell of a stripe that has this seat at the pool, and the first seat at that cell.
fn open_range(
    alloc: Global,
    geometry: Geometry,
    cookie: u64,
    piece: Piece,
    seat: PoolSeat,
) -> Result<(TurnCell<Range>, TurnSeat<Range>), AllocError>
    requires piece { IsPiece piece }
    requires whole { All (IsWhole geometry.block_size) piece.stripe.sectors }
    requires claims { ClaimsSectors geometry.block_size piece.stripe.blocks piece.stripe.sectors (seat_claims seat).facts }
    requires cookie { cookie ≤ WORN }
    ensures cell { IfOk result (λ r. (cell_view r.0).opening ≡ range_with geometry cookie piece (seat_view seat) (seat_claims seat).facts) }
    ensures first { IfOk result (λ r. seat_view r.1 ≡ first_seat (cell_view r.0).cell (2 ^ 63)) }
    ensures own { IfOk result (λ r. seat_claims r.1 ≡ first_claims) }
{
    let range = range_of_piece(alloc, geometry, cookie, piece, seat)?;
    match TurnCell::start(alloc, range, Claims::first()) {
        Ok(made) => Ok(made),
        Err(NoCell { value, claims: _ }) => {
            drop(value);
            Err(AllocError)
        }
    }
}

// The cell of a stripe, whose seat at the pool is split off this one, and the first seat at that cell.
fn open_part(
    alloc: Global,
    geometry: Geometry,
    cookie: u64,
    pool: &SpacePool,
    keeper: &mut PoolSeat,
    piece: Piece,
) -> Result<(TurnCell<Range>, TurnSeat<Range>), AllocError>
    requires piece { IsPiece piece }
    requires whole { All (IsWhole geometry.block_size) piece.stripe.sectors }
    requires distinct { AreDistinct (sector_numbers piece.stripe.sectors) }
    requires cookie { cookie ≤ WORN }
    requires seat { seat_view keeper.old ≡ first_seat (pool_cell pool.now).cell (seat_view keeper.old).share }
    requires share { 1 < (seat_view keeper.old).share }
    requires sized { (seat_claims keeper.old).facts.size ≡ geometry.block_size }
    requires part { CanPart piece.stripe.sectors piece.stripe.blocks (seat_claims keeper.old).facts }
    ensures kept { OnOk result (seat_view keeper.new ≡ kept_part (seat_view keeper.old) 1) }
    ensures claims { OnOk result ((seat_claims keeper.new).facts ≡ with_part_gone (seat_claims keeper.old).facts piece.stripe.sectors piece.stripe.blocks) }
    ensures cell { IfOk result (λ r. IsOpenedWith geometry cookie (pool_cell pool.now).cell 1 piece (cell_view r.0).opening) }
    ensures first { IfOk result (λ r. seat_view r.1 ≡ first_seat (cell_view r.0).cell (2 ^ 63)) }
    ensures own { IfOk result (λ r. seat_claims r.1 ≡ first_claims) }
{
    let seat = pool.split(keeper, piece.stripe.blocks, piece.stripe.sectors.as_slice())?;
    open_range(alloc, geometry, cookie, piece, seat)
}

// The cell of the last stripe, which has the pool's seat itself, and the first seat at that cell.
fn open_last(
    alloc: Global,
    geometry: Geometry,
    cookie: u64,
    keeper: PoolSeat,
    piece: Piece,
) -> Result<(TurnCell<Range>, TurnSeat<Range>), AllocError>
    requires piece { IsPiece piece }
    requires whole { All (IsWhole geometry.block_size) piece.stripe.sectors }
    requires distinct { AreDistinct (sector_numbers piece.stripe.sectors) }
    requires cookie { cookie ≤ WORN }
    requires seat { seat_view keeper ≡ first_seat (seat_view keeper).cell (seat_view keeper).share }
    requires keeps { KeepsFor geometry.block_size piece.stripe.blocks piece.stripe.sectors (seat_claims keeper).facts }
    ensures cell { IfOk result (λ r. IsOpenedWith geometry cookie (seat_view keeper).cell (seat_view keeper).share piece (cell_view r.0).opening) }
    ensures first { IfOk result (λ r. seat_view r.1 ≡ first_seat (cell_view r.0).cell (2 ^ 63)) }
    ensures own { IfOk result (λ r. seat_claims r.1 ≡ first_claims) }
{
    open_range(alloc, geometry, cookie, piece, keeper)
}

/// The cells of stripes in order, whose seats at the pool have the whole share of this one together, and the first seat at
/// each. A share of 1 goes to each stripe but the last, and all that is left to that.
pub(crate) fn open_pieces(
    alloc: Global,
    geometry: Geometry,
    cookie: u64,
    pool: &SpacePool,
    mut keeper: PoolSeat,
    pieces: Vec<Piece>,
) -> Result<Opened, AllocError>
    requires pieces { All IsPiece pieces.items }
    requires some { 0 < length pieces.items }
    requires whole { All (IsWhole geometry.block_size) (sectors_of pieces.items) }
    requires distinct { AreDistinct (sector_numbers (sectors_of pieces.items)) }
    requires cookie { cookie ≤ WORN }
    requires seat { seat_view keeper ≡ first_seat (pool_cell pool.now).cell (seat_view keeper).share }
    requires share { length pieces.items ≤ (seat_view keeper).share }
    requires keeps { KeepsFor geometry.block_size (blocks_of pieces.items) (sectors_of pieces.items) (seat_claims keeper).facts }
    ensures cells { IfOk result (λ o. AreOpened geometry cookie (pool_cell pool.now).cell (seat_view keeper).share pieces.items (map (λ c. (cell_view (padded_value c)).opening) o.cells.items)) }
    ensures seats { IfOk result (λ o. map seat_view o.seats.items ≡ map (λ c. is_first_at (cell_view (padded_value c))) o.cells.items) }
    ensures own { IfOk result (λ o. All (λ s. seat_claims s ≡ first_claims) o.seats.items) }
{
    let mut cells = Vec::new(alloc);
    let mut seats = Vec::new(alloc);
    let parts = pieces.len() - 1;
    let mut rest = pieces.into_iter();
    for _ in 0..parts {
        let piece = next_of(&mut rest);
        let (cell, seat) = open_part(alloc, geometry, cookie, pool, &mut keeper, piece)?;
        cells.push(CachePadded::new(cell))?;
        seats.push(seat)?;
    }
    let last = next_of(&mut rest);
    let (cell, seat) = open_last(alloc, geometry, cookie, keeper, last)?;
    cells.push(CachePadded::new(cell))?;
    seats.push(seat)?;
    Ok(Opened { cells, seats })
}
