//! A range of six blocks at a cell, with its pool: two blocks with bytes of their own, one with space that was never
//! written, and three holes.
ghost use Rattle.std.specs.Prelude.{◌≡◌, ◌^◌, ◌≤◌, ◌++◌, [], ◌∷◌, Some, None, All, IfSome, false, length};
ghost use Rattle.iob_base.specs.DeviceBlock.{device_block};
ghost use Rattle.iob_base.specs.Layout.{layout};
ghost use Rattle.turn_cell.specs.Seats.{cell_view, seat_claims, seat_view};
ghost use Rattle.turn_cell.specs.Views.{first_seat};
ghost use Rattle.space_pool.specs.Claims.{claims_with, numbers_of};
ghost use Rattle.space_pool.specs.Pool.{AreDistinct, HasSize};
ghost use Rattle.space_pool.specs.Seats.{pool_cell};
ghost use Rattle.range_core.specs.ClaimsView.{first_claims};
ghost use Rattle.range_core.specs.RangeTruth.{RangeTruth};
ghost use Rattle.worked_ranges.specs.SmallEnds.{DEVICE_NUMBERS, SameNumbers};
ghost use Rattle.worked_ranges.specs.SmallRanges.{IsGround, IsKeeper, IsSmall, OWN_NUMBERS, SMALL_EXTENTS};

use io_model::{Extent, Kind};
use iob_base::{Geometry, Mode, Sector, WORN, sectors};
use range_core::{Claims, Range};
use space_pool::{NoPool, PoolSeat, SpacePool};
use std::alloc::Global;
use turn_cell::{NoCell, TurnCell, TurnSeat};

/// How the range begins.
#[derive(Clone, Copy)]
pub(crate) struct Begin {
    pub(crate) mode: Mode,
    pub(crate) cookie: u64,
    /// Whether only two sectors are free.
    pub(crate) scarce: bool,
}

/// The cell of the range, and the pool at which the range has its seat, with the seat that has the rest of the share there.
#[derive(Drop)]
pub(crate) struct Ground {
    pub(crate) space: SpacePool,
    pub(crate) keeper: PoolSeat,
    pub(crate) cell: TurnCell<Range>,
    pub(crate) mode: Mode,
    pub(crate) ghost stands: { IsGround mode (cell_view cell) (pool_cell space) (seat_view keeper) (seat_claims keeper).facts },
}

// Gives a block these bytes.
fn write_block(sector: &mut Sector, bytes: &[u8])
    requires { length bytes.now ≡ length sector.old.bytes }
    ensures { sector.new ≡ device_block sector.old.number bytes.now }
{
    sector.bytes_mut().copy_from_slice(bytes);
}

// The sectors of the blocks that have space, in order, and those that are free.
fn device(alloc: Global, geometry: Geometry) -> Option<(Vec<Sector>, Vec<Sector>)>
    requires { geometry.block_size ≡ 16 }
    ensures own { IfSome result (λ r. numbers_of r.0.items ≡ OWN_NUMBERS) }
    ensures own_sized { IfSome result (λ r. All (HasSize 16) r.0.items) }
    ensures free { IfSome result (λ r. numbers_of r.1.items ≡ 0 ∷ 1 ∷ 4 ∷ 6 ∷ 7 ∷ []) }
    ensures free_sized { IfSome result (λ r. All (HasSize 16) r.1.items) }
{
    let Ok(mut free) = sectors(alloc, geometry, 8, 0xee) else {
        return None;
    };
    let Ok(mut own) = Vec::with_capacity(alloc, 3) else {
        return None;
    };
    let mut lower = free.remove(2);
    write_block(&mut lower, b"abcdefghijklmnop");
    own.push_reserved(lower);
    let mut upper = free.remove(2);
    write_block(&mut upper, b"ABCDEFGHIJKLMNOP");
    own.push_reserved(upper);
    own.push_reserved(free.remove(3));
    Some((own, free))
}

// The sectors that are free at the beginning.
fn kept(mut free: Vec<Sector>, scarce: bool) -> Vec<Sector>
    requires numbers { numbers_of free.items ≡ 0 ∷ 1 ∷ 4 ∷ 6 ∷ 7 ∷ [] }
    requires sized { All (HasSize 16) free.items }
    ensures distinct { AreDistinct (OWN_NUMBERS ++ numbers_of result.items) }
    ensures sized { All (HasSize 16) result.items }
    ensures all { scarce ≡ false → result ≡ free }
{
    if scarce {
        free.truncate(2);
    }
    free
}

fn extents(alloc: Global) -> Option<Vec<Extent>>
    ensures { IfSome result (λ e. e.items ≡ SMALL_EXTENTS) }
{
    let written = Extent {
        block: 0,
        length: 2,
        kind: Kind::Mapped(2),
    };
    let unwritten = Extent {
        block: 2,
        length: 1,
        kind: Kind::Unwritten(5),
    };
    let Ok(extents) = vec![in alloc; written, unwritten] else {
        return None;
    };
    Some(extents)
}

// The pool, its keeper's seat, and the seat of the range there.
fn pool(
    alloc: Global,
    geometry: Geometry,
    free: Vec<Sector>,
    own: &[Sector],
) -> Option<(SpacePool, PoolSeat, PoolSeat)>
    requires size { geometry.block_size ≡ 16 }
    requires numbers { numbers_of own.now ≡ OWN_NUMBERS }
    requires own_sized { All (HasSize 16) own.now }
    requires distinct { AreDistinct (OWN_NUMBERS ++ numbers_of free.items) }
    requires free_sized { All (HasSize 16) free.items }
    ensures cell { IfSome result (λ r. (seat_view r.2).cell ≡ (pool_cell r.0).cell) }
    ensures keeps { IfSome result (λ r. IsKeeper (pool_cell r.0) (seat_view r.1) (seat_claims r.1).facts (seat_view r.2)) }
    ensures claims { IfSome result (λ r. (seat_claims r.2).facts ≡ claims_with own.now 6 16) }
    ensures all { IfSome result (λ r. (pool_cell r.0).opening.numbers ≡ OWN_NUMBERS ++ numbers_of free.items) }
{
    let (space, mut keeper) = match SpacePool::start(alloc, geometry, free, own, 6) {
        Ok(both) => both,
        Err(NoPool { free: _ }) => return None,
    };
    let Ok(seat) = space.split(&mut keeper, 6, own) else {
        return None;
    };
    Some((space, keeper, seat))
}

// The range over these sectors.
fn range(
    alloc: Global,
    geometry: Geometry,
    begin: Begin,
    own: Vec<Sector>,
    seat: PoolSeat,
) -> Option<Range>
    requires geometry { geometry ≡ layout 16 4 }
    requires cookie { begin.cookie ≤ WORN }
    requires numbers { numbers_of own.items ≡ OWN_NUMBERS }
    requires sized { All (HasSize 16) own.items }
    requires claims { (seat_claims seat).facts ≡ claims_with own.items 6 16 }
    ensures small { IfSome result (λ r. IsSmall begin.mode r) }
    ensures pool { IfSome result (λ r. r.seat ≡ seat_view seat) }
    ensures truth { IfSome result (λ r. RangeTruth r r [] ((Some first_claims, []) ∷ [])) }
{
    let extents = extents(alloc)?;
    let Ok(range) = Range::new(
        alloc,
        geometry,
        begin.mode,
        0,
        6,
        extents,
        own,
        seat,
        begin.cookie,
    ) else {
        return None;
    };
    Some(range)
}

// The pool, its keeper's seat, and the range.
fn opened(alloc: Global, begin: Begin) -> Option<(SpacePool, PoolSeat, Range)>
    requires { begin.cookie ≤ WORN }
    ensures small { IfSome result (λ r. IsSmall begin.mode r.2) }
    ensures pool { IfSome result (λ r. r.2.seat.cell ≡ (pool_cell r.0).cell) }
    ensures keeps { IfSome result (λ r. IsKeeper (pool_cell r.0) (seat_view r.1) (seat_claims r.1).facts r.2.seat) }
    ensures truth { IfSome result (λ r. RangeTruth r.2 r.2 [] ((Some first_claims, []) ∷ [])) }
    ensures all { IfSome result (λ r. begin.scarce ≡ false → SameNumbers (pool_cell r.0).opening.numbers DEVICE_NUMBERS) }
{
    let Ok(geometry) = Geometry::new(16, 4) else {
        return None;
    };
    let (own, free) = device(alloc, geometry)?;
    let (space, keeper, seat) = pool(alloc, geometry, kept(free, begin.scarce), &own)?;
    let range = range(alloc, geometry, begin, own, seat)?;
    Some((space, keeper, range))
}

/// The range at a cell, and the first seat there. `None` where there is no memory.
pub(crate) fn started(alloc: Global, begin: Begin) -> Option<(Ground, TurnSeat<Range>)>
    ensures mode { IfSome result (λ r. r.0.mode ≡ begin.mode) }
    ensures seat { IfSome result (λ r. seat_view r.1 ≡ first_seat (cell_view r.0.cell).cell (2 ^ 63)) }
    ensures claims { IfSome result (λ r. seat_claims r.1 ≡ first_claims) }
    ensures all { IfSome result (λ r. begin.scarce ≡ false → SameNumbers (pool_cell r.0.space).opening.numbers DEVICE_NUMBERS) }
{
    if begin.cookie > WORN {
        return None;
    }
    let (space, keeper, range) = opened(alloc, begin)?;
    match TurnCell::start(alloc, range, Claims::first()) {
        Ok((cell, seat)) => {
            let ground = Ground {
                space,
                keeper,
                cell,
                mode: begin.mode,
            };
            Some((ground, seat))
        }
        Err(
            NoCell {
                value: _,
                claims: _,
            },
        ) => None,
    }
}
