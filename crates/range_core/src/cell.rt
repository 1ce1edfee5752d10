//! What a range keeps of a block, and the kinds that extents give.
ghost use Rattle.std.specs.Prelude.{◌≡◌, ◌<◌, ◌≤◌, ◌+◌, ◌^◌, All, IfSome};
ghost use Rattle.io_model.specs.Kinds.{covers, kind_after, kind_at, device_number, is_kind};
ghost use Rattle.range_core.specs.Kinds.{HasNumbers, has_space, is_mapped, is_unwritten};

use crate::lending::Away;
use io_model::{Extent, Kind};
use iob_base::{Page, Sector};

/// A block of a range.
#[derive(Drop)]
pub struct Cell {
    pub kind: Kind,
    /// Its sector, where its kind has space and no ticket has it.
    pub sector: Option<Sector>,
    /// The ticket that has its sector.
    pub away: Option<Away>,
    /// Its bytes in memory, where it is uptodate.
    pub page: Option<Page>,
    /// Whether its page has bytes that its sector lacks.
    pub dirty: bool,
}

/// Whether blocks of this kind have bytes of their own on the device.
pub(crate) fn is_mapped_kind(kind: Kind) -> bool
    ensures { result ≡ is_mapped kind }
{
    matches!(kind, Kind::Mapped(_))
}

/// Whether blocks of this kind have space that was never written.
pub(crate) fn is_unwritten_kind(kind: Kind) -> bool
    ensures { result ≡ is_unwritten kind }
{
    matches!(kind, Kind::Unwritten(_))
}

/// The kind that the extents give to a block of the file.
pub(crate) fn kind_of(extents: &[Extent], block: u64) -> Kind
    requires { All HasNumbers extents.now }
    ensures { result ≡ kind_at extents.now block }
{
    for extent in extents {
        if is_in(extent, block) {
            return nth_kind(extent.kind, block - extent.block);
        }
    }
    Kind::Hole
}

fn is_in(extent: &Extent, block: u64) -> bool
    ensures { result ≡ covers extent.now block }
{
    if block < extent.block {
        return false;
    }
    block - extent.block < extent.length
}

fn nth_kind(kind: Kind, i: u64) -> Kind
    requires { IfSome (device_number kind) (λ d. d + i < 2 ^ 32) }
    ensures { result ≡ kind_after kind i }
{
    match kind {
        Kind::Hole => Kind::Hole,
        Kind::Delalloc => Kind::Delalloc,
        Kind::Unwritten(d) => Kind::Unwritten(d + i as u32),
        Kind::Mapped(d) => Kind::Mapped(d + i as u32),
    }
}

/// Whether a block of this kind is the i-th of an extent that begins with `first`.
pub(crate) fn continues(first: Kind, i: u64, kind: Kind) -> bool
    requires { i ≤ 65536 }
    ensures { result ≡ is_kind (kind_after first i) kind }
{
    match (kind, first) {
        (Kind::Hole, Kind::Hole) => true,
        (Kind::Delalloc, Kind::Delalloc) => true,
        (Kind::Unwritten(d), Kind::Unwritten(e)) => u64::from(e) + i == u64::from(d),
        (Kind::Mapped(d), Kind::Mapped(e)) => u64::from(e) + i == u64::from(d),
        _ => false,
    }
}

/// Whether blocks of this kind have a sector.
pub(crate) fn is_placed(kind: Kind) -> bool
    ensures { result ≡ has_space kind }
{
    matches!(kind, Kind::Unwritten(_) | Kind::Mapped(_))
}
