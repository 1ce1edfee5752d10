//! The kind of one block, as extents give it.
ghost use Rattle.std.specs.Prelude.{◌≡◌, ◌+◌, ◌<◌, ◌^◌, All, IfSome};
ghost use Rattle.io_model.specs.Kinds.{covers, device_number, kind_after, kind_at};
ghost use Rattle.range_core.specs.Kinds.{HasNumbers, has_space};

use io_model::{Extent, Kind};

/// The kind that the extents give to a block of the file.
pub(crate) fn kind_of(extents: &[Extent], block: u64) -> Kind
    requires { All HasNumbers extents.now }
    ensures { result ≡ kind_at extents.now block }
{
    for extent in extents {
        if is_in(extent, block) {
            return nth_kind(extent.kind, block - extent.block);
        }
    }
    Kind::Hole
}

// Whether the extent has the block.
fn is_in(extent: &Extent, block: u64) -> bool
    ensures { result ≡ covers extent.now block }
{
    if block < extent.block {
        return false;
    }
    block - extent.block < extent.length
}

// The kind of the i-th block of a run that begins with `kind`.
fn nth_kind(kind: Kind, i: u64) -> Kind
    requires { IfSome (device_number kind) (λ d. d + i < 2 ^ 32) }
    ensures { result ≡ kind_after kind i }
{
    match kind {
        Kind::Hole => Kind::Hole,
        Kind::Delalloc => Kind::Delalloc,
        Kind::Unwritten(d) => Kind::Unwritten(d + i as u32),
        Kind::Mapped(d) => Kind::Mapped(d + i as u32),
    }
}

/// Whether blocks of this kind have space.
pub(crate) fn has_sector(kind: Kind) -> bool
    ensures { result ≡ has_space kind }
{
    matches!(kind, Kind::Unwritten(_) | Kind::Mapped(_))
}
