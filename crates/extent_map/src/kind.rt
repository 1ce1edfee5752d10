//! Kinds and runs of them.
ghost use Rattle.std.specs.Prelude.{◌≡◌, ◌==◌, ◌+◌, ◌<◌, ◌≤◌, ◌^◌, IfSome};
ghost use Rattle.std.specs.Bool.{OnTrue};
ghost use Rattle.extent_map.specs.Expansion.{NumbersFit};
ghost use Rattle.extent_map.specs.Sorts as sorts;
ghost use Rattle.io_model.specs.Fitting.{could_be_joined};
ghost use Rattle.io_model.specs.Kinds.{device_number, is_kind, kind_after};

use io_model::{Extent, Kind};

/// The kind of the i-th block of a run that begins with `kind`.
pub(crate) fn nth_kind(kind: Kind, i: u64) -> Kind
    requires { IfSome (device_number kind) (λ d. d + i < 2 ^ 32) }
    ensures { result ≡ kind_after kind i }
{
    match kind {
        Kind::Hole => Kind::Hole,
        Kind::Delalloc => Kind::Delalloc,
        Kind::Unwritten(d) => Kind::Unwritten(d + i as u32),
        Kind::Mapped(d) => Kind::Mapped(d + i as u32),
    }
}

/// Whether `next`, right after `run`, could be joined with it.
pub(crate) fn can_join(run: &Extent, next: &Extent) -> bool
    ensures { result ≡ could_be_joined run.now next.now }
{
    is_next(run.kind, run.length, next.kind)
}

/// Whether `next` is the kind of the block after `n` blocks that begin with `kind`.
pub(crate) fn is_next(kind: Kind, n: u64, next: Kind) -> bool
    ensures test { result ≡ is_kind (kind_after kind n) next }
    ensures fits { OnTrue result (NumbersFit kind (n + 1)) }
{
    match (kind, next) {
        (Kind::Hole, Kind::Hole) => true,
        (Kind::Delalloc, Kind::Delalloc) => true,
        (Kind::Unwritten(d), Kind::Unwritten(e)) => is_after(d, n, e),
        (Kind::Mapped(d), Kind::Mapped(e)) => is_after(d, n, e),
        _ => false,
    }
}

/// Whether `e` is the device number `n` after `d`.
fn is_after(d: u32, n: u64, e: u32) -> bool
    ensures test { result ≡ (d + n == e) }
    ensures fits { OnTrue result (d + (n + 1) ≤ 2 ^ 32) }
{
    if e < d {
        return false;
    }
    u64::from(e - d) == n
}

/// Whether a block of this kind is a hole.
pub(crate) fn is_hole(kind: Kind) -> bool
    ensures { result ≡ sorts.is_hole kind }
{
    matches!(kind, Kind::Hole)
}

/// Whether a block of this kind is a hole, or for false whether it is none.
pub(crate) fn is_sort(hole: bool, kind: Kind) -> bool
    ensures { result ≡ sorts.is_sort hole kind }
{
    if hole { is_hole(kind) } else { !is_hole(kind) }
}
