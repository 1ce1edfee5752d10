//! The kind of each block of a file.
ghost use Rattle.std.specs.Prelude.{◌≡◌, ◌+◌, ◌<◌, ◌≤◌, ◌^◌, IfOk, IfSome, length, replicate};
ghost use Rattle.file_stripes.specs.Files.{IsFile, kinds_of_file};
ghost use Rattle.file_stripes.specs.Kinds.{LiesIn, kinds_over};
ghost use Rattle.io_model.specs.Kinds.{device_number, kind_after};
ghost use Rattle.io_model.specs.declared.file.Kind.TheVariants.{Hole};

use io_model::{Extent, FileSpec, Kind};
use std::alloc::{AllocError, Global};

/// The kind of each block of a file before the first call, in order: what the extent that has the block says,
/// with the device number of the block, and a hole where no extent has it. It walks each block and each extent once.
///
/// # Errors
///
/// Want of memory.
pub fn file_kinds(alloc: Global, file: &FileSpec) -> Result<Vec<Kind>, AllocError>
    requires { IsFile file.now }
    ensures { IfOk result (λ kinds. kinds.items ≡ kinds_of_file file.now) }
{
    let mut kinds = holes(alloc, file.blocks)?;
    let extents = file.extents.as_slice();
    let count = extents.len();
    for i in 0..count {
        lay_extent(&mut kinds, extents[count - 1 - i]);
    }
    Ok(kinds)
}

/// So many holes.
fn holes(alloc: Global, blocks: u64) -> Result<Vec<Kind>, AllocError>
    ensures { IfOk result (λ kinds. kinds.items ≡ replicate blocks Hole) }
{
    let mut kinds = Vec::with_capacity(alloc, blocks as usize)?;
    for _ in 0..blocks {
        kinds.push(Kind::Hole)?;
    }
    Ok(kinds)
}

/// Gives the blocks of an extent their kinds. All others stay.
fn lay_extent(kinds: &mut Vec<Kind>, extent: Extent)
    requires { LiesIn 0 (length kinds.old.items) extent }
    ensures { kinds.new.items ≡ kinds_over extent 0 kinds.old.items }
{
    for i in 0..extent.length {
        kinds[(extent.block + i) as usize] = nth_kind(extent.kind, i);
    }
}

/// The kind of the i-th block of a run that begins with `kind`.
fn nth_kind(kind: Kind, i: u64) -> Kind
    requires { IfSome (device_number kind) (λ d. d + i < 2 ^ 32) }
    ensures { result ≡ kind_after kind i }
{
    match kind {
        Kind::Hole => Kind::Hole,
        Kind::Delalloc => Kind::Delalloc,
        Kind::Unwritten(d) => Kind::Unwritten(d + i as u32),
        Kind::Mapped(d) => Kind::Mapped(d + i as u32),
    }
}

/// The device number of a kind that has space.
pub(crate) fn number_of(kind: Kind) -> Option<u32>
    ensures { result ≡ device_number kind }
{
    match kind {
        Kind::Hole | Kind::Delalloc => None,
        Kind::Unwritten(d) | Kind::Mapped(d) => Some(d),
    }
}
