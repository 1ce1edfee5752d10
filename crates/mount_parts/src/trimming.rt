//! Before the first call the bytes of a mapped block at or past the size of its file become zeros.
ghost use Rattle.std.specs.Prelude.{◌≡◌, ◌+◌, ◌-◌, ◌*◌, ◌<◌, ◌≤◌, ◌++◌, All, IfOk, OnOk, length, min, take};
ghost use Rattle.std.specs.Vec.Iter.{into_iter_items};
ghost use Rattle.io_model.specs.Contents.{zeros};
ghost use Rattle.file_stripes.specs.Kinds.{kinds_from};
ghost use Rattle.file_stripes.specs.Taking.{IsWhole};
ghost use Rattle.range_core.specs.Cells.{sectors_after};
ghost use Rattle.range_core.specs.Kinds.{HasNumbers};
ghost use Rattle.mount_parts.specs.Trims.{next_trimmed, trimmed, trimmed_from, trimmed_in, zeroed_past};

use crate::kinds::{has_sector, kind_of};
use io_model::{Extent, Kind};
use iob_base::Sector;
use std::alloc::{AllocError, Global};
use std::vec::IntoIter;

// Makes zeros of all bytes but the first `keep`.
fn clear_after(bytes: &mut [u8], keep: usize)
    requires { keep ≤ length bytes.old }
    ensures { bytes.new ≡ take keep bytes.old ++ zeros (length bytes.old - keep) }
{
    bytes[keep..].fill(0);
}

// How many bytes of a block, of so many, are before the end of its file.
fn bytes_before(size: u32, end: u64, block: u64) -> usize
    requires size { size ≤ 4096 }
    requires block { block < 65536 }
    ensures { result ≡ min size (end - block * size) }
{
    let at = block * size as u64;
    if end <= at {
        return 0;
    }
    if end - at >= size as u64 {
        return size as usize;
    }
    (end - at) as usize
}

// Makes zeros of a sector's bytes from the end of its file on.
fn clear_past(size: u32, end: u64, block: u64, sector: &mut Sector)
    requires size { size ≤ 4096 }
    requires block { block < 65536 }
    requires whole { IsWhole size sector.old }
    ensures { sector.new ≡ zeroed_past size end block sector.old }
{
    let keep = bytes_before(size, end, block);
    clear_after(sector.bytes_mut(), keep);
}

// The sector of a block of this kind, with zeros from the end of its file on where the block is mapped.
fn trim(size: u32, end: u64, block: u64, kind: Kind, sector: Sector) -> Sector
    requires size { size ≤ 4096 }
    requires block { block < 65536 }
    requires whole { IsWhole size sector }
    ensures { result ≡ trimmed size end block kind sector }
{
    let mut sector = sector;
    if !matches!(kind, Kind::Mapped(_)) {
        return sector;
    }
    clear_past(size, end, block, &mut sector);
    sector
}

// Moves the next sector behind others, where this block has one, trimmed for it.
fn trim_next(
    size: u32,
    end: u64,
    block: u64,
    kind: Kind,
    rest: &mut IntoIter<Sector>,
    done: &mut Vec<Sector>,
) -> Result<(), AllocError>
    requires size { size ≤ 4096 }
    requires block { block < 65536 }
    requires whole { All (IsWhole size) (into_iter_items rest.old) }
    ensures done { OnOk result (done.new.items ≡ done.old.items ++ next_trimmed size end block kind (into_iter_items rest.old)) }
    ensures rest { OnOk result (into_iter_items rest.new ≡ sectors_after kind (into_iter_items rest.old)) }
{
    if !has_sector(kind) {
        return Ok(());
    }
    let Some(sector) = rest.next() else {
        return Ok(());
    };
    done.push(trim(size, end, block, kind, sector))?;
    Ok(())
}

// The sectors of so many blocks of a file that ends at this byte, in order.
fn trim_sectors(
    alloc: Global,
    size: u32,
    end: u64,
    extents: &[Extent],
    first: u64,
    blocks: u64,
    sectors: Vec<Sector>,
) -> Result<Vec<Sector>, AllocError>
    requires size { size ≤ 4096 }
    requires extents { All HasNumbers extents.now }
    requires few { first + blocks ≤ 65536 }
    requires whole { All (IsWhole size) sectors.items }
    ensures { IfOk result (λ ss. ss.items ≡ trimmed_from size end first (kinds_from extents.now first blocks) sectors.items) }
{
    let mut done = Vec::with_capacity(alloc, sectors.len())?;
    let mut rest = sectors.into_iter();
    for i in 0..blocks {
        let kind = kind_of(extents, first + i);
        trim_next(size, end, first + i, kind, &mut rest, &mut done)?;
    }
    Ok(done)
}

/// The sectors of so many blocks of a file, in order: where the file has a size, the bytes of mapped blocks at or past it are
/// zeros. Want of memory is the only error.
pub(crate) fn trim_blocks(
    alloc: Global,
    size: u32,
    end: Option<u64>,
    extents: &[Extent],
    first: u64,
    blocks: u64,
    sectors: Vec<Sector>,
) -> Result<Vec<Sector>, AllocError>
    requires size { size ≤ 4096 }
    requires extents { All HasNumbers extents.now }
    requires few { first + blocks ≤ 65536 }
    requires whole { All (IsWhole size) sectors.items }
    ensures { IfOk result (λ ss. ss.items ≡ trimmed_in size end first (kinds_from extents.now first blocks) sectors.items) }
{
    match end {
        None => Ok(sectors),
        Some(end) => trim_sectors(alloc, size, end, extents, first, blocks, sectors),
    }
}
