//! The pages of segments.
ghost use Rattle.std.specs.Prelude.{◌≡◌, ◌+◌, ◌<◌, ◌≤◌, ◌^◌, ◌++◌, length, replicate, sum, vec_len, OnOk, IfOk};
ghost use Rattle.iov_iter.specs.Making.{IsPageSize, bytes_in, lengths_of, numbered, page_sizes, sizes_of};
ghost use Rattle.iov_iter.specs.Slots.{joined, places};

use crate::slot::Slot;
use std::alloc::{AllocError, Global};

/// Pages of zeros for segments of these lengths, with numbers from `first` on.
pub(crate) fn zeroed_slots(
    alloc: Global,
    page_size: u32,
    first: u64,
    lengths: &[u64],
) -> Result<Vec<Slot>, AllocError>
    requires size { IsPageSize page_size }
    requires numbers { first + length (sizes_of page_size lengths.now) ≤ 2 ^ 64 }
    requires short { sum lengths.now < 2 ^ 64 }
    ensures joined { IfOk result (λ slots. joined slots.items ≡ replicate (sum lengths.now) 0) }
    ensures places { IfOk result (λ slots. places slots.items ≡ numbered first (sizes_of page_size lengths.now)) }
{
    let mut slots = Vec::new(alloc);
    for bytes in lengths {
        add_segment(alloc, &mut slots, page_size, first, *bytes)?;
    }
    Ok(slots)
}

/// Adds the pages of one segment. Want of memory leaves some of them added.
fn add_segment(
    alloc: Global,
    slots: &mut Vec<Slot>,
    page_size: u32,
    first: u64,
    bytes: u64,
) -> Result<(), AllocError>
    requires size { IsPageSize page_size }
    requires numbers { first + vec_len slots.old + length (page_sizes page_size bytes) ≤ 2 ^ 64 }
    ensures joined { OnOk result (joined slots.new.items ≡ joined slots.old.items ++ replicate bytes 0) }
    ensures places { OnOk result (places slots.new.items
        ≡ places slots.old.items ++ numbered (first + vec_len slots.old) (page_sizes page_size bytes)) }
{
    let size = u64::from(page_size);
    let mut left = bytes;
    while left > 0 {
        let n = left.min(size);
        let number = first + slots.len() as u64;
        slots.push(Slot::zeroed(alloc, number, n as usize)?)?;
        left -= n;
    }
    Ok(())
}

/// Pages with copies of the bytes of these segments, with numbers from `first` on.
pub(crate) fn filled_slots(
    alloc: Global,
    page_size: u32,
    first: u64,
    segments: &[Vec<u8>],
) -> Result<Vec<Slot>, AllocError>
    requires size { IsPageSize page_size }
    requires numbers { first + length (sizes_of page_size (lengths_of segments.now)) ≤ 2 ^ 64 }
    ensures joined { IfOk result (λ slots. joined slots.items ≡ bytes_in segments.now) }
    ensures places { IfOk result (λ slots. places slots.items ≡ numbered first (sizes_of page_size (lengths_of segments.now))) }
{
    let mut slots = Vec::new(alloc);
    for segment in segments {
        add_bytes(alloc, &mut slots, page_size, first, segment.as_slice())?;
    }
    Ok(slots)
}

/// Adds the pages of one segment with these bytes. Want of memory leaves some of them added.
fn add_bytes(
    alloc: Global,
    slots: &mut Vec<Slot>,
    page_size: u32,
    first: u64,
    bytes: &[u8],
) -> Result<(), AllocError>
    requires size { IsPageSize page_size }
    requires numbers { first + vec_len slots.old + length (page_sizes page_size (length bytes.now)) ≤ 2 ^ 64 }
    ensures joined { OnOk result (joined slots.new.items ≡ joined slots.old.items ++ bytes.now) }
    ensures places { OnOk result (places slots.new.items
        ≡ places slots.old.items ++ numbered (first + vec_len slots.old) (page_sizes page_size (length bytes.now))) }
{
    let size = page_size as usize;
    let mut done = 0;
    while done < bytes.len() {
        let rest = &bytes[done..];
        let n = size.min(rest.len());
        let number = first + slots.len() as u64;
        slots.push(Slot::copied(alloc, number, &rest[..n])?)?;
        done += n;
    }
    Ok(())
}
