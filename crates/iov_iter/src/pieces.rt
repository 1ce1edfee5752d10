//! Bytes move between pages and slices, piece by piece: one copy a page.
ghost use Rattle.std.specs.Prelude.{◌≡◌, ◌+◌, ◌-◌, ◌<◌, ◌≤◌, true, ◌++◌, length, min, take, drop, slice_index, vec_len, IfOk};
ghost use Rattle.iov_iter.specs.Home.{AreHome, is_home};
ghost use Rattle.iov_iter.specs.IovView.{put_at, sizes};
ghost use Rattle.iov_iter.specs.Slots.{joined, places};
ghost use Rattle.iov_iter.specs.Spots.{AreSome, Stands, byte_of};

use crate::slot::Slot;
use crate::spot::{Spot, spot_after};
use std::alloc::{AllocError, Global};

/// Copies the bytes from a spot on.
pub(crate) fn read_from(slots: &Vec<Slot>, spot: Spot, into: &mut [u8])
    requires some { AreSome (sizes (places slots.now.items)) }
    requires stands { Stands (sizes (places slots.now.items)) spot }
    requires within { byte_of (sizes (places slots.now.items)) spot + length into.old ≤ length (joined slots.now.items) }
    requires home { AreHome (places slots.now.items) (byte_of (sizes (places slots.now.items)) spot) (length into.old) }
    ensures { into.new ≡ take (length into.old) (drop (byte_of (sizes (places slots.now.items)) spot) (joined slots.now.items)) }
{
    let mut spot = spot;
    let mut done = 0;
    while done < into.len() {
        let n = read_piece(slots, spot, &mut into[done..]);
        spot = spot_after(slots, spot, n);
        done += n;
    }
}

/// Copies what the page has of the bytes from a spot on, and says how many these are.
fn read_piece(slots: &Vec<Slot>, spot: Spot, into: &mut [u8]) -> usize
    requires page { spot.page < vec_len slots.now }
    requires inside { spot.offset < slice_index (sizes (places slots.now.items)) spot.page }
    requires home { is_home (places slots.now.items) (byte_of (sizes (places slots.now.items)) spot) ≡ true }
    ensures count { result ≡ min (length into.old) (slice_index (sizes (places slots.now.items)) spot.page - spot.offset) }
    ensures bytes { into.new ≡ take result (drop (byte_of (sizes (places slots.now.items)) spot) (joined slots.now.items)) ++ drop result into.old }
{
    let slot = &slots[spot.page];
    let n = into.len().min(slot.len() - spot.offset);
    slot.read(spot.offset, &mut into[..n]);
    n
}

/// A copy of the first `n` bytes. Want of memory is the only error.
pub(crate) fn first_bytes(alloc: Global, slots: &Vec<Slot>, n: usize) -> Result<Vec<u8>, AllocError>
    requires some { AreSome (sizes (places slots.now.items)) }
    requires within { n ≤ length (joined slots.now.items) }
    requires home { AreHome (places slots.now.items) 0 n }
    ensures { IfOk result (λ bytes. bytes.items ≡ take n (joined slots.now.items)) }
{
    let mut bytes = Vec::with_capacity(alloc, n)?;
    for slot in slots {
        if bytes.len() == n {
            return Ok(bytes);
        }
        slot.append(n - bytes.len(), &mut bytes)?;
    }
    Ok(bytes)
}

/// Writes bytes from a spot on.
pub(crate) fn write_from(slots: &mut Vec<Slot>, spot: Spot, from: &[u8])
    requires some { AreSome (sizes (places slots.old.items)) }
    requires stands { Stands (sizes (places slots.old.items)) spot }
    requires within { byte_of (sizes (places slots.old.items)) spot + length from.now ≤ length (joined slots.old.items) }
    requires home { AreHome (places slots.old.items) (byte_of (sizes (places slots.old.items)) spot) (length from.now) }
    ensures bytes { joined slots.new.items ≡ put_at (byte_of (sizes (places slots.old.items)) spot) from.now (joined slots.old.items) }
    ensures places { places slots.new.items ≡ places slots.old.items }
{
    let mut spot = spot;
    let mut done = 0;
    while done < from.len() {
        let n = write_piece(slots, spot, &from[done..]);
        spot = spot_after(slots, spot, n);
        done += n;
    }
}

/// Writes as many of the bytes as the page has room for from a spot on, and says how many these are.
fn write_piece(slots: &mut Vec<Slot>, spot: Spot, from: &[u8]) -> usize
    requires page { spot.page < vec_len slots.old }
    requires inside { spot.offset < slice_index (sizes (places slots.old.items)) spot.page }
    requires home { is_home (places slots.old.items) (byte_of (sizes (places slots.old.items)) spot) ≡ true }
    ensures count { result ≡ min (length from.now) (slice_index (sizes (places slots.old.items)) spot.page - spot.offset) }
    ensures bytes { joined slots.new.items ≡ put_at (byte_of (sizes (places slots.old.items)) spot) (take result from.now) (joined slots.old.items) }
    ensures places { places slots.new.items ≡ places slots.old.items }
{
    let n = from.len().min(slots[spot.page].len() - spot.offset);
    slots[spot.page].write(spot.offset, &from[..n]);
    n
}
