//! The iov and its calls.
ghost use Rattle.std.specs.Prelude.{◌≡◌, ◌+◌, ◌-◌, ◌<◌, ◌≤◌, ◌^◌, ◌++◌, [], All, IfNone, IfOk, IfSome, length, replicate, sum, take, drop};
ghost use Rattle.iob_base.specs.Parting.{IsBare, bare_parts, pages_of};
ghost use Rattle.iov_iter.specs.Home.{AllHome, AreHome};
ghost use Rattle.iov_iter.specs.IovView.{moved_to, put_at, with_bytes, written_on};
ghost use Rattle.iov_iter.specs.Kept.{IsIov};
ghost use Rattle.iov_iter.specs.Making.{IsPageSize, bytes_in, iov_of, lengths_of, sizes_of};
ghost use Rattle.iov_iter.specs.Moving.{CanPut, CanTake, after_put, after_take, kept_first, next_pages};
ghost use Rattle.iov_iter.specs.Unaligned.{AreAligned, IsFirstUnaligned};

use crate::make::{filled_slots, zeroed_slots};
use crate::pages::{cut_after, put_run, take_run};
use crate::pieces::{first_bytes, read_from, write_from};
use crate::slot::Slot;
use crate::spot::spot_at;
use iob_base::Parts;
use std::alloc::{AllocError, Global};
use std::marker::Model;

/// Segments of pages, and a place among their bytes.
///
/// A contract sees the joined bytes of all segments, the places of the pages in order, the lengths
/// of the segments and the place. A page that is out leaves its number, its length and, to
/// contracts alone, its bytes.
///
/// # Invariants
///
/// A page has `page_size` bytes, but for the last of a segment, which has what is left over; a page
/// that is out has `page_size` bytes. All lengths together are below 2^64.
#[derive(Drop)]
pub struct IovIter {
    page_size: u32,
    slots: Vec<Slot>,
    lengths: Vec<u64>,
    place: u64,
}

impl Model for IovIter {
    ghost use Rattle.iov_iter.specs.IovView.{IovView};
    ghost use Rattle.iov_iter.specs.Kept.{IsIov};
    ghost use Rattle.iov_iter.specs.Slots.{iov_view};

    ghost Value = { IovView };

    ghost view = { λ s. iov_view s.page_size s.slots.items s.lengths.items s.place };

    ghost invariant = { λ s. IsIov (iov_view s.page_size s.slots.items s.lengths.items s.place) };
}

impl IovIter {
    /// Segments of these bytes. The pages are numbered from `first` on. Want of memory is the only
    /// error.
    pub fn from_bytes(
        alloc: Global,
        page_size: u32,
        first: u64,
        segments: &[Vec<u8>],
    ) -> Result<IovIter, AllocError>
        requires size { IsPageSize page_size }
        requires few { length segments.now < 2 ^ 32 }
        requires short { sum (lengths_of segments.now) < 2 ^ 64 }
        requires numbers { first + length (sizes_of page_size (lengths_of segments.now)) ≤ 2 ^ 64 }
        ensures iov { IfOk result (λ iov. iov ≡ iov_of page_size first (lengths_of segments.now) (bytes_in segments.now)) }
        ensures home { IfOk result (λ iov. AllHome iov) }
    {
        let slots = filled_slots(alloc, page_size, first, segments)?;
        let lengths = segment_lengths(alloc, segments)?;
        Ok(IovIter {
            page_size,
            slots,
            lengths,
            place: 0,
        })
    }

    /// Segments of zeros of these lengths. The pages are numbered from `first` on. Want of memory is
    /// the only error.
    pub fn zeroed(
        alloc: Global,
        page_size: u32,
        first: u64,
        lengths: &[u64],
    ) -> Result<IovIter, AllocError>
        requires size { IsPageSize page_size }
        requires few { length lengths.now < 2 ^ 32 }
        requires short { sum lengths.now < 2 ^ 64 }
        requires numbers { first + length (sizes_of page_size lengths.now) ≤ 2 ^ 64 }
        ensures iov { IfOk result (λ iov. iov ≡ iov_of page_size first lengths.now (replicate (sum lengths.now) 0)) }
        ensures home { IfOk result (λ iov. AllHome iov) }
    {
        let slots = zeroed_slots(alloc, page_size, first, lengths)?;
        let lengths = Vec::from_slice(alloc, lengths)?;
        Ok(IovIter {
            page_size,
            slots,
            lengths,
            place: 0,
        })
    }

    /// How many bytes there are after the place.
    pub fn count(&self) -> u64
        ensures count { result + self.now.place ≡ length self.now.bytes }
        ensures valid { IsIov self.now }
    {
        self.lengths.iter().sum::<u64>() - self.place
    }

    /// Copies the next bytes out, and moves the place on by them.
    pub fn copy_from(&mut self, into: &mut [u8])
        requires within { self.old.place + length into.old ≤ length self.old.bytes }
        requires home { AreHome self.old.pages self.old.place (length into.old) }
        ensures bytes { into.new ≡ take (length into.old) (drop self.old.place self.old.bytes) }
        ensures state { self.new ≡ moved_to (self.old.place + length into.old) self.old }
    {
        self.read_at(self.place, into);
        self.place += into.len() as u64;
    }

    /// Copies bytes in at the place, and moves the place on by them.
    pub fn copy_to(&mut self, from: &[u8])
        requires within { self.old.place + length from.now ≤ length self.old.bytes }
        requires home { AreHome self.old.pages self.old.place (length from.now) }
        ensures { self.new ≡ written_on from.now self.old }
    {
        self.write_at(self.place, from);
        self.place += from.len() as u64;
    }

    /// Copies the bytes from `at` on out. The place stays.
    pub fn read_at(&self, at: u64, into: &mut [u8])
        requires within { at + length into.old ≤ length self.now.bytes }
        requires home { AreHome self.now.pages at (length into.old) }
        ensures { into.new ≡ take (length into.old) (drop at self.now.bytes) }
    {
        let spot = spot_at(self.page_size, &self.lengths, at);
        read_from(&self.slots, spot, into);
    }

    /// Copies bytes in from `at` on. The place stays.
    pub fn write_at(&mut self, at: u64, from: &[u8])
        requires within { at + length from.now ≤ length self.old.bytes }
        requires home { AreHome self.old.pages at (length from.now) }
        ensures { self.new ≡ with_bytes (put_at at from.now self.old.bytes) self.old }
    {
        let spot = spot_at(self.page_size, &self.lengths, at);
        write_from(&mut self.slots, spot, from);
    }

    /// Keeps the first `n` bytes and their pages, the last of which is cut where these bytes end. The
    /// iov has one segment, and its place is 0.
    pub fn keep_first(&mut self, n: u64)
        requires one { length self.old.lengths ≡ 1 }
        requires start { self.old.place ≡ 0 }
        requires home { AllHome self.old }
        requires some { 1 ≤ n }
        requires within { n ≤ length self.old.bytes }
        ensures { self.new ≡ kept_first n self.old }
    {
        let last = spot_at(self.page_size, &self.lengths, n - 1);
        cut_after(&mut self.slots, last.page, last.offset + 1);
        self.lengths[0] = n;
    }

    /// A copy of the first `n` bytes. Want of memory is the only error.
    pub fn bytes(&self, alloc: Global, n: u64) -> Result<Vec<u8>, AllocError>
        requires within { n ≤ length self.now.bytes }
        requires home { AreHome self.now.pages 0 n }
        ensures { IfOk result (λ bytes. bytes.items ≡ take n self.now.bytes) }
    {
        first_bytes(alloc, &self.slots, n as usize)
    }

    /// Moves the place on by `n` bytes.
    pub fn advance(&mut self, n: u64)
        requires { self.old.place + n ≤ length self.old.bytes }
        ensures { self.new ≡ moved_to (self.old.place + n) self.old }
    {
        self.place += n;
    }

    /// Moves the place back by `n` bytes.
    pub fn revert(&mut self, n: u64)
        requires { n ≤ self.old.place }
        ensures { self.new ≡ moved_to (self.old.place - n) self.old }
    {
        self.place -= n;
    }

    /// The first segment whose length is no multiple of `size`: its index, from 1, and its length.
    pub fn unaligned(&self, size: u32) -> Option<(u32, u64)>
        ensures first { IfSome result (λ found. IsFirstUnaligned size self.now.lengths found.0 found.1) }
        ensures none { IfNone result (AreAligned size self.now.lengths) }
    {
        let size = u64::from(size);
        for (i, length) in self.lengths.iter().enumerate() {
            if !length.is_multiple_of(size) {
                return Some((i as u32 + 1, *length));
            }
        }
        None
    }

    /// Moves the next `n` pages out to the end of a list, each with a blank sector, and the place past them. Their
    /// numbers and lengths stay known.
    pub fn take_pages(&mut self, n: u32, into: &mut Parts)
        requires whole { CanTake self.old n }
        requires room { length into.old + n ≤ 16 }
        ensures pages { into.new ≡ into.old ++ bare_parts (next_pages self.old n) }
        ensures state { self.new ≡ after_take self.old n }
    {
        let spot = spot_at(self.page_size, &self.lengths, self.place);
        take_run(&mut self.slots, spot.page, n as usize, into);
        self.place += u64::from(n) * u64::from(self.page_size);
    }

    /// Puts the pages of a list in their places, which are those from the index `at` on, and empties the list. Its
    /// sectors are blank. The place stays.
    pub fn put_pages(&mut self, at: u64, parts: &mut Parts)
        requires fit { CanPut self.old at (pages_of parts.old) }
        requires bare { All IsBare parts.old }
        ensures state { self.new ≡ after_put self.old at (pages_of parts.old) }
        ensures emptied { parts.new ≡ [] }
    {
        put_run(&mut self.slots, at as usize, parts.as_mut_slice());
        parts.clear();
    }
}

fn segment_lengths(alloc: Global, segments: &[Vec<u8>]) -> Result<Vec<u64>, AllocError>
    ensures { IfOk result (λ lengths. lengths.items ≡ lengths_of segments.now) }
{
    segments.iter().map(|s| s.len() as u64).collect(alloc)
}
