//! One page of an iov, which may be out.
ghost use Rattle.std.specs.Prelude.{◌≡◌, ◌+◌, ◌≤◌, ◌<◌, ◌++◌, true, false, length, take, drop, replicate, IfOk, OnOk};

use iob_base::{Items, Page};
use std::alloc::{AllocError, Global};
use std::marker::Model;
use std::snapshot::Snapshot;

/// The place of a page: its number and how many bytes it has stay known while the page is out.
#[derive(Drop)]
pub(crate) struct Slot {
    number: u64,
    size: usize,
    home: Option<Vec<u8>>,
    left: Snapshot<Items<u8>>,
}

impl Model for Slot {
    ghost use Rattle.std.specs.Prelude.{◌≡◌, length};
    ghost use Rattle.iov_iter.specs.Slots.{SlotView, bytes_of, is_out};

    ghost Value = { SlotView };

    ghost view = { λ s. record { number = s.number; bytes = bytes_of s.home s.left.value; out = is_out s.home } };

    ghost invariant = { λ s. s.size ≡ length (bytes_of s.home s.left.value) };
}

impl Slot {
    ghost use Rattle.iov_iter.specs.Slots.{SlotView, slot_written};

    /// A page of so many zeros.
    pub(crate) fn zeroed(alloc: Global, number: u64, size: usize) -> Result<Slot, AllocError>
        ensures number { IfOk result (λ s. s.number ≡ number) }
        ensures bytes { IfOk result (λ s. s.bytes ≡ replicate size 0) }
        ensures home { IfOk result (λ s. s.out ≡ false) }
    {
        let bytes = vec![in alloc; 0; size]?;
        Ok(Slot::of(alloc, number, bytes))
    }

    /// A page with a copy of these bytes.
    pub(crate) fn copied(alloc: Global, number: u64, bytes: &[u8]) -> Result<Slot, AllocError>
        ensures number { IfOk result (λ s. s.number ≡ number) }
        ensures bytes { IfOk result (λ s. s.bytes ≡ bytes.now) }
        ensures home { IfOk result (λ s. s.out ≡ false) }
    {
        let bytes = Vec::from_slice(alloc, bytes)?;
        Ok(Slot::of(alloc, number, bytes))
    }

    fn of(alloc: Global, number: u64, bytes: Vec<u8>) -> Slot
        ensures number { result.number ≡ number }
        ensures bytes { result.bytes ≡ bytes.items }
        ensures home { result.out ≡ false }
    {
        Slot {
            number,
            size: bytes.len(),
            home: Some(bytes),
            left: Snapshot::of(&Items::new(alloc)),
        }
    }

    /// How many bytes the page has.
    pub(crate) fn len(&self) -> usize
        ensures { result ≡ length self.now.bytes }
    {
        self.size
    }

    /// Copies bytes of the page.
    pub(crate) fn read(&self, at: usize, into: &mut [u8])
        requires home { self.now.out ≡ false }
        requires within { at + length into.old ≤ length self.now.bytes }
        ensures { into.new ≡ take (length into.old) (drop at self.now.bytes) }
    {
        let Some(bytes) = &self.home else {
            unreachable!()
        };
        into.copy_from_slice(&bytes[at..at + into.len()]);
    }

    /// Copies the page's bytes, at most so many, to the end of a list. Want of memory is the only error.
    pub(crate) fn append(&self, most: usize, into: &mut Vec<u8>) -> Result<(), AllocError>
        requires { self.now.out ≡ false }
        ensures { OnOk result (into.new.items ≡ into.old.items ++ take most self.now.bytes) }
    {
        let Some(bytes) = &self.home else {
            unreachable!()
        };
        let n = most.min(bytes.len());
        into.extend_from_slice(&bytes[..n])
    }

    /// Copies bytes into the page.
    pub(crate) fn write(&mut self, at: usize, from: &[u8])
        requires home { self.old.out ≡ false }
        requires within { at + length from.now ≤ length self.old.bytes }
        ensures { self.new ≡ slot_written at from.now self.old }
    {
        let Some(bytes) = &mut self.home else {
            unreachable!()
        };
        bytes[at..at + from.len()].copy_from_slice(from);
    }

    /// The page leaves.
    pub(crate) fn take(&mut self) -> Page
        requires { self.old.out ≡ false }
        ensures number { result.number ≡ self.old.number }
        ensures bytes { result.bytes ≡ self.old.bytes }
        ensures slot { self.new ≡ record self.old { out = true } }
    {
        let Some(bytes) = self.home.take() else {
            unreachable!()
        };
        let bytes = Items::from_vec(bytes);
        self.left = Snapshot::of(&bytes);
        Page {
            number: self.number,
            bytes,
        }
    }

    /// A page comes to its place.
    pub(crate) fn put(&mut self, page: Page)
        requires { length page.bytes ≡ length self.old.bytes }
        ensures { self.new ≡ record self.old { bytes = page.bytes; out = false } }
    {
        let Page { number: _, bytes } = page;
        self.home = Some(bytes.into_vec());
    }

    /// Keeps the first `n` bytes of the page.
    pub(crate) fn cut(&mut self, n: usize)
        requires home { self.old.out ≡ false }
        requires within { n ≤ length self.old.bytes }
        ensures { self.new ≡ record self.old { bytes = take n self.old.bytes } }
    {
        let Some(bytes) = &mut self.home else {
            unreachable!()
        };
        bytes.truncate(n);
        self.size = n;
    }
}
