//! The size of a file, and the journal of what calls did with it.
ghost use Rattle.std.specs.Prelude.{◌≡◌, ◌≤◌, ◌<◌, ◌+◌, ◌^◌, [], ◌∷◌, Some, IfOk, OnOk, OnErr, vec_len, vec_capacity};
ghost use Rattle.size_core.specs.SizesView.{stamp_by};

use crate::claims::SizeClaims;
use io_model::{SizeMark, SizeStamp};
use iob_base::Tag;
use std::alloc::{AllocError, Global};
use std::marker::Model;

/// The size of a file in bytes, its declared end, and the entries of its size journal. Contracts see it as a `SizesView`.
///
/// # Invariants
///
/// The size is at most the declared end, and the list of entries has room for every entry that a seat may make without memory.
#[derive(Drop)]
pub struct Sizes {
    size: u64,
    end: u64,
    rooms: u64,
    stamps: Vec<SizeStamp>,
}

impl Model for Sizes {
    ghost use Rattle.std.specs.Prelude.{◌+◌, ◌≤◌, vec_capacity, vec_len};
    ghost use Rattle.size_core.specs.SizesView.{SizesView};

    ghost Value = { SizesView };

    ghost view = { λ s. record { size = s.size; end = s.end; rooms = s.rooms; stamps = s.stamps.items } };

    ghost invariant = { λ s. (s.size ≤ s.end) × (vec_len s.stamps + s.rooms ≤ vec_capacity s.stamps) };
}

impl Sizes {
    ghost use Rattle.size_core.specs.ClaimsView.{first_claims, with_room, without_room};
    ghost use Rattle.size_core.specs.SizeTruth.{SizeTruth};
    ghost use Rattle.size_core.specs.SizesView.{CanUse, cut_by, entered, forgotten, fresh_sizes, grown_by, made_ready, seen_by};

    /// A size that is at most the declared end, with no entries. It takes no memory.
    pub fn new(alloc: Global, size: u64, end: u64) -> Sizes
        requires { size ≤ end }
        ensures state { result ≡ fresh_sizes size end }
        ensures truth { SizeTruth result result [] ((Some first_claims, []) ∷ []) }
    {
        Sizes {
            size,
            end,
            rooms: 0,
            stamps: Vec::new(alloc),
        }
    }

    /// The size, and the entries of its journal in order.
    pub fn end(self) -> (u64, Vec<SizeStamp>)
        ensures size { result.0 ≡ self.size }
        ensures stamps { result.1.items ≡ self.stamps }
    {
        let Sizes {
            size,
            end: _,
            rooms: _,
            stamps,
        } = self;
        (size, stamps)
    }

    /// Enters that this call saw the size, and answers it.
    ///
    /// # Errors
    ///
    /// Want of memory, which leaves all as it was.
    pub fn see(&mut self, by: Tag) -> Result<u64, AllocError>
        ensures ok { IfOk result (λ found. (found ≡ self.old.size) × (self.new ≡ seen_by by self.old)) }
        ensures err { OnErr result (self.new ≡ self.old) }
    {
        make_room(&mut self.stamps, self.rooms)?;
        let found = self.size;
        self.stamps
            .push_reserved(stamp_of(by, SizeMark::See { found }));
        Ok(found)
    }

    /// Makes room for one entry, which the claims then count.
    ///
    /// # Errors
    ///
    /// Want of memory, which leaves all as it was.
    pub fn ready(&mut self, claims: &mut SizeClaims) -> Result<(), AllocError>
        requires { claims.old.rooms ≤ self.old.rooms }
        ensures ok { OnOk result ((self.new ≡ made_ready self.old) × (claims.new ≡ with_room claims.old)) }
        ensures err { OnErr result ((self.new ≡ self.old) × (claims.new ≡ claims.old)) }
    {
        make_room(&mut self.stamps, self.rooms)?;
        self.rooms += 1;
        claims.add_room();
        Ok(())
    }

    /// Raises the size to at least `to`, and enters it into a room that the claims count. It takes no memory.
    pub fn grow(&mut self, claims: &mut SizeClaims, by: Tag, to: u64)
        requires room { CanUse self.old claims.old }
        requires within { to ≤ self.old.end }
        ensures state { self.new ≡ grown_by by to self.old }
        ensures claims { claims.new ≡ without_room claims.old }
    {
        self.enter(claims, stamp_of(by, SizeMark::Grow { to }));
        self.size = self.size.max(to);
    }

    /// Sets the size to `to`, and enters it into a room that the claims count. It takes no memory.
    pub fn cut(&mut self, claims: &mut SizeClaims, by: Tag, to: u64)
        requires room { CanUse self.old claims.old }
        requires within { to ≤ self.old.end }
        ensures state { self.new ≡ cut_by by to self.old }
        ensures claims { claims.new ≡ without_room claims.old }
    {
        self.enter(claims, stamp_of(by, SizeMark::Cut { to }));
        self.size = to;
    }

    /// Gives up a room that the claims count.
    pub fn forget(&mut self, claims: &mut SizeClaims)
        requires { CanUse self.old claims.old }
        ensures state { self.new ≡ forgotten self.old }
        ensures claims { claims.new ≡ without_room claims.old }
    {
        self.rooms -= 1;
        claims.use_room();
    }

    // Puts an entry into a room that the claims count.
    fn enter(&mut self, claims: &mut SizeClaims, stamp: SizeStamp)
        requires { CanUse self.old claims.old }
        ensures state { self.new ≡ entered stamp (forgotten self.old) }
        ensures claims { claims.new ≡ without_room claims.old }
    {
        self.rooms -= 1;
        claims.use_room();
        self.stamps.push_reserved(stamp);
    }
}

// Makes room for one entry beside those that are promised.
fn make_room(stamps: &mut Vec<SizeStamp>, rooms: u64) -> Result<(), AllocError>
    ensures items { stamps.new.items ≡ stamps.old.items }
    ensures len { vec_len stamps.new ≡ vec_len stamps.old }
    ensures ok { OnOk result ((vec_len stamps.new + (rooms + 1) ≤ vec_capacity stamps.new) × (rooms + 1 < 2 ^ 64)) }
    ensures capacity { vec_capacity stamps.old ≤ vec_capacity stamps.new }
{
    let Some(more) = rooms.checked_add(1) else {
        return Err(AllocError);
    };
    stamps.reserve(more as usize)
}

fn stamp_of(by: Tag, mark: SizeMark) -> SizeStamp
    ensures { result ≡ stamp_by by mark }
{
    SizeStamp {
        caller: by.caller,
        call: by.call,
        mark,
    }
}
