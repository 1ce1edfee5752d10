//! What a seat at a size claims.
ghost use Rattle.std.specs.Prelude.{◌≡◌, ◌+◌, ◌<◌, ◌^◌};

use std::marker::Model;

/// What a seat at a size claims: a caller number, the caller numbers that it may still hand on, and rooms for entries that
/// it has not made yet. Contracts see it as a `ClaimsView`.
///
/// The spare numbers are the greatest ones below 2^32.
#[derive(Drop)]
pub struct SizeClaims {
    caller: u32,
    spare: u32,
    main: bool,
    rooms: u64,
}

impl Model for SizeClaims {
    ghost use Rattle.size_core.specs.ClaimsView.{ClaimsView};

    ghost Value = { ClaimsView };

    ghost view = { λ c. record { caller = c.caller; spare = c.spare; main = c.main; rooms = c.rooms } };
}

impl SizeClaims {
    ghost use Rattle.size_core.specs.ClaimsView.{MayMerge, first_claims, merged_claims, next_claims, rest_claims, same_claims, with_room, without_room};

    /// The claims of the first seat: the caller number 0, all others spare, and no room.
    pub fn first() -> SizeClaims
        ensures { result ≡ first_claims }
    {
        SizeClaims {
            caller: 0,
            spare: u32::MAX,
            main: true,
            rooms: 0,
        }
    }

    /// The caller number of this seat.
    pub fn caller(&self) -> u32
        ensures { result ≡ self.now.caller }
    {
        self.caller
    }

    /// How many caller numbers this seat may hand on.
    pub fn spare(&self) -> u32
        ensures { result ≡ self.now.spare }
    {
        self.spare
    }

    /// How many entries this seat may make without memory.
    pub fn rooms(&self) -> u64
        ensures { result ≡ self.now.rooms }
    {
        self.rooms
    }

    /// The claims of a new caller: the lowest spare number of these, without spare numbers and without a room.
    pub fn next_caller(&mut self) -> SizeClaims
        requires { 0 < self.old.spare }
        ensures kept { self.new ≡ rest_claims self.old }
        ensures given { result ≡ next_claims self.old }
        ensures few { self.old.spare < 2 ^ 32 }
    {
        let caller = u32::MAX - self.spare + 1;
        self.spare -= 1;
        SizeClaims {
            caller,
            spare: 0,
            main: true,
            rooms: 0,
        }
    }

    /// The claims of another seat of the same caller, without spare numbers and without a room.
    pub fn same_caller(&self) -> SizeClaims
        ensures { result ≡ same_claims self.now }
    {
        SizeClaims {
            caller: self.caller,
            spare: 0,
            main: false,
            rooms: 0,
        }
    }

    // Takes the spare numbers and the rooms of another seat, of which only one of the two may have any.
    pub(crate) fn take_in(&mut self, from: SizeClaims)
        requires { MayMerge self.old from }
        ensures { self.new ≡ merged_claims self.old from }
    {
        self.spare += from.spare;
        self.rooms += from.rooms;
    }

    // Counts one room more.
    pub(crate) fn add_room(&mut self)
        requires { self.old.rooms + 1 < 2 ^ 64 }
        ensures { self.new ≡ with_room self.old }
    {
        self.rooms += 1;
    }

    // Counts one room fewer.
    pub(crate) fn use_room(&mut self)
        requires { 0 < self.old.rooms }
        ensures { self.new ≡ without_room self.old }
    {
        self.rooms -= 1;
    }
}
