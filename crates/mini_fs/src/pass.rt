//! A pass: a caller's seats at the cells and locks of a mount, and its numbers.
ghost use Rattle.std.specs.Prelude.{◌≡◌};

use crate::begun::Begun;
use crate::shelves::BioSeats;
use inode_lock::LockSeat;
use range_core::Range;
use size_core::Sizes;
use std::marker::Model;
use turn_cell::TurnSeat;

/// What a caller goes to a mount with. Contracts see it as a `PassView`.
///
/// A call of `Mount` that takes a pass asks that it is of that mount.
///
/// # Invariants
///
/// Its seats at the stripes claim no blocks. Each of its seats at a cell has the pass's caller number, and the spare
/// numbers.
#[derive(Drop)]
pub struct Pass {
    pub(crate) stripes: Vec<TurnSeat<Range>>,
    pub(crate) sizes: Vec<TurnSeat<Sizes>>,
    // A seat is out while the pass holds a class of the file.
    pub(crate) locks: Vec<Option<LockSeat>>,
    pub(crate) caller: u32,
    pub(crate) spare: u32,
    pub(crate) last: u32,
    // The mapping that the pass began and has not ended.
    pub(crate) begun: Option<Begun>,
    pub(crate) bios: BioSeats,
}

impl Model for Pass {
    ghost use Rattle.std.specs.Prelude.{map, All, ◌≡◌};
    ghost use Rattle.turn_cell.specs.Seats.{seat_claims, seat_view};
    ghost use Rattle.mini_fs.specs.PassView.{PassView, IsSizeSeat, own_claims, pass_view, size_seat};

    ghost Value = { PassView };

    ghost view = { λ p. pass_view (map seat_view p.stripes.items) (map (λ s. size_seat (seat_view s) (seat_claims s)) p.sizes.items) p.locks.items p.caller p.spare p.last p.begun p.bios };

    ghost invariant = { λ p. All (λ s. seat_claims s ≡ own_claims p.caller p.spare) p.stripes.items × All (λ s. IsSizeSeat p.caller p.spare (seat_claims s)) p.sizes.items };
}

impl Pass {
    ghost use Rattle.mini_fs.specs.Mappings.{with_begun};

    /// The caller number.
    pub fn caller(&self) -> u32
        ensures { result ≡ self.now.caller }
    {
        self.caller
    }

    /// How many caller numbers the pass may hand on.
    pub fn spare(&self) -> u32
        ensures { result ≡ self.now.spare }
    {
        self.spare
    }

    /// The number of the pass's last call.
    pub fn last(&self) -> u32
        ensures { result ≡ self.now.last }
    {
        self.last
    }

    // The mapping that the pass began and has not ended.
    pub(crate) fn begun(&self) -> Option<Begun>
        ensures { result ≡ self.now.begun }
    {
        self.begun
    }

    // Notes a mapping that the pass began, or that it has none any more.
    pub(crate) fn note(&mut self, begun: Option<Begun>)
        ensures { self.new ≡ with_begun self.old begun }
    {
        self.begun = begun;
    }
}
