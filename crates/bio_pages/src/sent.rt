//! A bio on its way.
ghost use Rattle.std.specs.Prelude.{◌≡◌, Some};
ghost use Rattle.std.specs.Arc.{arc_value};
ghost use Rattle.fault_device.specs.Transfer.{CanTransfer};
ghost use Rattle.bio_pages.specs.ShelfRule.{errand_to};

use crate::bio::Bio;
use crate::shelf::BioShelf;
use crate::shelf_seat::ShelfSeat;
use std::alloc::Global;
use std::sync::Arc;

/// A bio on its way, with the seat whose errand it is and the shelf to which it returns. Whoever has it can run the bio and
/// put it back. One that is dropped does not come back, and then its owner never sees `Last`.
///
/// # Invariants
///
/// The seat is of this shelf, its errand is exactly this bio, which is not yet transferred, to the bio's slot, and the bio can
/// be run.
#[derive(Drop)]
pub struct Sent<T> {
    pub bio: Bio<T>,
    pub seat: ShelfSeat<T>,
    pub shelf: Arc<BioShelf<T>, Global>,
    pub ghost of_shelf: { seat.shelf ≡ arc_value shelf },
    pub ghost errand: { seat.errand ≡ Some (errand_to bio.slot bio) },
    pub ghost can_run: { CanTransfer bio.parts },
}
