//! A shelf to which bios come back, each to a slot of its own.
ghost use Rattle.std.specs.Prelude.{◌≡◌, ◌<◌, IfOk};
ghost use Rattle.atomic_table.specs.Seated.{TableId, table_id_coded};
ghost use Rattle.bio_pages.specs.Shelf.{owner_of};

use crate::bio::Bio;
use crate::errand::Known;
use crate::shelf_rule::{Returned, Shelves};
use crate::shelf_seat::{Place, ShelfSeat};
use atomic_table::Table;
use folio_bits::Outcome;
use std::alloc::{AllocError, Global};
use std::marker::Model;

// The one word of a shelf's table.
pub(crate) const WORD: usize = 0;

// What the owner of a shelf begins with.
const WHOLE: u64 = 1 << 63;

type Lay<T> = Table<Option<Returned<T>>, Known<T>, u64, Shelves, Global>;

/// A row of slots to which the bios of one caller come back. To a contract it is what tells it from every other shelf. One
/// that is dropped drops the bios that lie in it.
///
/// # Invariants
///
/// Its word is what all its seats have together. A slot that the owner notes is waited for by one seat, or full, and it is
/// full of the very bio that is noted, after the transfer that its `Done` tells.
#[derive(Drop)]
pub struct BioShelf<T> {
    pub(crate) table: Lay<T>,
}

impl<T> Model for BioShelf<T> {
    ghost Value = { TableId };

    ghost coded = { table_id_coded };

    ghost view = { λ s. s.table.shared.table_id };

    ghost invariant = { λ s. s.table.shared.table_id.words ≡ 1 };
}

/// The end of an errand: what the seat was told, and the seat, which has nothing any more.
#[derive(Drop)]
pub struct PutEnd<T> {
    pub outcome: Outcome,
    pub seat: ShelfSeat<T>,
}

impl<T> BioShelf<T> {
    /// A shelf of so many empty slots, and the seat of its owner, which has the whole amount. It fails for want of memory
    /// alone.
    pub fn start(alloc: Global, slots: u32) -> Result<(BioShelf<T>, ShelfSeat<T>), AllocError>
        requires { 0 < slots }
        ensures { IfOk result (λ made. made.1 ≡ owner_of made.0 slots) }
    {
        let (table, place) = Table::vacant(alloc, &[WHOLE], slots as usize, &(slots as u64))?;
        Ok((
            BioShelf { table },
            ShelfSeat {
                place,
                amount: WHOLE,
            },
        ))
    }
}
