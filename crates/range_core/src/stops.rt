//! What hinders an event: the first block that does, a sample of another cookie, a cookie that is used up.
ghost use Rattle.std.specs.Prelude.{◌≡◌, ◌+◌, ◌≤◌, ◌^◌, ◌<◌, length};
ghost use Rattle.range_core.specs.Refusals.{first_that_stops, is_cold};

use crate::cell::{Cell, is_mapped_kind};
use crate::fault::EventFault;
use crate::lending::Lender;
use io_model::Kind;

/// A way in which a block hinders an event.
pub(crate) trait Hinders {
    ghost use Rattle.std.specs.Prelude.{ℕ, Option};
    ghost use Rattle.range_core.specs.declared.cell.Cell.{Cell};
    ghost use Rattle.range_core.specs.declared.fault.EventFault.{EventFault};

    ghost hinders: { Self → ℕ → Cell → Option EventFault };

    fn at(&self, block: u64, cell: &Cell) -> Option<EventFault>
        ensures { result ≡ hinders self.now block cell.now };
}

/// The first of these blocks, the first of which is `block`, that hinders.
pub(crate) fn first_stop<T: Hinders>(test: &T, block: u64, cells: &[Cell]) -> Option<EventFault>
    requires { block + length cells.now < 2 ^ 64 }
    ensures { result ≡ first_that_stops (T.hinders test.now) block cells.now }
{
    for i in 0..cells.len() {
        if let Some(fault) = test.at(block + i as u64, &cells[i]) {
            return Some(fault);
        }
    }
    None
}

/// The block is away.
pub(crate) struct IsAway {}

impl Hinders for IsAway {
    ghost use Rattle.range_core.specs.Refusals.{away};

    ghost hinders = { λ _. away };

    fn at(&self, block: u64, cell: &Cell) -> Option<EventFault> {
        let away = cell.away?;
        Some(EventFault::Away {
            block,
            ticket: away.ticket,
        })
    }
}

/// The block is away, and its page with it.
pub(crate) struct IsAwayWithPage {}

impl Hinders for IsAwayWithPage {
    ghost use Rattle.range_core.specs.Refusals.{away_with_page};

    ghost hinders = { λ _. away_with_page };

    fn at(&self, block: u64, cell: &Cell) -> Option<EventFault> {
        let away = cell.away?;
        match away.lender {
            Lender::Writeback => None,
            Lender::Reading | Lender::Direct { .. } | Lender::Part { .. } => {
                Some(EventFault::Away {
                    block,
                    ticket: away.ticket,
                })
            }
        }
    }
}

/// Whether a block would have to be read from the device first.
pub(crate) fn is_cold_block(cell: &Cell) -> bool
    ensures { result ≡ is_cold cell.now }
{
    if !is_mapped_kind(cell.kind) {
        return false;
    }
    if cell.away.is_some() {
        return false;
    }
    cell.page.is_none()
}

/// The block would have to be read from the device first.
pub(crate) struct IsCold {}

impl Hinders for IsCold {
    ghost use Rattle.range_core.specs.Refusals.{cold};

    ghost hinders = { λ _. cold };

    fn at(&self, block: u64, cell: &Cell) -> Option<EventFault> {
        if is_cold_block(cell) {
            Some(EventFault::Cold { block })
        } else {
            None
        }
    }
}

/// The block has bytes in memory that the device lacks.
pub(crate) struct IsDirty {}

impl Hinders for IsDirty {
    ghost use Rattle.range_core.specs.Refusals.{dirty};

    ghost hinders = { λ _. dirty };

    fn at(&self, block: u64, cell: &Cell) -> Option<EventFault> {
        if cell.dirty {
            Some(EventFault::Dirty { block })
        } else {
            None
        }
    }
}

/// There is nothing to read at the block.
pub(crate) struct IsWarm {}

impl Hinders for IsWarm {
    ghost use Rattle.range_core.specs.Refusals.{warm};

    ghost hinders = { λ _. warm };

    fn at(&self, block: u64, cell: &Cell) -> Option<EventFault> {
        if is_cold_block(cell) {
            None
        } else {
            Some(EventFault::Settled { block })
        }
    }
}

/// There is nothing to write of the block, or nowhere to write it to.
pub(crate) struct IsNotReady {}

impl Hinders for IsNotReady {
    ghost use Rattle.range_core.specs.Refusals.{not_ready};

    ghost hinders = { λ _. not_ready };

    fn at(&self, block: u64, cell: &Cell) -> Option<EventFault> {
        if !cell.dirty {
            return Some(EventFault::Settled { block });
        }
        if matches!(cell.kind, Kind::Delalloc) {
            return Some(EventFault::Unattached { block });
        }
        None
    }
}
