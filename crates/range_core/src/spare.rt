//! Pages that a range keeps for later use.
ghost use Rattle.std.specs.Prelude.{◌≡◌, ◌+◌, ◌-◌, ◌≤◌, [], None, length, min, IfOk, IfSome};
ghost use Rattle.range_core.specs.Pages.{IsCachePage};

use crate::cell::Cell;
use iob_base::{Page, Part, Parts};
use std::alloc::{AllocError, Global};
use std::marker::Model;

/// Pages that blocks had and have no more, at most 16. They are kept so that the next pages need not be allocated.
/// Contracts see how many they are, and no byte of them.
///
/// # Invariants
///
/// There is room for 16, so that keeping a page takes no memory.
#[derive(Drop)]
pub(crate) struct Spare {
    pages: Vec<Page>,
}

impl Model for Spare {
    ghost use Rattle.std.specs.Prelude.{◌≡◌, ℕ, vec_capacity, vec_len};

    ghost Value = { ℕ };

    ghost view = { λ s. vec_len s.pages };

    ghost invariant = { λ s. vec_capacity s.pages ≡ 16 };
}

impl Spare {
    /// No pages. Want of memory is the only error.
    pub(crate) fn empty(alloc: Global) -> Result<Spare, AllocError>
        ensures { IfOk result (λ s. s ≡ 0) }
    {
        let pages = Vec::with_capacity(alloc, 16)?;
        Ok(Spare { pages })
    }

    /// Takes a page of so many bytes, which are any, if the next one has as many.
    pub(crate) fn take_page(&mut self, size: usize) -> Option<Page>
        ensures page { IfSome result (IsCachePage size) }
        ensures fewer { self.new ≡ self.old - 1 }
    {
        let Some(page) = self.pages.pop() else {
            return None;
        };
        if page.bytes.len() != size {
            return None;
        }
        Some(Page {
            number: u64::MAX,
            bytes: page.bytes,
        })
    }

    /// Keeps a page, or drops it where there are 16.
    pub(crate) fn give_page(&mut self, page: Page)
        ensures { self.new ≡ min (self.old + 1) 16 }
    {
        if self.pages.len() < self.pages.capacity() {
            self.pages.push_reserved(page);
        }
    }

    /// Drops all pages.
    pub(crate) fn clear(&mut self)
        ensures { self.new ≡ 0 }
    {
        self.pages.clear();
    }
}

/// Keeps the pages of a list, and empties it.
pub(crate) fn keep_pages(spare: &mut Spare, parts: &mut Parts)
    ensures { parts.new ≡ [] }
{
    keep_each(spare, parts.as_mut_slice());
    parts.clear();
}

fn keep_each(spare: &mut Spare, parts: &mut [Part])
    ensures { spare.new ≤ spare.old + length parts.old }
{
    for part in parts.iter_mut() {
        spare.give_page(part.take_page());
    }
}

/// A block loses its page, which is kept.
pub(crate) fn shed_page(cell: &mut Cell, spare: &mut Spare)
    ensures { cell.new ≡ record cell.old { page = None } }
{
    let Some(page) = cell.page.take() else {
        return;
    };
    spare.give_page(page);
}
