//! Blocks that are on their way between the device and memory.
ghost use Rattle.std.specs.Prelude.{◌≡◌, ◌++◌, ◌∷◌, [], ◌<◌, ◌≤◌, length, IfOk};
ghost use Rattle.iob_base.specs.Parting.{bare_part, pages_of, without_page, without_sector};

use crate::sector::{Page, Sector};
use arrayvec::ArrayVec;
use std::alloc::{AllocError, Global};
use std::default::MadeWith;
use std::marker::Model;
use std::mem;

/// A sector and the page that goes with it.
#[derive(Debug, Drop)]
pub struct Part {
    pub sector: Sector,
    pub page: Page,
}

/// A part without bytes, for the unused places of a list of fixed room. It takes no memory.
impl MadeWith<Global> for Part {
    fn made_with(alloc: Global) -> Part {
        Part {
            sector: Sector::made_with(alloc),
            page: Page::made_with(alloc),
        }
    }
}

impl Part {
    /// Takes the sector out, and leaves a blank one.
    pub fn take_sector(&mut self) -> Sector
        ensures sector { result ≡ self.old.sector }
        ensures rest { self.new ≡ without_sector self.old }
    {
        let blank = Sector::made_with(self.sector.allocator());
        mem::replace(&mut self.sector, blank)
    }

    /// Takes the page out, and leaves one without bytes.
    pub fn take_page(&mut self) -> Page
        ensures page { result ≡ self.old.page }
        ensures rest { self.new ≡ without_page self.old }
    {
        let blank = Page::made_with(self.page.bytes.allocator());
        mem::replace(&mut self.page, blank)
    }
}

/// The parts of one transfer, at most 16. It is one pointer wide: the parts stay where they are when it moves. A list is
/// made once and used again, from the caller's memory through loan and transfer and back.
///
/// Contracts see it as the list of its parts.
#[derive(Drop)]
pub struct Parts {
    parts: Box<ArrayVec<Part, 16, Global>>,
}

impl Model for Parts {
    ghost use Rattle.std.specs.Prelude.{List};
    ghost use Rattle.iob_base.specs.declared.part.Part.{Part};

    ghost Value = { List Part };

    ghost view = { λ p. p.parts.value.items };
}

impl Parts {
    ghost use Rattle.std.specs.Borrow.{sem};
    ghost use Rattle.iob_base.specs.Lending.{LendsParts};

    /// No parts, with room for 16. Want of memory is the only error.
    pub fn new(alloc: Global) -> Result<Parts, AllocError>
        ensures { IfOk result (λ parts. parts ≡ []) }
    {
        let Ok(parts) = Box::new(alloc, ArrayVec::new_in(alloc)) else {
            return Err(AllocError);
        };
        Ok(Parts { parts })
    }

    /// How many parts there are, which is how many pages.
    #[inline]
    pub fn len(&self) -> usize
        ensures count { result ≡ length self.now }
        ensures pages { result ≡ length (pages_of self.now) }
        ensures few { result ≤ 16 }
    {
        self.parts.len()
    }

    /// Adds a part at the end. There is room.
    #[inline]
    pub fn push(&mut self, part: Part)
        requires { length self.old < 16 }
        ensures { self.new ≡ self.old ++ part ∷ [] }
    {
        let list = &mut *self.parts;
        list.push(part);
    }

    /// Adds a page at the end, whose sector is blank. There is room.
    pub fn push_page(&mut self, page: Page)
        requires { length self.old < 16 }
        ensures { self.new ≡ self.old ++ bare_part page ∷ [] }
    {
        let sector = Sector::made_with(*self.parts.allocator());
        self.push(Part { sector, page });
    }

    /// Drops all parts.
    pub fn clear(&mut self)
        ensures { self.new ≡ [] }
    {
        let list = &mut *self.parts;
        list.clear();
    }

    /// The parts.
    #[inline]
    pub fn as_slice(&self) -> &[Part]
        ensures value { result.now ≡ self.now }
        ensures few { length result.now ≤ 16 }
    {
        self.parts.as_slice()
    }

    /// The parts, to be written.
    #[inline]
    pub fn as_mut_slice(&mut self) -> &mut [Part]
        ensures* writes_back { sem 𝓛 (LendsParts self.entry result) }
        ensures value { result.now ≡ self.old }
        ensures few { length result.now ≤ 16 }
    {
        let list = &mut *self.parts;
        list.as_mut_slice()
    }
}
