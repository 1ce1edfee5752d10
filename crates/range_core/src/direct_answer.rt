//! What came of lending blocks for a caller's own pages.
use crate::fault::EventFault;
use crate::lending::Lent;
use iob_base::Parts;

/// What came of lending blocks for a caller's own pages.
#[derive(Drop)]
pub enum Direct {
    /// The blocks' sectors are lent with the pages.
    Lent(Lent),
    /// The blocks read as zeros, and so do the pages of the list now. Nothing is lent.
    Zeros(Parts),
}

/// Why no block was lent for a caller's own pages, and the list of these pages, as it was handed in.
#[derive(Drop)]
pub struct DirectRefused {
    pub fault: EventFault,
    pub pages: Parts,
}

/// Why no block was lent for a write of a part of it, and the list of the page, as it was handed in.
#[derive(Drop)]
pub struct PartRefused {
    pub fault: EventFault,
    pub page: Parts,
}
