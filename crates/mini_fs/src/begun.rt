//! A mapping that is begun, with the sample on which it rests.
use iomap_core::Iomap;
use range_core::Sample;

/// A mapping that a pass began and has not ended, and the sample that the mapping tells of.
#[derive(Clone, Copy)]
pub struct Begun {
    pub iomap: Iomap,
    pub sample: Sample,
}
