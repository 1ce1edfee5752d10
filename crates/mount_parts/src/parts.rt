//! The parts of a mount.
use crate::file::FilePlace;
use crossbeam_utils::CachePadded;
use inode_lock::InodeLock;
use iob_base::{Geometry, Sector};
use range_core::Range;
use size_core::Sizes;
use space_pool::SpacePool;
use turn_cell::TurnCell;

/// The sizes of blocks and folios, the places of the files, the cells of all their stripes and sizes, their locks, the pool,
/// and the sectors of a device without files.
#[derive(Drop)]
pub struct Parts {
    pub geometry: Geometry,
    pub files: Vec<FilePlace>,
    pub stripes: Vec<CachePadded<TurnCell<Range>>>,
    pub sizes: Vec<CachePadded<TurnCell<Sizes>>>,
    pub locks: Vec<InodeLock>,
    pub pool: SpacePool,
    pub idle: Vec<Sector>,
}
