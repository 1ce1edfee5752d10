//! What the lines of a script said so far, while it is read.
ghost use Rattle.std.specs.Prelude.{◌≡◌};
ghost use Rattle.io_script.specs.Reading.{said, IsReader};
ghost use Rattle.io_script.specs.SoFar.{nothing, script_so_far};

use crate::read::cause::Cause;
use crate::read::stage::Stage;
use io_model::{Call, FileSpec, Script};
use iob_base::{Geometry, Items};
use std::alloc::{AllocError, AllocFailed, Global};

/// Why a line was not taken.
#[derive(Drop)]
pub enum LineFault {
    /// It is refused.
    Because(Cause),
    /// No memory could be had.
    NoMemory,
}

impl From<AllocError> for LineFault {
    ghost use Rattle.io_script.specs.declared.read.reader.LineFault.TheVariants.{NoMemory};

    ghost from_gives = { λ _ e. e ≡ NoMemory };

    fn from(_e: AllocError) -> LineFault {
        LineFault::NoMemory
    }
}

impl<T: Drop> From<AllocFailed<T>> for LineFault {
    ghost use Rattle.io_script.specs.declared.read.reader.LineFault.TheVariants.{NoMemory};

    ghost from_gives = { λ _ e. e ≡ NoMemory };

    fn from(_e: AllocFailed<T>) -> LineFault {
        LineFault::NoMemory
    }
}

/// What the lines said so far. Beside it stands which blocks are taken: a mark for each block of the
/// device that an extent has, for each that a data line gives, and for each block of a file that an
/// extent has, of which every file has the place of the largest.
#[derive(Drop)]
pub struct Reader {
    pub stage: Stage,
    pub is_fine: bool,
    pub geometry: Geometry,
    pub device_blocks: u32,
    pub fill: u8,
    pub blocks: Vec<(u32, Items<u8>)>,
    pub names: Vec<Items<u8>>,
    pub files: Vec<FileSpec>,
    pub file_blocks: u64,
    pub faults: Vec<(u32, u64)>,
    pub phases: u32,
    pub calls: Vec<Call>,
    pub read: u64,
    pub written: u64,
    pub met: u64,
    pub pages: u64,
    pub taken: Vec<bool>,
    pub given: Vec<bool>,
    pub placed: Vec<bool>,
}

impl Reader {
    /// A reader that has read nothing. It takes no memory.
    pub fn new(alloc: Global) -> Reader
        ensures said { said result ≡ nothing }
        ensures reader { IsReader result }
    {
        Reader {
            stage: Stage::Header,
            is_fine: false,
            geometry: Geometry::new(16, 1).unwrap(),
            device_blocks: 0,
            fill: 0,
            blocks: Vec::new(alloc),
            names: Vec::new(alloc),
            files: Vec::new(alloc),
            file_blocks: 0,
            faults: Vec::new(alloc),
            phases: 0,
            calls: Vec::new(alloc),
            read: 0,
            written: 0,
            met: 0,
            pages: 0,
            taken: Vec::new(alloc),
            given: Vec::new(alloc),
            placed: Vec::new(alloc),
        }
    }

    /// The script that was read.
    pub fn finish(self) -> Script
        ensures { result ≡ script_so_far (said self) }
    {
        Script {
            geometry: self.geometry,
            device_blocks: self.device_blocks,
            fill: self.fill,
            blocks: Items::from_vec(self.blocks),
            names: Items::from_vec(self.names),
            files: Items::from_vec(self.files),
            faults: Items::from_vec(self.faults),
            calls: Items::from_vec(self.calls),
        }
    }
}
