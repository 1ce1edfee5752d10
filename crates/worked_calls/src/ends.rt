//! What is left of a mount of one file, as a run prints it.
use fault_device::Lane;
use io_model::{FileEnd, Unmounted};
use io_script::{
    append_counted, append_dirty_blocks, append_extents, append_journals, append_size,
};
use std::alloc::AllocError;

// The name of the file.
const NAME: &[u8] = b"f";

/// What the sync at the end of the run answered.
pub(crate) fn append_close(text: &mut Vec<u8>, answer: &[u8]) -> Result<(), AllocError> {
    text.extend_from_slice(b"close ")?;
    text.extend_from_slice(NAME)?;
    text.extend_from_slice(b" ")?;
    text.extend_from_slice(answer)?;
    text.extend_from_slice(b"\n")
}

// The journals of the file's blocks, its size, its extents, and its dirty pages.
fn append_file(text: &mut Vec<u8>, file: &FileEnd) -> Result<(), AllocError> {
    append_journals(text, NAME, file.blocks.as_slice())?;
    append_size(text, NAME, file.size, file.sizes.as_slice())?;
    append_extents(text, NAME, file.extents.as_slice())?;
    append_dirty_blocks(text, NAME, file.blocks.as_slice())
}

/// What is left of the file, and how many blocks of the device it has not.
pub(crate) fn append_left(text: &mut Vec<u8>, left: &Unmounted) -> Result<(), AllocError> {
    for file in left.files.as_slice() {
        append_file(text, file)?;
    }
    append_counted(text, b"free ", left.free.len() as u64)?;
    text.extend_from_slice(b"\n")
}

/// How many transfers a lane made, where it made any, and how many of them failed.
pub(crate) fn append_lane(text: &mut Vec<u8>, lane: &Lane) -> Result<(), AllocError> {
    if lane.ops() == 0 {
        return Ok(());
    }
    append_counted(text, b"lane ", u64::from(lane.number()))?;
    append_counted(text, b" ops ", lane.ops())?;
    append_counted(text, b" faults ", lane.faults())?;
    text.extend_from_slice(b"\n")
}
