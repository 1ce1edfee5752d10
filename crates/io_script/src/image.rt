//! The image lines: the bytes of the mapped blocks that are not dirty.
ghost use Rattle.std.specs.Prelude.{◌≡◌, ◌+◌, ◌<◌, ◌^◌, IsTrue, Some, length, OnOk};
ghost use Rattle.io_model.specs.Fitting.{is_merged_from};
ghost use Rattle.io_model.specs.RunText.{image_line, image_lines};
ghost use Rattle.io_script.specs.Appending.{Appends};
ghost use Rattle.io_script.specs.Image.{mapped_lines, lines_of_kind};

use crate::files::append_bytes;
use io_model::{BlockEnd, Extent, Kind};
use std::alloc::AllocError;

/// A mapped block, where it is not dirty.
fn append_mapped_block(
    text: &mut Vec<u8>,
    name: &[u8],
    b: u64,
    block: &BlockEnd,
) -> Result<(), AllocError>
    ensures { OnOk result (Appends (image_line name.now b (Some 0) block.now.dirty block.now.sector) text.old.items text.new.items) }
{
    if block.dirty.is_some() {
        return Ok(());
    }
    match &block.sector {
        None => append_bytes(text, b"image ", name, b, b""),
        Some(sector) => append_bytes(text, b"image ", name, b, sector.bytes()),
    }
}

/// Mapped blocks, of which the first is block `first`.
fn append_mapped(
    text: &mut Vec<u8>,
    name: &[u8],
    first: u64,
    blocks: &[BlockEnd],
) -> Result<(), AllocError>
    requires { first + length blocks.now < 2 ^ 64 }
    ensures { OnOk result (Appends (mapped_lines name.now first blocks.now) text.old.items text.new.items) }
{
    for i in 0..blocks.len() {
        append_mapped_block(text, name, first + i as u64, &blocks[i])?;
    }
    Ok(())
}

/// The blocks of an extent of this kind, of which the first is block `first`.
fn append_kind(
    text: &mut Vec<u8>,
    name: &[u8],
    kind: Kind,
    first: u64,
    blocks: &[BlockEnd],
) -> Result<(), AllocError>
    requires { first + length blocks.now < 2 ^ 64 }
    ensures { OnOk result (Appends (lines_of_kind kind name.now first blocks.now) text.old.items text.new.items) }
{
    match kind {
        Kind::Mapped(_) => append_mapped(text, name, first, blocks),
        _ => Ok(()),
    }
}

/// The image lines of a file.
pub fn append_image(
    text: &mut Vec<u8>,
    name: &[u8],
    extents: &[Extent],
    blocks: &[BlockEnd],
) -> Result<(), AllocError>
    requires { IsTrue (is_merged_from 0 (length blocks.now) extents.now) }
    ensures { OnOk result (Appends (image_lines name.now extents.now 0 blocks.now) text.old.items text.new.items) }
{
    let mut first: usize = 0;
    let mut left = blocks;
    for extent in extents {
        let length = extent.length as usize;
        let (part, more) = left.split_at(length);
        append_kind(text, name, extent.kind, first as u64, part)?;
        first += length;
        left = more;
    }
    Ok(())
}
