//! The lines of the files: the journals, the extents, and the dirty blocks.
ghost use Rattle.std.specs.Prelude.{◌≡◌, decimal, codes, OnOk};
ghost use Rattle.io_model.specs.ReplyText.{hex_text};
ghost use Rattle.io_model.specs.RunText.{
  dirty_line,
  dirty_lines,
  journal_line,
  journal_lines,
  map_line,
  map_lines,
  map_start,
  mark_text,
  stamps_text,
};
ghost use Rattle.io_model.specs.Text.{◌⋅◌};
ghost use Rattle.io_script.specs.Appending.{Appends};

use crate::hexadecimal::append_hex;
use crate::pieces::{append_counted, append_word};
use io_model::{BlockEnd, Extent, Kind};
use iob_base::{Mark, Page, Stamp};
use std::alloc::AllocError;

/// A word, the name of a file, and a number in it.
pub fn append_place(
    text: &mut Vec<u8>,
    word: &[u8],
    name: &[u8],
    number: u64,
) -> Result<(), AllocError>
    ensures { OnOk result (Appends (λ rest. word.now ⋅ name.now ⋅ codes " " ⋅ decimal number ⋅ rest) text.old.items text.new.items) }
{
    append_word(text, word)?;
    append_word(text, name)?;
    append_counted(text, b" ", number)
}

/// The letter of a mark.
fn mark_letter(mark: Mark) -> &'static [u8]
    ensures { result.now ≡ mark_text mark }
{
    match mark {
        Mark::Done => b"".as_slice(),
        Mark::Landed => b"L".as_slice(),
        Mark::Missed => b"M".as_slice(),
    }
}

/// A stamp, after a blank.
fn append_stamp(text: &mut Vec<u8>, stamp: Stamp) -> Result<(), AllocError>
    ensures { OnOk result (Appends (λ rest. codes " " ⋅ decimal stamp.call ⋅ mark_text stamp.mark ⋅ rest) text.old.items text.new.items) }
{
    append_counted(text, b" ", u64::from(stamp.call))?;
    append_word(text, mark_letter(stamp.mark))
}

/// Stamps, in order.
fn append_stamps(text: &mut Vec<u8>, stamps: &[Stamp]) -> Result<(), AllocError>
    ensures { OnOk result (Appends (stamps_text stamps.now) text.old.items text.new.items) }
{
    for stamp in stamps {
        append_stamp(text, *stamp)?;
    }
    Ok(())
}

/// The journal of a block, where it has stamps.
fn append_journal(
    text: &mut Vec<u8>,
    name: &[u8],
    b: u64,
    stamps: &[Stamp],
) -> Result<(), AllocError>
    ensures { OnOk result (Appends (journal_line name.now b stamps.now) text.old.items text.new.items) }
{
    if stamps.is_empty() {
        return Ok(());
    }
    append_place(text, b"journal ", name, b)?;
    append_stamps(text, stamps)?;
    append_word(text, b"\n")
}

/// The journals of a file's blocks.
pub fn append_journals(
    text: &mut Vec<u8>,
    name: &[u8],
    blocks: &[BlockEnd],
) -> Result<(), AllocError>
    ensures { OnOk result (Appends (journal_lines name.now 0 blocks.now) text.old.items text.new.items) }
{
    for b in 0..blocks.len() {
        append_journal(text, name, b as u64, blocks[b].journal.as_slice())?;
    }
    Ok(())
}

/// The blocks that an extent has.
fn append_map_start(text: &mut Vec<u8>, name: &[u8], extent: Extent) -> Result<(), AllocError>
    ensures { OnOk result (Appends (map_start name.now extent) text.old.items text.new.items) }
{
    append_place(text, b"map ", name, extent.block)?;
    append_counted(text, b" ", extent.length)
}

/// An extent that has space, and the number of its first block on the device.
fn append_mapping(
    text: &mut Vec<u8>,
    name: &[u8],
    extent: Extent,
    kind: &[u8],
    number: u32,
) -> Result<(), AllocError>
    ensures { OnOk result (Appends (λ rest. map_start name.now extent (kind.now ⋅ decimal number ⋅ codes "\n" ⋅ rest)) text.old.items text.new.items) }
{
    append_map_start(text, name, extent)?;
    append_counted(text, kind, u64::from(number))?;
    append_word(text, b"\n")
}

/// An extent, where it is no hole.
fn append_extent(text: &mut Vec<u8>, name: &[u8], extent: Extent) -> Result<(), AllocError>
    ensures { OnOk result (Appends (map_line name.now extent extent.kind) text.old.items text.new.items) }
{
    match extent.kind {
        Kind::Hole => Ok(()),
        Kind::Delalloc => {
            append_map_start(text, name, extent)?;
            append_word(text, b" delalloc\n")
        }
        Kind::Unwritten(d) => append_mapping(text, name, extent, b" unwritten ", d),
        Kind::Mapped(d) => append_mapping(text, name, extent, b" mapped ", d),
    }
}

/// The extents of a file.
pub fn append_extents(text: &mut Vec<u8>, name: &[u8], extents: &[Extent]) -> Result<(), AllocError>
    ensures { OnOk result (Appends (map_lines name.now extents.now) text.old.items text.new.items) }
{
    for extent in extents {
        append_extent(text, name, *extent)?;
    }
    Ok(())
}

/// A line of a block's bytes.
pub fn append_bytes(
    text: &mut Vec<u8>,
    word: &[u8],
    name: &[u8],
    b: u64,
    bytes: &[u8],
) -> Result<(), AllocError>
    ensures { OnOk result (Appends (λ rest. word.now ⋅ name.now ⋅ codes " " ⋅ decimal b ⋅ codes " " ⋅ hex_text bytes.now ⋅ codes "\n" ⋅ rest) text.old.items text.new.items) }
{
    append_place(text, word, name, b)?;
    append_word(text, b" ")?;
    append_hex(text, bytes)?;
    append_word(text, b"\n")
}

/// The page of a block, where that is dirty.
fn append_dirty(
    text: &mut Vec<u8>,
    name: &[u8],
    b: u64,
    dirty: &Option<Page>,
) -> Result<(), AllocError>
    ensures { OnOk result (Appends (dirty_line name.now b dirty.now) text.old.items text.new.items) }
{
    match dirty {
        None => Ok(()),
        Some(page) => append_bytes(text, b"dirty ", name, b, page.bytes.as_slice()),
    }
}

/// The dirty blocks of a file.
pub fn append_dirty_blocks(
    text: &mut Vec<u8>,
    name: &[u8],
    blocks: &[BlockEnd],
) -> Result<(), AllocError>
    ensures { OnOk result (Appends (dirty_lines name.now 0 blocks.now) text.old.items text.new.items) }
{
    for b in 0..blocks.len() {
        append_dirty(text, name, b as u64, &blocks[b].dirty)?;
    }
    Ok(())
}
