//! The lines of a file's size.
ghost use Rattle.std.specs.Prelude.{◌≡◌, decimal, codes, OnOk};
ghost use Rattle.io_model.specs.SizeText.{size_lines, size_mark_text, size_stamps_text, sizes_line};
ghost use Rattle.io_model.specs.Text.{◌⋅◌};
ghost use Rattle.io_script.specs.Appending.{Appends};

use crate::files::append_place;
use crate::pieces::{append_counted, append_word};
use io_model::{SizeMark, SizeStamp};
use std::alloc::AllocError;

/// What a call did at the size: a letter, and the size.
fn append_size_mark(text: &mut Vec<u8>, mark: SizeMark) -> Result<(), AllocError>
    ensures { OnOk result (Appends (size_mark_text mark) text.old.items text.new.items) }
{
    match mark {
        SizeMark::See { found } => append_counted(text, b"S", found),
        SizeMark::Grow { to } => append_counted(text, b"G", to),
        SizeMark::Cut { to } => append_counted(text, b"C", to),
    }
}

/// A turn of a call at the size, after a blank.
fn append_size_stamp(text: &mut Vec<u8>, stamp: SizeStamp) -> Result<(), AllocError>
    ensures { OnOk result (Appends (λ rest. codes " " ⋅ decimal stamp.call ⋅ size_mark_text stamp.mark rest) text.old.items text.new.items) }
{
    append_counted(text, b" ", u64::from(stamp.call))?;
    append_size_mark(text, stamp.mark)
}

/// Turns at the size, in order.
fn append_size_stamps(text: &mut Vec<u8>, stamps: &[SizeStamp]) -> Result<(), AllocError>
    ensures { OnOk result (Appends (size_stamps_text stamps.now) text.old.items text.new.items) }
{
    for stamp in stamps {
        append_size_stamp(text, *stamp)?;
    }
    Ok(())
}

/// The line of the turns at a file's size, where there are any.
fn append_turns(text: &mut Vec<u8>, name: &[u8], stamps: &[SizeStamp]) -> Result<(), AllocError>
    ensures { OnOk result (Appends (sizes_line name.now stamps.now) text.old.items text.new.items) }
{
    if stamps.is_empty() {
        return Ok(());
    }
    append_word(text, b"sizes ")?;
    append_word(text, name)?;
    append_size_stamps(text, stamps)?;
    append_word(text, b"\n")
}

/// The lines of a file's size, where it has one.
pub fn append_size(
    text: &mut Vec<u8>,
    name: &[u8],
    size: Option<u64>,
    stamps: &[SizeStamp],
) -> Result<(), AllocError>
    ensures { OnOk result (Appends (size_lines name.now size stamps.now) text.old.items text.new.items) }
{
    let Some(size) = size else {
        return Ok(());
    };
    append_turns(text, name, stamps)?;
    append_place(text, b"size ", name, size)?;
    append_word(text, b"\n")
}
