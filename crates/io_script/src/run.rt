//! The printed form of a whole run.
ghost use Rattle.std.specs.Prelude.{◌≡◌, ◌++◌, decimal, codes, length, if◌then◌else◌, IsTrue, IfOk, OnOk};
ghost use Rattle.std.specs.List.{list_all, sum_by};
ghost use Rattle.io_model.specs.Fitting.{Fits, is_merged_from};
ghost use Rattle.io_model.specs.RunText.{file_lines, files_lines, image_lines, lane_line, lane_lines, run_text};
ghost use Rattle.io_model.specs.Text.{◌⋅◌};
ghost use Rattle.io_script.specs.Appending.{Appends};

use crate::calls::{append_calls, append_closes};
use crate::files::{append_dirty_blocks, append_extents, append_journals};
use crate::image::append_image;
use crate::pieces::{append_counted, append_total, append_word};
use crate::sizes::append_size;
use io_model::{CallEnd, FileEnd, LaneEnd, Run, Script};
use iob_base::Items;
use std::alloc::{AllocError, Global};

/// The image lines of a file, where they are asked for.
fn append_asked_image(
    text: &mut Vec<u8>,
    image: bool,
    name: &[u8],
    end: &FileEnd,
) -> Result<(), AllocError>
    requires { IsTrue (is_merged_from 0 (length end.now.blocks) end.now.extents) }
    ensures { OnOk result (Appends (λ rest. if image then image_lines name.now end.now.extents 0 end.now.blocks rest else rest) text.old.items text.new.items) }
{
    if !image {
        return Ok(());
    }
    append_image(text, name, end.extents.as_slice(), end.blocks.as_slice())
}

/// The lines of a file.
fn append_file(
    text: &mut Vec<u8>,
    image: bool,
    name: &[u8],
    end: &FileEnd,
) -> Result<(), AllocError>
    requires { IsTrue (is_merged_from 0 (length end.now.blocks) end.now.extents) }
    ensures { OnOk result (Appends (file_lines image name.now end.now) text.old.items text.new.items) }
{
    append_journals(text, name, end.blocks.as_slice())?;
    append_size(text, name, end.size, end.sizes.as_slice())?;
    append_extents(text, name, end.extents.as_slice())?;
    append_dirty_blocks(text, name, end.blocks.as_slice())?;
    append_asked_image(text, image, name, end)
}

/// The lines of the files.
fn append_files(
    text: &mut Vec<u8>,
    image: bool,
    names: &[Items<u8>],
    ends: &[FileEnd],
) -> Result<(), AllocError>
    requires { IsTrue (list_all (λ end. is_merged_from 0 (length end.blocks) end.extents) ends.now) }
    ensures { OnOk result (Appends (files_lines image names.now ends.now) text.old.items text.new.items) }
{
    let both = names.len().min(ends.len());
    for i in 0..both {
        append_file(text, image, names[i].as_slice(), &ends[i])?;
    }
    Ok(())
}

/// A lane, where it made a transfer.
fn append_lane(text: &mut Vec<u8>, n: u64, lane: LaneEnd) -> Result<(), AllocError>
    ensures { OnOk result (Appends (lane_line n lane) text.old.items text.new.items) }
{
    if lane.ops == 0 {
        return Ok(());
    }
    append_counted(text, b"lane ", n)?;
    append_counted(text, b" ops ", lane.ops)?;
    append_counted(text, b" faults ", lane.faults)?;
    append_word(text, b"\n")
}

/// The lanes, numbered from 0.
fn append_lanes(text: &mut Vec<u8>, lanes: &[LaneEnd]) -> Result<(), AllocError>
    ensures { OnOk result (Appends (lane_lines 0 lanes.now) text.old.items text.new.items) }
{
    for n in 0..lanes.len() {
        append_lane(text, n as u64, lanes[n])?;
    }
    Ok(())
}

/// How many bios the calls sent, all together.
fn bios_of(calls: &[CallEnd]) -> u128
    ensures { result ≡ sum_by (λ end. end.answer.bios) calls.now }
{
    let mut sum: u128 = 0;
    for i in 0..calls.len() {
        sum += u128::from(calls[i].answer.bios);
    }
    sum
}

/// How many blocks of the device no file has, and how many bios were sent.
fn append_counts(text: &mut Vec<u8>, free: usize, bios: u128) -> Result<(), AllocError>
    ensures { OnOk result
        (Appends (λ rest. codes "free " ⋅ decimal free ⋅ codes "\nbios " ⋅ decimal bios ⋅ codes "\n" ⋅ rest) text.old.items text.new.items) }
{
    append_counted(text, b"free ", free as u64)?;
    append_word(text, b"\nbios ")?;
    append_total(text, bios)?;
    append_word(text, b"\n")
}

/// The lines of a run.
fn append_run(text: &mut Vec<u8>, script: &Script, run: &Run, image: bool) -> Result<(), AllocError>
    requires { Fits script.now run.now }
    ensures { OnOk result (text.new.items ≡ text.old.items ++ run_text script.now run.now image) }
{
    append_word(text, b"run 1\n")?;
    append_calls(text, script.calls.as_slice(), run.calls.as_slice())?;
    append_closes(text, script.names.as_slice(), run.closes.as_slice())?;
    append_files(
        text,
        image,
        script.names.as_slice(),
        run.ends.files.as_slice(),
    )?;
    append_counts(text, run.ends.free.len(), bios_of(run.calls.as_slice()))?;
    append_lanes(text, run.lanes.as_slice())?;
    text.extend_from_slice(b"end\n")
}

/// The printed text of a run that fits its script, with an image line of each mapped block that is
/// not dirty where `image` asks for them. Want of memory is the only error.
pub fn print_run(
    alloc: Global,
    script: &Script,
    run: &Run,
    image: bool,
) -> Result<Vec<u8>, AllocError>
    requires { Fits script.now run.now }
    ensures { IfOk result (λ text. text.items ≡ run_text script.now run.now image) }
{
    let mut text = Vec::new(alloc);
    append_run(&mut text, script, run, image)?;
    Ok(text)
}
