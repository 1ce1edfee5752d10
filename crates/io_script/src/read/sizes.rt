//! The lines of file sizes.
ghost use Rattle.std.specs.Prelude.{◌≡◌, ◌*◌, ◌<◌, false, length, nat_lt};
ghost use Rattle.io_script.specs.GrammarLines.{is_dax, size_cause, with_one_size, with_size};
ghost use Rattle.io_script.specs.Reading.{said, is_early, IsReader, Takes};
ghost use Rattle.io_script.specs.Seen.{seen};

use crate::read::cause::Cause;
use crate::read::lines::find_file;
use crate::read::numbers::number;
use crate::read::reader::{LineFault, Reader};
use crate::read::stage::Stage;
use crate::read::words::Words;
use iob_base::Mode;

/// Whether a size lies past the end of a file of so many blocks.
fn is_past(blocks: u64, block_size: u32, size: u64) -> bool
    ensures { result ≡ nat_lt (blocks * block_size) size }
{
    u128::from(blocks) * u128::from(block_size) < u128::from(size)
}

/// Whether a file is one past the page cache.
fn has_no_pages(mode: Mode) -> bool
    ensures { result ≡ is_dax mode }
{
    matches!(mode, Mode::Dax)
}

/// Gives file `i` its size.
fn set_size(r: &mut Reader, i: usize, size: u64)
    requires reader { IsReader r.old }
    requires described { is_early r.old.stage ≡ false }
    requires file { i < length r.old.files.items }
    ensures said { said r.new ≡ with_one_size (said r.old) i size }
    ensures reader { IsReader r.new }
{
    r.files[i].size = Some(size);
}

/// `size <name> <bytes>`.
pub fn take_size(r: &mut Reader, w: &Words) -> Result<(), LineFault>
    requires { IsReader r.old }
    ensures { Takes (size_cause (said r.old) (seen w.now)) (with_size (said r.old) (seen w.now)) result r.new }
{
    if !matches!(r.stage, Stage::Files) {
        return Err(LineFault::Because(Cause::BadOrder));
    }
    if w.count != 3 {
        return Err(LineFault::Because(Cause::BadCount));
    }
    let Some(size) = number(w.third) else {
        return Err(LineFault::Because(Cause::BadNumber));
    };
    let Some(i) = find_file(&r.names, w.second) else {
        return Err(LineFault::Because(Cause::BadName));
    };
    if r.files[i].size.is_some() {
        return Err(LineFault::Because(Cause::BadName));
    }
    if is_past(r.files[i].blocks, r.geometry.block_size(), size) {
        return Err(LineFault::Because(Cause::BadBlock));
    }
    if has_no_pages(r.files[i].mode) {
        return Err(LineFault::Because(Cause::BadMode));
    }
    set_size(r, i, size);
    Ok(())
}
