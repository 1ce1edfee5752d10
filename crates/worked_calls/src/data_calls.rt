//! The calls that read and change the bytes of the file, the space of its blocks, and its size.
ghost use Rattle.std.specs.Prelude.{◌<◌};
ghost use Rattle.worked_calls.specs.Stands.{IsReady, Stays};

use crate::buffers::{buffer, filled, got};
use crate::call_texts::{done_text, read_text};
use buffered_read::pread;
use buffered_write::{allocate, punch, pwrite, truncate, zero_range};
use fault_device::Lane;
use mini_fs::{Mount, Pass};
use std::alloc::AllocError;
use std::process::Abort;
use std::sync::Wait;
use worked_mounts::FILE;

/// The number of the next call of a pass.
pub(crate) fn next_number(rt: &impl Abort, pass: &Pass) -> u32
    ensures { pass.now.last < result }
{
    let last = pass.last();
    assert!(rt; last < u32::MAX, "a number for another call");
    last + 1
}

/// Reads so many bytes. Want of memory is the only error.
pub(crate) fn read<R: Abort + Wait>(
    rt: &R,
    mount: &Mount,
    pass: &mut Pass,
    lane: &mut Lane,
    off: u64,
    bytes: u64,
) -> Result<Vec<u8>, AllocError>
    requires { IsReady mount.now pass.old }
    ensures { Stays mount.now pass.old pass.new }
{
    let alloc = mount.allocator();
    let mut iov = buffer(rt, alloc, bytes)?;
    mount.is_laid_out();
    let call = next_number(rt, pass);
    let answer = pread(rt, mount, pass, lane, call, FILE, off, &mut iov);
    let got = got(rt, alloc, &iov, bytes)?;
    read_text(alloc, answer, got.as_slice())
}

/// Writes these bytes. Want of memory is the only error.
pub(crate) fn write<R: Abort + Wait>(
    rt: &R,
    mount: &Mount,
    pass: &mut Pass,
    lane: &mut Lane,
    off: u64,
    bytes: &[u8],
) -> Result<Vec<u8>, AllocError>
    requires { IsReady mount.now pass.old }
    ensures { Stays mount.now pass.old pass.new }
{
    let alloc = mount.allocator();
    let mut iov = filled(rt, alloc, bytes)?;
    mount.is_laid_out();
    let call = next_number(rt, pass);
    let answer = pwrite(rt, mount, pass, lane, call, FILE, off, &mut iov);
    done_text(alloc, answer)
}

/// Makes zeros of so many bytes. Want of memory is the only error.
pub(crate) fn zero<R: Abort + Wait>(
    rt: &R,
    mount: &Mount,
    pass: &mut Pass,
    lane: &mut Lane,
    off: u64,
    bytes: u64,
) -> Result<Vec<u8>, AllocError>
    requires { IsReady mount.now pass.old }
    ensures { Stays mount.now pass.old pass.new }
{
    mount.is_laid_out();
    let call = next_number(rt, pass);
    let answer = zero_range(rt, mount, pass, lane, call, FILE, off, bytes);
    done_text(mount.allocator(), answer)
}

/// Makes zeros of so many bytes, and holes of whole blocks. Want of memory is the only error.
pub(crate) fn punch_bytes<R: Abort + Wait>(
    rt: &R,
    mount: &Mount,
    pass: &mut Pass,
    lane: &mut Lane,
    off: u64,
    bytes: u64,
) -> Result<Vec<u8>, AllocError>
    requires { IsReady mount.now pass.old }
    ensures { Stays mount.now pass.old pass.new }
{
    mount.is_laid_out();
    let call = next_number(rt, pass);
    let answer = punch(rt, mount, pass, lane, call, FILE, off, bytes);
    done_text(mount.allocator(), answer)
}

/// Gives space to the blocks of so many bytes. Want of memory is the only error.
pub(crate) fn give_space<R: Abort + Wait>(
    rt: &R,
    mount: &Mount,
    pass: &mut Pass,
    lane: &mut Lane,
    off: u64,
    bytes: u64,
) -> Result<Vec<u8>, AllocError>
    requires { IsReady mount.now pass.old }
    ensures { Stays mount.now pass.old pass.new }
{
    mount.is_laid_out();
    let call = next_number(rt, pass);
    let answer = allocate(rt, mount, pass, lane, call, FILE, off, bytes);
    done_text(mount.allocator(), answer)
}

/// Cuts the file, which has a size, to another. Want of memory is the only error.
pub(crate) fn cut<R: Abort + Wait>(
    rt: &R,
    mount: &Mount,
    pass: &mut Pass,
    lane: &mut Lane,
    size: u64,
) -> Result<Vec<u8>, AllocError>
    requires { IsReady mount.now pass.old }
    ensures { Stays mount.now pass.old pass.new }
{
    assert!(rt; mount.sized(FILE), "a file with a size");
    mount.is_laid_out();
    let call = next_number(rt, pass);
    let answer = truncate(rt, mount, pass, lane, call, FILE, size);
    done_text(mount.allocator(), answer)
}
