//! The memory that a caller hands in.
ghost use Rattle.std.specs.Prelude.{◌≡◌, ◌≤◌, IfOk, length};
ghost use Rattle.iov_iter.specs.Home.{AllHome, AreHome};

use iov_iter::IovIter;
use std::alloc::{AllocError, Global};
use std::process::Abort;

// The most bytes of one call.
const MOST: u64 = 1 << 20;

/// Memory of so many bytes, which are zeros. Want of memory is the only error.
pub(crate) fn buffer(rt: &impl Abort, alloc: Global, bytes: u64) -> Result<IovIter, AllocError>
    ensures start { IfOk result (λ iov. iov.place ≡ 0) }
    ensures long { IfOk result (λ iov. length iov.bytes ≡ bytes) }
    ensures home { IfOk result (λ iov. AllHome iov) }
{
    assert!(rt; bytes <= MOST, "bytes of a test");
    IovIter::zeroed(alloc, 16, 0, &[bytes])
}

/// Memory with these bytes. Want of memory is the only error.
pub(crate) fn filled(rt: &impl Abort, alloc: Global, bytes: &[u8]) -> Result<IovIter, AllocError>
    ensures start { IfOk result (λ iov. iov.place ≡ 0) }
    ensures home { IfOk result (λ iov. AllHome iov) }
{
    let mut iov = buffer(rt, alloc, bytes.len() as u64)?;
    iov.write_at(0, bytes);
    Ok(iov)
}

/// The bytes before the iov's place, of the so many that were asked. Want of memory is the only error.
pub(crate) fn got(
    rt: &impl Abort,
    alloc: Global,
    iov: &IovIter,
    asked: u64,
) -> Result<Vec<u8>, AllocError>
    requires long { asked ≤ length iov.now.bytes }
    requires home { AreHome iov.now.pages 0 asked }
{
    let left = iov.count();
    assert!(rt; left <= asked, "no more is left than was asked");
    iov.bytes(alloc, asked - left)
}
