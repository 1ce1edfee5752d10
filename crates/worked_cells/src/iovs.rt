//! The iov: segments of odd lengths in small and large pages, and each call once.
ghost use Rattle.std.specs.Prelude.{◌≡◌, ◌+◌, ◌<◌, ◌≤◌, ◌^◌, [], IfOk, length, sum};
ghost use Rattle.iov_iter.specs.Kept.{IsIov};
ghost use Rattle.iov_iter.specs.Making.{IsPageSize, sizes_of};
ghost use Rattle.iov_iter.specs.Moving.{CanTake, page_of};
ghost use Rattle.worked_cells.specs.Iovs.{IsReady};

use iob_base::Parts;
use iov_iter::IovIter;
use std::alloc::{AllocError, Global};
use std::process::Abort;
use std::test::Fail;

const TEXT: &[u8] = b"thirty-seven bytes cross three pages.";

// Bytes go in and come out, by the place and without it.
fn moves_bytes(rt: &impl Abort, iov: &mut IovIter)
    requires { IsReady 37 iov.old }
{
    iov.copy_to(TEXT);
    iov.revert(37);
    let mut read = [0u8; 37];
    iov.copy_from(&mut read);
    assert_eq!(rt; read.as_slice(), TEXT);
}

fn moves_at(rt: &impl Abort, iov: &mut IovIter)
    requires { IsReady 54 iov.old }
{
    iov.write_at(15, b"sixteen");
    let mut read = [0u8; 9];
    iov.read_at(14, &mut read);
    assert_eq!(rt; read.as_slice(), b"\0sixteen\0".as_slice());
}

// Segments of these lengths, all zeros.
fn zeros(alloc: Global, page_size: u32, lengths: &[u64], least: u64) -> Result<IovIter, AllocError>
    requires size { IsPageSize page_size }
    requires few { length lengths.now < 2 ^ 32 }
    requires short { sum lengths.now < 2 ^ 64 }
    requires numbers { 7 + length (sizes_of page_size lengths.now) ≤ 2 ^ 64 }
    requires least { least ≤ sum lengths.now }
    ensures { IfOk result (λ iov. IsReady least iov) }
{
    IovIter::zeroed(alloc, page_size, 7, lengths)
}

#[test]
fn odd_segments_are_one_run_of_bytes(rt: HostRuntime) -> Result<(), Fail> {
    let mut small = zeros(rt.alloc(), 16, &[5, 33, 16], 37)?;
    moves_bytes(&rt, &mut small);
    let mut small = zeros(rt.alloc(), 16, &[5, 33, 16], 54)?;
    moves_at(&rt, &mut small);
    let mut large = zeros(rt.alloc(), 4096, &[1, 4097, 0, 30], 37)?;
    moves_bytes(&rt, &mut large);
    Ok(())
}

#[test]
fn first_unaligned_segment_is_named(rt: HostRuntime) -> Result<(), Fail> {
    let iov = zeros(rt.alloc(), 16, &[32, 33, 5], 0)?;
    assert_eq!(rt; iov.unaligned(16), Some((2, 33)));
    assert_eq!(rt; iov.unaligned(32), Some((2, 33)));
    assert_eq!(rt; iov.unaligned(1), None);
    assert_eq!(rt; iov.count(), 70);
    Ok(())
}

// Two pages go out, come back to their places, and leave the iov as it was.
fn lends_two_pages(iov: &mut IovIter, parts: &mut Parts)
    requires empty { parts.old ≡ [] }
    requires valid { IsIov iov.old }
    requires size { iov.old.page_size ≡ 16 }
    requires start { iov.old.place ≡ 0 }
    requires first { page_of iov.old.pages iov.old.place ≡ 0 }
    requires whole { CanTake iov.old 2 }
    ensures same { iov.new ≡ iov.old }
    ensures emptied { parts.new ≡ [] }
{
    iov.take_pages(2, parts);
    iov.put_pages(0, parts);
    iov.revert(32);
}

#[test]
fn pages_come_back_to_their_places(rt: HostRuntime) -> Result<(), Fail> {
    let mut iov = IovIter::zeroed(rt.alloc(), 16, 7, &[48, 5])?;
    let _ = iov.count();
    let mut parts = Parts::new(rt.alloc())?;
    lends_two_pages(&mut iov, &mut parts);
    assert_eq!(rt; (iov.count(), parts.len()), (53, 0));
    Ok(())
}

// The text as the one segment of an iov.
fn from_text(alloc: Global) -> Result<IovIter, AllocError>
    ensures ready { IfOk result (λ iov. IsReady 37 iov) }
    ensures one { IfOk result (λ iov. length iov.lengths ≡ 1) }
{
    let text = Vec::from_slice(alloc, TEXT)?;
    IovIter::from_bytes(alloc, 16, 7, &[text])
}

#[test]
fn first_bytes_are_kept(rt: HostRuntime) -> Result<(), Fail> {
    let mut iov = from_text(rt.alloc())?;
    let bytes = iov.bytes(rt.alloc(), 37)?;
    assert_eq!(rt; bytes.as_slice(), TEXT);
    iov.keep_first(20);
    iov.advance(18);
    assert_eq!(rt; iov.count(), 2);
    Ok(())
}
