//! Pages of the cache that have no bytes of a block yet. Spare ones are taken first.
ghost use Rattle.std.specs.Prelude.{◌≡◌, ◌≤◌, [], All, IfOk, OnErr, OnOk, length, replicate, vec_len};
ghost use Rattle.iob_base.specs.Parting.{pages_of};
ghost use Rattle.range_core.specs.Pages.{IsCachePage, cache_page, zero_page, zeroed_page};

use crate::spare::Spare;
use iob_base::{Items, Page, Parts};
use std::alloc::{AllocError, Global};

/// A page of zeros of the cache, of memory that is had for it. Want of memory is the only error.
fn fresh_page(alloc: Global, size: u32) -> Result<Page, AllocError>
    ensures { IfOk result (λ p. p ≡ zero_page size) }
{
    let bytes = vec![in alloc; 0u8; size as usize]?;
    Ok(Page {
        number: u64::MAX,
        bytes: Items::from_vec(bytes),
    })
}

/// A page of the cache, with any bytes. Want of memory is the only error.
fn any_page(alloc: Global, size: u32, spare: &mut Spare) -> Result<Page, AllocError>
    ensures { IfOk result (IsCachePage size) }
{
    let Some(page) = spare.take_page(size as usize) else {
        let page = fresh_page(alloc, size)?;
        return Ok(page);
    };
    Ok(page)
}

/// A page of zeros of the cache. Want of memory is the only error.
fn page_of_zeros(alloc: Global, size: u32, spare: &mut Spare) -> Result<Page, AllocError>
    ensures { IfOk result (λ p. p ≡ zero_page size) }
{
    let Some(mut page) = spare.take_page(size as usize) else {
        return fresh_page(alloc, size);
    };
    zero_bytes(&mut page);
    Ok(page)
}

/// A snapshot of a page. Want of memory is the only error.
pub(crate) fn copy_of(alloc: Global, page: &Page, spare: &mut Spare) -> Result<Page, AllocError>
    ensures { IfOk result (λ copy. copy ≡ cache_page page.now.bytes) }
{
    let Some(mut copy) = spare.take_page(page.bytes.len()) else {
        let bytes = Items::from_slice(alloc, page.bytes.as_slice())?;
        return Ok(Page {
            number: u64::MAX,
            bytes,
        });
    };
    copy.bytes.copy_from_slice(page.bytes.as_slice());
    Ok(copy)
}

/// So many pages of zeros of the cache. Want of memory is the only error.
pub(crate) fn pages_of_zeros(
    alloc: Global,
    size: u32,
    n: usize,
    spare: &mut Spare,
) -> Result<Vec<Page>, AllocError>
    ensures { IfOk result (λ pages. pages.items ≡ replicate n (zero_page size)) }
{
    let mut pages = Vec::with_capacity(alloc, n)?;
    for _ in 0..n {
        pages.push(page_of_zeros(alloc, size, spare)?)?;
    }
    Ok(pages)
}

/// So many pages of the cache, with any bytes. Want of memory is the only error.
pub(crate) fn any_pages(
    alloc: Global,
    size: u32,
    n: usize,
    spare: &mut Spare,
) -> Result<Vec<Page>, AllocError>
    ensures many { IfOk result (λ pages. vec_len pages ≡ n) }
    ensures kept { IfOk result (λ pages. All (IsCachePage size) pages.items) }
{
    let mut pages = Vec::with_capacity(alloc, n)?;
    for _ in 0..n {
        pages.push(any_page(alloc, size, spare)?)?;
    }
    Ok(pages)
}

/// Adds so many pages of the cache, with any bytes, to an empty list, whose sectors stay blank. Want of memory is the
/// only error, and leaves the list empty.
pub(crate) fn add_pages(
    alloc: Global,
    size: u32,
    n: usize,
    spare: &mut Spare,
    parts: &mut Parts,
) -> Result<(), AllocError>
    requires empty { parts.old ≡ [] }
    requires few { n ≤ 16 }
    ensures many { OnOk result (length (pages_of parts.new) ≡ n) }
    ensures pages { OnOk result (All (IsCachePage size) (pages_of parts.new)) }
    ensures none { OnErr result (parts.new ≡ []) }
{
    for _ in 0..n {
        let Ok(page) = any_page(alloc, size, spare) else {
            parts.clear();
            return Err(AllocError);
        };
        parts.push_page(page);
    }
    Ok(())
}

/// Makes each byte of a page zero. It takes no memory.
pub(crate) fn zero_bytes(page: &mut Page)
    ensures { page.new ≡ zeroed_page page.old }
{
    page.bytes.zero();
}
