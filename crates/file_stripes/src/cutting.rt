//! A file cut into stripes.
ghost use Rattle.std.specs.Prelude.{◌≡◌, ◌+◌, ◌<◌, ◌≤◌, ◌++◌, ◌∷◌, [], All, IfOk, OnOk, length, take, drop};
ghost use Rattle.std.specs.Vec.Iter.{into_iter_items};
ghost use Rattle.file_stripes.specs.Files.{IsFile, kinds_of_file, numbers_of_file};
ghost use Rattle.file_stripes.specs.Kinds.{IsFirstKind, numbers_of};
ghost use Rattle.file_stripes.specs.Stripes.{AreStripes, IsStripe, kinds_in, sectors_in};
ghost use Rattle.file_stripes.specs.Taking.{BeginsWith, sector_numbers};

use crate::kinds::{file_kinds, number_of};
use crate::runs::{keep_placed, merge_kinds};
use crate::stripe::{STRIPE_BLOCKS, Stripe};
use io_model::{FileSpec, Kind};
use iob_base::{Items, Sector};
use std::alloc::{AllocError, Global};
use std::vec::IntoIter;

/// The stripes of a file before the first call, in order. Each has `STRIPE_BLOCKS` blocks, and the last those that are
/// left. The sectors of the file's blocks come first among those that are held, in order of blocks, and move into the
/// stripes; what is behind them stays. docs/ARCHITECTURE.md says why a file is cut. It walks each block once.
///
/// # Errors
///
/// Want of memory, which drops some of the file's sectors.
pub fn cut_stripes(
    alloc: Global,
    file: &FileSpec,
    held: &mut IntoIter<Sector>,
) -> Result<Vec<Stripe>, AllocError>
    requires file { IsFile file.now }
    requires held { BeginsWith (numbers_of_file file.now) (sector_numbers (into_iter_items held.old)) }
    ensures stripes { IfOk result (λ stripes. AreStripes STRIPE_BLOCKS 0 (kinds_of_file file.now) stripes.items) }
    ensures joined { IfOk result (λ stripes. kinds_in stripes.items ≡ kinds_of_file file.now) }
    ensures numbers { IfOk result (λ stripes. sector_numbers (sectors_in stripes.items) ≡ numbers_of_file file.now) }
    ensures sectors { IfOk result (λ stripes. sectors_in stripes.items ++ into_iter_items held.new ≡ into_iter_items held.old) }
{
    let kinds = file_kinds(alloc, file)?;
    let mut stripes = Vec::new(alloc);
    let mut low = 0;
    while low < kinds.len() {
        let high = kinds.len().min(low + STRIPE_BLOCKS);
        let stripe = cut_stripe(alloc, low as u64, &kinds[low..high], held)?;
        stripes.push(stripe)?;
        low = high;
    }
    Ok(stripes)
}

/// The stripe of the blocks of these kinds, from the block `first` on, with the next sectors.
fn cut_stripe(
    alloc: Global,
    first: u64,
    kinds: &[Kind],
    held: &mut IntoIter<Sector>,
) -> Result<Stripe, AllocError>
    requires some { 0 < length kinds.now }
    requires few { first + length kinds.now ≤ 65536 }
    requires given { All IsFirstKind kinds.now }
    requires held { BeginsWith (numbers_of kinds.now) (sector_numbers (into_iter_items held.old)) }
    ensures stripe { IfOk result (λ stripe. IsStripe first kinds.now stripe) }
    ensures sectors { IfOk result (λ stripe. stripe.sectors ++ into_iter_items held.new ≡ into_iter_items held.old) }
{
    let merged = merge_kinds(alloc, first, kinds)?;
    let extents = keep_placed(alloc, merged.as_slice())?;
    let sectors = take_sectors(alloc, held, count_placed(kinds))?;
    Ok(Stripe {
        first,
        blocks: kinds.len() as u64,
        extents: Items::from_vec(extents),
        sectors: Items::from_vec(sectors),
    })
}

/// How many of these kinds have space.
fn count_placed(kinds: &[Kind]) -> usize
    ensures { result ≡ length (numbers_of kinds.now) }
{
    let mut count = 0;
    for i in 0..kinds.len() {
        count += sectors_for(kinds[i]);
    }
    count
}

/// How many sectors a block of this kind has.
fn sectors_for(kind: Kind) -> usize
    ensures { result ≡ length (numbers_of (kind ∷ [])) }
{
    if number_of(kind).is_some() { 1 } else { 0 }
}

/// The next `count` sectors, or as many as there are.
fn take_sectors(
    alloc: Global,
    held: &mut IntoIter<Sector>,
    count: usize,
) -> Result<Vec<Sector>, AllocError>
    ensures taken { IfOk result (λ sectors. sectors.items ≡ take count (into_iter_items held.old)) }
    ensures rest { OnOk result (into_iter_items held.new ≡ drop count (into_iter_items held.old)) }
{
    let mut sectors = Vec::with_capacity(alloc, count)?;
    for _ in 0..count {
        next_sector(&mut sectors, held)?;
    }
    Ok(sectors)
}

/// Moves the next sector, if there is one, to the end of `into`.
fn next_sector(into: &mut Vec<Sector>, held: &mut IntoIter<Sector>) -> Result<(), AllocError>
    ensures taken { OnOk result (into.new.items ≡ into.old.items ++ take 1 (into_iter_items held.old)) }
    ensures rest { OnOk result (into_iter_items held.new ≡ drop 1 (into_iter_items held.old)) }
{
    if let Some(sector) = held.next() {
        into.push(sector)?;
    }
    Ok(())
}
