//! The sectors of a device handed out to the files that name them.
ghost use Rattle.std.specs.Prelude.{◌≡◌, ◌+◌, ◌<◌, ◌≤◌, ◌++◌, ◌∷◌, [], ℕ, All, IfOk, OnOk, Some, length, map};
ghost use Rattle.std.specs.Option.{option_to_list};
ghost use Rattle.iob_base.specs.DeviceBlock.{DeviceBlock};
ghost use Rattle.file_stripes.specs.Files.{IsFile, blocks_of_files, numbers_of_file, numbers_of_files};
ghost use Rattle.file_stripes.specs.Kinds.{numbers_of};
ghost use Rattle.file_stripes.specs.Taking.{AreInOrder, AreNamedOnce, IsWhole, not_named, sector_numbers, somes, taken, taken_out, times, weight};

use crate::kinds::{file_kinds, number_of};
use io_model::{FileSpec, Kind};
use iob_base::Sector;
use std::alloc::{AllocError, Global};

/// The sectors of a device, parted: those that files name, and those that none names.
#[derive(Drop)]
pub struct Taken {
    pub held: Vec<Sector>,
    pub free: Vec<Sector>,
}

/// Parts the sectors of a device, which are all there, in the order of their numbers. Those that the files' extents name are
/// held, in order of file and block, and the others are free, in order. It walks each sector, block and extent once.
///
/// # Errors
///
/// Want of memory, which drops the sectors.
pub fn hand_out(
    alloc: Global,
    sectors: Vec<Sector>,
    files: &[FileSpec],
) -> Result<Taken, AllocError>
    requires device { AreInOrder 0 sectors.items }
    requires files { All IsFile files.now }
    requires named { AreNamedOnce (length sectors.items) (numbers_of_files files.now) }
    ensures held { IfOk result (λ t. sector_numbers t.held.items ≡ numbers_of_files files.now) }
    ensures free { IfOk result (λ t. t.free.items ≡ not_named (numbers_of_files files.now) sectors.items) }
    ensures all { IfOk result (λ t. (f : DeviceBlock → ℕ) → weight f t.held.items + weight f t.free.items ≡ weight f sectors.items) }
    ensures once { IfOk result (λ t. (x : ℕ) → times x (sector_numbers t.held.items ++ sector_numbers t.free.items) ≤ 1) }
    ensures whole { (size : ℕ) → All (IsWhole size) sectors.items → IfOk result (λ t. All (IsWhole size) t.held.items × All (IsWhole size) t.free.items) }
    ensures few { IfOk result (λ t. length t.held.items ≤ blocks_of_files files.now) }
{
    let mut places = put_in_places(alloc, sectors)?;
    let mut held = Vec::new(alloc);
    for i in 0..files.len() {
        take_file(alloc, &files[i], &mut places, &mut held)?;
    }
    let free = take_rest(alloc, places)?;
    Ok(Taken { held, free })
}

/// The sectors, each in a place of its own.
fn put_in_places(alloc: Global, sectors: Vec<Sector>) -> Result<Vec<Option<Sector>>, AllocError>
    ensures { IfOk result (λ places. places.items ≡ map Some sectors.items) }
{
    let mut places = Vec::with_capacity(alloc, sectors.len())?;
    for sector in sectors {
        places.push(Some(sector))?;
    }
    Ok(places)
}

/// Moves the sectors of a file's blocks to the end of `held`, in order of blocks.
fn take_file(
    alloc: Global,
    file: &FileSpec,
    places: &mut Vec<Option<Sector>>,
    held: &mut Vec<Sector>,
) -> Result<(), AllocError>
    requires file { IsFile file.now }
    requires below { All (λ d. d < length places.old.items) (numbers_of_file file.now) }
    ensures held { OnOk result (held.new.items ≡ held.old.items ++ taken (numbers_of_file file.now) places.old.items) }
    ensures places { OnOk result (places.new.items ≡ taken_out (numbers_of_file file.now) places.old.items) }
{
    let kinds = file_kinds(alloc, file)?;
    take_blocks(kinds.as_slice(), places, held)
}

/// Moves the sectors of blocks of these kinds to the end of `held`, in order.
fn take_blocks(
    kinds: &[Kind],
    places: &mut Vec<Option<Sector>>,
    held: &mut Vec<Sector>,
) -> Result<(), AllocError>
    requires { All (λ d. d < length places.old.items) (numbers_of kinds.now) }
    ensures held { OnOk result (held.new.items ≡ held.old.items ++ taken (numbers_of kinds.now) places.old.items) }
    ensures places { OnOk result (places.new.items ≡ taken_out (numbers_of kinds.now) places.old.items) }
{
    for i in 0..kinds.len() {
        take_block(kinds[i], places, held)?;
    }
    Ok(())
}

/// Moves the sector of a block of this kind, where it has one, to the end of `held`.
fn take_block(
    kind: Kind,
    places: &mut Vec<Option<Sector>>,
    held: &mut Vec<Sector>,
) -> Result<(), AllocError>
    requires { All (λ d. d < length places.old.items) (numbers_of (kind ∷ [])) }
    ensures held { OnOk result (held.new.items ≡ held.old.items ++ taken (numbers_of (kind ∷ [])) places.old.items) }
    ensures places { OnOk result (places.new.items ≡ taken_out (numbers_of (kind ∷ [])) places.old.items) }
{
    let Some(number) = number_of(kind) else {
        return Ok(());
    };
    let place = &mut places[number as usize];
    keep_sector(held, place.take())
}

/// Adds a sector at the end, if there is one.
fn keep_sector(into: &mut Vec<Sector>, sector: Option<Sector>) -> Result<(), AllocError>
    ensures { OnOk result (into.new.items ≡ into.old.items ++ option_to_list sector) }
{
    if let Some(sector) = sector {
        into.push(sector)?;
    }
    Ok(())
}

/// The sectors that are still in their places, in order.
fn take_rest(alloc: Global, places: Vec<Option<Sector>>) -> Result<Vec<Sector>, AllocError>
    ensures { IfOk result (λ free. free.items ≡ somes places.items) }
{
    let mut free = Vec::new(alloc);
    for place in places {
        keep_sector(&mut free, place)?;
    }
    Ok(free)
}
