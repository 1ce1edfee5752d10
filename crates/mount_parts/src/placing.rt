//! Where files lie in a mount, one after another.
ghost use Rattle.std.specs.Prelude.{◌≡◌, ◌<◌, ◌≤◌, ◌^◌, All, IfOk, length};
ghost use Rattle.file_stripes.specs.Files.{IsFile};
ghost use Rattle.mount_parts.specs.MountView.{size_cells, stripes_of};
ghost use Rattle.mount_parts.specs.FilePlaces.{place_of, places_from, sized_at};

use crate::file::FilePlace;
use io_model::FileSpec;
use iob_base::STRIPE;
use std::alloc::{AllocError, Global};

// How many stripes so many blocks make.
pub(crate) fn stripes_in(blocks: u64) -> usize
    requires { blocks ≤ 65536 }
    ensures { result ≡ stripes_of blocks }
{
    ((blocks + STRIPE - 1) / STRIPE) as usize
}

// The size cell of a file that has a size.
fn size_of(file: &FileSpec, cell: usize) -> Option<usize>
    ensures { result ≡ sized_at file.now.size cell }
{
    if file.size.is_some() {
        return Some(cell);
    }
    None
}

// How many size cells a file has.
fn cells_in(size: Option<usize>) -> usize
    ensures { result ≡ size_cells size }
{
    if size.is_some() { 1 } else { 0 }
}

/// Where files lie, in order. Want of memory is the only error.
pub(crate) fn place_files(alloc: Global, files: &[FileSpec]) -> Result<Vec<FilePlace>, AllocError>
    requires files { All IsFile files.now }
    requires few { length files.now < 2 ^ 32 }
    ensures { IfOk result (λ places. places.items ≡ places_from 0 0 files.now) }
{
    let mut places = Vec::new(alloc);
    let mut stripe: usize = 0;
    let mut cell: usize = 0;
    for i in 0..files.len() {
        let size = size_of(&files[i], cell);
        let place = FilePlace {
            mode: files[i].mode,
            blocks: files[i].blocks,
            stripe,
            size,
        };
        places.push(place)?;
        stripe += stripes_in(files[i].blocks);
        cell += cells_in(size);
    }
    Ok(places)
}
