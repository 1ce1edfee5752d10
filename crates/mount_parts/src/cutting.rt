//! Files cut into stripes, one file after another.
ghost use Rattle.std.specs.Prelude.{◌≡◌, ◌++◌, All, IfOk, OnOk, map};
ghost use Rattle.std.specs.Vec.Iter.{into_iter_items};
ghost use Rattle.file_stripes.specs.Files.{IsFile, blocks_of_files, numbers_of_file, numbers_of_files};
ghost use Rattle.file_stripes.specs.Taking.{BeginsWith, sector_numbers};
ghost use Rattle.mount_parts.specs.Pieces.{AddsFile, AreCut, IsPiece, blocks_of, piece_of, sectors_of};

use crate::piece::Piece;
use file_stripes::{Stripe, cut_stripes};
use io_model::FileSpec;
use iob_base::{Mode, Sector};
use std::alloc::{AllocError, Global};
use std::vec::IntoIter;

// Adds stripes of a file of this mode and size at the end.
fn add_stripes(
    mode: Mode,
    size: Option<u64>,
    stripes: Vec<Stripe>,
    pieces: &mut Vec<Piece>,
) -> Result<(), AllocError>
    ensures { OnOk result (pieces.new.items ≡ pieces.old.items ++ map (piece_of mode size) stripes.items) }
{
    for stripe in stripes {
        pieces.push(Piece { mode, size, stripe })?;
    }
    Ok(())
}

// Adds the stripes of a file at the end, with the next sectors.
fn cut_file(
    alloc: Global,
    file: &FileSpec,
    held: &mut IntoIter<Sector>,
    pieces: &mut Vec<Piece>,
) -> Result<(), AllocError>
    requires file { IsFile file.now }
    requires held { BeginsWith (numbers_of_file file.now) (sector_numbers (into_iter_items held.old)) }
    ensures { OnOk result (AddsFile file.now pieces.old.items (into_iter_items held.old) pieces.new.items (into_iter_items held.new)) }
{
    let stripes = cut_stripes(alloc, file, held)?;
    add_stripes(file.mode, file.size, stripes, pieces)
}

/// The stripes of files, in order of file and block, with these sectors, which are those of the files' blocks in order.
pub(crate) fn cut_files(
    alloc: Global,
    files: &[FileSpec],
    held: Vec<Sector>,
) -> Result<Vec<Piece>, AllocError>
    requires files { All IsFile files.now }
    requires held { sector_numbers held.items ≡ numbers_of_files files.now }
    ensures cut { IfOk result (λ pieces. AreCut files.now pieces.items) }
    ensures pieces { IfOk result (λ pieces. All IsPiece pieces.items) }
    ensures sectors { IfOk result (λ pieces. sectors_of pieces.items ≡ held.items) }
    ensures blocks { IfOk result (λ pieces. blocks_of pieces.items ≡ blocks_of_files files.now) }
{
    let mut pieces = Vec::new(alloc);
    let mut rest = held.into_iter();
    for i in 0..files.len() {
        cut_file(alloc, &files[i], &mut rest, &mut pieces)?;
    }
    Ok(pieces)
}
