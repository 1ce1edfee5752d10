//! What is left of files is joined from what is left of their stripes and sizes.
ghost use Rattle.std.specs.Prelude.{◌≡◌, ◌≤◌, ◌++◌, All, IfOk, OnOk, Some, ℕ, length, slice_get, take, drop};
ghost use Rattle.std.specs.Vec.Iter.{into_iter_items};
ghost use Rattle.mount_parts.specs.MountView.{LieInOrder, size_cells, stripes_of};
ghost use Rattle.mount_parts.specs.FileEnds.{AreFileEnds, AreRunsOf, HasSizeEnd, JoinsRuns, first_size, runs_of};
ghost use Rattle.mount_parts.specs.declared.file.FilePlace.{FilePlace as Place};

use crate::file::FilePlace;
use crate::placing::stripes_in;
use crate::size_end::SizeEnd;
use file_stripes::{RunEnd, join_ends};
use io_model::{FileEnd, SizeStamp};
use iob_base::Items;
use std::alloc::{AllocError, Global};
use std::vec::IntoIter;

// Moves what is left of the next stripe, if there is one, to the end of `into`.
fn next_run(into: &mut Vec<RunEnd>, runs: &mut IntoIter<RunEnd>) -> Result<(), AllocError>
    ensures taken { OnOk result (into.new.items ≡ into.old.items ++ take 1 (into_iter_items runs.old)) }
    ensures rest { OnOk result (into_iter_items runs.new ≡ drop 1 (into_iter_items runs.old)) }
{
    if let Some(run) = runs.next() {
        into.push(run)?;
    }
    Ok(())
}

// What is left of the next `count` stripes.
fn next_runs(
    alloc: Global,
    count: usize,
    runs: &mut IntoIter<RunEnd>,
) -> Result<Vec<RunEnd>, AllocError>
    ensures taken { IfOk result (λ own. own.items ≡ take count (into_iter_items runs.old)) }
    ensures rest { OnOk result (into_iter_items runs.new ≡ drop count (into_iter_items runs.old)) }
{
    let mut own = Vec::with_capacity(alloc, count)?;
    for _ in 0..count {
        next_run(&mut own, runs)?;
    }
    Ok(own)
}

// The size and the stamps that are left of the next size, for a file that has a size cell.
fn next_size(
    alloc: Global,
    cell: Option<usize>,
    sizes: &mut IntoIter<SizeEnd>,
) -> (Option<u64>, Items<SizeStamp>)
    ensures size { HasSizeEnd (first_size cell (into_iter_items sizes.old)) result.0 result.1 }
    ensures rest { into_iter_items sizes.new ≡ drop (size_cells cell) (into_iter_items sizes.old) }
{
    if cell.is_none() {
        return (None, Items::new(alloc));
    }
    let Some(end) = sizes.next() else {
        return (None, Items::new(alloc));
    };
    let SizeEnd { size, stamps } = end;
    (Some(size), stamps)
}

// What is left of the next file. Want of memory, which drops what it took, is the only error.
fn end_file(
    alloc: Global,
    file: &FilePlace,
    runs: &mut IntoIter<RunEnd>,
    sizes: &mut IntoIter<SizeEnd>,
) -> Result<FileEnd, AllocError>
    requires few { file.now.blocks ≤ 65536 }
    requires runs { AreRunsOf file.now (take (stripes_of file.now.blocks) (into_iter_items runs.old)) }
    ensures joined { IfOk result (λ end. JoinsRuns (take (stripes_of file.now.blocks) (into_iter_items runs.old)) end) }
    ensures size { IfOk result (λ end. HasSizeEnd (first_size file.now.size (into_iter_items sizes.old)) end.size end.sizes) }
    ensures runs_left { OnOk result (into_iter_items runs.new ≡ drop (stripes_of file.now.blocks) (into_iter_items runs.old)) }
    ensures sizes_left { OnOk result (into_iter_items sizes.new ≡ drop (size_cells file.now.size) (into_iter_items sizes.old)) }
{
    let own = next_runs(alloc, stripes_in(file.blocks), runs)?;
    let RunEnd { extents, blocks } = join_ends(alloc, own)?;
    let (size, sizes) = next_size(alloc, file.size, sizes);
    Ok(FileEnd {
        extents,
        blocks,
        size,
        sizes,
    })
}

// What is left of files that lie one after the other, from what is left of all their stripes and sizes. Want of memory, which
// drops these, is the only error.
pub(crate) fn end_files(
    alloc: Global,
    files: &[FilePlace],
    runs: Vec<RunEnd>,
    sizes: Vec<SizeEnd>,
) -> Result<Vec<FileEnd>, AllocError>
    requires few { All (λ f. f.blocks ≤ 65536) files.now }
    requires order { LieInOrder 0 0 files.now (length runs.items) (length sizes.items) }
    requires runs { (k : ℕ) (file : Place) → slice_get files.now k ≡ Some file → AreRunsOf file (runs_of file runs.items) }
    ensures { IfOk result (λ ends. AreFileEnds files.now runs.items sizes.items ends.items) }
{
    let mut ends = Vec::new(alloc);
    let mut runs = runs.into_iter();
    let mut sizes = sizes.into_iter();
    for i in 0..files.len() {
        let end = end_file(alloc, &files[i], &mut runs, &mut sizes)?;
        ends.push(end)?;
    }
    Ok(ends)
}
