//! What a file system gives: a begin that finds a mapping, and an end that closes it.
ghost use Rattle.std.specs.Prelude.{◌≡◌, ◌<◌, ◌≤◌, ℕ, Result, IfOk};
ghost use Rattle.iob_base.specs.declared.stamp.FileId.{FileId};
ghost use Rattle.iomap_core.specs.declared.mapping.Iomap.{Iomap};
ghost use Rattle.iomap_core.specs.declared.mapping.Flags.{Flags};
ghost use Rattle.iomap_core.specs.declared.ops.BeginFault.{BeginFault};
ghost use Rattle.iomap_core.specs.Mappings.{IsBegun, found_stale};

use crate::mapping::{Flags, Iomap};
use iob_base::FileId;
use std::sync::Wait;

/// Why a begin gave no mapping.
#[derive(Clone, Copy, Debug)]
pub enum BeginFault {
    /// Only mapped space was to be written, and this block, that of the asked position, was not mapped.
    NotOverwrite { block: u64 },
    /// The cookie may not rise any more.
    Worn { cookie: u64 },
    /// There was no memory.
    NoMemory,
    /// So many blocks were wanted, and fewer were unreserved.
    NoSpace { wanted: u64, found: u64 },
}

/// A file system that maps ranges of its files.
///
/// No lock on mappings is held between a begin and its end, so a mapping can go stale meanwhile.
pub trait IomapOps {
    /// What a caller goes to the file system with. It knows which mappings it began and has not ended.
    type Pass;

    // The pass is of this file system.
    ghost is_of: { Self → Self.Pass → Type 0 };

    // How many bytes a file has.
    ghost file_end: { Self → FileId → ℕ };

    // A file may be mapped for this.
    ghost allows: { Self → FileId → Flags → Type 0 };

    // Of the pass before a begin, the file, the position, the length and the flags, its answer, and the pass after it.
    ghost begins: { Self → Self.Pass → FileId → ℕ → ℕ → Flags → Result Iomap BeginFault → Self.Pass → Type 0 };

    // The pass began this mapping and has not ended it. The stale flag may have been set since.
    ghost is_open: { Self → Self.Pass → Iomap → Type 0 };

    // Of the pass before an end, the mapping, how many of its bytes were done, and the pass after it.
    ghost ends: { Self → Self.Pass → Iomap → ℕ → Self.Pass → Type 0 };

    /// A mapping that covers the position. It may be shorter than asked, and may begin before the position.
    ///
    /// # Errors
    ///
    /// As `BeginFault` says. Nothing is begun then.
    fn begin<R: Wait>(
        &self,
        rt: &R,
        pass: &mut Self::Pass,
        file: FileId,
        pos: u64,
        length: u64,
        flags: Flags,
    ) -> Result<Iomap, BeginFault>
        requires of { is_of self.now pass.old }
        requires within { pos < file_end self.now file }
        requires some { 1 ≤ length }
        requires allowed { allows self.now file flags }
        ensures of { is_of self.now pass.new }
        ensures began { begins self.now pass.old file pos length flags result pass.new }
        ensures mapping { IfOk result (λ m. IsBegun file pos m) }
        ensures unended { IfOk result (λ m. is_open self.now pass.new m) };

    /// Closes a mapping of which so many bytes were done. What was reserved for the others is given back.
    fn end<R: Wait>(&self, rt: &R, pass: &mut Self::Pass, iomap: Iomap, written: u64)
        requires unended { is_open self.now pass.old iomap }
        requires within { written ≤ iomap.length }
        ensures of { is_of self.now pass.new }
        ensures ended { ends self.now pass.old iomap written pass.new };

    // Only a pass of this file system began a mapping of it.
    ghost open_is_of: { (ops : Self) (pass : Self.Pass) (m : Iomap) → is_open ops pass m → is_of ops pass };

    // A mapping that was found stale is still to be ended.
    ghost stale_is_open: { (ops : Self) (pass : Self.Pass) (m : Iomap) → is_open ops pass m → is_open ops pass (found_stale m) };
}
