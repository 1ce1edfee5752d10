//! A range of bytes of a file, gone over mapping by mapping.
ghost use Rattle.std.specs.Prelude.{◌≡◌, ◌<◌, ◌≤◌, ◌+◌, ◌^◌, ◌⊎◌, Ok, Err, Some, None, IfOk, IfErr, IfSome, MatchOption};

use crate::mapping::{Flags, Iomap};
use crate::ops::{BeginFault, IomapOps};
use iob_base::FileId;
use std::marker::Model;
use std::snapshot::Snapshot;
use std::sync::Wait;

/// A range of bytes of a file, and how far a call has come in it.
///
/// A call goes over it in one loop: `next` begins a mapping at the place reached, the call does its work in the mapping
/// and reports it by `advance`, and `finish` ends the mapping. Where the work found the mapping stale, the call sets its
/// stale flag before `finish`, and `next` begins anew at the place reached.
///
/// Contracts see it as an `IterView`: the file, the place reached, how many bytes are left, the mapping that is not
/// finished, and how many bytes were done since the last begin.
#[derive(Drop)]
pub struct IomapIter {
    file: FileId,
    pos: u64,
    left: u64,
    done: u64,
    unfinished: Snapshot<Option<Iomap>>,
}

impl Model for IomapIter {
    ghost use Rattle.iomap_core.specs.IterView.{IterView, IsPlaced};

    ghost Value = { IterView };

    ghost view = { λ it. record { file = it.file; pos = it.pos; left = it.left; done = it.done; unfinished = it.unfinished.value } };

    ghost invariant = { λ it. IsPlaced it.pos it.left it.done it.unfinished.value };
}

impl IomapIter {
    ghost use Rattle.iomap_core.specs.IterView.{advanced, began, finished, rest_of, whole_range};
    ghost use Rattle.iomap_core.specs.Mappings.{IsBegun, IsSameMapping};

    /// The range of `length` bytes from `pos` on, before its first mapping.
    pub fn new(file: FileId, pos: u64, length: u64) -> IomapIter
        requires { pos + length < 2 ^ 64 }
        ensures { result ≡ whole_range file pos length }
    {
        IomapIter {
            file,
            pos,
            left: length,
            done: 0,
            unfinished: Snapshot::of(&None),
        }
    }

    /// The place reached in the file.
    pub fn pos(&self) -> u64
        ensures { result ≡ self.now.pos }
    {
        self.pos
    }

    /// How many bytes of the range are left.
    pub fn left(&self) -> u64
        ensures { result ≡ self.now.left }
    {
        self.left
    }

    /// Begins a mapping at the place reached, for all that is left. None exactly where nothing is left.
    ///
    /// # Errors
    ///
    /// That of the one begin. Nothing is unfinished then, and `next` may be called again, with other flags too.
    pub fn next<O: IomapOps, R: Wait>(
        &mut self,
        rt: &R,
        ops: &O,
        pass: &mut O::Pass,
        flags: Flags,
    ) -> Result<Option<Iomap>, BeginFault>
        requires finished { self.old.unfinished ≡ None }
        requires of { 0 < self.old.left → O.is_of ops.now pass.old }
        requires within { 0 < self.old.left → self.old.pos < O.file_end ops.now self.old.file }
        requires allowed { 0 < self.old.left → O.allows ops.now self.old.file flags }
        ensures none { IfOk result (λ found. MatchOption found ((self.old.left ≡ 0) × (self.new ≡ self.old) × (pass.new ≡ pass.old)) (λ _. 0 < self.old.left)) }
        ensures mapping { IfOk result (λ found. IfSome found (λ m. IsBegun self.old.file self.old.pos m × (self.new ≡ began self.old m))) }
        ensures begun { IfOk result (λ found. IfSome found (λ m. O.begins ops.now pass.old self.old.file self.old.pos self.old.left flags (Ok m) pass.new × O.is_open ops.now pass.new m)) }
        ensures err { IfErr result (λ e. (0 < self.old.left) × (self.new ≡ self.old) × O.begins ops.now pass.old self.old.file self.old.pos self.old.left flags (Err e) pass.new) }
        ensures of { O.is_of ops.now pass.old → O.is_of ops.now pass.new }
    {
        if self.left == 0 {
            return Ok(None);
        }
        let iomap = ops.begin(rt, pass, self.file, self.pos, self.left, flags)?;
        self.done = 0;
        self.unfinished = Snapshot::of(&Some(iomap));
        Ok(Some(iomap))
    }

    /// Reports that the next `n` bytes were done. They lie in the mapping that is not finished, and in the range.
    pub fn advance(&mut self, n: u64)
        requires mapping { n ≤ rest_of self.old }
        requires range { n ≤ self.old.left }
        ensures { self.new ≡ advanced self.old n }
    {
        self.pos += n;
        self.left -= n;
        self.done += n;
    }

    /// Ends the mapping with the bytes that were done in it. Its stale flag may have been set.
    pub fn finish<O: IomapOps, R: Wait>(
        &mut self,
        rt: &R,
        ops: &O,
        pass: &mut O::Pass,
        iomap: Iomap,
    )
        requires mapping { IsSameMapping self.old.unfinished iomap }
        requires unended { O.is_open ops.now pass.old iomap }
        ensures state { self.new ≡ finished self.old }
        ensures ended { O.ends ops.now pass.old iomap self.old.done pass.new }
        ensures of { O.is_of ops.now pass.new }
    {
        ops.end(rt, pass, iomap, self.done);
        self.unfinished = Snapshot::of(&None);
    }
}
