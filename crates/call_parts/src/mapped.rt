//! A call maps the next part of its range, and ends a mapping.
ghost use Rattle.std.specs.Prelude.{◌≡◌, ◌⊎◌, ◌<◌, None, IfErr, IfOk, MatchOption};
ghost use Rattle.iomap_core.specs.IterView.{began, finished};
ghost use Rattle.iomap_core.specs.Mappings.{IsBegun, IsSameMapping};
ghost use Rattle.mount_parts.specs.MountView.{HasFile};
ghost use Rattle.mini_fs.specs.Mappings.{Allows, IsOpen, file_end, no_flags, write_flags, zero_flags};
ghost use Rattle.mini_fs.specs.PassView.{IsPassOf};
ghost use Rattle.call_parts.specs.Maps.{EndsMapping, GivesBack, Maps, MapsNone, mapping_fault};

use iob_base::{Fault, FileId};
use iomap_core::{BeginFault, Flags, Iomap, IomapIter};
use mini_fs::{Mount, Pass};
use std::sync::Wait;

/// How a call tells why no mapping was begun.
pub fn mapping_fault(fault: BeginFault) -> Fault
    ensures { result ≡ mapping_fault fault }
{
    match fault {
        BeginFault::Worn { cookie } => Fault::Worn { cookie },
        BeginFault::NoSpace { wanted, found } => Fault::NoSpace { wanted, found },
        BeginFault::NotOverwrite { .. } | BeginFault::NoMemory => Fault::NoMemory,
    }
}

/// The next mapping of the range of a call that goes through the cache. None exactly where nothing is left.
///
/// # Errors
///
/// What hindered the begin. Nothing is begun then.
pub fn next_mapping<R: Wait>(
    rt: &R,
    mount: &Mount,
    pass: &mut Pass,
    iter: &mut IomapIter,
    flags: Flags,
) -> Result<Option<Iomap>, Fault>
    requires of { IsPassOf mount.now pass.old }
    requires exists { HasFile mount.now iter.old.file }
    requires finished { iter.old.unfinished ≡ None }
    requires within { 0 < iter.old.left → iter.old.pos < file_end mount.now iter.old.file }
    requires flags { (flags ≡ no_flags) ⊎ (flags ≡ zero_flags) ⊎ (flags ≡ write_flags) }
    requires allowed { Allows mount.now iter.old.file flags }
    ensures none { IfOk result (λ found. MatchOption found ((iter.old.left ≡ 0) × (iter.new ≡ iter.old) × (pass.new ≡ pass.old)) (λ iomap. (0 < iter.old.left) × IsBegun iter.old.file iter.old.pos iomap × (iter.new ≡ began iter.old iomap) × Maps mount.now iter.old.file iter.old.pos flags.write pass.old pass.new iomap)) }
    ensures err { IfErr result (λ fault. (0 < iter.old.left) × (iter.new ≡ iter.old) × MapsNone mount.now iter.old.file flags.write pass.old pass.new fault) }
{
    match iter.next(rt, mount, pass, flags) {
        Ok(found) => Ok(found),
        Err(fault) => Err(mapping_fault(fault)),
    }
}

/// Ends a mapping with the bytes that were done in it. Its stale flag may have been set since it was begun.
pub fn finish_mapping<R: Wait>(
    rt: &R,
    mount: &Mount,
    pass: &mut Pass,
    iter: &mut IomapIter,
    iomap: Iomap,
)
    requires mapping { IsSameMapping iter.old.unfinished iomap }
    requires open { IsOpen mount.now pass.old iomap }
    requires file { iomap.file ≡ iter.old.file }
    ensures state { iter.new ≡ finished iter.old }
    ensures ended { EndsMapping mount.now iter.old.file iomap.flags.new pass.old pass.new }
    ensures back { GivesBack mount.now iter.old.file iomap iter.old.done pass.old pass.new }
{
    iter.finish(rt, mount, pass, iomap);
}
