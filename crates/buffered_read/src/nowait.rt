//! The read that does not wait.
ghost use Rattle.std.specs.Prelude.{◌≡◌, ◌-◌, ◌<◌, ◌≤◌, IsTrue, None, length};
ghost use Rattle.iob_base.specs.Geometry.{is_block_size, is_folio_blocks};
ghost use Rattle.iob_base.specs.declared.stamp.Mode.TheVariants.{Cached};
ghost use Rattle.iov_iter.specs.Home.{AllHome};
ghost use Rattle.range_core.specs.ByteRuns.{HasNext};
ghost use Rattle.mount_parts.specs.MountView.{HasFile, file_at};
ghost use Rattle.mini_fs.specs.Holds.{IsHoldOf};
ghost use Rattle.mini_fs.specs.Mappings.{file_end};
ghost use Rattle.mini_fs.specs.PassView.{IsPassOf};
ghost use Rattle.mini_fs.specs.Tickets.{KeepsTickets};
ghost use Rattle.buffered_read.specs.Tries.{HasRead, KeepsPass, OnlyTurned, TriedPart, TriedParts, TriesRead, hindrance, told};

use call_parts::{file_end, part_end, read_reply, read_to, sizes};
use iob_base::{Answer, Fault, FileId, Geometry, Tag, Why};
use iov_iter::IovIter;
use mini_fs::{CachedHold, Mount, Pass};
use range_core::EventFault;
use turn_cell::Busy;

// How the read tells why the turn of a part was refused. A fetch is refused for nothing else.
fn hindrance(refused: EventFault) -> Fault
    ensures { result ≡ hindrance refused }
{
    match refused {
        EventFault::Away { block, .. } => Fault::Again(Why::Away { block }),
        EventFault::Cold { block } => Fault::Again(Why::Cold { block }),
        _ => Fault::NoMemory,
    }
}

// What hindered a part whose one try came out so.
fn told(tried: Result<Result<(), EventFault>, Busy>) -> Option<Fault>
    ensures { result ≡ told tried }
{
    match tried {
        Ok(Ok(())) => None,
        Ok(Err(refused)) => Some(hindrance(refused)),
        Err(busy) => Some(Fault::Again(Why::Gate(busy.word))),
    }
}

// One try at the part that begins at `at`, and what hindered it.
fn try_part(
    mount: &Mount,
    pass: &mut Pass,
    file: FileId,
    by: Tag,
    at: u64,
    to: u64,
    iov: &mut IovIter,
) -> Option<Fault>
    requires of { IsPassOf mount.now pass.old }
    requires caller { by.caller ≡ pass.old.caller }
    requires mode { (file_at mount.now file).mode ≡ Cached }
    requires some { at < to }
    requires within { to ≤ file_end mount.now file }
    requires room { HasNext iov.old (to - at) }
    ensures of { IsPassOf mount.now pass.new }
    ensures rest { OnlyTurned pass.old pass.new }
    ensures tickets { KeepsTickets pass.old pass.new }
    ensures tried { TriedPart mount.now file by to at pass.old pass.new iov.old iov.new result }
{
    mount.is_laid_out();
    let next = part_end(sizes(mount), to, at);
    told(mount.try_fetch(pass, file, by, at, next, iov))
}

// Tries the parts from one place up to another, in order: how far the read came, and what hindered it there.
fn try_parts(
    mount: &Mount,
    pass: &mut Pass,
    file: FileId,
    by: Tag,
    from: u64,
    to: u64,
    iov: &mut IovIter,
) -> (u64, Option<Fault>)
    requires of { IsPassOf mount.now pass.old }
    requires caller { by.caller ≡ pass.old.caller }
    requires mode { (file_at mount.now file).mode ≡ Cached }
    requires order { from ≤ to }
    requires within { from < to → to ≤ file_end mount.now file }
    requires room { HasNext iov.old (to - from) }
    ensures of { IsPassOf mount.now pass.new }
    ensures rest { OnlyTurned pass.old pass.new }
    ensures tickets { KeepsTickets pass.old pass.new }
    ensures reached { from ≤ result.0 }
    ensures tried { TriedParts mount.now file by to from result.0 pass.old pass.new iov.old iov.new result.1 }
{
    let mut at = from;
    while at < to {
        match try_part(mount, pass, file, by, at, to, iov) {
            Some(fault) => return (at, Some(fault)),
            None => at = part_end(sizes(mount), to, at),
        }
    }
    (at, None)
}

/// Reads bytes of a cached file without a size, from an offset on, into the iov, with what is in the page cache and
/// without waiting.
///
/// It begins no mapping. It goes by the parts of its range that lie in one folio each, in order, and makes one try at each
/// to fetch it. The iov's place is at its first byte, and its pages are at home. The place moves on by the bytes read.
///
/// `hold` is the pass's cached hold of the file, and stays.
///
/// # Errors
///
/// A part that is hindered ends the read. After bytes were read the fault is how the `Ok` stops.
///
/// - `Again(Gate)` where the one try found the gate of the stripe held, with the word that it found.
/// - `Again(Away)` of the first block of the part that is lent for a read or to a caller's own pages.
/// - `Again(Cold)` of the first block of the part that is mapped, at home and not uptodate.
/// - `NoMemory`.
pub fn pread_nowait(
    mount: &Mount,
    pass: &mut Pass,
    hold: &CachedHold,
    call: u32,
    file: FileId,
    off: u64,
    iov: &mut IovIter,
) -> Answer
    requires of { IsPassOf mount.now pass.old }
    requires hold { IsHoldOf mount.now pass.old hold.now }
    requires file { hold.now.file ≡ file }
    requires later { pass.old.last < call }
    requires exists { HasFile mount.now file }
    requires mode { (file_at mount.now file).mode ≡ Cached }
    requires sizeless { (file_at mount.now file).size ≡ None }
    requires start { iov.old.place ≡ 0 }
    requires home { AllHome iov.old }
    ensures of { IsPassOf mount.now pass.new }
    ensures hold { IsHoldOf mount.now pass.new hold.now }
    ensures tickets { KeepsTickets pass.old pass.new }
    ensures pass { KeepsPass call pass.old pass.new }
    ensures read { TriesRead mount.now file call off pass.old pass.new iov.old iov.new result }
{
    let _ = hold;
    let by = pass.start_call(call);
    let asked = iov.count();
    let to = read_to(file_end(mount, file), off, asked);
    let (at, fault) = try_parts(mount, pass, file, by, off, to, iov);
    Answer {
        reply: read_reply(asked, to - off, at - off, fault),
        bios: 0,
    }
}
