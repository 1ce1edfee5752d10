//! The bytes of sectors, and of pages, are written in place.
ghost use Rattle.std.specs.Prelude.{◌≡◌, ◌+◌, ◌≤◌, length};
ghost use Rattle.io_model.specs.Contents.{zeros};
ghost use Rattle.io_model.specs.Effects.{overlay};
ghost use Rattle.range_core.specs.ByteRuns.{HasNext};
ghost use Rattle.range_core.specs.Stores.{next_bytes, past};

use crate::parts::BlockPart;
use iob_base::Sector;
use iov_iter::IovIter;

fn clear_bytes(bytes: &mut [u8], part: BlockPart)
    requires { part.at + part.length ≤ length bytes.old }
    ensures { bytes.new ≡ overlay part.at (zeros part.length) bytes.old }
{
    bytes[part.at..part.at + part.length].fill(0);
}

/// Lays zeros over a part of a sector's bytes.
pub(crate) fn clear_sector(sector: &mut Sector, part: BlockPart)
    requires { part.at + part.length ≤ length sector.old.bytes }
    ensures { sector.new ≡ record sector.old { bytes = overlay part.at (zeros part.length) sector.old.bytes } }
{
    clear_bytes(sector.bytes_mut(), part);
}

fn write_bytes(bytes: &mut [u8], part: BlockPart, iov: &mut IovIter)
    requires whole { part.at + part.length ≤ length bytes.old }
    requires room { HasNext iov.old part.length }
    ensures bytes { bytes.new ≡ overlay part.at (next_bytes iov.old part.length) bytes.old }
    ensures iov { iov.new ≡ past iov.old part.length }
{
    iov.copy_from(&mut bytes[part.at..part.at + part.length]);
}

/// Lays an iov's next bytes over a part of a sector's bytes.
pub(crate) fn write_sector(sector: &mut Sector, part: BlockPart, iov: &mut IovIter)
    requires whole { part.at + part.length ≤ length sector.old.bytes }
    requires room { HasNext iov.old part.length }
    ensures sector { sector.new ≡ record sector.old { bytes = overlay part.at (next_bytes iov.old part.length) sector.old.bytes } }
    ensures iov { iov.new ≡ past iov.old part.length }
{
    write_bytes(sector.bytes_mut(), part, iov);
}

/// Makes zeros of all these bytes.
pub(crate) fn blank_bytes(bytes: &mut [u8])
    ensures { bytes.new ≡ zeros (length bytes.old) }
{
    bytes.fill(0);
}

/// Makes zeros of a sector's bytes.
pub(crate) fn blank_sector(sector: &mut Sector)
    ensures { sector.new ≡ record sector.old { bytes = zeros (length sector.old.bytes) } }
{
    blank_bytes(sector.bytes_mut());
}
