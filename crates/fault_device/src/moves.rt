//! The moves of bytes between blocks and pages.
ghost use Rattle.std.specs.Prelude.{◌≡◌, All, map};
ghost use Rattle.fault_device.specs.Transfer.{IsWhole, block_read, block_written};

use iob_base::Part;

pub(crate) fn fill_pages(parts: &mut [Part])
    requires { All IsWhole parts.old }
    ensures { parts.new ≡ map block_read parts.old }
{
    for part in parts.iter_mut() {
        read_block(part);
    }
}

pub(crate) fn fill_blocks(parts: &mut [Part])
    requires { All IsWhole parts.old }
    ensures { parts.new ≡ map block_written parts.old }
{
    for part in parts.iter_mut() {
        write_block(part);
    }
}

fn read_block(part: &mut Part)
    requires { IsWhole part.old }
    ensures { part.new ≡ block_read part.old }
{
    part.page.bytes.copy_from_slice(part.sector.bytes());
}

fn write_block(part: &mut Part)
    requires { IsWhole part.old }
    ensures { part.new ≡ block_written part.old }
{
    let bytes = part.page.bytes.as_slice();
    part.sector.bytes_mut().copy_from_slice(bytes);
}
