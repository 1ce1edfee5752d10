//! What one transfer can move.
ghost use Rattle.std.specs.Prelude.{All};
ghost use Rattle.std.specs.Bool.{OnTrue};
ghost use Rattle.fault_device.specs.Transfer.{CanTransfer, IsWhole};

use iob_base::Part;

/// Whether one transfer can move these parts: they are 1 to 16, and each page has its block's length.
pub fn can_transfer(parts: &[Part]) -> bool
    ensures { OnTrue result (CanTransfer parts.now) }
{
    if parts.is_empty() {
        return false;
    }
    if parts.len() > 16 {
        return false;
    }
    are_whole(parts)
}

fn are_whole(parts: &[Part]) -> bool
    ensures { OnTrue result (All IsWhole parts.now) }
{
    parts
        .iter()
        .all(|part| part.page.bytes.len() == part.sector.bytes().len())
}
