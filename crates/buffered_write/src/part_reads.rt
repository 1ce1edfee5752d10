//! How many blocks a range covers in part. The law is the contract of a function that does nothing.
ghost use Rattle.std.specs.Prelude.{◌<◌, ◌≤◌, ℕ};
ghost use Rattle.buffered_write.specs.PartReads.{blocks_in_part};

/// A range covers at most two blocks in part: its first and its last. So a write, a zeroing, a punch or a cut that meets
/// nobody else sends at most two bios.
pub fn few_in_part()
    ensures { (size from to : ℕ) → 0 < size → blocks_in_part size from to ≤ 2 }
{}
