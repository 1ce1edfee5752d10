//! A set of the blocks of a folio, as the bits of one word. A call makes one mask of a run of blocks.
ghost use Rattle.std.specs.Prelude.{◌≡◌, ℕ, ◌+◌, ◌-◌, ◌^◌, ◌<◌, ◌≤◌, true, false, MatchOption};
ghost use Rattle.folio_bits.specs.BlockSets.{set_of, has, with_run, HasNoneFrom, IsNextRun, IsLowestRun};

// The bits from `from` on below `end`.
fn run_mask(from: u32, end: u32) -> u32
    requires order { from ≤ end }
    requires within { end ≤ 32 }
    ensures { result ≡ 2 ^ end - 2 ^ from }
{
    ((1u64 << end) - (1u64 << from)) as u32
}

// The set with a run of blocks in it.
pub(crate) fn with(mask: u32, from: u32, n: u32) -> u32
    requires { from + n ≤ 32 }
    ensures { (blocks : ℕ) → from + n ≤ blocks → blocks ≤ 32 → set_of blocks result ≡ with_run (set_of blocks mask) from n true }
{
    mask | run_mask(from, from + n)
}

// The set with a run of blocks out of it.
pub(crate) fn without(mask: u32, from: u32, n: u32) -> u32
    requires { from + n ≤ 32 }
    ensures { (blocks : ℕ) → from + n ≤ blocks → blocks ≤ 32 → set_of blocks result ≡ with_run (set_of blocks mask) from n false }
{
    mask & !run_mask(from, from + n)
}

// Whether a block is in the set.
pub(crate) fn contains(mask: u32, blocks: u32, block: u32) -> bool
    requires folio { blocks ≤ 32 }
    requires inside { block < blocks }
    ensures { result ≡ has (set_of blocks mask) block }
{
    (mask >> block) & 1 == 1
}

// The first block of the set at or after `from`, and how many on from it are in the set.
pub(crate) fn next_run(mask: u32, blocks: u32, from: u32) -> Option<(u32, u32)>
    requires { blocks ≤ 32 }
    ensures { MatchOption result (HasNoneFrom (set_of blocks mask) from) (λ run. IsNextRun (set_of blocks mask) from run.0 run.1) }
{
    if from >= blocks {
        return None;
    }
    first_run(mask & run_mask(from, blocks))
}

// The lowest run of ones. The number has 64 bits so that a run ends in it.
fn first_run(rest: u32) -> Option<(u32, u32)>
    ensures { MatchOption result (rest ≡ 0) (λ run. IsLowestRun rest run.0 run.1) }
{
    if rest == 0 {
        return None;
    }
    let first = rest.trailing_zeros();
    let ones = u64::from(rest >> first).trailing_ones();
    Some((first, ones))
}
