//! Which blocks are taken, as a mark for each.
ghost use Rattle.std.specs.Prelude.{◌≡◌, ℕ, ◌+◌, ◌<◌, ◌≤◌, ◌||◌, Bool, IfOk, OnOk, ◌*◌, length, slice_index_or, false};
ghost use Rattle.std.specs.List.{list_any};
ghost use Rattle.io_script.specs.Marks.{AreMarks, is_in_run, some_from};

/// How many places the marks have for each file.
pub const PLACES: usize = 65536;

use std::alloc::{AllocError, Global};

/// A mark for each of so many blocks, none of which is taken.
pub fn no_marks(alloc: Global, n: usize) -> Result<Vec<bool>, AllocError>
    ensures { IfOk result (λ marks. AreMarks marks.items n (λ _. false)) }
{
    vec![in alloc; false; n]
}

/// Whether one of `n` blocks from `low` on is marked.
pub fn has_mark(marks: &[bool], low: usize, n: usize) -> bool
    requires { low + n ≤ length marks.now }
    ensures { (test : ℕ → Bool) → AreMarks marks.now (length marks.now) test → result ≡ some_from test low n }
{
    any_marked(&marks[low..low + n])
}

/// Whether there is a mark.
fn any_marked(marks: &[bool]) -> bool
    ensures { result ≡ list_any (λ taken. taken) marks.now }
{
    marks.iter().any(|taken| *taken)
}

/// Marks `n` blocks from `low` on.
pub fn mark_run(marks: &mut Vec<bool>, low: usize, n: usize)
    requires { low + n ≤ length marks.old.items }
    ensures { (many : ℕ) (test : ℕ → Bool) → AreMarks marks.old.items many test → AreMarks marks.new.items many (λ i. test i || is_in_run low n i) }
{
    for i in low..low + n {
        marks[i] = true;
    }
}

/// Places for one more file, none of which is marked.
pub fn add_marks(marks: &mut Vec<bool>) -> Result<(), AllocError>
    ensures { OnOk result ((files : ℕ) (test : ℕ → Bool) → AreMarks marks.old.items (files * 65536) test
        → ((i : ℕ) → files * 65536 ≤ i → test i ≡ false) → AreMarks marks.new.items ((files + 1) * 65536) test) }
{
    marks.resize(marks.len() + PLACES, false)
}
