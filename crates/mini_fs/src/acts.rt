//! What a pass did at a mount, one act after another. The laws are functions that do nothing.
ghost use Rattle.std.specs.Prelude.{◌≡◌, ℕ, Some, Option, List, [], ◌∷◌, ◌++◌, slice_get};
ghost use Rattle.turn_cell.specs.Views.{SeatView};
ghost use Rattle.range_core.specs.declared.entry.Entry.{Entry};
ghost use Rattle.inode_lock.specs.View.{LockView};
ghost use Rattle.mini_fs.specs.Acts.{Act, Acted, Acts, PassActed, SeatActed, SizeActed, closed_in, lock_after, opened_in};
ghost use Rattle.mini_fs.specs.CallActs.{lock_acts};
ghost use Rattle.mini_fs.specs.Calls.{KeepsShares};
ghost use Rattle.mini_fs.specs.PassView.{PassView, SizeSeat};

/// Acts put one after another are acts.
pub fn acts_add_up()
    ensures one { (acts : List Act) (a : Act) (p q r : PassView) → Acted acts p q → Acts a q r → Acted (acts ++ a ∷ []) p r }
    ensures all { (acts more : List Act) (p q r : PassView) → Acted acts p q → Acted more q r → Acted (acts ++ more) p r }
{}

/// Through acts a pass sees at each stripe, behind all that it had seen, what stands in them, and made what of it is its own.
pub fn acts_are_seen()
    ensures { (stripe : ℕ) (acts : List Act) (p q : PassView) (before : SeatView Entry) → Acted acts p q → slice_get p.stripes stripe ≡ Some before → (after : SeatView Entry) × (slice_get q.stripes stripe ≡ Some after) × SeatActed stripe acts before after }
{}

/// The same at each size.
pub fn acts_are_seen_at_sizes()
    ensures { (cell : ℕ) (acts : List Act) (p q : PassView) (before : SizeSeat) → Acted acts p q → slice_get p.sizes cell ≡ Some before → (after : SizeSeat) × (slice_get q.sizes cell ≡ Some after) × SizeActed cell acts before after }
{}

/// Through acts the seat of a pass at a file's lock is where the last of them that is at this lock left it.
pub fn acts_are_at_locks()
    ensures { (file : ℕ) (acts : List Act) (p q : PassView) (place : Option LockView) → Acted acts p q → slice_get p.locks file ≡ Some place → slice_get q.locks file ≡ Some (lock_after file place acts) }
{}

/// Through acts a pass keeps its caller number and its spare numbers, its last call is the last that was given a number, and
/// its shelves are the same, with at most as much less as bios were run. Where they all have plenty left, it pushed as many
/// bios, or found the queue full.
pub fn acts_keep_the_pass()
    ensures { (acts : List Act) (p q : PassView) → Acted acts p q → PassActed acts p q }
{}

/// Acts that close each ticket that they opened keep the pass's shares at the stripes, and without an act at a lock its seats
/// at the locks stay.
pub fn acts_keep_shares()
    ensures shares { (acts : List Act) (p q : PassView) → Acted acts p q → ((stripe : ℕ) → opened_in stripe acts ≡ closed_in stripe acts) → KeepsShares p q }
    ensures locks { (acts : List Act) (p q : PassView) → Acted acts p q → lock_acts acts ≡ [] → q.locks ≡ p.locks }
{}
