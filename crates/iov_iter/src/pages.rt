//! Pages leave their slots and come back to them.
ghost use Rattle.std.specs.Prelude.{◌≡◌, ◌+◌, ◌<◌, ◌≤◌, ◌++◌, true, length, map, slice_index, take, drop, vec_len};
ghost use Rattle.iob_base.specs.Parting.{bare_parts, pages_of, without_page};
ghost use Rattle.iov_iter.specs.Home.{is_home};
ghost use Rattle.iov_iter.specs.IovView.{sizes, start_in};
ghost use Rattle.iov_iter.specs.Moving.{first_places};
ghost use Rattle.iov_iter.specs.Runs.{AreIn, FitIn, page_in, run_mapped, slot_out, slots_put};
ghost use Rattle.iov_iter.specs.Slots.{joined, places};

use crate::slot::Slot;
use iob_base::{Part, Parts};

/// Moves the pages of `n` slots out to the end of a list, in order.
pub(crate) fn take_run(slots: &mut Vec<Slot>, first: usize, n: usize, into: &mut Parts)
    requires within { first + n ≤ vec_len slots.old }
    requires home { AreIn n (drop first slots.old.items) }
    requires room { length into.old + n ≤ 16 }
    ensures pages { into.new ≡ into.old ++ bare_parts (map page_in (take n (drop first slots.old.items))) }
    ensures slots { slots.new.items ≡ run_mapped slot_out first n slots.old.items }
{
    for i in 0..n {
        into.push_page(slots[first + i].take());
    }
}

/// Keeps the slots up to a page, and so many bytes of this page.
pub(crate) fn cut_after(slots: &mut Vec<Slot>, page: usize, kept: usize)
    requires page { page < vec_len slots.old }
    requires some { 0 < kept }
    requires within { kept ≤ slice_index (sizes (places slots.old.items)) page }
    requires home { is_home (places slots.old.items) (start_in (sizes (places slots.old.items)) page + 0) ≡ true }
    ensures bytes { joined slots.new.items ≡ take (start_in (sizes (places slots.old.items)) page + kept) (joined slots.old.items) }
    ensures places { places slots.new.items ≡ first_places (start_in (sizes (places slots.old.items)) page + kept) (places slots.old.items) }
{
    slots[page].cut(kept);
    slots.truncate(page + 1);
}

/// Moves the pages of parts into the slots from one on, in order.
pub(crate) fn put_run(slots: &mut Vec<Slot>, first: usize, parts: &mut [Part])
    requires { FitIn (drop first slots.old.items) (pages_of parts.old) }
    ensures slots { slots.new.items ≡ take first slots.old.items ++ slots_put (drop first slots.old.items) (pages_of parts.old) }
    ensures rest { parts.new ≡ map without_page parts.old }
{
    let mut at = first;
    for part in parts.iter_mut() {
        slots[at].put(part.take_page());
        at += 1;
    }
}
