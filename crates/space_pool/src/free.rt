//! The free sectors of a pool, the lowest number first.
ghost use Rattle.std.specs.Prelude.{◌≡◌, ℕ, ◌+◌, ◌≤◌, List, [], length, vec_len, vec_capacity, IfOk, IfErr, OnOk, OnErr};
ghost use Rattle.std.specs.BinaryHeap.{heap_items, heap_len, heap_capacity, KeepsHeap, IsHeap};
ghost use Rattle.iob_base.specs.DeviceBlock.{DeviceBlock};
ghost use Rattle.space_pool.specs.Sectors.{lowest_first, SameSectors, MovesInto, TakesLowest};

use crate::lowest::Lowest;
use iob_base::Sector;
use std::alloc::{AllocError, Global};
use std::collections::BinaryHeap;
use std::marker::Model;

// Moves all sectors into the heap, which has room for them.
fn push_all(heap: &mut BinaryHeap<Lowest>, sectors: &mut Vec<Sector>)
    requires { heap_len heap.old + vec_len sectors.old ≤ heap_capacity heap.old }
    ensures moved { MovesInto (heap_items heap.old) sectors.old.items (heap_items heap.new) }
    ensures len { heap_len heap.new ≡ heap_len heap.old + vec_len sectors.old }
    ensures emptied { sectors.new.items ≡ [] }
    ensures kept { vec_capacity sectors.new ≡ vec_capacity sectors.old }
    ensures capacity { heap_capacity heap.old ≤ heap_capacity heap.new }
    ensures heap_order { KeepsHeap lowest_first (heap_items heap.old) (heap_items heap.new) }
{
    while let Some(sector) = sectors.pop() {
        match heap.push(Lowest(sector)) {
            Ok(()) => {}
            Err(_) => unreachable!(),
        }
    }
}

// Moves all sectors to the list, which has room for them, in some order.
fn name_all(sectors: &mut Vec<Sector>, into: &mut Vec<Lowest>)
    requires { vec_len into.old + vec_len sectors.old ≤ vec_capacity into.old }
    ensures moved { MovesInto into.old.items sectors.old.items into.new.items }
    ensures len { vec_len into.new ≡ vec_len into.old + vec_len sectors.old }
    ensures emptied { sectors.new.items ≡ [] }
    ensures kept { vec_capacity sectors.new ≡ vec_capacity sectors.old }
{
    while let Some(sector) = sectors.pop() {
        into.push_reserved(Lowest(sector));
    }
}

// A heap of all sectors, made at once and not by one push a sector. Where there is no memory they stay.
fn heap_of(alloc: Global, sectors: &mut Vec<Sector>) -> Result<BinaryHeap<Lowest>, AllocError>
    ensures same { IfOk result (λ h. SameSectors sectors.old.items (heap_items h)) }
    ensures len { IfOk result (λ h. heap_len h ≡ vec_len sectors.old) }
    ensures heap_order { IfOk result (λ h. IsHeap lowest_first (heap_items h)) }
    ensures emptied { OnOk result (sectors.new.items ≡ []) }
    ensures kept { vec_capacity sectors.new ≡ vec_capacity sectors.old }
    ensures err { OnErr result (sectors.new ≡ sectors.old) }
{
    let mut named = Vec::with_capacity(alloc, sectors.len())?;
    name_all(sectors, &mut named);
    Ok(BinaryHeap::from(named))
}

// Moves the sectors with the lowest numbers out of the heap, in order, to where there is room for them.
fn pop_lowest(heap: &mut BinaryHeap<Lowest>, n: u64, into: &mut Vec<Sector>)
    requires enough { n ≤ heap_len heap.old }
    requires room { vec_len into.old + n ≤ vec_capacity into.old }
    requires heap_order { IsHeap lowest_first (heap_items heap.old) }
    ensures lowest { TakesLowest n (heap_items heap.old) into.old.items (heap_items heap.new) into.new.items }
    ensures len { heap_len heap.new + n ≡ heap_len heap.old }
    ensures capacity { heap_capacity heap.new ≡ heap_capacity heap.old }
    ensures kept { vec_capacity into.new ≡ vec_capacity into.old }
    ensures heap_order { IsHeap lowest_first (heap_items heap.new) }
{
    for _ in 0..n {
        match heap.pop() {
            Some(lowest) => into.push_reserved(lowest.into_sector()),
            None => unreachable!(),
        }
    }
}

// The free sectors, with room for a number of them. `spare` has room for as many, and hands them back in the end.
#[derive(Drop)]
pub(crate) struct FreeList {
    heap: BinaryHeap<Lowest>,
    spare: Vec<Sector>,
    room: usize,
}

impl Model for FreeList {
    ghost use Rattle.std.specs.Prelude.{◌≡◌, ◌≤◌, [], vec_capacity};
    ghost use Rattle.std.specs.BinaryHeap.{heap_items, heap_len, heap_capacity, IsHeap};
    ghost use Rattle.space_pool.specs.Sectors.{FreeView, lowest_first};

    ghost Value = { FreeView };

    ghost view = { λ l. record { sectors = heap_items l.heap; room = l.room } };

    ghost invariant = { λ l. IsHeap lowest_first (heap_items l.heap) × (l.spare.items ≡ []) × (heap_len l.heap ≤ l.room) × (l.room ≤ heap_capacity l.heap) × (l.room ≤ vec_capacity l.spare) };
}

impl FreeList {
    // Takes in the sectors, in linear time, with room for so many more. Where there is no memory they come back.
    pub(crate) fn new(
        alloc: Global,
        mut sectors: Vec<Sector>,
        more: usize,
    ) -> Result<FreeList, Vec<Sector>>
        ensures ok { IfOk result (λ l. SameSectors sectors.items l.sectors) }
        ensures room { IfOk result (λ l. l.room ≡ vec_len sectors + more) }
        ensures err { IfErr result (λ s. s.items ≡ sectors.items) }
    {
        let Ok(()) = sectors.reserve(more) else {
            return Err(sectors);
        };
        let room = sectors.len() + more;
        let Ok(mut heap) = BinaryHeap::with_capacity(alloc, room) else {
            return Err(sectors);
        };
        let Ok(mut all) = heap_of(alloc, &mut sectors) else {
            return Err(sectors);
        };
        match heap.append(&mut all) {
            Ok(()) => {}
            Err(_) => unreachable!(),
        }
        Ok(FreeList {
            heap,
            spare: sectors,
            room,
        })
    }

    pub(crate) fn len(&self) -> usize
        ensures { result ≡ length self.now.sectors }
    {
        self.heap.len()
    }

    // Moves all these sectors in.
    pub(crate) fn put(&mut self, sectors: &mut Vec<Sector>)
        requires { length self.old.sectors + vec_len sectors.old ≤ self.old.room }
        ensures moved { MovesInto self.old.sectors sectors.old.items self.new.sectors }
        ensures room { self.new.room ≡ self.old.room }
        ensures emptied { sectors.new.items ≡ [] }
        ensures kept { vec_capacity sectors.new ≡ vec_capacity sectors.old }
    {
        push_all(&mut self.heap, sectors);
    }

    // Moves the sectors with the lowest numbers out, in order.
    pub(crate) fn take(&mut self, n: u64, into: &mut Vec<Sector>)
        requires enough { n ≤ length self.old.sectors }
        requires room { vec_len into.old + n ≤ vec_capacity into.old }
        ensures lowest { TakesLowest n self.old.sectors into.old.items self.new.sectors into.new.items }
        ensures room { self.new.room ≡ self.old.room }
        ensures kept { vec_capacity into.new ≡ vec_capacity into.old }
    {
        pop_lowest(&mut self.heap, n, into);
    }

    // All sectors, in the order of their numbers. It takes no memory.
    pub(crate) fn into_vec(self) -> Vec<Sector>
        ensures { TakesLowest (length self.sectors) self.sectors [] [] result.items }
    {
        let FreeList {
            mut heap,
            mut spare,
            room: _,
        } = self;
        let n = heap.len() as u64;
        pop_lowest(&mut heap, n, &mut spare);
        heap.destroy_empty();
        spare
    }
}
