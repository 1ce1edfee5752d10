//! A pass is split for another caller.
ghost use Rattle.std.specs.Prelude.{◌≡◌, ◌<◌, ◌≤◌, ◌-◌, ℕ, [], Some, All, IfOk, OnErr, map, slice_get, vec_len, vec_capacity};
ghost use Rattle.atomic_table.specs.Seated.{TableId};
ghost use Rattle.inode_lock.specs.View.{LockView, fresh};
ghost use Rattle.turn_cell.specs.Seats.{seat_claims, seat_view};
ghost use Rattle.mini_fs.specs.PassView.{AreAtLocks, IsPassOf};
ghost use Rattle.mount_parts.specs.Locks.{AreFresh};
ghost use Rattle.mini_fs.specs.Places.{CanGiveSize, CanGiveStripe, SizePlace, StripePlace, cell_of_size, cell_of_stripe, given_size_place, given_stripe_place, id_of_range, id_of_size, kept_size_place, kept_stripe_place, size_place, stripe_place};
ghost use Rattle.mini_fs.specs.Splits.{CanSplit, IsHome, SplitOff, kept_lock};
ghost use Rattle.mini_fs.specs.Tickets.{KeepsTickets};

use crate::mount::Mount;
use crate::pass::Pass;
use crate::shelves::SHELVES;
use inode_lock::LockSeat;
use range_core::{NextCaller, Range};
use size_core::Sizes;
use std::alloc::AllocError;
use turn_cell::TurnSeat;

// The share at each cell that a new pass gets.
const SHARE: u64 = 1 << 32;

// The lowest of so many spare caller numbers, which are the greatest below 2^32.
fn lowest(spare: u32) -> u32
    requires { 0 < spare }
    ensures { result ≡ 4294967296 - spare }
{
    u32::MAX - spare + 1
}

// Splits a new caller's seat off each seat at a stripe, into a list that has room for them.
fn split_stripes(
    mount: &Mount,
    seats: &mut Vec<TurnSeat<Range>>,
    mut made: Vec<TurnSeat<Range>>,
) -> Vec<TurnSeat<Range>>
    requires cells { map cell_of_stripe (map (λ s. stripe_place (seat_view s) (seat_claims s)) seats.old.items) ≡ map id_of_range mount.now.stripes }
    requires can { All CanGiveStripe (map (λ s. stripe_place (seat_view s) (seat_claims s)) seats.old.items) }
    requires empty { made.items ≡ [] }
    requires room { vec_len seats.old ≤ vec_capacity made }
    ensures kept { map (λ s. stripe_place (seat_view s) (seat_claims s)) seats.new.items ≡ map kept_stripe_place (map (λ s. stripe_place (seat_view s) (seat_claims s)) seats.old.items) }
    ensures made { map (λ s. stripe_place (seat_view s) (seat_claims s)) result.items ≡ map given_stripe_place (map (λ s. stripe_place (seat_view s) (seat_claims s)) seats.old.items) }
{
    for i in 0..seats.len() {
        let cell = mount.range_cell(i);
        let seat = cell.split(&mut seats[i], SHARE, &mut NextCaller {});
        made.push_reserved(seat);
    }
    made
}

// Splits a new caller's seat off each seat at a size, into a list that has room for them.
fn split_sizes(
    mount: &Mount,
    seats: &mut Vec<TurnSeat<Sizes>>,
    mut made: Vec<TurnSeat<Sizes>>,
) -> Vec<TurnSeat<Sizes>>
    requires cells { map cell_of_size (map (λ s. size_place (seat_view s) (seat_claims s)) seats.old.items) ≡ map id_of_size mount.now.sizes }
    requires can { All CanGiveSize (map (λ s. size_place (seat_view s) (seat_claims s)) seats.old.items) }
    requires empty { made.items ≡ [] }
    requires room { vec_len seats.old ≤ vec_capacity made }
    ensures kept { map (λ s. size_place (seat_view s) (seat_claims s)) seats.new.items ≡ map kept_size_place (map (λ s. size_place (seat_view s) (seat_claims s)) seats.old.items) }
    ensures made { map (λ s. size_place (seat_view s) (seat_claims s)) result.items ≡ map given_size_place (map (λ s. size_place (seat_view s) (seat_claims s)) seats.old.items) }
{
    for i in 0..seats.len() {
        let cell = mount.size_cell(i);
        let seat = cell.split(&mut seats[i], SHARE, &mut size_core::NextCaller {});
        made.push_reserved(seat);
    }
    made
}

// Splits a seat off a seat at the lock of this place.
fn split_lock(mount: &Mount, place: usize, seat: &mut Option<LockSeat>) -> Option<LockSeat>
    requires home { IsHome seat.old }
    requires lock { (at : LockView) → seat.old ≡ Some at → slice_get mount.now.locks place ≡ Some at.lock }
    ensures kept { seat.new ≡ kept_lock seat.old }
    ensures made { (id : TableId) × (number : ℕ) × (slice_get mount.now.locks place ≡ Some id) × (result ≡ Some (fresh id number)) }
{
    let Some(at) = seat else { unreachable!() };
    Some(mount.lock_at(place).split(at))
}

// Splits a seat off each seat at a lock, into a list that has room for them.
fn split_locks(
    mount: &Mount,
    seats: &mut Vec<Option<LockSeat>>,
    mut made: Vec<Option<LockSeat>>,
) -> Vec<Option<LockSeat>>
    requires locks { AreAtLocks mount.now.locks seats.old.items }
    requires home { All IsHome seats.old.items }
    requires empty { made.items ≡ [] }
    requires room { vec_len seats.old ≤ vec_capacity made }
    ensures kept { seats.new.items ≡ map kept_lock seats.old.items }
    ensures made { AreFresh mount.now.locks result.items }
{
    for i in 0..seats.len() {
        let seat = split_lock(mount, i, &mut seats[i]);
        made.push_reserved(seat);
    }
    made
}

impl Mount {
    /// A pass for another caller, which has the lowest spare caller number of `pass` and none to hand on. It has a share of 2^32
    /// at each cell, has seen all that `pass` has, and holds no class. It gets one of the shelves of `pass`, where there is
    /// another.
    ///
    /// # Errors
    ///
    /// Want of memory, which leaves all as it was.
    pub fn split_pass(&self, pass: &mut Pass) -> Result<Pass, AllocError>
        requires of { IsPassOf self.now pass.old }
        requires can { CanSplit pass.old }
        ensures of { IsPassOf self.now pass.new }
        ensures ok { IfOk result (λ made. SplitOff self.now pass.old pass.new made) }
        ensures made { IfOk result (λ made. IsPassOf self.now made) }
        ensures err { OnErr result (pass.new ≡ pass.old) }
        ensures tickets { KeepsTickets pass.old pass.new }
    {
        let alloc = self.allocator();
        let stripes = Vec::with_capacity(alloc, pass.stripes.len())?;
        let sizes = Vec::with_capacity(alloc, pass.sizes.len())?;
        let locks = Vec::with_capacity(alloc, pass.locks.len())?;
        let shelves = Vec::with_capacity(alloc, SHELVES)?;
        let caller = lowest(pass.spare);
        let stripes = split_stripes(self, &mut pass.stripes, stripes);
        let sizes = split_sizes(self, &mut pass.sizes, sizes);
        let locks = split_locks(self, &mut pass.locks, locks);
        let bios = pass.bios.split(&self.queue, shelves);
        pass.spare -= 1;
        Ok(Pass {
            stripes,
            sizes,
            locks,
            caller,
            spare: 0,
            last: pass.last,
            begun: None,
            bios,
        })
    }
}
