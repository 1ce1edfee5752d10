//! Two passes are joined.
ghost use Rattle.std.specs.Prelude.{◌≡◌, ◌+◌, ◌<◌, ◌∷◌, map, max};
ghost use Rattle.turn_cell.specs.Seats.{seat_claims, seat_view};
ghost use Rattle.mini_fs.specs.Joins.{AreOneHistory, AreOneSizeHistory, CanJoin, JoinedHistories, MergeSizes, MergeStripes, joined_pass, joined_size_place, joined_stripe_place, paired};
ghost use Rattle.mini_fs.specs.PassView.{IsPassOf};
ghost use Rattle.mini_fs.specs.Places.{cell_of_size, cell_of_stripe, id_of_range, id_of_size, size_place, stripe_place};
ghost use Rattle.mini_fs.specs.Tickets.{KeepsTickets};

use crate::mount::Mount;
use crate::pass::Pass;
use mount_parts::next_of;
use range_core::Range;
use size_core::Sizes;
use turn_cell::TurnSeat;

// The greater of two calls' numbers.
fn later(a: u32, b: u32) -> u32
    ensures { result ≡ max a b }
{
    a.max(b)
}

// Joins each seat at a stripe with the one of another pass there.
fn join_stripes(mount: &Mount, seats: &mut Vec<TurnSeat<Range>>, from: Vec<TurnSeat<Range>>)
    requires cells { map cell_of_stripe (map (λ s. stripe_place (seat_view s) (seat_claims s)) seats.old.items) ≡ map id_of_range mount.now.stripes }
    requires others { map cell_of_stripe (map (λ s. stripe_place (seat_view s) (seat_claims s)) from.items) ≡ map id_of_range mount.now.stripes }
    requires merge { MergeStripes (map (λ s. stripe_place (seat_view s) (seat_claims s)) seats.old.items) (map (λ s. stripe_place (seat_view s) (seat_claims s)) from.items) }
    ensures joined { map (λ s. stripe_place (seat_view s) (seat_claims s)) seats.new.items ≡ paired joined_stripe_place (map (λ s. stripe_place (seat_view s) (seat_claims s)) seats.old.items) (map (λ s. stripe_place (seat_view s) (seat_claims s)) from.items) }
    ensures begins { AreOneHistory (map (λ s. stripe_place (seat_view s) (seat_claims s)) seats.old.items) (map (λ s. stripe_place (seat_view s) (seat_claims s)) from.items) }
{
    let mut rest = from.into_iter();
    for i in 0..seats.len() {
        let seat = next_of(&mut rest);
        let cell = mount.range_cell(i);
        cell.join(&mut seats[i], seat);
    }
}

// Joins each seat at a size with the one of another pass there.
fn join_sizes(mount: &Mount, seats: &mut Vec<TurnSeat<Sizes>>, from: Vec<TurnSeat<Sizes>>)
    requires cells { map cell_of_size (map (λ s. size_place (seat_view s) (seat_claims s)) seats.old.items) ≡ map id_of_size mount.now.sizes }
    requires others { map cell_of_size (map (λ s. size_place (seat_view s) (seat_claims s)) from.items) ≡ map id_of_size mount.now.sizes }
    requires merge { MergeSizes (map (λ s. size_place (seat_view s) (seat_claims s)) seats.old.items) (map (λ s. size_place (seat_view s) (seat_claims s)) from.items) }
    ensures joined { map (λ s. size_place (seat_view s) (seat_claims s)) seats.new.items ≡ paired joined_size_place (map (λ s. size_place (seat_view s) (seat_claims s)) seats.old.items) (map (λ s. size_place (seat_view s) (seat_claims s)) from.items) }
    ensures begins { AreOneSizeHistory (map (λ s. size_place (seat_view s) (seat_claims s)) seats.old.items) (map (λ s. size_place (seat_view s) (seat_claims s)) from.items) }
{
    let mut rest = from.into_iter();
    for i in 0..seats.len() {
        let seat = next_of(&mut rest);
        let cell = mount.size_cell(i);
        cell.join(&mut seats[i], seat);
    }
}

impl Mount {
    /// Joins another pass into `into`, which keeps its caller number and its seats at the locks, and gets the shares and the
    /// spare numbers of both, the shelves of both up to the 32 that there are, and the greater of their last calls. Neither holds a class, and at most one has spare numbers.
    ///
    /// Afterwards `into` has seen at each cell the longer of what both had seen, of which each is a beginning.
    pub fn join_pass(&self, into: &mut Pass, from: Pass)
        requires of { IsPassOf self.now into.old }
        requires other { IsPassOf self.now from }
        requires can { CanJoin into.old from }
        ensures of { IsPassOf self.now into.new }
        ensures joined { into.new ≡ joined_pass into.old from }
        ensures histories { JoinedHistories into.old from }
        ensures tickets { KeepsTickets into.old into.new }
    {
        let Pass {
            stripes,
            sizes,
            locks,
            caller: _,
            spare,
            last,
            begun: _,
            bios,
        } = from;
        join_stripes(self, &mut into.stripes, stripes);
        join_sizes(self, &mut into.sizes, sizes);
        drop(locks);
        into.bios.join(bios);
        into.spare += spare;
        let last = later(into.last, last);
        into.last = last;
    }
}
