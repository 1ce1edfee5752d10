//! A caller at a range: its seat, the sample that it was given last, and what it was lent. A method makes one turn.
ghost use Rattle.std.specs.Prelude.{◌≡◌, ◌^◌, ◌<◌, ◌≤◌, ◌+◌, ◌-◌, ◌/◌, Some, None, true};
ghost use Rattle.turn_cell.specs.Seats.{cell_view, seat_claims, seat_view};
ghost use Rattle.turn_cell.specs.Views.{first_seat};
ghost use Rattle.range_core.specs.ClaimsView.{first_claims};
ghost use Rattle.worked_ranges.specs.SmallEnds.{first_part, own_part, second_part};
ghost use Rattle.worked_ranges.specs.SmallRanges.{Stands};

use crate::range_ground::Ground;
use io_model::{Extent, Kind};
use iob_base::{Mode, Tag};
use range_core::{
    AttachRun, DropCleanRun, EventFault, Lender, Lent, NextCaller, PreallocateRun, Range,
    ReserveRun, Sample, SampleRun, UnreserveRun, WipeRun,
};
use std::alloc::Global;
use std::process::Abort;
use std::sync::Wait;
use turn_cell::TurnSeat;

/// A caller at a range.
#[derive(Drop)]
pub(crate) struct Caller<'a, R> {
    pub(crate) rt: &'a R,
    pub(crate) alloc: Global,
    pub(crate) ground: &'a Ground,
    pub(crate) seat: TurnSeat<Range>,
    pub(crate) by: Tag,
    pub(crate) sample: Option<Sample>,
    pub(crate) loan: Option<(Lender, Lent)>,
}

fn caller_at<'a, R>(
    rt: &'a R,
    alloc: Global,
    ground: &'a Ground,
    seat: TurnSeat<Range>,
    by: Tag,
) -> Caller<'a, R>
    requires cell { (seat_view seat).cell ≡ (cell_view ground.now.cell).cell }
    requires free { (seat_claims seat).held ≡ None }
    requires own { (seat_claims seat).main ≡ true }
    ensures stands { Stands result.ground.now.cell result.seat result.sample result.loan }
    ensures part { own_part result.ground.now.cell result.seat ≡ own_part ground.now.cell seat }
{
    Caller {
        rt,
        alloc,
        ground,
        seat,
        by,
        sample: None,
        loan: None,
    }
}

/// Two callers at a range.
pub(crate) fn two_callers<'a, R: Abort + Wait>(
    rt: &'a R,
    alloc: Global,
    ground: &'a Ground,
    mut seat: TurnSeat<Range>,
) -> (Caller<'a, R>, Caller<'a, R>)
    requires seat { seat_view seat ≡ first_seat (cell_view ground.now.cell).cell (2 ^ 63) }
    requires claims { seat_claims seat ≡ first_claims }
    ensures first { Stands result.0.ground.now.cell result.0.seat result.0.sample result.0.loan }
    ensures second { Stands result.1.ground.now.cell result.1.seat result.1.sample result.1.loan }
    ensures first_part { own_part result.0.ground.now.cell result.0.seat ≡ first_part (cell_view ground.now.cell) }
    ensures second_part { own_part result.1.ground.now.cell result.1.seat ≡ second_part (cell_view ground.now.cell) }
{
    let other = ground.cell.split(&mut seat, 1, &mut NextCaller {});
    let first = caller_at(rt, alloc, ground, seat, Tag { caller: 0, call: 7 });
    let second = caller_at(rt, alloc, ground, other, Tag { caller: 1, call: 8 });
    (first, second)
}

impl<'a, R: Abort + Wait> Caller<'a, R> {
    /// Blocks of the range.
    pub(crate) fn expect_run(&self, block: u64, blocks: u64)
        ensures some { 0 < blocks }
        ensures within { block + blocks ≤ 6 }
    {
        assert!(self.rt; 0 < blocks, "some blocks");
        assert!(self.rt; block < 6, "a block of the range");
        assert!(self.rt; blocks <= 6 - block, "blocks of the range");
    }

    /// Bytes of the range.
    pub(crate) fn expect_bytes(&self, from: u64, to: u64)
        ensures some { from < to }
        ensures within { to ≤ 96 }
    {
        assert!(self.rt; from < to, "some bytes");
        assert!(self.rt; to <= 96, "bytes of the range");
    }

    /// Bytes of one folio of the range.
    pub(crate) fn expect_folio(&self, from: u64, to: u64)
        ensures some { from < to }
        ensures within { to ≤ 96 }
        ensures folio { from / 64 ≡ (to - 1) / 64 }
    {
        self.expect_bytes(from, to);
        assert_eq!(self.rt; from / 64, (to - 1) / 64, "bytes of one folio");
    }

    /// Bytes of blocks of an extent.
    pub(crate) fn expect_covered(&self, extent: Extent, from: u64, to: u64)
        requires { from < to }
        ensures low { extent.block ≤ from / 16 }
        ensures high { (to - 1) / 16 < extent.block + extent.length }
    {
        assert!(self.rt; extent.block <= from / 16, "bytes of the extent");
        assert!(self.rt;
            (to - 1) / 16 - extent.block < extent.length,
            "bytes of the extent"
        );
    }

    /// The file's bytes go through the page cache.
    pub(crate) fn expect_cached(&self)
        ensures { self.now.ground.now.mode ≡ Mode.Cached }
    {
        match self.ground.mode {
            Mode::Cached => {}
            Mode::Dax => panic!(self.rt; "a cached file"),
        }
    }

    /// Nothing is lent to it.
    pub(crate) fn expect_free(&self)
        ensures { self.now.loan ≡ None }
    {
        match &self.loan {
            None => {}
            Some(_) => panic!(self.rt; "nothing is lent"),
        }
    }

    /// The file's bytes skip the page cache.
    pub(crate) fn expect_dax(&self)
        ensures { self.now.ground.now.mode ≡ Mode.Dax }
    {
        match self.ground.mode {
            Mode::Cached => panic!(self.rt; "a file that skips the page cache"),
            Mode::Dax => {}
        }
    }

    // The first blocks of an extent, a hole.
    fn expect_holes(&self, extent: Extent, blocks: u64)
        ensures hole { extent.kind ≡ Kind.Hole }
        ensures enough { blocks ≤ extent.length }
    {
        assert!(self.rt; blocks <= extent.length, "blocks of the extent");
        match extent.kind {
            Kind::Hole => {}
            _ => panic!(self.rt; "a hole"),
        }
    }

    /// The sample that it was given last.
    pub(crate) fn seen(&self) -> Sample
        ensures { self.now.sample ≡ Some result }
    {
        match self.sample {
            Some(sample) => sample,
            None => panic!(self.rt; "a sample was given"),
        }
    }

    /// Takes a sample, and keeps it.
    pub(crate) fn look(&mut self, block: u64, most: u64) -> Sample
        requires stands { Stands self.old.ground.now.cell self.old.seat self.old.sample self.old.loan }
        ensures stands { Stands self.new.ground.now.cell self.new.seat self.new.sample self.new.loan }
        ensures stays { own_part self.new.ground.now.cell self.new.seat ≡ own_part self.old.ground.now.cell self.old.seat }
    {
        self.expect_run(block, 1);
        assert!(self.rt; 0 < most, "some blocks");
        let mut change = SampleRun { block, most };
        let sample = self.ground.cell.turn(self.rt, &mut self.seat, &mut change);
        self.sample = Some(sample);
        sample
    }

    /// Drops clean pages.
    pub(crate) fn drop_clean(&mut self, block: u64, blocks: u64) -> u64
        requires stands { Stands self.old.ground.now.cell self.old.seat self.old.sample self.old.loan }
        ensures stands { Stands self.new.ground.now.cell self.new.seat self.new.sample self.new.loan }
        ensures stays { own_part self.new.ground.now.cell self.new.seat ≡ own_part self.old.ground.now.cell self.old.seat }
    {
        self.expect_run(block, blocks);
        let mut change = DropCleanRun { block, blocks };
        self.ground.cell.turn(self.rt, &mut self.seat, &mut change)
    }

    /// Asks for space for the first blocks of the sample, a hole. It keeps its sample.
    pub(crate) fn reserve(&mut self, blocks: u64) -> Result<Sample, EventFault>
        requires stands { Stands self.old.ground.now.cell self.old.seat self.old.sample self.old.loan }
        ensures stands { Stands self.new.ground.now.cell self.new.seat self.new.sample self.new.loan }
        ensures stays { own_part self.new.ground.now.cell self.new.seat ≡ own_part self.old.ground.now.cell self.old.seat }
    {
        let seen = self.seen();
        self.expect_cached();
        self.expect_holes(seen.extent, blocks);
        self.expect_run(seen.extent.block, blocks);
        let mut change = ReserveRun {
            rt: self.rt,
            space: &self.ground.space,
            seen,
            blocks,
        };
        self.ground.cell.turn(self.rt, &mut self.seat, &mut change)
    }

    /// Takes promises of space back.
    pub(crate) fn unreserve(&mut self, block: u64, blocks: u64) -> u64
        requires stands { Stands self.old.ground.now.cell self.old.seat self.old.sample self.old.loan }
        ensures stands { Stands self.new.ground.now.cell self.new.seat self.new.sample self.new.loan }
        ensures stays { own_part self.new.ground.now.cell self.new.seat ≡ own_part self.old.ground.now.cell self.old.seat }
    {
        self.expect_run(block, blocks);
        let mut change = UnreserveRun {
            rt: self.rt,
            space: &self.ground.space,
            block,
            blocks,
        };
        self.ground.cell.turn(self.rt, &mut self.seat, &mut change)
    }

    /// Gives sectors to dirty blocks to which space is promised.
    pub(crate) fn attach(&mut self, block: u64, blocks: u64) -> Result<u64, EventFault>
        requires stands { Stands self.old.ground.now.cell self.old.seat self.old.sample self.old.loan }
        ensures stands { Stands self.new.ground.now.cell self.new.seat self.new.sample self.new.loan }
        ensures stays { own_part self.new.ground.now.cell self.new.seat ≡ own_part self.old.ground.now.cell self.old.seat }
    {
        self.expect_run(block, blocks);
        let mut change = AttachRun {
            rt: self.rt,
            space: &self.ground.space,
            block,
            blocks,
        };
        self.ground.cell.turn(self.rt, &mut self.seat, &mut change)
    }

    /// Gives sectors to blocks that have none.
    pub(crate) fn preallocate(&mut self, block: u64, blocks: u64) -> Result<u64, EventFault>
        requires stands { Stands self.old.ground.now.cell self.old.seat self.old.sample self.old.loan }
        ensures stands { Stands self.new.ground.now.cell self.new.seat self.new.sample self.new.loan }
        ensures stays { own_part self.new.ground.now.cell self.new.seat ≡ own_part self.old.ground.now.cell self.old.seat }
    {
        self.expect_run(block, blocks);
        let mut change = PreallocateRun {
            rt: self.rt,
            space: &self.ground.space,
            block,
            blocks,
        };
        self.ground.cell.turn(self.rt, &mut self.seat, &mut change)
    }

    /// Makes holes of blocks.
    pub(crate) fn wipe(&mut self, block: u64, blocks: u64) -> Result<u64, EventFault>
        requires stands { Stands self.old.ground.now.cell self.old.seat self.old.sample self.old.loan }
        ensures stands { Stands self.new.ground.now.cell self.new.seat self.new.sample self.new.loan }
        ensures stays { own_part self.new.ground.now.cell self.new.seat ≡ own_part self.old.ground.now.cell self.old.seat }
    {
        self.expect_run(block, blocks);
        let mut change = WipeRun {
            rt: self.rt,
            space: &self.ground.space,
            by: self.by,
            block,
            blocks,
        };
        self.ground.cell.turn(self.rt, &mut self.seat, &mut change)
    }
}
