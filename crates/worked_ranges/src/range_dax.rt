//! A caller's turns that move bytes straight from and to the sectors of a file.
ghost use Rattle.std.specs.Prelude.{◌≡◌, ◌<◌, ◌≤◌, ◌+◌, ◌-◌, ◌/◌, Some};
ghost use Rattle.worked_ranges.specs.SmallEnds.{own_part};
ghost use Rattle.worked_ranges.specs.SmallRanges.{IsBuffer, Stands};

use crate::range_bytes::{buffer, first_bytes};
use crate::range_caller::Caller;
use fault_device::{Done, Lane};
use iob_base::Mode;
use iov_iter::IovIter;
use range_core::{DaxGetRun, DaxPutRun, DaxZeroRun, EventFault, Sample};
use std::alloc::AllocError;
use std::process::Abort;
use std::sync::Wait;

impl<'a, R: Abort + Wait> Caller<'a, R> {
    // Bytes of blocks of the sample, in a file that skips the page cache.
    fn expect_through(&self, from: u64, to: u64) -> Sample
        ensures sample { self.now.sample ≡ Some result }
        ensures dax { self.now.ground.now.mode ≡ Mode.Dax }
        ensures some { from < to }
        ensures within { to ≤ 96 }
        ensures low { result.extent.block ≤ from / 16 }
        ensures high { (to - 1) / 16 < result.extent.block + result.extent.length }
    {
        let seen = self.seen();
        self.expect_dax();
        self.expect_bytes(from, to);
        self.expect_covered(seen.extent, from, to);
        seen
    }

    // The turn that copies bytes of the sample's blocks to a buffer.
    fn get_turn(
        &mut self,
        lane: &mut Lane,
        from: u64,
        to: u64,
        iov: &mut IovIter,
    ) -> Result<(), EventFault>
        requires stands { Stands self.old.ground.now.cell self.old.seat self.old.sample self.old.loan }
        requires start { iov.old.place ≡ 0 }
        requires buffer { IsBuffer iov.old }
        ensures stands { Stands self.new.ground.now.cell self.new.seat self.new.sample self.new.loan }
        ensures stays { own_part self.new.ground.now.cell self.new.seat ≡ own_part self.old.ground.now.cell self.old.seat }
        ensures buffer { IsBuffer iov.new }
        ensures few { to ≤ from + 96 }
        ensures some { from < to }
    {
        let seen = self.expect_through(from, to);
        let _ = iov.count();
        let mut change = DaxGetRun {
            by: self.by,
            judge: |n: u32| -> Done
                requires { 0 < n }
            { lane.judge(n) },
            seen,
            from,
            to,
            iov,
        };
        self.ground.cell.turn(self.rt, &mut self.seat, &mut change)
    }

    /// Copies bytes of the sample's blocks out of their sectors.
    pub(crate) fn dax_get(
        &mut self,
        lane: &mut Lane,
        from: u64,
        to: u64,
    ) -> Result<Result<Vec<u8>, EventFault>, AllocError>
        requires stands { Stands self.old.ground.now.cell self.old.seat self.old.sample self.old.loan }
        ensures stands { Stands self.new.ground.now.cell self.new.seat self.new.sample self.new.loan }
        ensures stays { own_part self.new.ground.now.cell self.new.seat ≡ own_part self.old.ground.now.cell self.old.seat }
    {
        let mut iov = buffer(self.alloc, &[])?;
        match self.get_turn(lane, from, to, &mut iov) {
            Ok(()) => Ok(Ok(first_bytes(self.alloc, &iov, to - from)?)),
            Err(fault) => Ok(Err(fault)),
        }
    }

    // The turn that copies bytes of a buffer into the sectors of the sample's blocks.
    fn put_turn(
        &mut self,
        lane: &mut Lane,
        from: u64,
        to: u64,
        iov: &mut IovIter,
    ) -> Result<(), EventFault>
        requires stands { Stands self.old.ground.now.cell self.old.seat self.old.sample self.old.loan }
        requires start { iov.old.place ≡ 0 }
        requires buffer { IsBuffer iov.old }
        ensures stands { Stands self.new.ground.now.cell self.new.seat self.new.sample self.new.loan }
        ensures stays { own_part self.new.ground.now.cell self.new.seat ≡ own_part self.old.ground.now.cell self.old.seat }
    {
        let seen = self.expect_through(from, to);
        let _ = iov.count();
        let mut change = DaxPutRun {
            rt: self.rt,
            space: &self.ground.space,
            by: self.by,
            judge: |n: u32| -> Done
                requires { 0 < n }
            { lane.judge(n) },
            seen,
            from,
            to,
            iov,
        };
        self.ground.cell.turn(self.rt, &mut self.seat, &mut change)
    }

    /// Copies bytes into the sectors of the sample's blocks.
    pub(crate) fn dax_put(
        &mut self,
        lane: &mut Lane,
        from: u64,
        bytes: &[u8],
    ) -> Result<Result<(), EventFault>, AllocError>
        requires stands { Stands self.old.ground.now.cell self.old.seat self.old.sample self.old.loan }
        ensures stands { Stands self.new.ground.now.cell self.new.seat self.new.sample self.new.loan }
        ensures stays { own_part self.new.ground.now.cell self.new.seat ≡ own_part self.old.ground.now.cell self.old.seat }
    {
        assert!(self.rt; bytes.len() <= 96, "bytes of the range");
        assert!(self.rt; from <= 96, "bytes of the range");
        let mut iov = buffer(self.alloc, bytes)?;
        Ok(self.put_turn(lane, from, from + bytes.len() as u64, &mut iov))
    }

    /// Lays zeros over the sectors of the sample's blocks.
    pub(crate) fn dax_zero(&mut self, lane: &mut Lane, from: u64, to: u64) -> Result<(), EventFault>
        requires stands { Stands self.old.ground.now.cell self.old.seat self.old.sample self.old.loan }
        ensures stands { Stands self.new.ground.now.cell self.new.seat self.new.sample self.new.loan }
        ensures stays { own_part self.new.ground.now.cell self.new.seat ≡ own_part self.old.ground.now.cell self.old.seat }
    {
        let seen = self.expect_through(from, to);
        let mut change = DaxZeroRun {
            by: self.by,
            judge: |n: u32| -> Done
                requires { 0 < n }
            { lane.judge(n) },
            seen,
            from,
            to,
        };
        self.ground.cell.turn(self.rt, &mut self.seat, &mut change)
    }
}
