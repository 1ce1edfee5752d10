//! A caller's turns that move bytes through the page cache.
ghost use Rattle.std.specs.Prelude.{◌≡◌, ◌<◌, ◌≤◌, ◌+◌, ◌-◌, ◌/◌, false, IfOk, length};
ghost use Rattle.range_core.specs.Kinds.{is_hole};
ghost use Rattle.worked_ranges.specs.SmallEnds.{own_part};
ghost use Rattle.worked_ranges.specs.SmallRanges.{IsBuffer, Stands};

use crate::range_caller::Caller;
use io_model::Kind;
use iov_iter::IovIter;
use range_core::{EventFault, FetchRun, StoreRun, StoreZerosRun};
use std::alloc::{AllocError, Global};
use std::process::Abort;
use std::sync::Wait;

/// The caller's memory, with these bytes first.
pub(crate) fn buffer(alloc: Global, bytes: &[u8]) -> Result<IovIter, AllocError>
    requires { length bytes.now ≤ 96 }
    ensures start { IfOk result (λ iov. iov.place ≡ 0) }
    ensures buffer { IfOk result (λ iov. IsBuffer iov) }
{
    let mut iov = IovIter::zeroed(alloc, 16, 7, &[96])?;
    iov.write_at(0, bytes);
    Ok(iov)
}

/// A copy of the first bytes.
pub(crate) fn first_bytes(alloc: Global, iov: &IovIter, n: u64) -> Result<Vec<u8>, AllocError>
    requires few { n ≤ 96 }
    requires buffer { IsBuffer iov.now }
{
    let _ = iov.count();
    iov.bytes(alloc, n)
}

impl<'a, R: Abort + Wait> Caller<'a, R> {
    // The turn that copies bytes to a buffer.
    fn fetch_turn(&mut self, from: u64, to: u64, iov: &mut IovIter) -> Result<(), EventFault>
        requires stands { Stands self.old.ground.now.cell self.old.seat self.old.sample self.old.loan }
        requires start { iov.old.place ≡ 0 }
        requires buffer { IsBuffer iov.old }
        ensures stands { Stands self.new.ground.now.cell self.new.seat self.new.sample self.new.loan }
        ensures stays { own_part self.new.ground.now.cell self.new.seat ≡ own_part self.old.ground.now.cell self.old.seat }
        ensures buffer { IsBuffer iov.new }
        ensures few { to ≤ from + 96 }
        ensures some { from < to }
    {
        self.expect_cached();
        self.expect_folio(from, to);
        let _ = iov.count();
        let mut change = FetchRun {
            by: self.by,
            from,
            to,
            iov,
        };
        self.ground.cell.turn(self.rt, &mut self.seat, &mut change)
    }

    /// Copies bytes out of the page cache.
    pub(crate) fn fetch(
        &mut self,
        from: u64,
        to: u64,
    ) -> Result<Result<Vec<u8>, EventFault>, AllocError>
        requires stands { Stands self.old.ground.now.cell self.old.seat self.old.sample self.old.loan }
        ensures stands { Stands self.new.ground.now.cell self.new.seat self.new.sample self.new.loan }
        ensures stays { own_part self.new.ground.now.cell self.new.seat ≡ own_part self.old.ground.now.cell self.old.seat }
    {
        let mut iov = buffer(self.alloc, &[])?;
        match self.fetch_turn(from, to, &mut iov) {
            Ok(()) => Ok(Ok(first_bytes(self.alloc, &iov, to - from)?)),
            Err(fault) => Ok(Err(fault)),
        }
    }

    // Blocks that are no holes.
    fn expect_space(&self, kind: Kind)
        ensures { is_hole kind ≡ false }
    {
        match kind {
            Kind::Hole => panic!(self.rt; "no hole"),
            Kind::Delalloc | Kind::Unwritten(_) | Kind::Mapped(_) => {}
        }
    }

    // The turn that lays bytes of a buffer over blocks of the sample.
    fn store_turn(&mut self, from: u64, to: u64, iov: &mut IovIter) -> Result<(), EventFault>
        requires stands { Stands self.old.ground.now.cell self.old.seat self.old.sample self.old.loan }
        requires start { iov.old.place ≡ 0 }
        requires buffer { IsBuffer iov.old }
        ensures stands { Stands self.new.ground.now.cell self.new.seat self.new.sample self.new.loan }
        ensures stays { own_part self.new.ground.now.cell self.new.seat ≡ own_part self.old.ground.now.cell self.old.seat }
    {
        let seen = self.seen();
        self.expect_cached();
        self.expect_folio(from, to);
        self.expect_covered(seen.extent, from, to);
        self.expect_space(seen.extent.kind);
        let _ = iov.count();
        let mut change = StoreRun {
            by: self.by,
            seen,
            from,
            to,
            iov,
        };
        self.ground.cell.turn(self.rt, &mut self.seat, &mut change)
    }

    /// Lays bytes over blocks of the sample.
    pub(crate) fn store(
        &mut self,
        from: u64,
        bytes: &[u8],
    ) -> Result<Result<(), EventFault>, AllocError>
        requires stands { Stands self.old.ground.now.cell self.old.seat self.old.sample self.old.loan }
        ensures stands { Stands self.new.ground.now.cell self.new.seat self.new.sample self.new.loan }
        ensures stays { own_part self.new.ground.now.cell self.new.seat ≡ own_part self.old.ground.now.cell self.old.seat }
    {
        assert!(self.rt; bytes.len() <= 96, "bytes of the range");
        assert!(self.rt; from <= 96, "bytes of the range");
        let mut iov = buffer(self.alloc, bytes)?;
        Ok(self.store_turn(from, from + bytes.len() as u64, &mut iov))
    }

    /// Lays zeros over blocks of the sample.
    pub(crate) fn store_zeros(&mut self, from: u64, to: u64) -> Result<(), EventFault>
        requires stands { Stands self.old.ground.now.cell self.old.seat self.old.sample self.old.loan }
        ensures stands { Stands self.new.ground.now.cell self.new.seat self.new.sample self.new.loan }
        ensures stays { own_part self.new.ground.now.cell self.new.seat ≡ own_part self.old.ground.now.cell self.old.seat }
    {
        let seen = self.seen();
        self.expect_cached();
        self.expect_folio(from, to);
        self.expect_covered(seen.extent, from, to);
        let mut change = StoreZerosRun {
            by: self.by,
            seen,
            from,
            to,
        };
        self.ground.cell.turn(self.rt, &mut self.seat, &mut change)
    }
}
