//! What callers ask of a range, step by step.
ghost use Rattle.std.specs.Prelude.{◌≡◌};
ghost use Rattle.worked_ranges.specs.SmallEnds.{own_part};
ghost use Rattle.worked_ranges.specs.SmallRanges.{Stands};

use crate::range_caller::Caller;
use crate::range_texts::Told;
use fault_device::Lane;
use iob_base::Op;
use std::alloc::AllocError;
use std::process::Abort;
use std::sync::Wait;

/// One turn of a caller, over a run of blocks (the first and how many), bytes from one place up to another, or bytes from
/// one place on. Where a sample is needed it is the one that a look has given the caller last.
#[derive(Clone, Copy)]
pub(crate) enum Step {
    SampleRun(u64, u64),
    Drop(u64, u64),
    /// The first blocks of the sample.
    Reserve(u64),
    Unreserve(u64, u64),
    Attach(u64, u64),
    Preallocate(u64, u64),
    Wipe(u64, u64),
    Fetch(u64, u64),
    Store(u64, &'static [u8]),
    StoreZeros(u64, u64),
    LendReadRun(u64, u64),
    LendWritebackRun(u64, u64),
    /// A page for each block from one on, filled with these bytes.
    LendDirect(Op, u64, &'static [u8]),
    /// A write of bytes from one place up to another, from a page that is filled with this byte.
    LendPart(u64, u64, u8),
    /// The transfer of what was lent, and its return.
    Back,
    /// The same pages.
    DirectNowRun(u64, &'static [u8]),
    DaxGet(u64, u64),
    DaxPut(u64, &'static [u8]),
    DaxZero(u64, u64),
}

impl<'a, R: Abort + Wait> Caller<'a, R> {
    /// Makes the turn, and tells what it answers.
    pub(crate) fn take_step(&mut self, lane: &mut Lane, step: Step) -> Result<String, AllocError>
        requires stands { Stands self.old.ground.now.cell self.old.seat self.old.sample self.old.loan }
        ensures stands { Stands self.new.ground.now.cell self.new.seat self.new.sample self.new.loan }
        ensures stays { own_part self.new.ground.now.cell self.new.seat ≡ own_part self.old.ground.now.cell self.old.seat }
    {
        let alloc = self.alloc;
        match step {
            Step::SampleRun(block, most) => self.look(block, most).told(alloc),
            Step::Drop(block, blocks) => self.drop_clean(block, blocks).told(alloc),
            Step::Reserve(blocks) => self.reserve(blocks).told(alloc),
            Step::Unreserve(block, blocks) => self.unreserve(block, blocks).told(alloc),
            Step::Attach(block, blocks) => self.attach(block, blocks).told(alloc),
            Step::Preallocate(block, blocks) => self.preallocate(block, blocks).told(alloc),
            Step::Wipe(block, blocks) => self.wipe(block, blocks).told(alloc),
            Step::Fetch(from, to) => self.fetch(from, to)?.told(alloc),
            Step::Store(from, bytes) => self.store(from, bytes)?.told(alloc),
            Step::StoreZeros(from, to) => self.store_zeros(from, to).told(alloc),
            Step::LendReadRun(block, blocks) => self.lend_cold(block, blocks).told(alloc),
            Step::LendWritebackRun(block, blocks) => self.lend_dirty(block, blocks).told(alloc),
            Step::LendDirect(op, block, fills) => self.lend_direct(op, block, fills)?.told(alloc),
            Step::LendPart(from, to, fill) => self.lend_part(from, to, fill)?.told(alloc),
            Step::Back => self.bring_back(lane).told(alloc),
            Step::DirectNowRun(block, fills) => self.read_now(lane, block, fills)?.told(alloc),
            Step::DaxGet(from, to) => self.dax_get(lane, from, to)?.told(alloc),
            Step::DaxPut(from, bytes) => self.dax_put(lane, from, bytes)?.told(alloc),
            Step::DaxZero(from, to) => self.dax_zero(lane, from, to).told(alloc),
        }
    }
}
