//! Bytes go straight between a caller and the sectors of a file that skips the page cache.
ghost use Rattle.std.specs.Prelude.{◌≡◌, ℕ, ◌+◌, ◌-◌, ◌<◌, ◌≤◌, vec_len};
ghost use Rattle.fault_device.specs.LaneView.{lane_seen};
ghost use Rattle.io_model.specs.Contents.{zeros};
ghost use Rattle.iov_iter.specs.IovView.{written_on};
ghost use Rattle.range_core.specs.ByteRuns.{HasNext, IsByteRun, part_bytes, run_bytes};
ghost use Rattle.range_core.specs.DaxGets.{AreHomeIn, stored_at};
ghost use Rattle.range_core.specs.DirectNows.{IsReady, stored_bytes};

use super::Range;
use super::direct_now::ask;
use crate::cell::{Cell, is_mapped_kind};
use crate::claims::Claims;
use crate::cookie::stale_stop;
use crate::fault::EventFault;
use crate::parts::{BlockPart, ByteRun, block_part, byte_run};
use crate::sample::Sample;
use crate::stamps::stamp_done;
use fault_device::{Done, Lane};
use iob_base::Tag;
use iov_iter::IovIter;
use turn_cell::Change;

/// The bytes that the device has of a block at home: its sector's where it is mapped, and `blank` elsewhere.
fn stored<'a>(size: u32, cell: &'a Cell, blank: &'a [u8]) -> &'a [u8]
    requires blank { blank.now ≡ zeros size }
    requires ready { IsReady size cell.now }
    ensures { result.now ≡ stored_bytes size cell.now }
{
    if !is_mapped_kind(cell.kind) {
        return blank;
    }
    let Some(sector) = &cell.sector else {
        unreachable!()
    };
    sector.bytes()
}

fn copy_stored(size: u32, cell: &Cell, part: BlockPart, blank: &[u8], iov: &mut IovIter)
    requires blank { blank.now ≡ zeros size }
    requires ready { IsReady size cell.now }
    requires within { part.at + part.length ≤ size }
    requires room { HasNext iov.old part.length }
    ensures { iov.new ≡ written_on (part_bytes part (stored_bytes size cell.now)) iov.old }
{
    let bytes = stored(size, cell, blank);
    iov.copy_to(&bytes[part.at..part.at + part.length]);
}

/// Copies the bytes of a run to an iov. The blocks have the numbers from `first` on.
fn copy_through(cells: &Vec<Cell>, first: u64, run: ByteRun, blank: &[u8], iov: &mut IovIter)
    requires run { IsByteRun run }
    requires low { first ≤ run.first }
    requires high { run.first + run.blocks ≤ first + vec_len cells.now }
    requires ready { AreHomeIn run first cells.now.items }
    requires blank { blank.now ≡ zeros run.size }
    requires room { HasNext iov.old (run.to - run.from) }
    ensures { iov.new ≡ written_on (run_bytes run (stored_at run.size first cells.now.items)) iov.old }
{
    let low = (run.first - first) as usize;
    for k in 0..run.blocks {
        copy_stored(run.size, &cells[low + k], block_part(run, k), blank, iov);
    }
}

impl Range {
    ghost use Rattle.range_core.specs.DaxGets.{AnswersGet, CanGetDax};
    ghost use Rattle.range_core.specs.Judges.{AsksLane};

    /// Copies the bytes from one place up to another straight from the sectors to the iov, whose place moves on by them,
    /// and leaves a stamp on each block that has some of them. Mapped blocks take one judgement of the lane; blocks of
    /// other kinds read as zeros and take none. The bytes lie in the sample's extent.
    ///
    /// # Errors
    ///
    /// - `Stale` where the sample's cookie is not the range's.
    /// - `NoMemory`, before any judgement.
    /// - `Poison` exactly where the judgement failed.
    ///
    /// Nothing but the lane has changed then.
    pub fn dax_get(
        &mut self,
        by: Tag,
        lane: &mut Lane,
        seen: Sample,
        from: u64,
        to: u64,
        iov: &mut IovIter,
    ) -> Result<(), EventFault>
        requires { CanGetDax self.old seen from to iov.old }
        ensures { AnswersGet AsksLane (lane_seen count tells lane.old) (lane_seen count tells lane.new) self.old by seen from to iov.old self.new iov.new result }
    {
        let mut judge = |n: u32| -> Done
            requires { 0 < n }
            ensures { AsksLane (lane_seen count tells lane.entry.now) n result (lane_seen count tells lane.exit.now) }
        { lane.judge(n) };
        self.get_through(by, &mut judge, seen, from, to, iov)
    }

    /// `dax_get`, with any judgement of so many blocks.
    fn get_through<F: FnMut(u32) -> Done>(
        &mut self,
        by: Tag,
        judge: &mut F,
        seen: Sample,
        from: u64,
        to: u64,
        iov: &mut IovIter,
    ) -> Result<(), EventFault>
        requires judge { (m : ℕ) → 0 < m → F.pre judge.old m }
        requires can { CanGetDax self.old seen from to iov.old }
        ensures { AnswersGet F.step judge.old judge.new self.old by seen from to iov.old self.new iov.new result }
    {
        if let Some(fault) = stale_stop(self.cookie, seen) {
            return Err(fault);
        }
        let run = byte_run(&self.geometry, from, to);
        let Ok(()) = self.log.reserve(self.cells.len()) else {
            return Err(EventFault::NoMemory);
        };
        if let Err(done) = ask(judge, is_mapped_kind(seen.extent.kind), run.blocks as u32) {
            return Err(EventFault::Poison { done });
        }
        let blank = [0u8; 4096];
        let size = self.geometry.block_size() as usize;
        copy_through(&self.cells, self.first, run, &blank[..size], iov);
        self.log.add(run.first, run.blocks, stamp_done(by));
        Ok(())
    }
}

/// The turn of `Range::dax_get`, with any judgement. It answers the same.
#[derive(Drop)]
pub struct DaxGetRun<'a, F> {
    pub by: Tag,
    /// A judgement of so many blocks.
    pub judge: F,
    pub seen: Sample,
    pub from: u64,
    pub to: u64,
    pub iov: &'a mut IovIter,
}

impl<'a, F: FnMut(u32) -> Done> Change<Range> for DaxGetRun<'a, F> {
    ghost use Rattle.range_core.specs.ClaimsView.{MayTurn};
    ghost use Rattle.range_core.specs.DaxGets.{GotDax, MayGetDax};

    type Out = Result<(), EventFault>;

    ghost ready = { λ change opening history claims. MayTurn claims (MayGetDax F.pre change opening history) };

    ghost does = { λ change opening history before claims later after left out entry. GotDax F.step change opening history before claims later after left out entry };

    fn apply(&mut self, value: &mut Range, _claims: &mut Claims) -> Result<(), EventFault> {
        value.get_through(
            self.by,
            &mut self.judge,
            self.seen,
            self.from,
            self.to,
            self.iov,
        )
    }
}
