//! Runs of turns at a range, with what each turn is to answer.
ghost use Rattle.std.specs.Prelude.{◌≡◌};
ghost use Rattle.worked_ranges.specs.SmallEnds.{own_part};
ghost use Rattle.worked_ranges.specs.SmallRanges.{Stands};

use crate::range_caller::{Caller, two_callers};
use crate::range_ground::{Begin, started};
use crate::range_steps::Step;
use fault_device::{Lane, Listed};
use iob_base::Mode;
use std::alloc::{AllocError, Global};
use std::process::Abort;
use std::sync::Wait;
use std::test::Fail;

/// A turn of the first caller, 0, or of the second, and the answer.
pub(crate) type Line = (usize, Step, &'static str);

/// How the range begins, the transfers that fail, by number from 1, and the turns.
pub(crate) struct Run {
    pub(crate) begin: Begin,
    pub(crate) fails: &'static [u64],
    pub(crate) lines: &'static [Line],
}

/// A range whose bytes go through the page cache.
pub(crate) const CACHED: Begin = Begin {
    mode: Mode::Cached,
    cookie: 0,
    scarce: false,
};

/// The same with two free sectors.
pub(crate) const SCARCE: Begin = Begin {
    mode: Mode::Cached,
    cookie: 0,
    scarce: true,
};

/// A range whose bytes skip the page cache.
pub(crate) const DAX: Begin = Begin {
    mode: Mode::Dax,
    cookie: 0,
    scarce: false,
};

// One turn, of the first caller or of the second.
fn take_turn<R: Abort + Wait>(
    who: usize,
    step: Step,
    first: &mut Caller<R>,
    second: &mut Caller<R>,
    lane: &mut Lane,
) -> Result<String, AllocError>
    requires first { Stands first.old.ground.now.cell first.old.seat first.old.sample first.old.loan }
    requires second { Stands second.old.ground.now.cell second.old.seat second.old.sample second.old.loan }
    ensures first { Stands first.new.ground.now.cell first.new.seat first.new.sample first.new.loan }
    ensures second { Stands second.new.ground.now.cell second.new.seat second.new.sample second.new.loan }
    ensures first_stays { own_part first.new.ground.now.cell first.new.seat ≡ own_part first.old.ground.now.cell first.old.seat }
    ensures second_stays { own_part second.new.ground.now.cell second.new.seat ≡ own_part second.old.ground.now.cell second.old.seat }
{
    if who == 0 {
        return first.take_step(lane, step);
    }
    second.take_step(lane, step)
}

/// Makes these turns, and compares the answers.
pub(crate) fn take_turns<R: Abort + Wait>(
    rt: &R,
    lines: &[Line],
    first: &mut Caller<R>,
    second: &mut Caller<R>,
    lane: &mut Lane,
) -> Result<(), AllocError>
    requires first { Stands first.old.ground.now.cell first.old.seat first.old.sample first.old.loan }
    requires second { Stands second.old.ground.now.cell second.old.seat second.old.sample second.old.loan }
    ensures first { Stands first.new.ground.now.cell first.new.seat first.new.sample first.new.loan }
    ensures second { Stands second.new.ground.now.cell second.new.seat second.new.sample second.new.loan }
    ensures first_stays { own_part first.new.ground.now.cell first.new.seat ≡ own_part first.old.ground.now.cell first.old.seat }
    ensures second_stays { own_part second.new.ground.now.cell second.new.seat ≡ own_part second.old.ground.now.cell second.old.seat }
{
    for (at, (who, step, answer)) in lines.iter().enumerate() {
        let said = take_turn(*who, *step, first, second, lane)?;
        assert_eq!(rt; said.as_str(), *answer, "at line {at}");
    }
    Ok(())
}

/// The lane of a run.
pub(crate) fn armed_lane(alloc: Global, fails: &[u64]) -> Result<Lane, AllocError> {
    let mut lane = Lane::new(3, Box::new(alloc, Listed::new(alloc))?);
    for op in fails {
        lane.arm(*op)?;
    }
    Ok(lane)
}

/// Makes the turns of a run, and compares the answers.
pub(crate) fn play<R: Abort + Wait>(rt: &R, alloc: Global, run: &Run) -> Result<(), Fail> {
    let (ground, seat) = started(alloc, run.begin).ok_or("there is memory")?;
    let (mut first, mut second) = two_callers(rt, alloc, &ground, seat);
    let mut lane = armed_lane(alloc, run.fails)?;
    take_turns(rt, run.lines, &mut first, &mut second, &mut lane)?;
    Ok(())
}
