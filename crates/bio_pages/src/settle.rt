//! A bio that failed on another lane is run once more.
ghost use Rattle.std.specs.Prelude.{◌≡◌, ◌≤◌, ◌++◌, ◌∷◌, [], true, false, All};
ghost use Rattle.fault_device.specs.LaneView.{lane_seen};
ghost use Rattle.fault_device.specs.Transfer.{CanTransfer};
ghost use Rattle.bio_pages.specs.Lists.{IsApart, IsOwn, OwnFailures};
ghost use Rattle.bio_pages.specs.Running.{HasRun, IsRun};

use crate::bio::{Bio, run_bio};
use fault_device::{Done, Lane};

// Whether two transfers share a rise of the count.
fn shares(other: Done, done: Done) -> bool
    ensures { result ≡ false → IsApart other done }
{
    if other.after <= done.before {
        return false;
    }
    if done.after <= other.before {
        return false;
    }
    other.failed
}

// Whether a transfer shares no rise of the count with one of these that failed.
fn is_apart(dones: &[Done], done: Done) -> bool
    ensures { result ≡ true → All (λ other. IsApart other done) dones.now }
{
    for other in dones {
        if shares(*other, done) {
            return false;
        }
    }
    true
}

// Whether a transfer that failed is of this lane, between its counts then and now, and apart from the others.
fn is_own(lane: &Lane, then: u64, dones: &[Done], done: Done) -> bool
    ensures own { result ≡ true → IsOwn (lane_seen count tells lane.now).number then (lane_seen count tells lane.now).count done }
    ensures apart { result ≡ true → All (λ other. IsApart other done) dones.now }
{
    if done.lane != lane.number() {
        return false;
    }
    if done.before < then || lane.faults() < done.after {
        return false;
    }
    if done.after <= done.before {
        return false;
    }
    is_apart(dones, done)
}

// Runs a bio once more that failed elsewhere. As many first parts were moved as the transfer says that moved more.
pub(crate) fn settle<T>(
    lane: &mut Lane,
    then: u64,
    dones: &[Done],
    bio: &mut Bio<T>,
    done: Done,
) -> Done
    requires can_run { CanTransfer bio.old.parts }
    requires then { then ≤ (lane_seen count tells lane.old).count }
    requires own { OwnFailures (lane_seen count tells lane.old).number then (lane_seen count tells lane.old).count dones.now }
    ensures run { (before : Bio T) → IsRun before bio.old done → IsRun before bio.new result }
    ensures own { OwnFailures (lane_seen count tells lane.new).number then (lane_seen count tells lane.new).count (dones.now ++ result ∷ []) }
    ensures lane { HasRun (lane_seen count tells lane.old) (lane_seen count tells lane.new) }
{
    if !done.failed {
        return done;
    }
    if is_own(lane, then, dones, done) {
        return done;
    }
    let again = run_bio(lane, bio);
    Done {
        landed: again.landed.max(done.landed),
        ..again
    }
}
