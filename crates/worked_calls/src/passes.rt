//! Passes of two callers at a file that has no size: one is split off, and joined again.
ghost use Rattle.std.specs.Prelude.{◌≡◌, ◌+◌, ◌<◌, ◌^◌, [], IfOk, OnOk};
ghost use Rattle.worked_mounts.specs.Alone.{IsAlone, share_of};
ghost use Rattle.worked_mounts.specs.Passes.{IsSplitOff};

use mini_fs::{Mount, Pass};
use std::alloc::AllocError;
use std::process::Abort;

// A pass that has a number for another caller.
fn expect_spare(rt: &impl Abort, pass: &Pass)
    ensures { 0 < pass.now.spare }
{
    assert!(rt; 0 < pass.spare(), "a number for another caller");
}

/// A pass for another caller, of a share of 2^32. Want of memory is the only error.
pub(crate) fn split(rt: &impl Abort, mount: &Mount, pass: &mut Pass) -> Result<Pass, AllocError>
    requires alone { IsAlone mount.now pass.old }
    requires share { 2 ^ 32 < share_of pass.old }
    ensures alone { IsAlone mount.now pass.new }
    ensures share { OnOk result (share_of pass.new + 2 ^ 32 ≡ share_of pass.old) }
    ensures given { IfOk result (λ made. IsSplitOff mount.now made) }
{
    expect_spare(rt, pass);
    mount.split_pass(pass)
}

/// Joins the pass of another caller, which has no numbers to hand on.
pub(crate) fn join(rt: &impl Abort, mount: &Mount, pass: &mut Pass, other: Pass)
    requires sizes { mount.now.sizes ≡ [] }
    requires alone { IsAlone mount.now pass.old }
    requires other { IsAlone mount.now other }
    ensures alone { IsAlone mount.now pass.new }
    ensures share { share_of pass.new ≡ share_of pass.old + share_of other }
{
    assert_eq!(rt; other.spare(), 0, "no numbers to hand on");
    mount.join_pass(pass, other);
}
