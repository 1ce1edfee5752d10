//! A class of a file's lock, held by a pass.
use iob_base::FileId;
use std::marker::Model;

/// A pass's cached hold of a file. It ends in `Mount::leave_cached` alone, since it has no `Drop`.
pub struct CachedHold {
    pub(crate) file: FileId,
    pub(crate) caller: u32,
    pub(crate) hold: inode_lock::CachedHold,
}

impl Model for CachedHold {
    ghost use Rattle.mini_fs.specs.Holds.{HoldView, hold_view};

    ghost Value = { HoldView };

    ghost view = { λ h. hold_view h.file h.caller h.hold };
}

/// A pass's direct hold of a file. It ends in `Mount::leave_direct` alone, since it has no `Drop`.
pub struct DirectHold {
    pub(crate) file: FileId,
    pub(crate) caller: u32,
    pub(crate) hold: inode_lock::DirectHold,
}

impl Model for DirectHold {
    ghost use Rattle.mini_fs.specs.Holds.{HoldView, hold_view};

    ghost Value = { HoldView };

    ghost view = { λ h. hold_view h.file h.caller h.hold };
}

/// A pass's exclusive hold of a file. It ends in `Mount::leave_exclusive` alone, since it has no `Drop`.
pub struct ExclusiveHold {
    pub(crate) file: FileId,
    pub(crate) caller: u32,
    pub(crate) hold: inode_lock::ExclusiveHold,
}

impl Model for ExclusiveHold {
    ghost use Rattle.mini_fs.specs.Holds.{HoldView, hold_view};

    ghost Value = { HoldView };

    ghost view = { λ h. hold_view h.file h.caller h.hold };
}
