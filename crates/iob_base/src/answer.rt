//! What a call answers.
ghost use Rattle.std.specs.Prelude.{◌≡◌};
ghost use Rattle.iob_base.specs.Errno.{errno_of};

/// The exit status of a program.
#[derive(Clone, Copy, Debug)]
pub struct Status(pub u8);

/// What of a direct call does not fit the block size.
#[derive(Clone, Copy, Debug)]
pub enum Alignment {
    /// The offset, in bytes.
    Offset(u64),
    /// The first segment whose length does not fit, counted from 1, and its length in bytes.
    Segment { index: u32, length: u64 },
}

/// What hindered a call that does not wait.
#[derive(Clone, Copy, Debug)]
pub enum Why {
    /// The gate of a range was held: the word found there.
    Gate(u64),
    /// The sector of this file block is lent out.
    Away { block: u64 },
    /// This file block would have to be read from the device first.
    Cold { block: u64 },
    /// This file block has bytes in memory that the device lacks.
    Dirty { block: u64 },
}

/// Why a call, or the rest of one, did not come about.
#[derive(Clone, Copy, Debug)]
pub enum Fault {
    /// A transfer on this lane failed: its count of faults rose from `before` to `after`.
    Eio { lane: u32, before: u64, after: u64 },
    /// The file's count of failed writebacks is above the one that the caller had seen.
    SyncEio { seen: u64, count: u64 },
    /// A call that does not wait was hindered.
    Again(Why),
    /// No memory could be had.
    NoMemory,
    /// A direct call's offset or segment is no multiple of the block size.
    NotAligned(Alignment),
    /// A call would write at or past the file's end. Both numbers are in bytes.
    TooFar { offset: u64, end: u64 },
    /// Fewer blocks were free than the call asked for.
    NoSpace { wanted: u64, found: u64 },
    /// The range's cookie is used up.
    Worn { cookie: u64 },
}

impl Fault {
    /// The error number of Linux: EIO 5, EAGAIN 11, ENOMEM 12, EINVAL 22, EFBIG 27, ENOSPC 28,
    /// EOVERFLOW 75.
    pub fn errno(&self) -> u32
        ensures { result ≡ errno_of self.now }
    {
        match self {
            Fault::Eio { .. } | Fault::SyncEio { .. } => 5,
            Fault::Again(_) => 11,
            Fault::NoMemory => 12,
            Fault::NotAligned(_) => 22,
            Fault::TooFar { .. } => 27,
            Fault::NoSpace { .. } => 28,
            Fault::Worn { .. } => 75,
        }
    }
}

/// How a call that had some success ended: it did all that was asked, it was cut at the file's end,
/// or it met a fault.
#[derive(Clone, Copy, Debug)]
pub enum Stop {
    Whole,
    End,
    Fault(Fault),
}

/// The reply of a call. `count` is in bytes or blocks, as the call says, and `sent` is the number of
/// blocks that the completed transfers of a direct call met.
#[derive(Clone, Copy, Debug)]
pub enum Reply {
    Ok { count: u64, stop: Stop },
    Err { fault: Fault, sent: u64 },
}

/// A reply with the number of bios that the call sent.
#[derive(Clone, Copy, Debug)]
pub struct Answer {
    pub reply: Reply,
    pub bios: u64,
}
