//! How a call ended, and its exit status.
ghost use Rattle.std.specs.Prelude.{◌≡◌};

use iob_base::Status;

/// How a replay or a check ended.
#[derive(Clone, Copy)]
pub enum Ending {
    /// Every printed reply is ok, or the script was found to be one.
    Whole,
    /// A printed reply is an error.
    Errors,
    /// The text is refused: one line was written.
    Refused,
    /// The source failed: nothing was written.
    SourceFailed,
    /// The sink failed: the beginning of the text was written.
    SinkFailed,
    /// There was no memory outside the calls' replies: nothing was written.
    NoMemory,
    /// The words are refused: nothing was read and nothing written.
    BadWords,
}

impl Ending {
    ghost use Rattle.iomap_replay.specs.Endings.{is_told, is_told_by, number_of};

    /// The exit status of a program for it.
    pub fn status(self) -> Status
        ensures number { result.0 ≡ number_of self }
        ensures told { is_told_by result.0 ≡ is_told self }
    {
        Status(match self {
            Ending::Whole => 0,
            Ending::Errors => 1,
            Ending::Refused => 2,
            Ending::SourceFailed => 3,
            Ending::SinkFailed => 4,
            Ending::NoMemory => 5,
            Ending::BadWords => 64,
        })
    }
}

/// What is to be written of a text, and how a call ends that wrote it whole.
#[derive(Drop)]
pub struct Output {
    pub written: Vec<u8>,
    pub ending: Ending,
}
