//! Why a text is no script.
ghost use Rattle.std.specs.Prelude.{◌≡◌};
ghost use Rattle.io_script.specs.Causes.{number_of_cause};

use thiserror::Error;

/// What is wrong with a line. Where a line has several causes, the first of them here is told.
#[derive(Clone, Copy, Debug)]
pub enum Cause {
    /// The first kept line is not `iomap 1`.
    NoHeader,
    /// A kept line has a byte that is neither a space nor a printed ASCII character.
    BadByte,
    /// The line has bytes and no line end.
    NoEnd,
    /// The first word begins no line, or a word is none of those that may stand in its place.
    BadWord,
    /// A line of this kind may not stand here.
    BadOrder,
    /// The line has too few or too many words.
    BadCount,
    /// A number is not of its form or out of its range.
    BadNumber,
    /// Bytes are not of their form, are not as many as they must be, or have too many segments.
    BadBytes,
    /// A name is not of its form, is given again, or is that of no file.
    BadName,
    /// Blocks do not lie in the file or on the device.
    BadBlock,
    /// Blocks are those of an earlier line.
    Overlap,
    /// The call is not allowed on a file of this mode.
    BadMode,
    /// With this line a limit is passed.
    TooMuch,
}

impl Cause {
    /// The number of the cause, from 1.
    pub fn number(&self) -> u32
        ensures { result ≡ number_of_cause self.now }
    {
        match self {
            Cause::NoHeader => 1,
            Cause::BadByte => 2,
            Cause::NoEnd => 3,
            Cause::BadWord => 4,
            Cause::BadOrder => 5,
            Cause::BadCount => 6,
            Cause::BadNumber => 7,
            Cause::BadBytes => 8,
            Cause::BadName => 9,
            Cause::BadBlock => 10,
            Cause::Overlap => 11,
            Cause::BadMode => 12,
            Cause::TooMuch => 13,
        }
    }
}

/// Why a script could not be read.
#[derive(Debug, Drop, Error)]
pub enum ScriptFault {
    /// The bytes are no script: the first line that has a cause, and the lowest cause there. Lines are
    /// counted from 1, and an input that is too long has line 0.
    #[error("line {line} is refused for cause {cause:?}")]
    Refused { line: u64, cause: Cause },
    /// No memory could be had.
    #[error("no memory could be had")]
    NoMemory,
}
