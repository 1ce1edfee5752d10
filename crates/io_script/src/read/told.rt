//! What is written of a script that was only read.
ghost use Rattle.std.specs.Prelude.{◌≡◌, ◌++◌, [], IfOk, OnOk};
ghost use Rattle.io_script.specs.CheckText.{name_of_cause, refusal_text, check_text};

use crate::pieces::{append_counted, append_word};
use crate::read::cause::Cause;
use std::alloc::{AllocError, Global};

impl Cause {
    ghost use Rattle.io_script.specs.CheckText.{name_of_cause};

    /// The name of the cause, as it is written.
    pub fn name(&self) -> &'static [u8]
        ensures { result.now ≡ name_of_cause self.now }
    {
        match self {
            Cause::NoHeader => b"NoHeader",
            Cause::BadByte => b"BadByte",
            Cause::NoEnd => b"NoEnd",
            Cause::BadWord => b"BadWord",
            Cause::BadOrder => b"BadOrder",
            Cause::BadCount => b"BadCount",
            Cause::BadNumber => b"BadNumber",
            Cause::BadBytes => b"BadBytes",
            Cause::BadName => b"BadName",
            Cause::BadBlock => b"BadBlock",
            Cause::Overlap => b"Overlap",
            Cause::BadMode => b"BadMode",
            Cause::TooMuch => b"TooMuch",
        }
    }
}

/// The line for a text that is no script. Want of memory is the only error.
pub fn print_refusal(alloc: Global, line: u64, cause: Cause) -> Result<Vec<u8>, AllocError>
    ensures { IfOk result (λ text. text.items ≡ refusal_text line cause) }
{
    let mut text = Vec::new(alloc);
    append_counted(&mut text, b"refused line ", line)?;
    append_counted(&mut text, b" cause ", u64::from(cause.number()))?;
    append_word(&mut text, b" ")?;
    append_word(&mut text, cause.name())?;
    text.extend_from_slice(b"\n")?;
    Ok(text)
}

/// The lines for a script of so many files, phases and calls. Want of memory is the only error.
pub fn print_check(
    alloc: Global,
    files: u64,
    phases: u64,
    calls: u64,
) -> Result<Vec<u8>, AllocError>
    ensures { IfOk result (λ text. text.items ≡ check_text files phases calls) }
{
    let mut text = Vec::new(alloc);
    append_counted(&mut text, b"ok files ", files)?;
    append_counted(&mut text, b" phases ", phases)?;
    append_counted(&mut text, b" calls ", calls)?;
    text.extend_from_slice(b"\nend\n")?;
    Ok(text)
}
