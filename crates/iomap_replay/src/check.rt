//! The call that says whether a text is a script.
ghost use Rattle.std.specs.Prelude.{◌≡◌, true, IfOk};
ghost use Rattle.iomap_replay.specs.Endings.{Ends, HasEnded, is_told, is_told_by};
ghost use Rattle.iomap_replay.specs.Refusals.{IsNoScript, IsCounted};
ghost use Rattle.iomap_replay.specs.Statuses.{Checks};
ghost use Rattle.io_script.specs.Checking.{IsChecked};
ghost use Rattle.io_script.specs.Grammar.{IsFaultOf};

use crate::ending::{Ending, Output};
use crate::output::answer;
use crate::streams::{ReadError, read_all};
use io_script::{Checked, ScriptFault, print_check, print_refusal, read_checked};
use iob_base::{Sink, Source, Status};
use std::alloc::{AllocError, Global};

/// What is to be written of a text that is no script. Want of memory is the only error.
pub fn refusal(alloc: Global, text: &[u8], fault: ScriptFault) -> Result<Output, AllocError>
    requires { IsFaultOf text.now fault }
    ensures refused { IfOk result (λ output. output.ending ≡ Ending.Refused) }
    ensures says { IfOk result (λ output. IsNoScript text.now output.written.items) }
{
    let _ = text;
    match fault {
        ScriptFault::Refused { line, cause } => Ok(Output {
            written: print_refusal(alloc, line, cause)?,
            ending: Ending::Refused,
        }),
        ScriptFault::NoMemory => Err(AllocError),
    }
}

/// What is to be written of a script. Want of memory is the only error.
fn counted(alloc: Global, text: &[u8], checked: &Checked) -> Result<Vec<u8>, AllocError>
    requires { IsChecked text.now checked.now }
    ensures { IfOk result (λ written. IsCounted text.now written.items) }
{
    let _ = text;
    print_check(
        alloc,
        checked.script.files.len() as u64,
        u64::from(checked.phases),
        checked.script.calls.len() as u64,
    )
}

/// What is to be written of a text. Want of memory is the only error.
fn check_output(alloc: Global, text: &[u8]) -> Result<Output, AllocError>
    ensures { IfOk result (λ output. Checks text.now output.ending output.written.items) }
{
    match read_checked(alloc, text) {
        Ok(checked) => Ok(Output {
            written: counted(alloc, text, &checked)?,
            ending: Ending::Whole,
        }),
        Err(fault) => refusal(alloc, text, fault),
    }
}

/// Reads a source and checks it.
fn check_source<S: Source, K: Sink>(alloc: Global, source: &mut S, sink: &mut K) -> Ending
    ensures ends { Ends Checks result (S.faults source.old) (S.faults source.new)
        (K.faults sink.old) (K.faults sink.new) (S.left source.old) (S.left source.new) (K.taken sink.old) (K.taken sink.new) }
    ensures finished { is_told result ≡ true → K.finished sink.new ≡ true }
{
    match read_all(alloc, source) {
        Err(ReadError::Failed) => Ending::SourceFailed,
        Err(ReadError::NoMemory) => Ending::NoMemory,
        Ok(text) => answer(sink, check_output(alloc, &text)),
    }
}

/// Says whether the text that `source` gives is a script, and runs nothing. It waits for nobody, and it
/// returns: a text of more bytes than a script may have is decided once one byte more was read.
///
/// | Status | When |
/// |---|---|
/// | 0 | the text is a script: `ok files <n> phases <n> calls <n>` and `end` were written whole and finished |
/// | 2 | it is none: the line that says where and why was written whole and finished |
/// | 3 | the source failed; nothing was written |
/// | 4 | the sink failed; the beginning of the text was written |
/// | 5 | there was no memory; nothing was written |
pub fn check_script<S: Source, K: Sink>(alloc: Global, source: &mut S, sink: &mut K) -> Status
    ensures ended { HasEnded Checks result.0 (S.faults source.old) (S.faults source.new)
        (K.faults sink.old) (K.faults sink.new) (S.left source.old) (S.left source.new) (K.taken sink.old) (K.taken sink.new) }
    ensures finished { is_told_by result.0 ≡ true → K.finished sink.new ≡ true }
{
    check_source(alloc, source, sink).status()
}
