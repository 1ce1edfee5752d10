//! The top call.
ghost use Rattle.std.specs.Prelude.{◌≡◌, ◌↔◌, true, false, Some, None, length, map, string_bytes, IfOk};
ghost use Rattle.iob_base.specs.Outside.{KeepsTold};
ghost use Rattle.fault_device.specs.Opening.{opening_of};
ghost use Rattle.io_script.specs.Grammar.{IsScript};
ghost use Rattle.iomap_replay.specs.Endings.{Ends, HasEnded, is_told, is_told_by};
ghost use Rattle.iomap_replay.specs.Statuses.{Replays, Checks};
ghost use Rattle.iomap_replay.specs.Tasks.{task_of as task_said};
ghost use Rattle.iomap_replay.specs.declared.task.Task.TheVariants.{Run as RunIt, Check as CheckIt};

use crate::check::{check_script, refusal};
use crate::ending::{Ending, Output};
use crate::job::job_of;
use crate::lanes::play;
use crate::output::answer;
use crate::run::has_error_reply;
use crate::streams::{ReadError, read_all};
use crate::task::{Task, task_of};
use fault_device::Fate;
use io_model::Script;
use io_script::{print_run, read_script};
use iob_base::{Sink, Source, Status};
use std::alloc::{AllocError, Global};
use std::sync::Wait;
use std::thread::Threads;

/// The line for a script of a form that is not built.
const NOT_YET_LINE: &[u8] = b"refused line 0 cause 14 NotYet\n";

/// What is to be written of a script, `text`. Want of memory outside the calls' replies is the only error.
fn run_output(
    alloc: Global,
    text: &[u8],
    script: &Script,
    fates: Vec<Box<dyn Fate + Send>>,
) -> Result<Output, AllocError>
    requires script { IsScript text.now script.now }
    requires seventeen { length fates.items ≡ 17 }
    ensures { IfOk result (λ output. Replays (map (λ f. opening_of (count f) (tells f)) fates.items) false text.now output.ending output.written.items) }
{
    let _ = text;
    let Some(job) = job_of(script) else {
        return Ok(Output {
            written: Vec::from_slice(alloc, NOT_YET_LINE)?,
            ending: Ending::Refused,
        });
    };
    let run = play(alloc, script, &job, fates)?;
    let failed = has_error_reply(&run);
    let written = print_run(alloc, script, &run, false)?;
    let ending = if failed {
        Ending::Errors
    } else {
        Ending::Whole
    };
    Ok(Output { written, ending })
}

/// What is to be written of a text. Want of memory outside the calls' replies is the only error.
fn output_of(
    alloc: Global,
    text: &[u8],
    fates: Vec<Box<dyn Fate + Send>>,
) -> Result<Output, AllocError>
    requires { length fates.items ≡ 17 }
    ensures { IfOk result (λ output. Replays (map (λ f. opening_of (count f) (tells f)) fates.items) false text.now output.ending output.written.items) }
{
    match read_script(alloc, text) {
        Ok(script) => run_output(alloc, text, &script, fates),
        Err(fault) => refusal(alloc, text, fault),
    }
}

/// Reads a source and replays it.
fn replay_source<S: Source, K: Sink>(
    alloc: Global,
    source: &mut S,
    sink: &mut K,
    fates: Vec<Box<dyn Fate + Send>>,
) -> Ending
    requires { length fates.items ≡ 17 }
    ensures ends { Ends (Replays (map (λ f. opening_of (count f) (tells f)) fates.items) false) result (S.faults source.old) (S.faults source.new)
        (K.faults sink.old) (K.faults sink.new) (S.left source.old) (S.left source.new) (K.taken sink.old) (K.taken sink.new) }
    ensures finished { is_told result ≡ true → K.finished sink.new ≡ true }
{
    match read_all(alloc, source) {
        Err(ReadError::Failed) => Ending::SourceFailed,
        Err(ReadError::NoMemory) => Ending::NoMemory,
        Ok(text) => answer(sink, output_of(alloc, &text, fates)),
    }
}

/// Replays the script that `source` gives, and writes the text of its run into `sink`. With the word
/// `--check` it says only whether the text is a script, as `check_script` does.
///
/// `fates` are seventeen: that of lane i decides which transfers of caller i fail, and the last serves
/// the closing sync. `words` are those of the command, without the program's name.
///
/// Run so far are scripts with any number of `data` lines, one cached file with one mapped extent, and
/// one `pread` of caller 0 whose range lies in that extent and in one folio and meets at most 16 blocks.
/// Every other script is refused by the line `refused line 0 cause 14 NotYet`.
///
/// | Status | When |
/// |---|---|
/// | 0 | the text was written whole and finished, and every printed reply is `ok` |
/// | 1 | the text was written whole and finished, and a printed reply is `err` |
/// | 2 | the text is refused; one line was written and finished |
/// | 3 | the source failed; nothing was written |
/// | 4 | the sink failed; the beginning of the text was written |
/// | 5 | there was no memory outside the calls' replies; nothing was written |
/// | 64 | the words are neither none nor `--check` alone; nothing was read and nothing written |
pub fn replay<R: Threads + Wait + Sync, S: Source, K: Sink>(
    rt: &R,
    alloc: Global,
    words: &[String],
    source: &mut S,
    sink: &mut K,
    fates: Vec<Box<dyn Fate + Send>>,
) -> Status
    requires seventeen { length fates.items ≡ 17 }

    // The words.
    ensures words { (result.0 ≡ 64) ↔ (task_said (map string_bytes words.now) ≡ None) }
    ensures bad_words { result.0 ≡ 64 → KeepsTold (K.taken sink.old) (K.taken sink.new) }

    // What is told whole is finished: no other end of a call has one of these statuses.
    ensures finished { is_told_by result.0 ≡ true → K.finished sink.new ≡ true }

    // Where the script is to be run: the text of a right run of it, without the image, or what hinders it,
    // with its cause.
    ensures run { task_said (map string_bytes words.now) ≡ Some RunIt
        → HasEnded (Replays (map (λ f. opening_of (count f) (tells f)) fates.items) false) result.0 (S.faults source.old) (S.faults source.new)
        (K.faults sink.old) (K.faults sink.new) (S.left source.old) (S.left source.new) (K.taken sink.old) (K.taken sink.new) }

    // Where it is to be checked.
    ensures check { task_said (map string_bytes words.now) ≡ Some CheckIt
        → HasEnded Checks result.0 (S.faults source.old) (S.faults source.new)
        (K.faults sink.old) (K.faults sink.new) (S.left source.old) (S.left source.new) (K.taken sink.old) (K.taken sink.new) }
{
    let _ = rt;
    match task_of(words) {
        None => Ending::BadWords.status(),
        Some(Task::Check) => check_script(alloc, source, sink),
        Some(Task::Run) => replay_source(alloc, source, sink, fates).status(),
    }
}
