//! What is written, and how a call ends that writes it.
ghost use Rattle.std.specs.Prelude.{◌≡◌, true};
ghost use Rattle.iomap_replay.specs.Endings.{IsWritten, IsAnswer, is_told};

use crate::ending::{Ending, Output};
use crate::streams::deliver;
use iob_base::Sink;
use std::alloc::AllocError;

/// Writes what is to be written.
fn write_output<K: Sink>(sink: &mut K, output: Output) -> Ending
    ensures written { IsWritten output result (K.faults sink.old) (K.faults sink.new) (K.taken sink.old) (K.taken sink.new) }
    ensures finished { is_told result ≡ true → K.finished sink.new ≡ true }
{
    match deliver(sink, &output.written) {
        Ok(()) => output.ending,
        Err(_) => Ending::SinkFailed,
    }
}

/// Writes what is to be written, unless there was no memory for it.
pub fn answer<K: Sink>(sink: &mut K, output: Result<Output, AllocError>) -> Ending
    ensures written { IsAnswer output result (K.faults sink.old) (K.faults sink.new) (K.taken sink.old) (K.taken sink.new) }
    ensures finished { is_told result ≡ true → K.finished sink.new ≡ true }
{
    match output {
        Err(_) => Ending::NoMemory,
        Ok(output) => write_output(sink, output),
    }
}
