//! The whole of a source, and a whole text into a sink.
ghost use Rattle.std.specs.Prelude.{◌≡◌, ◌≤◌, true, IfOk, IfErr, OnOk, MatchResult};
ghost use Rattle.iob_base.specs.Counts.{Rose};
ghost use Rattle.iob_base.specs.Outside.{HasCause};
ghost use Rattle.iomap_replay.specs.Streams.{ReadTold, TookWhole, TookPrefix};

use io_script::TEXT_LIMIT;
use iob_base::{Failed, Sink, Source};
use std::alloc::{AllocError, Global};

/// Why a source could not be read to its end.
#[derive(Clone, Copy)]
pub enum ReadError {
    /// The source failed: its count of faults rose.
    Failed,
    /// No memory could be had.
    NoMemory,
}

/// How many bytes are asked of a source at a time.
const PIECE: usize = 16384;

/// All bytes of a source, or as soon as there are more than a script may have, those read by then.
pub fn read_all<S: Source>(alloc: Global, source: &mut S) -> Result<Vec<u8>, ReadError>
    ensures text { IfOk result (λ text. ReadTold (S.left source.old) text.items (S.left source.new)) }
    ensures never_falls { S.faults source.old ≤ S.faults source.new }
    ensures failed { result ≡ Err ReadError.Failed → Rose (S.faults source.old) (S.faults source.new) }
{
    let mut text = Vec::new(alloc);
    let mut piece = [0u8; PIECE];
    while text.len() <= TEXT_LIMIT {
        let Ok(n) = source.read(&mut piece) else {
            return Err(ReadError::Failed);
        };
        if n == 0 {
            return Ok(text);
        }
        if text.extend_from_slice(&piece[..n]).is_err() {
            return Err(ReadError::NoMemory);
        }
    }
    Ok(text)
}

/// Writes a whole text into a sink and finishes it.
pub fn deliver<K: Sink>(sink: &mut K, text: &[u8]) -> Result<(), Failed>
    ensures taken { MatchResult result (λ _. TookWhole (K.taken sink.old) text.now (K.taken sink.new))
        (λ _. TookPrefix (K.taken sink.old) text.now (K.taken sink.new)) }
    ensures finished { OnOk result (K.finished sink.new ≡ true) }
    ensures cause { HasCause (K.faults sink.old) result (K.faults sink.new) }
{
    let mut at = 0;
    while at < text.len() {
        at += sink.write(&text[at..])?;
    }
    sink.finish()
}
