//! What a call answers, as a run prints it behind the name of the call.
use io_model::Verb;
use io_script::{append_counted, append_reply};
use iob_base::{Answer, Items, Reply};
use std::alloc::{AllocError, Global};
use std::process::Abort;
use writeback_ioend::Flushed;

// The reply of a call and its number of bios.
fn answer_text(
    alloc: Global,
    verb: &Verb,
    answer: Answer,
    got: &[u8],
) -> Result<Vec<u8>, AllocError> {
    let mut text = Vec::new(alloc);
    append_reply(&mut text, verb, answer.reply, got)?;
    append_counted(&mut text, b" bios ", answer.bios)?;
    Ok(text)
}

/// The answer of a read, with the bytes that it gave.
pub(crate) fn read_text(alloc: Global, answer: Answer, got: &[u8]) -> Result<Vec<u8>, AllocError> {
    let verb = Verb::Pread {
        off: 0,
        lengths: Items::new(alloc),
    };
    answer_text(alloc, &verb, answer, got)
}

/// The answer of a call that gives no bytes.
pub(crate) fn done_text(alloc: Global, answer: Answer) -> Result<Vec<u8>, AllocError> {
    answer_text(alloc, &Verb::Sync, answer, b"")
}

/// What came of a flush, which gives no count.
pub(crate) fn flushed_text(alloc: Global, flushed: Flushed) -> Result<Vec<u8>, AllocError> {
    let Some(fault) = flushed.fault else {
        let mut text = Vec::new(alloc);
        append_counted(&mut text, b"flushed bios ", flushed.bios)?;
        return Ok(text);
    };
    let answer = Answer {
        reply: Reply::Err { fault, sent: 0 },
        bios: flushed.bios,
    };
    done_text(alloc, answer)
}

/// A text is the wanted one.
pub(crate) fn expect_text(rt: &impl Abort, text: &[u8], want: &str) {
    assert_eq!(rt; str::from_utf8(text).ok(), Some(want));
}
