//! The reply of a call.
ghost use Rattle.std.specs.Prelude.{◌≡◌, decimal, codes, OnOk, if◌then◌else◌};
ghost use Rattle.io_model.specs.Calls.{is_direct, is_read};
ghost use Rattle.io_model.specs.ReplyText.{fault_text, hex_text, reply_text, stop_text, verb_text};
ghost use Rattle.io_model.specs.Text.{◌⋅◌};
ghost use Rattle.io_script.specs.Appending.{Appends};

use crate::hexadecimal::append_hex;
use crate::pieces::append_counted;
use io_model::Verb;
use iob_base::{Alignment, Fault, Reply, Stop};
use std::alloc::AllocError;

/// The word of a verb.
pub fn verb_word(verb: &Verb) -> &'static [u8]
    ensures { result.now ≡ verb_text verb.now }
{
    match verb {
        Verb::Pread { .. } => b"pread".as_slice(),
        Verb::Pwrite { .. } => b"pwrite".as_slice(),
        Verb::Dread { .. } => b"dread".as_slice(),
        Verb::Dwrite { .. } => b"dwrite".as_slice(),
        Verb::Xread { .. } => b"xread".as_slice(),
        Verb::Xwrite { .. } => b"xwrite".as_slice(),
        Verb::Zero { .. } => b"zero".as_slice(),
        Verb::Punch { .. } => b"punch".as_slice(),
        Verb::Alloc { .. } => b"alloc".as_slice(),
        Verb::Wb { .. } => b"wb".as_slice(),
        Verb::Sync => b"sync".as_slice(),
        Verb::Drop => b"drop".as_slice(),
        Verb::Trunc { .. } => b"trunc".as_slice(),
    }
}

/// A segment of a direct call whose length does not fit the block size.
fn append_segment(text: &mut Vec<u8>, index: u32, length: u64) -> Result<(), AllocError>
    ensures { OnOk result (Appends (fault_text (Fault.NotAligned (Alignment.Segment index length))) text.old.items text.new.items) }
{
    append_pair(
        text,
        b"EINVAL segment ",
        u64::from(index),
        b" length ",
        length,
    )
}

/// What of a direct call does not fit the block size.
fn append_alignment(text: &mut Vec<u8>, part: Alignment) -> Result<(), AllocError>
    ensures { OnOk result (Appends (fault_text (Fault.NotAligned part)) text.old.items text.new.items) }
{
    match part {
        Alignment::Offset(n) => append_counted(text, b"EINVAL offset ", n),
        Alignment::Segment { index, length } => append_segment(text, index, length),
    }
}

/// A fault.
fn append_fault(text: &mut Vec<u8>, fault: Fault) -> Result<(), AllocError>
    ensures { OnOk result (Appends (fault_text fault) text.old.items text.new.items) }
{
    match fault {
        Fault::Eio {
            lane,
            before,
            after,
        } => append_eio(text, lane, before, after),
        Fault::SyncEio { seen, count } => append_pair(text, b"EIO seen ", seen, b" count ", count),
        Fault::Again(_) => text.extend_from_slice(b"EAGAIN"),
        Fault::NoMemory => text.extend_from_slice(b"ENOMEM"),
        Fault::NotAligned(part) => append_alignment(text, part),
        Fault::TooFar { offset, end } => append_pair(text, b"EFBIG offset ", offset, b" end ", end),
        Fault::NoSpace { wanted, found } => append_pair(
            text,
            b"ENOSPC wanted ",
            wanted,
            b" found ",
            found,
        ),
        Fault::Worn { cookie } => append_counted(text, b"EOVERFLOW cookie ", cookie),
    }
}

/// Two words, each with its number.
fn append_pair(
    text: &mut Vec<u8>,
    word: &[u8],
    number: u64,
    more: &[u8],
    another: u64,
) -> Result<(), AllocError>
    ensures { OnOk result (Appends (λ rest. word.now ⋅ decimal number ⋅ more.now ⋅ decimal another ⋅ rest) text.old.items text.new.items) }
{
    append_counted(text, word, number)?;
    append_counted(text, more, another)
}

/// A failed transfer, with its lane and the counts of faults there.
fn append_eio(text: &mut Vec<u8>, lane: u32, before: u64, after: u64) -> Result<(), AllocError>
    ensures { OnOk result (Appends (fault_text (Fault.Eio lane before after)) text.old.items text.new.items) }
{
    append_counted(text, b"EIO lane ", u64::from(lane))?;
    append_pair(text, b" rose ", before, b" ", after)
}

/// How a call stopped.
fn append_stop(text: &mut Vec<u8>, stop: Stop) -> Result<(), AllocError>
    ensures { OnOk result (Appends (stop_text stop) text.old.items text.new.items) }
{
    match stop {
        Stop::Whole => Ok(()),
        Stop::End => text.extend_from_slice(b" short END"),
        Stop::Fault(fault) => {
            text.extend_from_slice(b" short ")?;
            append_fault(text, fault)
        }
    }
}

/// Whether a verb reads bytes.
fn reads(verb: &Verb) -> bool
    ensures { result ≡ is_read verb.now }
{
    matches!(
        verb,
        Verb::Pread { .. } | Verb::Dread { .. } | Verb::Xread { .. }
    )
}

/// Whether a verb moves whole pages of its caller.
pub fn moves_pages(verb: &Verb) -> bool
    ensures { result ≡ is_direct verb.now }
{
    matches!(verb, Verb::Dread { .. } | Verb::Dwrite { .. })
}

/// The bytes of a read, and how a call stopped.
fn append_success(text: &mut Vec<u8>, verb: &Verb, got: &[u8], stop: Stop) -> Result<(), AllocError>
    ensures { OnOk result (Appends (λ rest. if is_read verb.now then codes " " ⋅ hex_text got.now ⋅ stop_text stop rest else stop_text stop rest) text.old.items text.new.items) }
{
    if !reads(verb) {
        return append_stop(text, stop);
    }
    text.extend_from_slice(b" ")?;
    append_hex(text, got)?;
    append_stop(text, stop)
}

/// How many blocks a direct call sent.
fn append_sent(text: &mut Vec<u8>, verb: &Verb, sent: u64) -> Result<(), AllocError>
    ensures { OnOk result (Appends (λ rest. if is_direct verb.now then codes " sent " ⋅ decimal sent ⋅ rest else rest) text.old.items text.new.items) }
{
    if !moves_pages(verb) {
        return Ok(());
    }
    append_counted(text, b" sent ", sent)
}

/// A reply, with the bytes that a read gave.
pub fn append_reply(
    text: &mut Vec<u8>,
    verb: &Verb,
    reply: Reply,
    got: &[u8],
) -> Result<(), AllocError>
    ensures { OnOk result (Appends (reply_text verb.now reply got.now) text.old.items text.new.items) }
{
    match reply {
        Reply::Ok { count, stop } => {
            append_counted(text, b"ok ", count)?;
            append_success(text, verb, got, stop)
        }
        Reply::Err { fault, sent } => {
            text.extend_from_slice(b"err ")?;
            append_fault(text, fault)?;
            append_sent(text, verb, sent)
        }
    }
}
