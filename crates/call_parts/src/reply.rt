//! What a call replies that came so far.
ghost use Rattle.std.specs.Prelude.{◌≡◌};
ghost use Rattle.call_parts.specs.Replies.{end_stop, read_reply, short_reply};

use iob_base::{Fault, Reply, Stop};

// How a call ends that did the bytes that the file has of those asked.
fn end_stop(asked: u64, met: u64) -> Stop
    ensures { result ≡ end_stop asked met }
{
    if met == asked { Stop::Whole } else { Stop::End }
}

// What a call replies that did so many of the bytes that the file has of those asked, and then met a fault.
fn short_reply(count: u64, fault: Fault) -> Reply
    ensures { result ≡ short_reply count fault }
{
    if count == 0 {
        Reply::Err { fault, sent: 0 }
    } else {
        Reply::Ok {
            count,
            stop: Stop::Fault(fault),
        }
    }
}

/// What a call replies that did `count` bytes of `met` that the file has of those `asked`: `Ok` where it met no fault, with
/// the stop `Whole` or, where the range was cut, `End`. After a fault the fault is how the `Ok` stops, and where nothing
/// was done before it the reply is `Err`.
pub fn read_reply(asked: u64, met: u64, count: u64, fault: Option<Fault>) -> Reply
    ensures { result ≡ read_reply asked met count fault }
{
    match fault {
        Some(fault) => short_reply(count, fault),
        None => Reply::Ok {
            count,
            stop: end_stop(asked, met),
        },
    }
}
