//! The summary of a run of a generated script.
ghost use Rattle.std.specs.Prelude.{◌≡◌, ◌%◌, ◌++◌, decimal, codes, length, IfOk, OnOk};
ghost use Rattle.std.specs.List.{sum};
ghost use Rattle.io_model.specs.RunText.{is_error};
ghost use Rattle.io_model.specs.Text.{◌⋅◌};
ghost use Rattle.io_script.specs.Appending.{Appends};
ghost use Rattle.io_script.specs.Summary.{bytes_in, errors_in, stamps_in, stamps_on, sum_in, summary_text};

use crate::pieces::{append_counted, append_total, append_word};
use io_model::{BlockEnd, CallEnd, FileEnd, Run};
use iob_base::Reply;
use std::alloc::{AllocError, Global};

/// Whether a reply is an error.
fn is_err(reply: Reply) -> bool
    ensures { result ≡ is_error reply }
{
    matches!(reply, Reply::Err { .. })
}

/// How many calls were answered by an error.
fn errors_of(calls: &[CallEnd]) -> u64
    ensures { result ≡ errors_in calls.now }
{
    let mut errors: u64 = 0;
    for i in 0..calls.len() {
        errors += u64::from(is_err(calls[i].answer.reply));
    }
    errors
}

/// How many bytes the calls gave, all together.
fn bytes_of(calls: &[CallEnd]) -> u128
    ensures { result ≡ bytes_in calls.now }
{
    let mut bytes: u128 = 0;
    for i in 0..calls.len() {
        bytes += calls[i].got.len() as u128;
    }
    bytes
}

/// The sum of bytes, modulo 2^64.
fn sum_of_bytes(bytes: &[u8]) -> u64
    ensures { result ≡ sum bytes.now % 18446744073709551616 }
{
    let mut all: u64 = 0;
    for byte in bytes {
        all = all.wrapping_add(u64::from(*byte));
    }
    all
}

/// The sum of the bytes that the calls gave, modulo 2^64.
fn sum_of(calls: &[CallEnd]) -> u64
    ensures { result ≡ sum_in calls.now % 18446744073709551616 }
{
    let mut all: u64 = 0;
    for i in 0..calls.len() {
        all = all.wrapping_add(sum_of_bytes(calls[i].got.as_slice()));
    }
    all
}

/// How many stamps blocks have.
fn stamps_of(blocks: &[BlockEnd]) -> u128
    ensures { result ≡ stamps_on blocks.now }
{
    let mut stamps: u128 = 0;
    for b in 0..blocks.len() {
        stamps += blocks[b].journal.len() as u128;
    }
    stamps
}

/// How many stamps the one file of a generated script has.
fn stamps_of_file(files: &[FileEnd]) -> u128
    requires { length files.now ≡ 1 }
    ensures { result ≡ stamps_in files.now }
{
    stamps_of(files[0].blocks.as_slice())
}

/// How many calls there were, and how many were answered by an error.
fn append_answers(text: &mut Vec<u8>, calls: &[CallEnd]) -> Result<(), AllocError>
    ensures { OnOk result
        (Appends (λ rest. codes "\ncalls " ⋅ decimal (length calls.now) ⋅ codes " errors " ⋅ decimal (errors_in calls.now) ⋅ rest) text.old.items text.new.items) }
{
    append_counted(text, b"\ncalls ", calls.len() as u64)?;
    append_counted(text, b" errors ", errors_of(calls))
}

/// How many bytes were read, and their sum.
fn append_bytes_read(text: &mut Vec<u8>, calls: &[CallEnd]) -> Result<(), AllocError>
    ensures { OnOk result
        (Appends (λ rest. codes "\nread " ⋅ decimal (bytes_in calls.now) ⋅ codes " sum " ⋅ decimal (sum_in calls.now % 18446744073709551616) ⋅ rest) text.old.items text.new.items) }
{
    append_word(text, b"\nread ")?;
    append_total(text, bytes_of(calls))?;
    append_counted(text, b" sum ", sum_of(calls))
}

/// How many stamps the journals have, and how many blocks of the device no file has.
fn append_ends(text: &mut Vec<u8>, files: &[FileEnd], free: usize) -> Result<(), AllocError>
    requires { length files.now ≡ 1 }
    ensures { OnOk result
        (Appends (λ rest. codes "\nstamps " ⋅ decimal (stamps_in files.now) ⋅ codes "\nfree " ⋅ decimal free ⋅ rest) text.old.items text.new.items) }
{
    append_word(text, b"\nstamps ")?;
    append_total(text, stamps_of_file(files))?;
    append_counted(text, b"\nfree ", free as u64)
}

/// The lines of the summary.
fn append_summary(text: &mut Vec<u8>, seed: u64, run: &Run) -> Result<(), AllocError>
    requires { length run.now.ends.files ≡ 1 }
    ensures { OnOk result (text.new.items ≡ text.old.items ++ summary_text seed run.now) }
{
    append_counted(text, b"gen ", seed)?;
    append_answers(text, run.calls.as_slice())?;
    append_bytes_read(text, run.calls.as_slice())?;
    append_ends(text, run.ends.files.as_slice(), run.ends.free.len())?;
    text.extend_from_slice(b"\nend\n")
}

/// The summary of a run of the script that `seed` gives, which has one file: how many calls there were and how many were
/// answered by an error, the bytes read and their sum modulo 2^64, the stamps of all journals, and the
/// free blocks of the device.
///
/// # Errors
///
/// Want of memory, and nothing else.
pub fn print_summary(alloc: Global, seed: u64, run: &Run) -> Result<Vec<u8>, AllocError>
    requires { length run.now.ends.files ≡ 1 }
    ensures { IfOk result (λ text. text.items ≡ summary_text seed run.now) }
{
    let mut text = Vec::new(alloc);
    append_summary(&mut text, seed, run)?;
    Ok(text)
}
