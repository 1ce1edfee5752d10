//! Bytes and lengths as words: segments joined by `+`.
ghost use Rattle.std.specs.Prelude.{◌≡◌, ◌≤◌, true, length, map, IfOk, IsTrue};
ghost use Rattle.std.specs.List.{list_all};
ghost use Rattle.io_script.specs.GrammarNumbers.{is_number, value_of, is_hex, hex_value, hex_bytes, is_hex_word, is_plain, fill_in, is_repeated, byte_of, is_segment, segment_length, segment_bytes, parts};

use crate::read::numbers::{number, value};
use crate::read::words::cut;
use iob_base::Items;
use std::alloc::{AllocError, Global};

/// A hexadecimal digit, in either case.
fn is_hex_digit(b: u8) -> bool
    ensures { result ≡ is_hex b }
{
    matches!(b, b'0'..=b'9' | b'a'..=b'f' | b'A'..=b'F')
}

/// The value of each byte as a hexadecimal digit, in either case, and 0 where it is none.
static DIGITS: [u8; 256] = [
    0, 0, 0, 0, 0, 0, 0, 0, 0, 0, 0, 0, 0, 0, 0, 0, 0, 0, 0, 0, 0, 0, 0, 0, 0, 0, 0, 0, 0, 0, 0, 0,
    0, 0, 0, 0, 0, 0, 0, 0, 0, 0, 0, 0, 0, 0, 0, 0, 0, 1, 2, 3, 4, 5, 6, 7, 8, 9, 0, 0, 0, 0, 0, 0,
    0, 10, 11, 12, 13, 14, 15, 0, 0, 0, 0, 0, 0, 0, 0, 0, 0, 0, 0, 0, 0, 0, 0, 0, 0, 0, 0, 0, 0, 0,
    0, 0, 0, 10, 11, 12, 13, 14, 15, 0, 0, 0, 0, 0, 0, 0, 0, 0, 0, 0, 0, 0, 0, 0, 0, 0, 0, 0, 0, 0,
    0, 0, 0, 0, 0, 0, 0, 0, 0, 0, 0, 0, 0, 0, 0, 0, 0, 0, 0, 0, 0, 0, 0, 0, 0, 0, 0, 0, 0, 0, 0, 0,
    0, 0, 0, 0, 0, 0, 0, 0, 0, 0, 0, 0, 0, 0, 0, 0, 0, 0, 0, 0, 0, 0, 0, 0, 0, 0, 0, 0, 0, 0, 0, 0,
    0, 0, 0, 0, 0, 0, 0, 0, 0, 0, 0, 0, 0, 0, 0, 0, 0, 0, 0, 0, 0, 0, 0, 0, 0, 0, 0, 0, 0, 0, 0, 0,
    0, 0, 0, 0, 0, 0, 0, 0, 0, 0, 0, 0, 0, 0, 0, 0, 0, 0, 0, 0, 0, 0, 0, 0, 0, 0, 0, 0, 0, 0, 0, 0,
    0, 0, 0, 0,
];

/// The value of a hexadecimal digit, and 0 for any other byte.
fn digit_value(b: u8) -> u8
    ensures value { result ≡ hex_value b }
    ensures small { result ≤ 15 }
{
    DIGITS[b as usize]
}

/// The byte that two hexadecimal digits say.
fn byte_value(high: u8, low: u8) -> u8
    ensures { result ≡ byte_of high low }
{
    digit_value(high) * 16 + digit_value(low)
}

/// Whether all bytes of a word are hexadecimal digits.
fn has_hex_alone(word: &[u8]) -> bool
    ensures { result ≡ list_all is_hex word.now }
{
    // A look that never stops early goes over many bytes at a time.
    let mut all = true;
    for b in word {
        all &= is_hex_digit(*b);
    }
    all
}

/// Whether a word is an even number of hexadecimal digits, at least two.
fn is_hex_pairs(word: &[u8]) -> bool
    ensures { result ≡ is_hex_word word.now }
{
    if word.is_empty() || word.len() % 2 != 0 {
        return false;
    }
    has_hex_alone(word)
}

/// The byte of two hexadecimal digits, where a word is these.
pub fn fill_byte(word: &[u8]) -> Option<u8>
    ensures { result ≡ fill_in word.now }
{
    let [high, low] = word else {
        return None;
    };
    if !is_hex_digit(*high) || !is_hex_digit(*low) {
        return None;
    }
    Some(byte_value(*high, *low))
}

/// Whether a word is bytes as digits, or a dash.
fn is_plain_segment(word: &[u8]) -> bool
    ensures { result ≡ is_plain word.now }
{
    word == b"-".as_slice() || is_hex_pairs(word)
}

/// Whether a word is one byte and how often.
fn is_repetition(high: u8, low: u8, times: &[u8]) -> bool
    ensures { result ≡ is_repeated high low times.now }
{
    if !is_hex_digit(high) || !is_hex_digit(low) {
        return false;
    }
    number(times).is_some()
}

/// Whether a word is a segment of bytes.
pub fn is_a_segment(word: &[u8]) -> bool
    ensures { result ≡ is_segment word.now }
{
    match word {
        [high, low, b'x', times @ ..] => is_repetition(*high, *low, times),
        _ => is_plain_segment(word),
    }
}

/// How many bytes a segment has.
pub fn segment_size(word: &[u8]) -> u64
    ensures { result ≡ segment_length word.now }
{
    match word {
        [_, _, b'x', times @ ..] => value(times),
        _ => (word.len() / 2) as u64,
    }
}

/// The bytes of hexadecimal digits. Want of memory is the only error.
fn decode(alloc: Global, word: &[u8]) -> Result<Items<u8>, AllocError>
    ensures { IfOk result (λ bytes. bytes ≡ hex_bytes word.now) }
{
    let mut bytes = vec![in alloc; 0u8; word.len() / 2]?;
    'pairs: for i in 0..bytes.len() {
        bytes[i] = byte_value(word[2 * i], word[2 * i + 1]);
    }
    Ok(Items::from_vec(bytes))
}

/// The bytes of a segment. Want of memory is the only error.
pub fn segment(alloc: Global, word: &[u8]) -> Result<Items<u8>, AllocError>
    ensures { IfOk result (λ bytes. bytes ≡ segment_bytes word.now) }
{
    match word {
        [high, low, b'x', times @ ..] => {
            let bytes = vec![in alloc; byte_value(*high, *low); value(times) as usize]?;
            Ok(Items::from_vec(bytes))
        }
        _ => decode(alloc, word),
    }
}

/// Whether each part of a word is a number.
pub fn has_numbers_alone(word: &[u8]) -> bool
    ensures { result ≡ list_all is_number (parts word.now) }
{
    let mut left = word;
    while let Some((part, after)) = cut(left, b'+') {
        if number(part).is_none() {
            return false;
        }
        left = after;
    }
    number(left).is_some()
}

/// Whether each part of a word is a segment of bytes.
pub fn has_segments_alone(word: &[u8]) -> bool
    ensures { result ≡ list_all is_segment (parts word.now) }
{
    let mut left = word;
    while let Some((part, after)) = cut(left, b'+') {
        if !is_a_segment(part) {
            return false;
        }
        left = after;
    }
    is_a_segment(left)
}

/// How many parts a word has.
pub fn count_parts(word: &[u8]) -> usize
    ensures { result ≡ length (parts word.now) }
{
    let mut left = word;
    let mut count: usize = 1;
    while let Some((_, after)) = cut(left, b'+') {
        count += 1;
        left = after;
    }
    count
}

/// The numbers of the parts of a word. Want of memory is the only error.
pub fn lengths(alloc: Global, word: &[u8]) -> Result<Vec<u64>, AllocError>
    ensures { IfOk result (λ v. v.items ≡ map value_of (parts word.now)) }
{
    let mut all = Vec::new(alloc);
    let mut left = word;
    while let Some((part, after)) = cut(left, b'+') {
        all.push(value(part))?;
        left = after;
    }
    all.push(value(left))?;
    Ok(all)
}

/// The lengths of the segments of a word. Want of memory is the only error.
pub fn segment_sizes(alloc: Global, word: &[u8]) -> Result<Vec<u64>, AllocError>
    ensures { IfOk result (λ v. v.items ≡ map segment_length (parts word.now)) }
{
    let mut all = Vec::new(alloc);
    let mut left = word;
    while let Some((part, after)) = cut(left, b'+') {
        all.push(segment_size(part))?;
        left = after;
    }
    all.push(segment_size(left))?;
    Ok(all)
}

/// The bytes of the segments of a word. Want of memory is the only error.
pub fn segments(alloc: Global, word: &[u8]) -> Result<Vec<Items<u8>>, AllocError>
    ensures { IfOk result (λ v. v.items ≡ map segment_bytes (parts word.now)) }
{
    let mut all = Vec::new(alloc);
    let mut left = word;
    while let Some((part, after)) = cut(left, b'+') {
        all.push(segment(alloc, part)?)?;
        left = after;
    }
    all.push(segment(alloc, left)?)?;
    Ok(all)
}
